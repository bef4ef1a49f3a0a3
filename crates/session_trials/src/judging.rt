// Two assessors judge one document.
ghost use Rattle.std.specs.Prelude.{◌<◌, length};
ghost use Rattle.judge_session.specs.InForce.{IsSessionOf};

use crate::one_document::one_document;
use desk_model::Desk;
use judge_session::{JudgeFault, Session};
use std::alloc::Global;
use std::test::Fail;

fn judge_and_undo(alloc: Global, desk: &Desk, session: &mut Session) -> Result<bool, Fail>
    requires { IsSessionOf desk.now session.old }
{
    let first = session.judge(alloc, desk, b"ann", b"401", b"d3", 1)?;
    let second = session.judge(alloc, desk, b"bob", b"401", b"d3", 0)?;
    let grades = session.current(alloc, desk, second.topic)?;
    let undone = session.undo(desk, b"bob")?;
    let told = first.grade == Some(1) && undone.grade == Some(1);
    Ok(told && grades.as_slice() == [Some(0)].as_slice())
}

#[test]
fn two_callers_judge_and_undo(rt: HostRuntime) -> Result<(), Fail> {
    let alloc = rt.alloc();
    let desk = one_document(alloc)?;
    let mut session = Session::new(alloc);
    assert!(rt; judge_and_undo(alloc, &desk, &mut session)?);
    Ok(())
}

// Whether the session has the one judgement of ann alone.
fn is_as_it_was(alloc: Global, desk: &Desk, session: &mut Session, topic: u32) -> Result<bool, Fail>
    requires desk { IsSessionOf desk.now session.old }
    requires topic { topic < length desk.now.topics }
{
    let grades = session.current(alloc, desk, topic)?;
    let only_ann = session.undo(desk, b"bob").is_err() && session.undo(desk, b"ann")?.grade == None;
    Ok(only_ann && grades.as_slice() == [Some(1)].as_slice())
}

fn judge_twice(alloc: Global, desk: &Desk, session: &mut Session) -> Result<bool, Fail>
    requires { IsSessionOf desk.now session.old }
{
    let first = session.judge(alloc, desk, b"ann", b"401", b"d3", 1)?;
    match session.judge(alloc, desk, b"bob", b"401", b"d3", 0) {
        Ok(_) => Ok(true),
        Err(fault) => Ok(
            fault == JudgeFault::Memory && is_as_it_was(alloc, desk, session, first.topic)?,
        ),
    }
}

// A judgement that finds no memory leaves the session as it was. A script refuses each request for memory in turn.
#[test]
fn a_refused_judgement_changes_nothing(rt: HostRuntime) -> Result<(), Fail> {
    let alloc = rt.alloc();
    let desk = one_document(alloc)?;
    let mut session = Session::new(alloc);
    assert!(rt; judge_twice(alloc, &desk, &mut session)?);
    Ok(())
}
