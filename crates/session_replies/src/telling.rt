// Refusals, and lines that tell of the judgements in force.
ghost use Rattle.std.specs.Prelude.{◌≡◌, ◌++◌, List, IfOk, OnOk, map};
ghost use Rattle.desk_model.specs.Book.{Book};
ghost use Rattle.desk_model.specs.Desk.{AreMarksOf};
ghost use Rattle.desk_model.specs.Name.{number_of};
ghost use Rattle.desk_report.specs.Judging.{qrels_text};
ghost use Rattle.judge_session.specs.InForce.{IsSessionOf};
ghost use Rattle.judge_session.specs.declared.change.Change.{Change};
ghost use Rattle.session_replies.specs.Replies.{refusal, all_in_force, marks_after, IsPoolReply};
ghost use Rattle.session_replies.specs.State.{setting_of};

use crate::state::Given;
use desk_model::{Desk, Marks, Memory, pool_count};
use desk_report::{pool_line, qrels_text};
use judge_session::Session;
use std::alloc::{AllocError, Global};

fn push_refusal(out: &mut Vec<u8>, reason: &[u8]) -> Result<(), AllocError>
    ensures { OnOk result (out.new.items ≡ out.old.items ++ refusal reason.now) }
{
    out.extend_from_slice(b"no ")?;
    out.extend_from_slice(reason)?;
    out.extend_from_slice(b"\n")
}

/// The line `no REASON` with its line feed.
pub fn refused(alloc: Global, reason: &[u8]) -> Result<Vec<u8>, Memory>
    ensures { IfOk result (λ text. text.items ≡ refusal reason.now) }
{
    let mut out = Vec::new(alloc);
    match push_refusal(&mut out, reason) {
        Ok(()) => Ok(out),
        Err(_) => Err(Memory),
    }
}

/// The reply to `pool TOPIC DEPTH`.
pub fn pool(
    alloc: Global,
    given: &Given<'_>,
    marks: &Marks,
    topic: &[u8],
    depth: u32,
) -> Result<Vec<u8>, Memory>
    requires marks { AreMarksOf given.now.desk.now marks.now.rows }
    ensures { IfOk result (λ text. (changes : List Change) →
        marks.now.rows ≡ marks_after (setting_of given.now) changes →
        IsPoolReply (setting_of given.now) changes depth
        (number_of (map (λ (book : Book). book.name) given.now.desk.now.topics) topic.now)
        text.items) }
{
    match given.desk.find_topic(topic) {
        Some(topic) => {
            let count = pool_count(given.desk, marks, topic, depth);
            pool_line(alloc, &count)
        }
        None => refused(alloc, b"UnknownTopic"),
    }
}

/// The reply to `qrels`: the judgements in force on all topics, as lines of a judgements file.
pub fn qrels(alloc: Global, desk: &Desk, session: &Session) -> Result<Vec<u8>, Memory>
    requires { IsSessionOf desk.now session.now }
    ensures { IfOk result (λ text. text.items ≡
        qrels_text desk.now (all_in_force desk.now session.now)) }
{
    let mut out = Vec::new(alloc);
    for topic in 0..desk.topic_count() {
        let grades = session.current(alloc, desk, topic)?;
        let text = qrels_text(alloc, desk, topic, &grades)?;
        let Ok(()) = out.extend_from_slice(&text) else {
            return Err(Memory);
        };
    }
    Ok(out)
}
