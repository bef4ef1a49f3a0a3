// The reply of a session to a line.
ghost use Rattle.std.specs.Prelude.{◌≤◌, ◌+◌, IfOk, OnErr};
ghost use Rattle.judge_session.specs.Forms.{IsWithin};
ghost use Rattle.judge_session.specs.Request as lines;
ghost use Rattle.judge_session.specs.Request.{heard_of};
ghost use Rattle.judge_session.specs.Said.{request_said};
ghost use Rattle.session_replies.specs.State.{setting_of, IsSetting, IsReadyForLine, Answers, IsReplied, CountsLine, Keeps, owed};

use crate::comparing::{TableRequest, find_runs, make_next, make_report, refused_runs};
use crate::judgement::Judgement;
use crate::state::{Given, Judging};
use crate::telling::{pool, qrels, refused};
use desk_model::Memory;
use judge_session::{Heard, Request, hear};
use measure_core::{Maker, Steps};
use std::alloc::Global;
use std::sync::ledger::Ledger;

/// What a session replies to a line.
#[derive(Drop)]
pub enum Reply {
    /// This text: lines with their line feeds, and none for a line that is passed over.
    Text(Vec<u8>),
    /// Nothing: the line ends the session.
    Quit,
}

// The reply to a line that asks something. The line that ends a session has an empty one.
fn answer<P: Maker, L: Ledger>(
    alloc: Global,
    judging: &mut Judging<P::Made>,
    given: &Given<'_>,
    request: Request<'_>,
    maker: &P,
    steps: &mut Steps<L>,
) -> Result<Vec<u8>, Memory>
    requires setting { IsSetting (setting_of given.now) }
    requires ready { IsReadyForLine
        (record { name = P.Made.measured; cell = P.Made.cell_of; bound = P.Made.bounds_of })
        (setting_of given.now) judging.old }
    requires within { IsWithin (request_said request) }
    ensures answers { IfOk result (λ text.
        Answers (record { name = P.Made.measured; cell = P.Made.cell_of; bound = P.Made.bounds_of })
        (setting_of given.now)
        (lines.Asked (request_said request.entry)) judging.old judging.new text.items) }
    ensures counts { CountsLine (setting_of given.now) (lines.Asked (request_said request.entry))
        judging.old judging.new steps.old steps.new }
    ensures kept { Keeps judging.old judging.new }
    ensures stopped { OnErr result (steps.new ≤ steps.old +
        owed given.now.desk.now judging.old.table) }
{
    given.desk.valid();
    match request {
        Request::Judge {
            who,
            topic,
            doc,
            grade,
        } => {
            let judgement = Judgement {
                who,
                topic,
                doc,
                grade,
            };
            judging.judge(alloc, given, &judgement, steps)
        }
        Request::Undo { who } => judging.undo(alloc, given, who, steps),
        Request::Redo { who } => judging.redo(alloc, given, who, steps),
        Request::Table => make_report(alloc, judging, given, TableRequest::Table, maker, steps),
        Request::Pair { first, second } => match find_runs(given.desk, first, second) {
            Ok(runs) => make_report(
                alloc,
                judging,
                given,
                TableRequest::Pair(runs),
                maker,
                steps,
            ),
            Err(fault) => refused_runs(alloc, fault),
        },
        Request::Certify { first, second } => match find_runs(given.desk, first, second) {
            Ok(runs) => make_report(
                alloc,
                judging,
                given,
                TableRequest::Certificate(runs),
                maker,
                steps,
            ),
            Err(fault) => refused_runs(alloc, fault),
        },
        Request::Pool { topic, depth } => pool(alloc, given, &judging.marks, topic, depth),
        Request::Next => make_next(alloc, judging, given, maker, steps),
        Request::Qrels => qrels(alloc, given.desk, &judging.session),
        Request::Quit => Ok(Vec::new(alloc)),
    }
}

/// The reply of a session to one line, without its line feed, by the judgements in force before it. It leaves the
/// session ready for the next line.
///
/// A table is made at the first line that needs one: one step for each pair and topic. From then on, a judgement, an undo
/// or a redo that is accepted renews the topic of its document, also where its grade stays: one step for each pair. A line
/// that is refused changes nothing. The totals of the documents are made at the first line that asks for the next one, and
/// from then on renewed with the table; they take no step.
///
/// # Errors
/// `Memory`: out of memory. The reply is lost, and the session may stand before or after the line.
pub fn reply_to<P: Maker, L: Ledger>(
    alloc: Global,
    judging: &mut Judging<P::Made>,
    given: &Given<'_>,
    line: &[u8],
    maker: &P,
    steps: &mut Steps<L>,
) -> Result<Reply, Memory>
    requires setting { IsSetting (setting_of given.now) }
    requires ready { IsReadyForLine
        (record { name = P.Made.measured; cell = P.Made.cell_of; bound = P.Made.bounds_of })
        (setting_of given.now) judging.old }
    ensures answered { IfOk result
        (IsReplied
        (record { name = P.Made.measured; cell = P.Made.cell_of; bound = P.Made.bounds_of })
        (setting_of given.now)
        (heard_of line.now) judging.old judging.new) }
    ensures counts { CountsLine (setting_of given.now) (heard_of line.now) judging.old judging.new
        steps.old steps.new }
    // A table and totals that were there are not thrown away, to be made anew at a later line.
    ensures kept { Keeps judging.old judging.new }
    // Where memory runs out, at most the cells that were owed are evaluated.
    ensures stopped { OnErr result (steps.new ≤ steps.old +
        owed given.now.desk.now judging.old.table) }
{
    match hear(line) {
        Heard::Blank => Ok(Reply::Text(Vec::new(alloc))),
        Heard::TooLong => {
            let text = refused(alloc, b"LineTooLong")?;
            Ok(Reply::Text(text))
        }
        Heard::Bad => {
            let text = refused(alloc, b"BadLine")?;
            Ok(Reply::Text(text))
        }
        Heard::Asked(Request::Quit) => Ok(Reply::Quit),
        Heard::Asked(request) => {
            let text = answer(alloc, judging, given, request, maker, steps)?;
            Ok(Reply::Text(text))
        }
    }
}
