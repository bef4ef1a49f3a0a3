// The command that holds a session.
ghost use Rattle.std.specs.Prelude.{◌≡◌, ℕ};
ghost use Rattle.desk_files.specs.Reads.{ReadsFiles, extent_of};
ghost use Rattle.desk_files.specs.Views.{answer_of};
ghost use Rattle.desk_outside.specs.Seen.{shelf, source, sink};
ghost use Rattle.session_replies.specs.State.{setting_of, IsSetting};
ghost use Rattle.session_stream.specs.NoMore.{ReadsNoMore};
ghost use Rattle.session_stream.specs.Text.{EvaluatesWithin};
ghost use Rattle.desk_top.specs.Conversation.{AnswersSession};
ghost use Rattle.desk_top.specs.Loading.{desk_loading, OpensWithin};
ghost use Rattle.desk_top.specs.Meaning.{session_meaning};
ghost use Rattle.desk_top.specs.Report.{IsAsked};
ghost use Rattle.desk_top.specs.Works.{Works};

use crate::outcome::Outcome;
use crate::status::Status;
use crate::tell::{tell_long_input, tell_memory, tell_outside};
use crate::tools::Tools;
use desk_files::{Stop, load_desk};
use desk_outside::{Shelf, Sink, Source};
use desk_report::Grading;
use desk_words::Job;
use measure_core::{Maker, Steps};
use session_replies::Given;
use session_stream::{Ended, Fault, hold_session};
use std::alloc::Global;
use std::sync::ledger::Ledger;

/// The desk on which the session of a job is held.
pub fn session_outcome<'a, F: Shelf>(
    alloc: Global,
    files: &mut F,
    job: &'a Job,
) -> Result<Outcome, Stop<'a>>
    requires { IsAsked 1 job.now }
    ensures works { (cells : ℕ) →
        Works (session_meaning job.now) (shelf (F.state files.old) (F.state files.new)) cells cells
        result }
    ensures opened { OpensWithin (desk_loading job.now)
        (shelf (F.state files.old) (F.state files.new)) }
    ensures reads { ReadsFiles (extent_of (answer_of result)) (F.state files.old).calls
        (F.state files.new).calls }
    ensures files { (F.state files.new).files ≡ (F.state files.old).files }
{
    let desk = load_desk(alloc, files, &job.qrels, &job.runs, 1)?;
    Ok(Outcome::Holds {
        desk,
        measure: job.measure,
        grading: Grading::new(job.level, job.depth),
    })
}

/// Answers the lines of the input, and tells how the session ended.
pub fn answer_session<S: Source, K: Sink, E: Sink, P: Maker, L: Ledger>(
    tools: &Tools<'_, P>,
    given: &Given<'_>,
    input: &mut S,
    out: &mut K,
    err: &mut E,
    steps: &mut Steps<L>,
) -> Status
    requires { IsSetting (setting_of given.now) }
    ensures answered { AnswersSession (setting_of given.now)
        (source (S.state input.old) (S.state input.new))
        (sink (K.state out.old) (K.state out.new))
        (sink (E.state err.old) (E.state err.new)) result }
    ensures cells { EvaluatesWithin (setting_of given.now)
        (source (S.state input.old) (S.state input.new)) steps.old steps.new }
    ensures heard { ReadsNoMore (source (S.state input.old) (S.state input.new)) }
{
    match hold_session(tools.alloc, input, out, given, tools.maker, steps) {
        Ok(Ended::Done) => Status::Done,
        Ok(Ended::InputTooLong) => tell_long_input(err),
        Err(Fault::Input) => tell_outside(err),
        Err(Fault::Output) => tell_outside(err),
        Err(Fault::Memory) => tell_memory(err),
    }
}
