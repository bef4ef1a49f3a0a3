// The top call.
ghost use Rattle.std.specs.Prelude.{◌≡◌, ◌≤◌, map, string_bytes};
ghost use Rattle.desk_outside.specs.Seen.{shelf, source, sink};
ghost use Rattle.desk_top.specs.Meaning.{Means, meaning_of};
ghost use Rattle.desk_top.specs.Meets.{call, Meets, IsCallOf, LeavesInput};
ghost use Rattle.desk_top.specs.Status.{IsStatus};

use crate::laws::printed_texts_are_true;
use crate::outcome::{Outcome, put_text};
use crate::session::answer_session;
use crate::status::Status;
use crate::tell::{tell_memory, tell_refusal, tell_stop, tell_usage};
use crate::tools::Tools;
use crate::work::outcome_of;
use desk_outside::{Shelf, Sink, Source};
use desk_words::laws::command_is_unique;
use desk_words::{Command, WordsFault, read_words};
use measure_core::{Maker, Steps};
use session_replies::Given;
use std::alloc::Global;
use std::sync::ledger::Ledger;

// Runs a command, and answers its status.
fn run_command<F: Shelf, S: Source, K: Sink, E: Sink, P: Maker, L: Ledger>(
    tools: &Tools<'_, P>,
    command: &Command,
    files: &mut F,
    input: &mut S,
    out: &mut K,
    err: &mut E,
    steps: &mut Steps<L>,
) -> Status
    requires { (meaning_of command.now).asked }
    ensures meets { Meets (meaning_of command.now)
        (call (shelf (F.state files.old) (F.state files.new))
        (source (S.state input.old) (S.state input.new))
        (sink (K.state out.old) (K.state out.new)) (sink (E.state err.old) (E.state err.new))
        steps.old steps.new) result }
    ensures input { LeavesInput (meaning_of command.now) (F.state files.old).files input.old
        input.new }
    ensures files { (F.state files.new).files ≡ (F.state files.old).files }
{
    match outcome_of(tools, command, files, steps) {
        Ok(Outcome::Prints { text, status }) => put_text(out, err, &text, status),
        Ok(Outcome::Refuses { line }) => tell_refusal(err, &line),
        Ok(
            Outcome::Holds {
                desk,
                measure,
                grading,
            },
        ) => {
            let given = Given {
                desk: &desk,
                measure: &measure,
                grading,
            };
            answer_session(tools, &given, input, out, err, steps)
        }
        Err(stop) => tell_stop(tools.alloc, err, &stop),
    }
}

/// Runs the command of the words, and answers its status.
///
/// What a command answers over files and input, its status, what the output receives and the line that the error output
/// is told, is said by `words_meaning`, one case a command; words of no command mean usage, status 2. The call gives
/// that answer, or the status is 3, since the shelf, the input or the output failed, or 4, since memory ran out.
/// `table` ends with 0 and its text, `certify` with 0 and the certificate of the first two runs or with 6 and their
/// close line, `certify` with `--all` with 0 and the certificate of all pairs, or with 1 where its text has more than
/// 1,073,741,824 bytes, `verify` over a certificate of either version with 0 and `accepted` or with 5 and the reason,
/// `session` with 0 and a reply to each line that is heard, or with 1 where its input is too long, `graded` and `tiers`
/// with 0 and their texts, `merge` with 0 and the text of its sheets together, `apply` with 0 and the judgements under
/// its sheet. These end with 1 where their files are refused, and with 3 where a path is not held. `demo` has no files,
/// and ends with 0, its summary and the document to judge next. No file is opened but those of the words, in their
/// order; where the files are known, none after the first that is missing or refused. Each is read to its end and no
/// further, also after its first fault; the last one, if it is too long, to the first byte above the limit. `session`
/// alone reads the input, once its files make a desk, and nothing after the line `quit` or the end.
pub fn run_desk<F: Shelf, S: Source, K: Sink, E: Sink, P: Maker, L: Ledger>(
    alloc: Global,
    words: &[String],
    files: &mut F,
    input: &mut S,
    out: &mut K,
    err: &mut E,
    maker: &P,
    steps: &mut Steps<L>,
) -> u8
    ensures known { result ≤ 6 }
    ensures ends { IsStatus result (IsCallOf (map string_bytes words.now)
        (call (shelf (F.state files.old) (F.state files.new))
        (source (S.state input.old) (S.state input.new))
        (sink (K.state out.old) (K.state out.new)) (sink (E.state err.old) (E.state err.new))
        steps.old steps.new)) }
    ensures input { Means (map string_bytes words.now) (λ meaning.
        LeavesInput meaning (F.state files.old).files input.old input.new) }
    ensures files { (F.state files.new).files ≡ (F.state files.old).files }
{
    command_is_unique();
    printed_texts_are_true();
    let tools = Tools { alloc, maker };
    match read_words(alloc, words) {
        Ok(command) => run_command(&tools, &command, files, input, out, err, steps).into(),
        Err(WordsFault::Usage) => tell_usage(err).into(),
        Err(WordsFault::Memory) => tell_memory(err).into(),
    }
}
