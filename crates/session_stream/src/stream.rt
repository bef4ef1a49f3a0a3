// A session over an input and an output.
ghost use Rattle.std.specs.Prelude.{◌≡◌, ◌≤◌, ◌+◌, ◌++◌, [], List, ℕ, Option, OnOk, IfOk, length};
ghost use Rattle.desk_outside.specs.Seen.{source, sink};
ghost use Rattle.desk_text.specs.Lines.{kept_line, unended};
ghost use Rattle.session_replies.specs.State.{setting_of, IsSetting, IsReadyForLine, cells_of, owed};
ghost use Rattle.session_stream.specs.Held.{Talks, IsPut, TakesSteps, AnswersLine, AnswersPiece};
ghost use Rattle.session_stream.specs.NoMore.{ReadsNoMore};
ghost use Rattle.session_stream.specs.Text.{EndsSession, EvaluatesWithin};

use desk_outside::{Sink, Source, put_all};
use desk_text::Lines;
use measure_core::{Maker, Measure, Steps};
use session_replies::{Given, Judging, Reply, reply_to};
use std::alloc::Global;
use std::sync::ledger::Ledger;

/// The most bytes of a session's input.
pub const LONGEST_INPUT: usize = 1_073_741_824;

const ROOM: usize = 65_536;

const TOO_LONG: &[u8] = b"no LineTooLong\n";

/// How the input of a session ended.
#[derive(Clone, Copy, PartialEq, Eq)]
pub enum Ended {
    /// It was read to its end, or to the line `quit`.
    Done,
    /// It has more than 1,073,741,824 bytes, and no line `quit` ends within them.
    InputTooLong,
}

/// Why a session stopped.
#[derive(Clone, Copy, PartialEq, Eq)]
pub enum Fault {
    /// The input failed.
    Input,
    /// The output failed.
    Output,
    /// Out of memory.
    Memory,
}

/// What follows a line.
#[derive(Clone, Copy, PartialEq, Eq)]
pub enum Next {
    /// More lines.
    More,
    /// Nothing, since the line is `quit`.
    Quit,
}

// Puts the reply to a line, if it has one.
fn put_reply<K: Sink>(out: &mut K, text: &[u8]) -> Result<Next, Fault>
    ensures put { IsPut (sink (K.state out.old) (K.state out.new)) text.now result }
    ensures later { (K.state out.old).faults ≤ (K.state out.new).faults }
{
    match put_all(out, text) {
        Ok(()) => Ok(Next::More),
        Err(_) => Err(Fault::Output),
    }
}

// What the lines of a session are answered by: what it is over, and what makes its measure.
#[derive(Clone, Copy)]
struct Terms<'a, P> {
    given: &'a Given<'a>,
    maker: &'a P,
}

// Answers a line that is whole.
fn answer_line<K: Sink, P: Maker, L: Ledger>(
    alloc: Global,
    lines: &Lines,
    judging: &mut Judging<P::Made>,
    terms: &Terms<'_, P>,
    out: &mut K,
    steps: &mut Steps<L>,
) -> Result<Next, Fault>
    requires setting { IsSetting (setting_of terms.now.given.now) }
    requires ready { IsReadyForLine
        (record { name = P.Made.measured; cell = P.Made.cell_of; bound = P.Made.bounds_of })
        (setting_of terms.now.given.now) judging.old }
    ensures answered { (line : List ℕ) → lines.now ≡ kept_line line →
        AnswersLine (setting_of terms.now.given.now) line judging.old.session judging.new.session
        (sink (K.state out.old) (K.state out.new)) result }
    ensures ready { OnOk result
        (IsReadyForLine
        (record { name = P.Made.measured; cell = P.Made.cell_of; bound = P.Made.bounds_of })
        (setting_of terms.now.given.now) judging.new) }
    ensures steps { (line : List ℕ) → lines.now ≡ kept_line line →
        TakesSteps terms.now.given.now.desk.now line judging.old.session judging.old.table
        judging.new.table
        steps.old steps.new result }
    ensures later { (K.state out.old).faults ≤ (K.state out.new).faults }
{
    let Some(line) = lines.line() else {
        return put_reply(out, TOO_LONG);
    };
    match reply_to(alloc, judging, terms.given, line, terms.maker, steps) {
        Ok(Reply::Text(text)) => put_reply(out, &text),
        Ok(Reply::Quit) => Ok(Next::Quit),
        Err(_) => Err(Fault::Memory),
    }
}

// Answers the lines that end in a piece of the input, up to `quit`.
fn answer_piece<K: Sink, P: Maker, L: Ledger>(
    alloc: Global,
    piece: &[u8],
    lines: &mut Lines,
    judging: &mut Judging<P::Made>,
    terms: &Terms<'_, P>,
    out: &mut K,
    steps: &mut Steps<L>,
) -> Result<Next, Fault>
    requires setting { IsSetting (setting_of terms.now.given.now) }
    requires ready { IsReadyForLine
        (record { name = P.Made.measured; cell = P.Made.cell_of; bound = P.Made.bounds_of })
        (setting_of terms.now.given.now) judging.old }
    ensures answered { (had : Option (List ℕ)) (first : ℕ) (taken : List ℕ) →
        lines.old ≡ kept_line (unended taken) →
        Talks (setting_of terms.now.given.now) had (K.state out.old).received first (steps.old +
        owed terms.now.given.now.desk.now judging.old.table) taken judging.old.session →
        AnswersPiece (setting_of terms.now.given.now) had (sink (K.state out.old) (K.state out.new))
        first
        steps.new
        (steps.new + owed terms.now.given.now.desk.now judging.new.table) (taken ++ piece.now)
        judging.new.session result }
    ensures line { (taken : List ℕ) → lines.old ≡ kept_line (unended taken) →
        result ≡ Ok Next.More → lines.new ≡ kept_line (unended (taken ++ piece.now)) }
    ensures ready { result ≡ Ok Next.More →
        IsReadyForLine
        (record { name = P.Made.measured; cell = P.Made.cell_of; bound = P.Made.bounds_of })
        (setting_of terms.now.given.now) judging.new }
    ensures later { (K.state out.old).faults ≤ (K.state out.new).faults }
{
    let mut at = 0;
    while at < piece.len() {
        let pushed = lines.push(&piece[at..]);
        at += pushed.used;
        if pushed.ended {
            match answer_line(alloc, lines, judging, terms, out, steps) {
                Ok(Next::More) => lines.clear(),
                Ok(Next::Quit) => return Ok(Next::Quit),
                Err(fault) => return Err(fault),
            }
        }
    }
    Ok(Next::More)
}

// Answers the lines of the input, each before the next read.
fn answer_input<S: Source, K: Sink, P: Maker, L: Ledger>(
    alloc: Global,
    input: &mut S,
    out: &mut K,
    lines: &mut Lines,
    judging: &mut Judging<P::Made>,
    terms: &Terms<'_, P>,
    steps: &mut Steps<L>,
) -> Result<Ended, Fault>
    requires setting { IsSetting (setting_of terms.now.given.now) }
    requires line { lines.old ≡ kept_line [] }
    requires none { judging.old.session ≡ [] }
    requires owes { owed terms.now.given.now.desk.now judging.old.table ≡
        cells_of terms.now.given.now.desk.now }
    requires ready { IsReadyForLine
        (record { name = P.Made.measured; cell = P.Made.cell_of; bound = P.Made.bounds_of })
        (setting_of terms.now.given.now) judging.old }
    ensures ends { EndsSession (setting_of terms.now.given.now)
        (source (S.state input.old) (S.state input.new))
        (sink (K.state out.old) (K.state out.new)) result }
    ensures cells { EvaluatesWithin (setting_of terms.now.given.now)
        (source (S.state input.old) (S.state input.new)) steps.old steps.new }
    ensures heard { ReadsNoMore (source (S.state input.old) (S.state input.new)) }
{
    let mut room = [0u8; ROOM];
    let mut taken = 0;
    'reads: while taken <= LONGEST_INPUT {
        let most = ROOM.min(LONGEST_INPUT + 1 - taken);
        let Ok(count) = input.read(&mut room[..most]) else {
            return Err(Fault::Input);
        };
        if count == 0 {
            return match answer_line(alloc, lines, judging, terms, out, steps) {
                Ok(_) => Ok(Ended::Done),
                Err(fault) => Err(fault),
            };
        }
        let within = count.min(LONGEST_INPUT - taken);
        match answer_piece(alloc, &room[..within], lines, judging, terms, out, steps) {
            Ok(Next::More) => taken += count,
            Ok(Next::Quit) => return Ok(Ended::Done),
            Err(fault) => return Err(fault),
        }
    }
    Ok(Ended::InputTooLong)
}

/// Answers the lines of the input, each before the next read, up to `quit` or to the end of the input.
pub fn hold_session<S: Source, K: Sink, P: Maker, L: Ledger>(
    alloc: Global,
    input: &mut S,
    out: &mut K,
    given: &Given<'_>,
    maker: &P,
    steps: &mut Steps<L>,
) -> Result<Ended, Fault>
    requires { IsSetting (setting_of given.now) }
    ensures ends { EndsSession (setting_of given.now)
        (source (S.state input.old) (S.state input.new))
        (sink (K.state out.old) (K.state out.new)) result }
    ensures cells { EvaluatesWithin (setting_of given.now)
        (source (S.state input.old) (S.state input.new)) steps.old steps.new }
    ensures heard { ReadsNoMore (source (S.state input.old) (S.state input.new)) }
{
    let Ok(mut lines) = Lines::new(alloc) else {
        return Err(Fault::Memory);
    };
    let Ok(mut judging) = Judging::<P::Made>::new(alloc, given.desk, given.grading) else {
        return Err(Fault::Memory);
    };
    let terms = Terms { given, maker };
    answer_input(alloc, input, out, &mut lines, &mut judging, &terms, steps)
}
