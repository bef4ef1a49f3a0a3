// What is told on the error output. A failure there changes nothing.
ghost use Rattle.std.specs.Prelude.{◌≡◌, ◌++◌, ◌∷◌, [], OnOk, IfOk, codes, decimal};
ghost use Rattle.desk_files.specs.Views.{refusal_of};
ghost use Rattle.desk_outside.specs.Seen.{sink};
ghost use Rattle.desk_top.specs.Status.{status_line};
ghost use Rattle.desk_top.specs.Told.{TellsRefusal, TellsStop, WritesLine, at_line, fault_word, sheet_fault_word, refusal_text, refusal_line, long_input_line, too_long_line};

use crate::status::Status;
use desk_files::{Refusal, Stop};
use desk_outside::{Sink, put_all};
use itoa::Buffer;
use qrels_reader::LineFault;
use sheet_merge::SheetLineFault;
use std::alloc::{AllocError, Global};

fn tell<E: Sink>(err: &mut E, line: &[u8])
    ensures { WritesLine (sink (E.state err.old) (E.state err.new)) line.now }
{
    let _ = put_all(err, line);
}

/// Tells that the words are of no command.
pub fn tell_usage<E: Sink>(err: &mut E) -> Status
    ensures status { result ≡ Status.Usage }
    ensures line { WritesLine (sink (E.state err.old) (E.state err.new))
        (status_line Status.Usage) }
{
    tell(
        err,
        b"usage: desk COMMAND --qrels FILE --measure NAME [--level N] RUN...\n",
    );
    Status::Usage
}

/// Tells that the outside failed.
pub fn tell_outside<E: Sink>(err: &mut E) -> Status
    ensures status { result ≡ Status.Outside }
    ensures line { WritesLine (sink (E.state err.old) (E.state err.new))
        (status_line Status.Outside) }
{
    tell(err, b"fault: outside\n");
    Status::Outside
}

/// Tells that memory ran out.
pub fn tell_memory<E: Sink>(err: &mut E) -> Status
    ensures status { result ≡ Status.Memory }
    ensures line { WritesLine (sink (E.state err.old) (E.state err.new))
        (status_line Status.Memory) }
{
    tell(err, b"fault: memory\n");
    Status::Memory
}

/// Tells the line of a refusal.
pub fn tell_refusal<E: Sink>(err: &mut E, line: &[u8]) -> Status
    ensures status { result ≡ Status.Refused }
    ensures line { WritesLine (sink (E.state err.old) (E.state err.new)) line.now }
{
    tell(err, line);
    Status::Refused
}

/// Tells that the input of a session is too long.
pub fn tell_long_input<E: Sink>(err: &mut E) -> Status
    ensures status { result ≡ Status.Refused }
    ensures line { WritesLine (sink (E.state err.old) (E.state err.new)) long_input_line }
{
    tell_refusal(err, b"refused: input: InputTooLong\n")
}

fn word_of(fault: LineFault) -> &'static str
    ensures { result.now ≡ fault_word fault }
{
    match fault {
        LineFault::LineTooLong => "LineTooLong",
        LineFault::BadByte => "BadByte",
        LineFault::BadFieldCount => "BadFieldCount",
        LineFault::NameTooLong => "NameTooLong",
        LineFault::BadGrade => "BadGrade",
        LineFault::BadScore => "BadScore",
        LineFault::ScoreTooLong => "ScoreTooLong",
        LineFault::ScoreExponent => "ScoreExponent",
        LineFault::RepeatedDocument => "RepeatedDocument",
        LineFault::TooManyTopics => "TooManyTopics",
        LineFault::TooDeep => "TooDeep",
        LineFault::TooManyRows => "TooManyRows",
        LineFault::TooManyNameBytes => "TooManyNameBytes",
    }
}

fn sheet_word_of(fault: SheetLineFault) -> &'static str
    ensures { result.now ≡ sheet_fault_word fault }
{
    match fault {
        SheetLineFault::LineTooLong => "LineTooLong",
        SheetLineFault::BadByte => "BadByte",
        SheetLineFault::BadFieldCount => "BadFieldCount",
        SheetLineFault::BadStamp => "BadStamp",
        SheetLineFault::NameTooLong => "NameTooLong",
        SheetLineFault::BadGrade => "BadGrade",
        SheetLineFault::TooManyEntries => "TooManyEntries",
    }
}

/// A number in digits.
pub fn push_number(line: &mut Vec<u8>, number: u64) -> Result<(), AllocError>
    ensures { OnOk result (line.new.items ≡ line.old.items ++ decimal number) }
{
    line.extend_from_slice(Buffer::new().format(number).as_bytes())
}

/// The line of a certificate of all pairs whose text would have so many bytes, which are too many.
pub fn too_long_line(alloc: Global, bytes: u64) -> Result<Vec<u8>, AllocError>
    ensures { IfOk result (λ line. line.items ≡ too_long_line bytes) }
{
    let mut line = Vec::from_slice(alloc, b"refused: certificate: TooLong ")?;
    push_number(&mut line, bytes)?;
    line.push(b'\n')?;
    Ok(line)
}

// What is wrong with a line of a file.
fn push_at_line(line: &mut Vec<u8>, path: &str, number: u64, word: &str) -> Result<(), AllocError>
    ensures { OnOk result (line.new.items ≡ line.old.items ++
        (path.now ++ at_line number word.now)) }
{
    line.extend_from_slice(path.as_bytes())?;
    line.extend_from_slice(b" line ")?;
    push_number(line, number)?;
    line.extend_from_slice(b": ")?;
    line.extend_from_slice(word.as_bytes())
}

// What is wrong with a whole file, or with a name.
fn push_of(line: &mut Vec<u8>, of: &[u8], text: &[u8]) -> Result<(), AllocError>
    ensures { OnOk result (line.new.items ≡ line.old.items ++ (of.now ++ text.now)) }
{
    line.extend_from_slice(of)?;
    line.extend_from_slice(text)
}

// A document without a place in a desk.
fn push_document(line: &mut Vec<u8>, path: &str, topic: &[u8], doc: &[u8]) -> Result<(), AllocError>
    ensures { OnOk result (line.new.items ≡ line.old.items ++ (path.now ++ codes ": UnknownDocument " ++ topic.now ++ 32 ∷ doc.now)) }
{
    push_of(line, path.as_bytes(), b": UnknownDocument ")?;
    push_of(line, topic, b" ")?;
    line.extend_from_slice(doc)
}

fn push_refusal(line: &mut Vec<u8>, refusal: &Refusal) -> Result<(), AllocError>
    ensures { OnOk result (line.new.items ≡ line.old.items ++
        refusal_text (refusal_of refusal.now)) }
{
    match refusal {
        Refusal::FileTooLong(path) => push_of(line, path.as_bytes(), b": FileTooLong"),
        Refusal::Line(path, number, fault) => push_at_line(line, path, *number, word_of(*fault)),
        Refusal::NoTopics(path) => push_of(line, path.as_bytes(), b": NoTopics"),
        Refusal::NoTag(path) => push_of(line, path.as_bytes(), b": NoTag"),
        Refusal::BadLine(path, number) => push_at_line(line, path, *number, "BadLine"),
        Refusal::SameName(name) => push_of(line, name, b": SameName"),
        Refusal::TooManyCells(cells) => {
            line.extend_from_slice(b"desk: TooManyCells ")?;
            push_number(line, *cells)
        }
        Refusal::SheetLine(path, number, fault) => {
            push_at_line(line, path, *number, sheet_word_of(*fault))
        }
        Refusal::TooManyEntries(path) => push_of(line, path.as_bytes(), b": TooManyEntries"),
        Refusal::UnknownTopic(path, topic) => {
            push_of(line, path.as_bytes(), b": UnknownTopic ")?;
            line.extend_from_slice(topic)
        }
        Refusal::UnknownDocument(path, topic, doc) => push_document(line, path, topic, doc),
    }
}

fn refusal_line(alloc: Global, refusal: &Refusal) -> Result<Vec<u8>, AllocError>
    ensures { IfOk result (λ line. line.items ≡ refusal_line (refusal_of refusal.now)) }
{
    let mut line = Vec::from_slice(alloc, b"refused: ")?;
    push_refusal(&mut line, refusal)?;
    line.push(b'\n')?;
    Ok(line)
}

// Tells that the files are refused, or that memory for the line ran out.
fn tell_refused<E: Sink>(alloc: Global, err: &mut E, refusal: &Refusal) -> Status
    ensures { TellsRefusal (refusal_of refusal.now) (sink (E.state err.old) (E.state err.new))
        result }
{
    match refusal_line(alloc, refusal) {
        Ok(line) => tell_refusal(err, &line),
        Err(_) => tell_memory(err),
    }
}

/// Tells why a command stopped.
pub fn tell_stop<E: Sink>(alloc: Global, err: &mut E, stop: &Stop<'_>) -> Status
    ensures { TellsStop stop.now (sink (E.state err.old) (E.state err.new)) result }
{
    match stop {
        Stop::Refused(refusal) => tell_refused(alloc, err, refusal),
        Stop::Outside => tell_outside(err),
        Stop::Memory => tell_memory(err),
    }
}
