// What a session hears in a line.
ghost use Rattle.std.specs.Prelude.{◌≡◌, option_map};
ghost use Rattle.desk_text.specs.Lines.{fields_of, AreFields};
ghost use Rattle.desk_text.specs.Places.{count_of, places_of};
ghost use Rattle.judge_session.specs.Request.{alone, with_caller, depth_of, with_two, judging, request_of, heard_of};
ghost use Rattle.judge_session.specs.Said.{request_said, heard_said};
ghost use Rattle.judge_session.specs.Forms.{IsHeardWithin};

use crate::types::{Heard, Request};
use desk_model::name::is_a_name;
use desk_text::{Fields, LONGEST_LINE, fields, is_blank, plain, whole};

/// What a line, without its line feed, asks of a session. It takes no memory.
pub fn hear(line: &[u8]) -> Heard<'_>
    ensures heard { heard_said result ≡ heard_of line.now }
    // Names are names, grades lie from -1,000 to 1,000 and depths from 1 to 10,000.
    ensures within { IsHeardWithin (heard_said result) }
{
    if line.len() > LONGEST_LINE {
        return Heard::TooLong;
    }
    if is_blank(line) {
        return Heard::Blank;
    }
    let Ok(found) = fields(line) else {
        return Heard::Bad;
    };
    match request(line, &found) {
        Some(request) => Heard::Asked(request),
        None => Heard::Bad,
    }
}

// What the fields of a line ask.
fn request<'a>(line: &'a [u8], found: &Fields) -> Option<Request<'a>>
    requires { AreFields line.now (count_of found.now) (places_of found.now) }
    ensures { option_map request_said result ≡ request_of (fields_of line.now) }
{
    match found.count() {
        1 => alone(found.text(line, 0)),
        2 => with_caller(found.text(line, 0), found.text(line, 1)),
        3 => with_two(
            found.text(line, 0),
            found.text(line, 1),
            found.text(line, 2),
        ),
        5 => judging(
            found.text(line, 0),
            found.text(line, 1),
            found.text(line, 2),
            found.text(line, 3),
            found.text(line, 4),
        ),
        _ => None,
    }
}

// `table`, `next`, `qrels` or `quit`.
fn alone(word: &[u8]) -> Option<Request<'_>>
    ensures { option_map request_said result ≡ alone word.now }
{
    if word == b"table".as_slice() {
        Some(Request::Table)
    } else if word == b"next".as_slice() {
        Some(Request::Next)
    } else if word == b"qrels".as_slice() {
        Some(Request::Qrels)
    } else if word == b"quit".as_slice() {
        Some(Request::Quit)
    } else {
        None
    }
}

// `undo WHO` or `redo WHO`.
fn with_caller<'a>(word: &[u8], who: &'a [u8]) -> Option<Request<'a>>
    ensures { option_map request_said result ≡ with_caller word.now who.now }
{
    if !is_a_name(who) {
        return None;
    }
    if word == b"undo".as_slice() {
        Some(Request::Undo { who })
    } else if word == b"redo".as_slice() {
        Some(Request::Redo { who })
    } else {
        None
    }
}

// A depth in digits, from 1 to 10,000.
fn depth(text: &[u8]) -> Option<u32>
    ensures { result ≡ depth_of text.now }
{
    if text == b"0".as_slice() {
        return None;
    }
    let depth = plain(text, 10_000)?;
    Some(depth as u32)
}

// `pair FIRST SECOND`, `certify FIRST SECOND` or `pool TOPIC DEPTH`.
fn with_two<'a>(word: &[u8], first: &'a [u8], second: &'a [u8]) -> Option<Request<'a>>
    ensures { option_map request_said result ≡ with_two word.now first.now second.now }
{
    if !is_a_name(first) {
        return None;
    }
    if word == b"pool".as_slice() {
        let depth = depth(second)?;
        return Some(Request::Pool {
            topic: first,
            depth,
        });
    }
    if !is_a_name(second) {
        return None;
    }
    if word == b"pair".as_slice() {
        Some(Request::Pair { first, second })
    } else if word == b"certify".as_slice() {
        Some(Request::Certify { first, second })
    } else {
        None
    }
}

// `judge WHO TOPIC DOC GRADE`.
fn judging<'a>(
    word: &[u8],
    who: &'a [u8],
    topic: &'a [u8],
    doc: &'a [u8],
    grade: &[u8],
) -> Option<Request<'a>>
    ensures { option_map request_said result ≡
        judging word.now who.now topic.now doc.now grade.now }
{
    if word != b"judge".as_slice() {
        return None;
    }
    if !(is_a_name(who) && is_a_name(topic) && is_a_name(doc)) {
        return None;
    }
    let grade = whole(grade, -1_000, 1_000)?;
    Some(Request::Judge {
        who,
        topic,
        doc,
        grade: grade as i32,
    })
}
