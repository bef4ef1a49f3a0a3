// Calls of the desk and what they answer, as transcripts.
use crate::certificates::is_accepted;
use crate::certified::CERTIFIED;
use crate::files::shelf;
use crate::graded::{GRADED, NOT_GRADED};
use crate::measured::MEASURED;
use crate::outside::{Answer, Outside, SOUND};
use crate::refusals::{FAULTS, STOPPED, USAGE};
use crate::run::run_over;
use crate::sessions::REPLIES;
use crate::sheets::{NO_SHEETS, SHEETS};
use crate::tables::{CLOSE, TABLES};
use crate::tiers::{NO_TIERS, TIERS};
use std::alloc::{AllocError, Global};
use std::test::Fail;

/// The parts of a text, each after this mark.
pub fn parts_of<'t>(alloc: Global, text: &'t str, mark: &str) -> Result<Vec<&'t str>, AllocError> {
    let mut parts = Vec::new(alloc);
    for part in text.split(mark).skip(1) {
        parts.push(part)?;
    }
    Ok(parts)
}

/// A call over the files: its status, its words, and then the lines of its input, each after `> `, among those of the whole text that it
/// prints, or tells.
#[derive(Clone, Copy)]
pub struct Call<'t> {
    status: u8,
    pub line: &'t str,
    lines: &'t str,
}

impl<'t> Call<'t> {
    /// The call of a part of a transcript.
    pub fn of(part: &'t str) -> Call<'t> {
        let (head, lines) = part.split_once('\n').unwrap_or((part, ""));
        let (status, line) = head.split_once(' ').unwrap_or(("", head));
        Call {
            status: status.parse().unwrap_or(u8::MAX),
            line,
            lines,
        }
    }

    // The lines of the input, or the others.
    fn lines_of(self, alloc: Global, is_input: bool) -> Result<String, AllocError> {
        let mut lines = String::new(alloc);
        for line in self.lines.split_inclusive('\n') {
            match line.strip_prefix("> ") {
                Some(asked) if is_input => lines.push_str(asked)?,
                None if !is_input => lines.push_str(line)?,
                _ => {}
            }
        }
        Ok(lines)
    }

    /// The text that it prints, or tells.
    pub fn text(self, alloc: Global) -> Result<String, AllocError> {
        self.lines_of(alloc, false)
    }

    /// What it answers over an outside.
    pub fn answer(self, alloc: Global, outside: Outside) -> Result<Answer, AllocError> {
        let mut files = shelf(alloc, outside.files)?;
        let input = self.lines_of(alloc, true)?;
        run_over(alloc, self.line, &mut files, input.as_bytes(), outside)
    }

    /// Whether it has this text and is answered so: it prints, or it tells, and not both.
    pub fn is_answered(self, text: &str, answer: &Answer) -> bool {
        if self.status == 0 || self.status >= 5 {
            answer.is(self.status, text.as_bytes(), b"")
        } else {
            answer.is(self.status, b"", text.as_bytes())
        }
    }

    // Whether it is answered so, and a certificate that it prints is accepted.
    fn is_right(self, alloc: Global, outside: Outside) -> Result<bool, AllocError> {
        let answer = self.answer(alloc, outside)?;
        let text = self.text(alloc)?;
        Ok(
            self.is_answered(&text, &answer)
                && (!text.starts_with("desk-certificate") || is_accepted(alloc, &text)?),
        )
    }
}

// Transcripts, the number of their calls, and how many bytes a read of an input gives at most.
const TRANSCRIPTS: [(&str, usize, usize); 16] = [
    (TABLES, 21, 4096),
    (CLOSE, 6, 4096),
    (FAULTS, 13, 4096),
    (STOPPED, 14, 4096),
    (USAGE, 16, 4096),
    (CERTIFIED, 20, 4096),
    (GRADED, 6, 4096),
    (NOT_GRADED, 14, 4096),
    (TIERS, 11, 4096),
    (NO_TIERS, 20, 4096),
    (SHEETS, 10, 4096),
    (NO_SHEETS, 20, 4096),
    (MEASURED, 6, 4096),
    (REPLIES, 13, 1),
    (REPLIES, 13, 19),
    (REPLIES, 13, 4096),
];

// Whether a transcript has so many calls, each of which is right.
fn are_right(
    alloc: Global,
    transcript: &str,
    count: usize,
    given: usize,
) -> Result<bool, AllocError> {
    let parts = parts_of(alloc, transcript, "$ ")?;
    for part in parts.iter() {
        if !Call::of(part).is_right(alloc, Outside { given, ..SOUND })? {
            return Ok(false);
        }
    }
    Ok(parts.len() == count)
}

#[test]
fn each_call_is_answered(rt: HostRuntime) -> Result<(), Fail> {
    for (transcript, count, given) in &TRANSCRIPTS {
        assert!(rt;
            are_right(rt.alloc(), transcript, *count, *given)?,
            "{transcript}"
        );
    }
    Ok(())
}
