// A line whose bytes arrive in pieces.
ghost use Rattle.std.specs.Prelude.{◌≡◌, ◌≤◌, [], length, option_map, IfOk, IfSome, Some};
ghost use Rattle.desk_text.specs.Lines.{longer, IsPushed};

use crate::line::{LINE_FEED, LONGEST_LINE};
use desk_memory::Memory;
use memchr::memchr;
use std::alloc::Global;
use std::marker::Model;

/// What a line took of a piece.
#[derive(Clone, Copy, PartialEq, Eq)]
pub struct Pushed {
    /// How many bytes of the piece were taken, the line feed among them.
    pub used: usize,
    /// Whether a line feed ended the line.
    pub ended: bool,
}

/// The lines of a text whose bytes arrive in pieces, one line at a time. It keeps the bytes of a line without its line
/// feed, and none once they are more than 4,096. A user reads a line once it has ended, or at the end of the text, and
/// then clears it.
#[derive(Drop)]
pub struct Lines {
    bytes: Vec<u8>,
    long: bool,
}

impl Model for Lines {
    ghost use Rattle.std.specs.Prelude.{◌≤◌, List, ℕ, Option, Some, None, if◌then◌else◌, vec_len, vec_capacity};
    ghost use Rattle.desk_text.specs.declared.line.TheConstants.{LONGEST_LINE};

    ghost Value = { Option (List ℕ) };

    ghost view = { λ l. if l.long then None else Some l.bytes.items };

    ghost invariant = { λ l. (vec_len l.bytes ≤ LONGEST_LINE) × (LONGEST_LINE ≤ vec_capacity l.bytes) };
}

impl Lines {
    /// The empty line, with room for all bytes that are ever kept.
    ///
    /// # Errors
    /// `Memory` where the room is not to be had.
    pub fn new(alloc: Global) -> Result<Lines, Memory>
        ensures { IfOk result (λ lines. lines ≡ Some []) }
    {
        let bytes = Vec::with_capacity(alloc, LONGEST_LINE)?;
        Ok(Lines { bytes, long: false })
    }

    /// Takes the bytes of a piece up to and with its first line feed, or the whole piece where it has none. It takes no
    /// memory.
    pub fn push(&mut self, piece: &[u8]) -> Pushed
        ensures { IsPushed self.old piece.now self.new result }
    {
        match memchr(LINE_FEED, piece) {
            Some(at) => {
                self.extend(&piece[..at]);
                Pushed {
                    used: at + 1,
                    ended: true,
                }
            }
            None => {
                self.extend(piece);
                Pushed {
                    used: piece.len(),
                    ended: false,
                }
            }
        }
    }

    // Keeps more bytes of the line, or none once they are too many.
    fn extend(&mut self, more: &[u8])
        ensures { self.new ≡ longer self.old more.now }
    {
        if self.long || more.len() > LONGEST_LINE - self.bytes.len() {
            self.long = true;
            return;
        }
        match self.bytes.extend_from_slice(more) {
            Ok(()) => {}
            Err(_) => unreachable!(),
        }
    }

    /// The line so far, without a line feed, and `None` exactly where it has more than 4,096 bytes. It takes no memory.
    pub fn line(&self) -> Option<&[u8]>
        ensures line { option_map (λ line. line.now) result ≡ self.now }
        ensures short { IfSome self.now (λ line. length line ≤ LONGEST_LINE) }
    {
        if self.long { None } else { Some(&self.bytes) }
    }

    /// Starts the next line. It takes no memory.
    pub fn clear(&mut self)
        ensures { self.new ≡ Some [] }
    {
        self.bytes.clear();
        self.long = false;
    }
}
