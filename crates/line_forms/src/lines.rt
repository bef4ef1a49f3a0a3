//! The lines of a text, taken one after another.
ghost use Rattle.std.specs.Prelude.{◌≡◌, ◌≢◌, ◌++◌, ◌∷◌, [], ◌+◌, ◌-◌, ◌≤◌, List, ℕ, length, take, IfSome, IfNone};
ghost use Rattle.line_forms.specs.Form.{ended};
ghost use Rattle.line_forms.specs.Reading.{IsFreeOf};
ghost use Rattle.line_forms.specs.Faults.{fault_of_name};
ghost use Rattle.line_forms.specs.declared.lines.FormFault.TheVariants.{Memory as MemoryFault};

use desk_model::{Memory, NameFault};
use memchr::memchr;
use std::alloc::{AllocError, AllocFailed};
use std::marker::Model;

/// Why a part of a text was not read.
#[derive(Clone, Copy)]
pub enum FormFault {
    /// The line that was taken last is not as the form wants it at its place, or is not there.
    Bad,
    /// Out of memory.
    Memory,
}

impl From<Memory> for FormFault {
    ghost from_gives = { λ _ e. e ≡ MemoryFault };

    fn from(_: Memory) -> FormFault {
        FormFault::Memory
    }
}

impl From<AllocError> for FormFault {
    ghost from_gives = { λ _ e. e ≡ MemoryFault };

    fn from(_: AllocError) -> FormFault {
        FormFault::Memory
    }
}

impl<T: Drop> From<AllocFailed<T>> for FormFault {
    ghost from_gives = { λ _ e. e ≡ MemoryFault };

    fn from(_: AllocFailed<T>) -> FormFault {
        FormFault::Memory
    }
}

impl From<NameFault> for FormFault {
    ghost from_gives = { λ fault e. e ≡ fault_of_name fault };

    fn from(fault: NameFault) -> FormFault {
        match fault {
            NameFault::BadName => FormFault::Bad,
            NameFault::Memory => FormFault::Memory,
        }
    }
}

/// What is left of a text whose lines are taken one after another.
#[derive(Drop)]
pub struct TextLines<'a> {
    // The bytes from the line on that was taken last.
    last: &'a [u8],
    // The bytes after it.
    rest: &'a [u8],
}

impl<'a> Model for TextLines<'a> {
    ghost use Rattle.line_forms.specs.Reading.{Left};

    ghost Value = { Left };

    ghost view = { λ l. record { last = l.last.now; rest = l.rest.now } };
}

impl<'a> TextLines<'a> {
    /// All lines of a text.
    pub fn new(text: &'a [u8]) -> TextLines<'a>
        ensures { result ≡ record { last = text.now; rest = text.now } }
    {
        TextLines {
            last: text,
            rest: text,
        }
    }

    /// Takes the next line, without its line feed, if one is left that ends with a line feed.
    pub fn next_line(&mut self) -> Option<&'a [u8]>
        ensures last { self.new.last ≡ self.old.rest }
        ensures some { IfSome result (λ line. self.old.rest ≡ ended line.now ++ self.new.rest) }
        ensures feedless { IfSome result (λ line. IsFreeOf 10 line.now) }
        ensures none { IfNone result ((line more : List ℕ) → self.old.rest ≢ ended line ++ more) }
    {
        self.last = self.rest;
        let (line, rest) = cut(self.rest, b'\n')?;
        self.rest = rest;
        Some(line)
    }

    /// Takes what comes before these bytes, as one line.
    #[inline(always)]
    pub(crate) fn take_up_to(&mut self, rest: &'a [u8])
        ensures { self.new ≡ record { last = self.old.rest; rest = rest.now } }
    {
        *self = TextLines {
            last: self.rest,
            rest,
        };
    }

    /// The bytes from the line on that was taken last.
    pub fn last(&self) -> &'a [u8]
        ensures { result.now ≡ self.now.last }
    {
        self.last
    }

    /// The bytes that are left.
    pub fn rest(&self) -> &'a [u8]
        ensures { result.now ≡ self.now.rest }
    {
        self.rest
    }
}

/// The bytes before and after the first of one byte.
pub fn cut(text: &[u8], byte: u8) -> Option<(&[u8], &[u8])>
    ensures some { IfSome result (λ p. text.now ≡ p.0.now ++ byte ∷ p.1.now) }
    ensures free { IfSome result (λ p. IsFreeOf byte p.0.now) }
    ensures none { IfNone result ((before after : List ℕ) → text.now ≢ before ++ byte ∷ after) }
{
    match memchr(byte, text) {
        Some(at) => Some((&text[..at], &text[at + 1..])),
        None => None,
    }
}

/// The text after a prefix.
pub fn after<'a>(text: &'a [u8], prefix: &[u8]) -> Option<&'a [u8]>
    ensures some { IfSome result (λ rest. text.now ≡ prefix.now ++ rest.now) }
    ensures none { IfNone result ((rest : List ℕ) → text.now ≢ prefix.now ++ rest) }
{
    text.strip_prefix(prefix)
}
