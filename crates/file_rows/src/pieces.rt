// Lines of a file whose bytes arrive in pieces.
ghost use Rattle.std.specs.Prelude.{◌≡◌, ◌≢◌, ◌+◌, ◌<◌, ◌≤◌, ◌++◌, ◌∷◌, [], List, ℕ, Some, IfOk, IfSome, length, take, option_map, true, false};
ghost use Rattle.desk_text.specs.Lines.{lines, kept_line};
ghost use Rattle.file_rows.specs.Pieces.{HasFed, EndsLine};

use desk_model::Memory;
use desk_text::Lines;
use memchr::memchr;
use std::alloc::Global;

const LINE_FEED: u8 = b'\n';

/// A reader of lines. After its first fault it keeps nothing more.
pub trait LineReader {
    ghost use Rattle.std.specs.Prelude.{◌≡◌, ◌++◌, ◌∷◌, [], List, ℕ, Bool, true, option_map};
    ghost use Rattle.desk_text.specs.Lines.{kept_line};

    // it has read lines
    ghost has_read: { Self → List (List ℕ) → Type 0 };

    // one of them has a fault
    ghost stopped: { Self → Bool };

    // it can read more
    ghost is_ready: { Self → Type 0 };

    // it reads beside the same as an earlier one
    ghost same: { Self → Self → Type 0 };

    /// Whether a line had a fault.
    fn is_stopped(&self) -> bool
        ensures { result ≡ stopped self.now };

    /// Reads a line.
    fn read(&mut self, line: &[u8])
        requires { is_ready self.old }
        ensures ready { is_ready self.new }
        ensures same { same self.old self.new }
        ensures read { (before : List (List ℕ)) → has_read self.old before →
            has_read self.new (before ++ line.now ∷ []) };

    /// Reads a line, or what is kept of it: nothing where it is too long.
    fn read_kept(&mut self, kept: Option<&[u8]>)
        requires { is_ready self.old }
        ensures ready { is_ready self.new }
        ensures same { same self.old self.new }
        ensures read { (before : List (List ℕ)) (line : List ℕ) →
            option_map (λ bytes. bytes.now) kept.entry ≡ kept_line line →
            has_read self.old before → has_read self.new (before ++ line ∷ []) };

    // lines after one that has a fault change nothing
    ghost stays: { (reader : Self) (before more : List (List ℕ)) → stopped reader ≡ true → has_read reader before → has_read reader (before ++ more) };

    ghost itself: { (reader : Self) → same reader reader };

    ghost later: { (old now new : Self) → same old now → same now new → same old new };
}

/// Bytes in pieces, of which each whole line is read and the one that has not ended is kept.
#[derive(Drop)]
pub struct Pieces<R: LineReader + Drop> {
    pub reader: R,
    unended: Lines,
}

impl<R: LineReader + Drop> Pieces<R> {
    /// No byte.
    ///
    /// # Errors
    /// `Memory` where there is no room for a line.
    pub fn new(alloc: Global, reader: R) -> Result<Pieces<R>, Memory>
        ensures reader { IfOk result (λ pieces. pieces.reader ≡ reader) }
        ensures line { IfOk result (λ pieces. pieces.unended ≡ Some []) }
    {
        match Lines::new(alloc) {
            Ok(unended) => Ok(Pieces { reader, unended }),
            Err(_) => Err(Memory),
        }
    }

    /// Takes the bytes of a piece.
    pub fn feed(&mut self, piece: &[u8])
        requires { R.is_ready self.old.reader }
        ensures ready { R.is_ready self.new.reader }
        ensures same { R.same self.old.reader self.new.reader }
        ensures fed { (fed : List ℕ) →
            HasFed R.has_read R.stopped self.old.reader self.old.unended fed →
            HasFed R.has_read R.stopped self.new.reader self.new.unended (fed ++ piece.now) }
    {
        let mut at = 0;
        while at < piece.len() {
            at += self.take(&piece[at..]);
        }
    }

    /// The reader at the end of the bytes, whose last line needs no line feed.
    pub fn end(self) -> R
        requires { R.is_ready self.reader }
        ensures ready { R.is_ready result }
        ensures same { R.same self.reader result }
        ensures fed { (fed : List ℕ) → HasFed R.has_read R.stopped self.reader self.unended fed →
            R.has_read result (lines fed) }
    {
        let Pieces {
            mut reader,
            unended,
        } = self;
        if !reader.is_stopped() {
            read_last(&mut reader, &unended);
        }
        reader
    }

    // Takes bytes of a piece, to the end of a line or of the piece.
    fn take(&mut self, piece: &[u8]) -> usize
        requires some { 0 < length piece.now }
        requires ready { R.is_ready self.old.reader }
        ensures ready { R.is_ready self.new.reader }
        ensures same { R.same self.old.reader self.new.reader }
        ensures some { 0 < result }
        ensures within { result ≤ length piece.now }
        ensures fed { (fed : List ℕ) →
            HasFed R.has_read R.stopped self.old.reader self.old.unended fed →
            HasFed R.has_read R.stopped self.new.reader self.new.unended (fed ++
            take result piece.now) }
    {
        if self.reader.is_stopped() {
            return piece.len();
        }
        if is_empty(&self.unended) {
            if let Some(end) = line_end(piece) {
                self.reader.read(&piece[..end]);
                return end + 1;
            }
        }
        self.push(piece)
    }

    // Takes bytes of a piece into the line that has not ended, and reads this where they end it.
    fn push(&mut self, piece: &[u8]) -> usize
        requires some { 0 < length piece.now }
        requires ready { R.is_ready self.old.reader }
        ensures ready { R.is_ready self.new.reader }
        ensures same { R.same self.old.reader self.new.reader }
        ensures some { 0 < result }
        ensures within { result ≤ length piece.now }
        ensures fed { (fed : List ℕ) → R.stopped self.old.reader ≡ false →
            HasFed R.has_read R.stopped self.old.reader self.old.unended fed →
            HasFed R.has_read R.stopped self.new.reader self.new.unended (fed ++
            take result piece.now) }
    {
        let pushed = self.unended.push(piece);
        if pushed.ended {
            self.reader.read_kept(self.unended.line());
            self.unended.clear();
        }
        pushed.used
    }
}

// Reads the line that has not ended, if there is one.
fn read_last<R: LineReader>(reader: &mut R, unended: &Lines)
    requires { R.is_ready reader.old }
    ensures ready { R.is_ready reader.new }
    ensures same { R.same reader.old reader.new }
    ensures fed { (fed : List ℕ) → R.stopped reader.old ≡ false →
        HasFed R.has_read R.stopped reader.old unended.now fed → R.has_read reader.new (lines fed) }
{
    if !is_empty(unended) {
        reader.read_kept(unended.line());
    }
}

// Whether no byte of a line is kept.
fn is_empty(unended: &Lines) -> bool
    ensures yes { result ≡ true → unended.now ≡ Some [] }
    ensures no { result ≡ false → unended.now ≢ Some [] }
{
    match unended.line() {
        Some(line) => line.is_empty(),
        None => false,
    }
}

// Where the first line of a piece ends.
fn line_end(piece: &[u8]) -> Option<usize>
    ensures { IfSome result (EndsLine piece.now) }
{
    memchr(LINE_FEED, piece)
}
