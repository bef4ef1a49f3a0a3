//! Laws of lines that arrive in pieces, each the contract of a function that does nothing.
ghost use Rattle.std.specs.Prelude.{◌≡◌, ◌++◌, ◌∷◌, [], ℕ, List, Option, take};
ghost use Rattle.desk_text.specs.Lines.{kept_line, longer, lines, whole_lines, unended, last_line, HasNoLineFeed, IsPushed, KeepsOn};
ghost use Rattle.desk_text.specs.declared.arriving.Pushed.{Pushed};

/// What is kept of a line does not depend on the pieces in which its bytes arrive.
pub fn pieces_do_not_matter()
    ensures { (a b : List ℕ) → longer (kept_line a) b ≡ kept_line (a ++ b) }
{}

/// Where the line of a text that has not ended is kept, a push keeps it after the bytes that it took, or the whole line
/// that they end. So what a user reads and clears line by line are the lines of the text.
pub fn pushes_keep_the_line()
    ensures { (text piece : List ℕ) (new : Option (List ℕ)) (pushed : Pushed) →
        IsPushed (kept_line (unended text)) piece new pushed
        → KeepsOn pushed.ended text (take pushed.used piece) new }
{}

/// The lines of a text are those that a line feed ended and, where it is not empty, what stands after the last of them.
pub fn lines_are_whole_or_last()
    ensures { (text : List ℕ) → lines text ≡ whole_lines text ++ last_line text }
{}

/// Bytes without a line feed end no line, and stand at the end of the one that has not ended.
pub fn bytes_of_a_line_end_none()
    ensures whole { (text more : List ℕ) → HasNoLineFeed more →
        whole_lines (text ++ more) ≡ whole_lines text }
    ensures unended { (text more : List ℕ) → HasNoLineFeed more →
        unended (text ++ more) ≡ unended text ++ more }
{}

/// A line feed ends the line that had not ended.
pub fn a_line_feed_ends_a_line()
    ensures whole { (text more : List ℕ) → HasNoLineFeed more →
        whole_lines (text ++ more ++ 10 ∷ []) ≡ whole_lines text ++ (unended text ++ more) ∷ [] }
    ensures unended { (text more : List ℕ) → unended (text ++ more ++ 10 ∷ []) ≡ [] }
{}
