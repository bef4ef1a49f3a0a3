//! Laws of the lines, each the contract of a function that does nothing.
ghost use Rattle.std.specs.Prelude.{◌≡◌, ◌↔◌, ◌<◌, ℕ, List, length, true};
ghost use Rattle.desk_text.specs.Lines.{is_blank};
ghost use Rattle.judge_session.specs.Request.{heard_of, Blank, TooLong};
ghost use Rattle.judge_session.specs.Forms.{IsHeardWithin, RequestsAreOfTheirForm, BadLinesAreOfNoForm};

/// A line is too long exactly where it has more than 4,096 bytes, also where it is of a form.
pub fn long_lines_are_too_long()
    ensures { (line : List ℕ) → (heard_of line ≡ TooLong) ↔ (4096 < length line) }
{}

/// A line is passed over exactly where it is not too long and holds nothing but separators.
pub fn blank_lines_are_passed_over()
    ensures { (line : List ℕ) → (heard_of line ≡ Blank) ↔ (is_blank line ≡ true) }
{}

/// A line asks something exactly where it is of the form that asks it: not too long, without a bad byte, with the
/// fields of the form, whose names are names, whose grade is a grade and whose depth is a depth.
pub fn requests_are_of_their_form()
    ensures { RequestsAreOfTheirForm }
{}

/// A line is bad exactly where it is not too long, not blank and of none of the ten forms.
pub fn bad_lines_are_of_no_form()
    ensures { BadLinesAreOfNoForm }
{}

/// What is heard of a line has names that are names, a grade from -1,000 to 1,000 and a depth from 1 to 10,000.
pub fn requests_are_within_limits()
    ensures { (line : List ℕ) → IsHeardWithin (heard_of line) }
{}
