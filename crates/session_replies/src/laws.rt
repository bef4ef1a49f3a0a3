//! Laws of replies and of marks, each the contract of a function that does nothing.
ghost use Rattle.session_replies.specs.Laws.{RepliesAreOne, JudgedSetsOneMark, UndoneSetsOneMark, RedoneSetsOneMark};

use next_document::laws::next_is_one;

/// A line has one reply: the setting and the changes before it determine the text.
pub fn replies_are_one()
    ensures { RepliesAreOne }
{
    next_is_one();
}

/// A change that is accepted sets the mark of one document, to that by the judgements in force after it, and leaves
/// all other marks.
pub fn changes_set_one_mark()
    ensures judged { JudgedSetsOneMark }
    ensures undone { UndoneSetsOneMark }
    ensures redone { RedoneSetsOneMark }
{}
