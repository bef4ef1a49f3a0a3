//! Laws of sessions, each the contract of a function that does nothing.
ghost use Rattle.std.specs.Prelude.{◌≡◌, ◌↔◌, ◌⊎◌, ◌≢◌, ℕ, ℤ, [], List, Option, true, false, Some, Err, IsOk, length, slice_get};
ghost use Rattle.std.specs.List.{list_any};
ghost use Rattle.desk_model.specs.Desk.{Desk};
ghost use Rattle.judge_session.specs.Session.{is_by, is_live_by, is_in_turn, without_undone, judged, undone, redone, CHANGE_LIMIT, IsSession};
ghost use Rattle.judge_session.specs.InForce.{grade_after, found_document, judgeable};
ghost use Rattle.judge_session.specs.declared.answers.JudgeFault.TheVariants.{HistoryFull};
ghost use Rattle.judge_session.specs.declared.change.Change.{Change};

/// Each caller's undone changes stand after that caller's live ones at the start, and each step keeps
/// that. So a caller's first undone change is the one that was undone last.
pub fn steps_keep_turns()
    ensures none { is_in_turn [] ≡ true }
    ensures judged { (who : List ℕ) (topic doc : ℕ) (grade : ℤ) (changes : List Change) →
        is_in_turn changes ≡ true → is_in_turn (judged who topic doc grade changes) ≡ true }
    ensures undone { (who : List ℕ) (changes : List Change) →
        is_in_turn changes ≡ true → is_in_turn (undone who changes) ≡ true }
    ensures redone { (who : List ℕ) (changes : List Change) →
        is_in_turn changes ≡ true → is_in_turn (redone who changes) ≡ true }
{}

/// A judgement directly followed by its caller's undo leaves all grades in force.
pub fn judge_then_undo()
    ensures { (who : List ℕ) (topic doc : ℕ) (grade : ℤ) (changes : List Change) (file : Option ℤ)
        (t d : ℕ) →
        grade_after file t d (undone who (judged who topic doc grade changes)) ≡
        grade_after file t d changes }
{}

/// An undo of a caller with a live change, directly followed by that caller's redo, leaves the whole list.
pub fn undo_then_redo()
    ensures { (who : List ℕ) (changes : List Change) → is_in_turn changes ≡ true →
        list_any (is_live_by who) changes ≡ true → redone who (undone who changes) ≡ changes }
{}

/// An undo and a redo mark no other caller's change, and add and drop none.
pub fn marks_are_own()
    ensures undo { (who : List ℕ) (changes : List Change) (place : ℕ) (change : Change) →
        slice_get changes place ≡ Some change → is_by who change ≡ false →
        slice_get (undone who changes) place ≡ Some change }
    ensures undo_length { (who : List ℕ) (changes : List Change) →
        length (undone who changes) ≡ length changes }
    ensures redo { (who : List ℕ) (changes : List Change) (place : ℕ) (change : Change) →
        slice_get changes place ≡ Some change → is_by who change ≡ false →
        slice_get (redone who changes) place ≡ Some change }
    ensures redo_length { (who : List ℕ) (changes : List Change) →
        length (redone who changes) ≡ length changes }
{}

/// A judgement is refused for a full history exactly where its document is there and 1,000,000 changes
/// would be left without the caller's undone ones.
pub fn history_is_full_at_its_limit()
    ensures { (desk : Desk) (who topic doc : List ℕ) (changes : List Change) → IsSession changes →
        (judgeable desk who topic doc changes ≡ Err HistoryFull)
        ↔ (IsOk (found_document desk topic doc) ×
        (length (without_undone who changes) ≡ CHANGE_LIMIT)) }
{}

/// Two judgements of different documents leave the same grades in force in both orders.
pub fn judgements_of_two_documents_commute()
    ensures { (who other : List ℕ) (topic doc topic' doc' : ℕ) (grade grade' : ℤ)
        (changes : List Change) →
        (topic ≢ topic') ⊎ (doc ≢ doc') → (file : Option ℤ) (t d : ℕ) →
        grade_after file t d (judged other topic' doc' grade' (judged who topic doc grade changes))
        ≡ grade_after file t d
        (judged who topic doc grade (judged other topic' doc' grade' changes)) }
{}
