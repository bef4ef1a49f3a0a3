ghost use Rattle.std.specs.Prelude.{◌≡◌, ◌<◌, ◌≤ℤ◌, ◌↔◌, ◌⊎◌, [], ℕ, pos, negsuc, true, false, length, Ok, Err, IfOk, IfErr, OnOk, OnErr, IsErr, IsOkUnless, option_map};
ghost use Rattle.std.specs.List.{list_any};
ghost use Rattle.std.specs.Result.{result_ok};
ghost use Rattle.desk_model.specs.Name.{is_name};

use crate::answers::{Changed, JudgeFault, NothingToRedo, NothingToUndo};
use crate::change::Change;
use crate::force::{all_in_force, find_document, in_force, told_at, told_by};
use crate::marking::counted;
use crate::steps::{append, redo_first, undo_last};
use crate::tally::Tally;
use desk_model::{Desk, Memory};
use std::alloc::Global;
use std::marker::Model;

/// The judgements of several callers, each of whom can correct, undo and redo their own.
///
/// It is a list of at most 1,000,000 changes, each live or undone, where each caller's undone ones stand after that
/// caller's live ones. The grade in force of a document is that of its last live change, else the judgements file's; a
/// grade below 0 counts as none. Callers are told apart by name, byte by byte. Topics and documents are kept by number,
/// so all calls on one session take the same desk.
#[derive(Drop)]
pub struct Session {
    changes: Vec<Change>,
    // How many live and how many undone changes each caller has, so that a judgement of a caller without undone ones
    // does not walk the list, and of which document the last live one is, so that an undo walks it once.
    tally: Tally,
}

impl Model for Session {
    ghost use Rattle.std.specs.Prelude.{List};
    ghost use Rattle.judge_session.specs.Kept.{IsKept};
    ghost use Rattle.judge_session.specs.declared.change.Change.{Change};

    ghost Value = { List Change };

    ghost view = { λ s. s.changes.items };

    ghost invariant = { λ s. IsKept s.changes.items s.tally };
}

impl Session {
    ghost use Rattle.judge_session.specs.Session.{is_live_by, is_undone_by, judged, undone, redone, last_that, first_that, IsSession};
    ghost use Rattle.judge_session.specs.InForce.{grade_in_force, grades_in_force, told_of, judgeable, IsOfDesk, IsSessionOf, Judges};
    ghost use Rattle.desk_model.specs.Named.{book_at};

    // The greatest number of changes.
    const MOST: usize = 1_000_000;

    /// A session without changes. It takes no memory.
    ///
    /// # Example
    /// Over a desk whose topic `401` has the document `d3`, which has no grade in the file:
    /// ```text
    /// let mut session = Session::new(alloc);
    /// session.judge(alloc, &desk, b"ann", b"401", b"d3", 1)?; // its grade in force is Some(1)
    /// session.judge(alloc, &desk, b"bob", b"401", b"d3", 0)?; // Some(0)
    /// session.undo(&desk, b"ann")?;                           // Some(0): bob's judgement is live
    /// session.undo(&desk, b"bob")?;                           // None: no grade again
    /// ```
    pub fn new(alloc: Global) -> Session
        ensures { result ≡ [] }
    {
        Session {
            changes: Vec::new(alloc),
            tally: Tally::new(alloc),
        }
    }

    /// Judges a document: drops the caller's undone changes and appends a live one. It answers the document and the
    /// grade in force there afterwards, which is the new one, and `None` where that is below 0.
    ///
    /// `who` is the caller's name. The topic and the document are given by their names, and `grade` is from -1,000 to
    /// 1,000; below 0 the document has no grade in force from now on. The list is walked only where the caller has
    /// undone changes.
    ///
    /// # Errors
    /// The first that holds:
    /// - `UnknownTopic`: exactly where the desk has no such topic.
    /// - `UnknownDocument`: exactly where the topic's universe has no such document.
    /// - `HistoryFull`: exactly where 1,000,000 changes would be left after the caller's undone ones were dropped and
    ///   before the new one is appended.
    /// - `Memory`: out of memory, and none of the others holds.
    ///
    /// After each of them the list is as it was, the caller's undone changes included. All memory is taken before
    /// anything is changed.
    pub fn judge(
        &mut self,
        alloc: Global,
        desk: &Desk,
        who: &[u8],
        topic: &[u8],
        doc: &[u8],
        grade: i32,
    ) -> Result<Changed, JudgeFault>
        requires named { is_name who.now ≡ true }
        requires low { negsuc 999 ≤ℤ grade }
        requires high { grade ≤ℤ pos 1000 }
        requires desk { IsSessionOf desk.now self.old }

        ensures judged { IfOk result
            (Judges desk.now who.now topic.now doc.now grade self.old self.new) }
        ensures document { IfOk result (IsOfDesk desk.now) }

        // The first refusal of the topic, the document and the room, exactly where it holds.
        ensures refused { IfErr (judgeable desk.now who.now topic.now doc.now self.old) (λ fault.
            result ≡ Err fault) }
        ensures accepted { OnOk (judgeable desk.now who.now topic.now doc.now self.old)
            (IsOkUnless result JudgeFault.Memory) }
        ensures unchanged { OnErr result (self.new ≡ self.old) }

        ensures session { IsSession self.new }
        ensures desk { IsSessionOf desk.now self.new }
    {
        let undone = self.tally.counts(who).undone as usize;
        let (topic, doc) = find_document(desk, topic, doc)?;
        if self.changes.len() - undone >= Self::MOST {
            return Err(JudgeFault::HistoryFull);
        }
        let Ok(()) = append(
            &mut self.changes,
            &mut self.tally,
            alloc,
            who,
            topic,
            doc,
            grade,
        ) else {
            return Err(JudgeFault::Memory);
        };
        Ok(Changed {
            topic,
            doc,
            grade: counted(Some(grade)),
        })
    }

    /// Marks the caller's last live change as undone, at its place. It answers the document of that change and the
    /// grade in force there afterwards, which may be another caller's. It takes no memory. It looks at each change once
    /// at most, from the last change back.
    ///
    /// # Errors
    /// `NothingToUndo`: exactly where the caller has no live change. The list is as it was.
    pub fn undo(&mut self, desk: &Desk, who: &[u8]) -> Result<Changed, NothingToUndo>
        requires { IsSessionOf desk.now self.old }

        ensures undone { self.new ≡ undone who.now self.old }
        ensures told { result_ok result
            ≡ option_map (told_of desk.now self.new) (last_that (is_live_by who.now) self.old) }
        ensures document { IfOk result (IsOfDesk desk.now) }
        ensures nothing { IsErr result ↔ (list_any (is_live_by who.now) self.old ≡ false) }
        ensures unchanged { OnErr result (self.new ≡ self.old) }

        ensures session { IsSession self.new }
        ensures desk { IsSessionOf desk.now self.new }
    {
        let Some(mark) = undo_last(&mut self.changes, &mut self.tally, who) else {
            return Err(NothingToUndo);
        };
        Ok(told_by(desk, mark.topic, mark.doc, mark.grade))
    }

    /// Makes live again the change that the caller undid last, which is the caller's first undone one in the list. It
    /// keeps its place. It answers the document of that change and the grade in force there afterwards. It takes no
    /// memory. It looks at the list once at most: from the start to that change, and from the end back to it.
    ///
    /// # Errors
    /// `NothingToRedo`: exactly where the caller has no undone change. The list is as it was.
    pub fn redo(&mut self, desk: &Desk, who: &[u8]) -> Result<Changed, NothingToRedo>
        requires { IsSessionOf desk.now self.old }

        ensures redone { self.new ≡ redone who.now self.old }
        ensures told { result_ok result
            ≡ option_map (told_of desk.now self.new) (first_that (is_undone_by who.now) self.old) }
        ensures document { IfOk result (IsOfDesk desk.now) }
        ensures nothing { IsErr result ↔ (list_any (is_undone_by who.now) self.old ≡ false) }
        ensures unchanged { OnErr result (self.new ≡ self.old) }

        ensures session { IsSession self.new }
        ensures desk { IsSessionOf desk.now self.new }
    {
        let Some(place) = redo_first(&mut self.changes, &mut self.tally, who) else {
            return Err(NothingToRedo);
        };
        Ok(told_at(&self.changes, desk, place))
    }

    /// The grade in force of a document, from 0, and `None` exactly where it has none. Topic and document are given by
    /// their numbers. It takes no memory. It looks at the list once at most, from the end back to the document's last
    /// live change.
    pub fn grade(&self, desk: &Desk, topic: u32, doc: u32) -> Option<i32>
        requires topic { topic < length desk.now.topics }
        requires doc { doc < length (book_at desk.now topic).docs }
        ensures { result ≡ grade_in_force desk.now topic doc self.now }
    {
        in_force(&self.changes, desk, topic, doc)
    }

    /// The grades in force of all documents of a topic, in the order of their numbers, and `None` for each document
    /// without one. The topic is given by its number.
    ///
    /// # Errors
    /// `Memory`: out of memory.
    pub fn current(
        &self,
        alloc: Global,
        desk: &Desk,
        topic: u32,
    ) -> Result<Vec<Option<i32>>, Memory>
        requires topic { topic < length desk.now.topics }
        requires desk { IsSessionOf desk.now self.now }
        ensures { IfOk result (λ grades. grades.items ≡ grades_in_force desk.now topic self.now) }
    {
        all_in_force(alloc, &self.changes, desk, topic)
    }
}
