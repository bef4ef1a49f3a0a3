// A sheet.
ghost use Rattle.std.specs.Prelude.{◌≡◌, ◌<◌, ◌≤◌, [], All, true, length, option_map, IfOk, OnOk, IfErr, OnErr, Err};
ghost use Rattle.desk_model.specs.Named.{book_at};
ghost use Rattle.sheet_merge.specs.Sheet.{IsSheet, greatest_on, merged};
ghost use Rattle.sheet_merge.specs.Text.{sheet_text};
ghost use Rattle.sheet_merge.specs.declared.limits.TheConstants.{ENTRY_LIMIT};

use crate::fault::MergeFault;
use crate::find::find;
use crate::merge::merged;
use crate::placing::{check_placed, grades_over};
use crate::rows::SheetRows;
use crate::text::rows_text;
use desk_model::{Desk, Memory};
use std::alloc::Global;
use std::marker::Model;

/// What the first entry of a sheet lacks that has no place in a desk.
#[derive(Clone, Copy, Debug, PartialEq, Eq)]
pub enum NotPlaced<'s> {
    /// Its topic is not in the desk.
    UnknownTopic {
        /// The topic.
        topic: &'s [u8],
    },
    /// Its topic is in the desk, and the document is not in the topic's universe.
    UnknownDocument {
        /// The topic.
        topic: &'s [u8],
        /// The document.
        doc: &'s [u8],
    },
}

/// A sheet of assessors: for each document of a topic that it names the greatest entry, compared by stamp, then by assessor, then by
/// grade. A clause sees the list of these rows, ascending by topic and then by document; there are at most 1,000,000.
#[derive(Drop)]
pub struct Sheet {
    rows: SheetRows,
}

impl Model for Sheet {
    ghost use Rattle.std.specs.Prelude.{List};
    ghost use Rattle.sheet_merge.specs.Sheet.{SheetRow, IsSheet};

    ghost Value = { List SheetRow };

    ghost view = { λ s. s.rows };

    ghost invariant = { λ s. IsSheet s.rows };
}

impl Sheet {
    ghost use Rattle.sheet_merge.specs.Placed.{is_placed, IsFirstLack, grades_under};

    pub(crate) fn new(rows: SheetRows) -> Sheet
        requires { IsSheet rows }
        ensures { result ≡ rows }
    {
        Sheet { rows }
    }

    /// A sheet without an entry. It takes no memory.
    pub fn empty(alloc: Global) -> Sheet
        ensures { result ≡ [] }
    {
        Sheet::new(SheetRows::new(alloc))
    }

    /// That the sheet is valid, as each is by its type. It costs nothing, and is called where a proof needs the fact.
    pub fn valid(&self)
        ensures { IsSheet self.now }
    {
        let _ = &self.rows;
    }

    /// Adds the entries of another sheet: of each document the greater entry stands. The sheet is as before after an error.
    ///
    /// # Errors
    /// - `TooManyEntries`: exactly where the two have entries of more than 1,000,000 documents together.
    /// - `Memory`: out of memory.
    pub fn merge(&mut self, alloc: Global, other: &Sheet) -> Result<(), MergeFault>
        ensures merged { OnOk result (self.new ≡ merged self.old other.now) }
        ensures few { OnOk result (length (merged self.old other.now) ≤ ENTRY_LIMIT) }
        ensures many { result ≡ Err MergeFault.TooManyEntries →
            ENTRY_LIMIT < length (merged self.old other.now) }
        ensures unchanged { OnErr result (self.new ≡ self.old) }
    {
        self.rows = merged(alloc, &self.rows, &other.rows)?;
        Ok(())
    }

    /// As `merge`, with a sheet that is given up: where this one has no entry, the other is taken as it is.
    ///
    /// # Errors
    /// As for `merge`.
    pub fn take_in(&mut self, alloc: Global, other: Sheet) -> Result<(), MergeFault>
        ensures merged { OnOk result (self.new ≡ merged self.old other) }
        ensures few { OnOk result (length (merged self.old other) ≤ ENTRY_LIMIT) }
        ensures many { result ≡ Err MergeFault.TooManyEntries →
            ENTRY_LIMIT < length (merged self.old other) }
        ensures unchanged { OnErr result (self.new ≡ self.old) }
    {
        if self.rows.len() > 0 {
            return self.merge(alloc, &other);
        }
        other.valid();
        *self = other;
        Ok(())
    }

    /// The grade of a document's entry, as it was read, and `None` exactly where the sheet has none of it. It takes no memory.
    pub fn grade(&self, topic: &[u8], doc: &[u8]) -> Option<i32>
        ensures { result ≡ option_map (λ entry. entry.grade)
            (greatest_on (topic.now, doc.now) self.now) }
    {
        match find(&self.rows, topic, doc) {
            Some(row) => Some(row.grade() as i32),
            None => None,
        }
    }

    /// The sheet as text: a line `STAMP WHO TOPIC DOC GRADE` for each document, ascending by topic and then by document. Grades are
    /// printed as they were read, with no `+` and no leading zero.
    ///
    /// # Errors
    /// `Memory`: out of memory.
    pub fn text(&self, alloc: Global) -> Result<Vec<u8>, Memory>
        ensures { IfOk result (λ text. text.items ≡ sheet_text self.now) }
    {
        Ok(rows_text(alloc, &self.rows)?)
    }

    /// Whether each entry has a place in a desk; else what the first lacks that has none, ascending by topic and then by document:
    /// `UnknownTopic` exactly where its topic is not in the desk, and `UnknownDocument` exactly where that is there and the document
    /// is not in its universe. It takes no memory.
    pub fn placed<'s>(&'s self, desk: &Desk) -> Result<(), NotPlaced<'s>>
        ensures all { OnOk result (All (λ row. is_placed desk.now row.0 ≡ true) self.now) }
        ensures first { IfErr result (IsFirstLack desk.now self.now) }
    {
        check_placed(desk, &self.rows)
    }

    /// The grades in force of the documents of a topic, by document, where the sheet stands over the judgements file: the grade of a
    /// document's entry, else the file's, and `None` where there is neither or it is below 0. Topics are numbered from 0.
    ///
    /// # Errors
    /// `Memory`: out of memory.
    pub fn grades_under(
        &self,
        alloc: Global,
        desk: &Desk,
        topic: u32,
    ) -> Result<Vec<Option<i32>>, Memory>
        requires { topic < length desk.now.topics }
        ensures { IfOk result (λ grades. grades.items ≡
            grades_under (book_at desk.now topic) self.now) }
    {
        Ok(grades_over(alloc, &self.rows, desk.topic(topic))?)
    }
}
