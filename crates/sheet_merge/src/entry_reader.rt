// A reader of the lines of a sheet.
ghost use Rattle.std.specs.Prelude.{◌≡◌, ◌⊎◌, ◌+◌, [], ◌∷◌, ◌++◌, true, false, List, ℕ, length, IfErr, OnOk};
ghost use Rattle.desk_text.specs.Lines.{lines};
ghost use Rattle.file_rows.specs.Reading.{IsTooLong};
ghost use Rattle.sheet_merge.specs.Lines.{brings_too_many, sheet_of, IsSheetUnlessMemory};
ghost use Rattle.sheet_merge.specs.Reader.{entry_said, HaveGreatest, ReadsEntry, HasReadEntries};
ghost use Rattle.sheet_merge.specs.Sheet.{SheetRow, IsSheetRow};
ghost use Rattle.sheet_merge.specs.Table.{with_entry};

use crate::fault::{SheetFault, SheetLineFault};
use crate::kept::KeptEntry;
use crate::key::PlaceKey;
use crate::line::{EntryText, entry_text};
use crate::sheet::Sheet;
use crate::sorted::sorted_sheet;
use crate::table::EntryTable;
use desk_text::is_blank;
use file_rows::{Fed, LineReader};
use std::alloc::Global;

/// Reads a sheet line by line. A first fault is kept, and the lines after it are passed over.
#[derive(Drop)]
pub struct EntryReader {
    alloc: Global,
    table: EntryTable,
    lines: u64,
    fault: Option<SheetFault>,
}

impl LineReader for EntryReader {
    ghost use Rattle.std.specs.Prelude.{is_some};
    ghost use Rattle.sheet_merge.specs.Stopped.{stays};
    ghost use Rattle.sheet_merge.specs.Reader.{HasReadEntries};

    ghost has_read = { λ reader. HasReadEntries reader.fault reader };

    ghost stopped = { λ reader. is_some reader.fault };

    ghost is_ready = { λ _. Unit {0} };

    ghost same = { λ _ _. Unit {0} };

    ghost stays = { λ reader before more. stays reader reader.fault before more };

    ghost itself = { λ _. tt };

    ghost later = { λ _ _ _ _ _. tt };

    fn is_stopped(&self) -> bool {
        self.fault.is_some()
    }

    fn read(&mut self, line: &[u8]) {
        match self.fault {
            Some(_) => {}
            None => match self.read_next(line) {
                Ok(()) => {}
                Err(fault) => self.fault = Some(fault),
            },
        }
    }

    fn read_kept(&mut self, kept: Option<&[u8]>) {
        match kept {
            Some(line) => self.read(line),
            None => self.read_long(),
        }
    }
}

impl EntryReader {
    pub fn new(alloc: Global) -> EntryReader
        ensures { HasReadEntries result.fault result [] }
    {
        EntryReader {
            alloc,
            table: EntryTable::new(alloc),
            lines: 0,
            fault: None,
        }
    }

    /// Whether memory ran out.
    pub fn lacks_memory(&self) -> bool {
        matches!(self.fault, Some(SheetFault::Memory))
    }

    /// What was read of the bytes that were fed.
    pub fn finish(self, fed: &Fed) -> Result<Sheet, SheetFault>
        requires { HasReadEntries self.fault self (lines fed.now.bytes) }
        ensures { IsSheetUnlessMemory result (sheet_of fed.now.bytes) }
    {
        match self.fault {
            Some(fault) => Err(fault),
            None => sorted_sheet(self.alloc, &self.table),
        }
    }

    // Reads a line that is too long.
    fn read_long(&mut self)
        ensures { (before : List (List ℕ)) (line : List ℕ) → IsTooLong line →
            HasReadEntries self.old.fault self.old before →
            HasReadEntries self.new.fault self.new (before ++ line ∷ []) }
    {
        match self.fault {
            Some(_) => {}
            None => self.fault = Some(SheetFault::too_long(self.lines)),
        }
    }

    // Reads the next line. Where there are too many to be counted, memory is said to run out.
    fn read_next(&mut self, line: &[u8]) -> Result<(), SheetFault>
        ensures read { (rows : List SheetRow) → HaveGreatest self.old.table rows →
            ReadsEntry (self.old.lines + 1) rows line.now result self.new.table }
        ensures lines { OnOk result (self.new.lines ≡ self.old.lines + 1) }
        ensures fault { OnOk result (self.new.fault ≡ self.old.fault) }
    {
        if self.lines == u64::MAX {
            return Err(SheetFault::Memory);
        }
        self.lines += 1;
        if is_blank(line) {
            return Ok(());
        }
        match entry_text(line) {
            Ok(text) => self.add(&text),
            Err(fault) => Err(SheetFault::Line {
                line: self.lines,
                fault,
            }),
        }
    }

    // Adds what the line says that was read last.
    fn add(&mut self, text: &EntryText<'_>) -> Result<(), SheetFault>
        requires { IsSheetRow (entry_said text.now) }
        ensures within { OnOk result (brings_too_many (entry_said text.now).0 self.old.table ≡
            false) }
        ensures added { OnOk result (self.new.table ≡
            with_entry (entry_said text.now) self.old.table) }
        ensures lines { OnOk result (self.new.lines ≡ self.old.lines) }
        ensures fault { OnOk result (self.new.fault ≡ self.old.fault) }
        ensures wrong { IfErr result (λ e. (e ≡ SheetFault.Memory)
            ⊎ ((brings_too_many (entry_said text.now).0 self.old.table ≡ true) ×
            (e ≡ SheetFault.Line self.old.lines SheetLineFault.TooManyEntries))) }
    {
        let place = PlaceKey::new(self.alloc, text.topic, text.document)?;
        if self.table.is_one_too_many(&place) {
            return Err(SheetFault::Line {
                line: self.lines,
                fault: SheetLineFault::TooManyEntries,
            });
        }
        let entry = KeptEntry::new(self.alloc, text.stamp, text.who, text.grade)?;
        self.table.put(self.alloc, place, entry)?;
        Ok(())
    }
}
