// A reader of the lines of a qrels file.
ghost use Rattle.std.specs.Prelude.{◌≡◌, ◌⊎◌, ◌+◌, ◌<◌, ◌≤◌, [], ◌∷◌, ◌++◌, List, ℕ, length, IfErr, OnOk, Ok, Err, ◌==◌, if◌then◌else◌};
ghost use Rattle.desk_text.specs.Lines.{lines};
ghost use Rattle.file_rows.specs.Reading.{checked, IsTooLong, IsUnlessMemory};
ghost use Rattle.file_rows.specs.Rows.{Row};
ghost use Rattle.file_rows.specs.Grouped.{with_row_on, place_of, row_count, name_bytes_in, grouped};
ghost use Rattle.file_rows.specs.declared.limits.TheConstants.{MOST_NAME_BYTES};
ghost use Rattle.qrels_reader.specs.Grouped.{qrels_of, limits_after, faults_after, IsQrels};
ghost use Rattle.qrels_reader.specs.Reader.{row_said, ReadsLine, HasRead};

use crate::limits::{MOST_QRELS_ROWS, MOST_TOPICS};
use crate::line::{RowText, row_text};
use crate::qrels::Qrels;
use desk_text::is_blank;
use file_rows::{Fed, FileFault, GrowingRows, LineFault, LineReader, MOST_NAME_BYTES};
use std::alloc::Global;

/// Reads a qrels file line by line. A first fault is kept, and the lines after it are passed over.
#[derive(Drop)]
pub struct RowReader {
    alloc: Global,
    groups: GrowingRows<i16>,
    lines: u64,
    fault: Option<FileFault>,
}

impl LineReader for RowReader {
    ghost use Rattle.std.specs.Prelude.{is_some};
    ghost use Rattle.file_rows.proofs.ReadOn.{stays};
    ghost use Rattle.qrels_reader.specs.Rows.{read_row};
    ghost use Rattle.qrels_reader.specs.Reader.{Gathers, HasRead};

    ghost has_read = { λ reader. HasRead reader.fault reader };

    ghost stopped = { λ reader. is_some reader.fault };

    ghost is_ready = { λ _. Unit {0} };

    ghost same = { λ _ _. Unit {0} };

    ghost stays = { λ reader before more. stays read_row (Gathers reader) reader.fault before more };

    ghost itself = { λ _. tt };

    ghost later = { λ _ _ _ _ _. tt };

    fn is_stopped(&self) -> bool {
        self.fault.is_some()
    }

    fn read(&mut self, line: &[u8]) {
        match self.fault {
            Some(_) => {}
            None => match self.read_next(line) {
                Ok(()) => {}
                Err(fault) => self.fault = Some(fault),
            },
        }
    }

    fn read_kept(&mut self, kept: Option<&[u8]>) {
        match kept {
            Some(line) => self.read(line),
            None => self.read_long(),
        }
    }
}

impl RowReader {
    pub fn new(alloc: Global) -> RowReader
        ensures { HasRead result.fault result [] }
    {
        RowReader {
            alloc,
            groups: GrowingRows::new(alloc),
            lines: 0,
            fault: None,
        }
    }

    /// Whether memory ran out.
    pub fn lacks_memory(&self) -> bool {
        matches!(self.fault, Some(FileFault::Memory))
    }

    /// What was read of the bytes that were fed.
    pub fn finish(self, fed: &Fed) -> Result<Qrels, FileFault>
        requires { HasRead self.fault self (lines fed.now.bytes) }
        ensures { IsUnlessMemory result (qrels_of fed.now.bytes) }
    {
        match self.fault {
            Some(fault) => Err(fault),
            None => qrels_from(self.alloc, self.groups),
        }
    }

    // Reads a line that is too long.
    fn read_long(&mut self)
        ensures { (before : List (List ℕ)) (line : List ℕ) → IsTooLong line →
            HasRead self.old.fault self.old before →
            HasRead self.new.fault self.new (before ++ line ∷ []) }
    {
        match self.fault {
            Some(_) => {}
            None => self.fault = Some(FileFault::too_long(self.lines)),
        }
    }

    // Reads the next line. Where there are too many to be counted, memory is said to run out.
    fn read_next(&mut self, line: &[u8]) -> Result<(), FileFault>
        ensures read { (rows : List Row) → self.old.groups ≡ grouped rows →
            ReadsLine (self.old.lines + 1) rows line.now result self.new.groups }
        ensures lines { OnOk result (self.new.lines ≡ self.old.lines + 1) }
        ensures fault { OnOk result (self.new.fault ≡ self.old.fault) }
    {
        if self.lines == u64::MAX {
            return Err(FileFault::Memory);
        }
        self.lines += 1;
        if is_blank(line) {
            return Ok(());
        }
        match row_text(line) {
            Ok(row) => self.add(&row),
            Err(fault) => Err(FileFault::Line {
                line: self.lines,
                fault,
            }),
        }
    }

    // A row of the line that was read last.
    fn add(&mut self, row: &RowText<'_>) -> Result<(), FileFault>
        ensures right { OnOk result (checked (faults_after self.old.groups (row_said row.now)) ≡
            Ok (tt {0})) }
        ensures added { OnOk result (self.new.groups ≡
            with_row_on self.old.groups (row_said row.now)) }
        ensures lines { OnOk result (self.new.lines ≡ self.old.lines) }
        ensures fault { OnOk result (self.new.fault ≡ self.old.fault) }
        ensures wrong { IfErr result (λ e. (e ≡ FileFault.Memory)
            ⊎ ((fault : LineFault) ×
            (checked (faults_after self.old.groups (row_said row.now)) ≡ Err fault) ×
            (e ≡ FileFault.Line self.old.lines fault))) }
    {
        let place = self.groups.place(row.topic);
        let room = self.room(place, row);
        let told = self.groups.put_row(
            self.alloc,
            place,
            row.topic,
            row.document,
            row.grade,
            room,
        )?;
        match told {
            Ok(()) => Ok(()),
            Err(fault) => Err(FileFault::Line {
                line: self.lines,
                fault,
            }),
        }
    }

    // Which limit a row would pass after those that were read, where its topic has a place.
    fn room(&self, place: Option<usize>, row: &RowText<'_>) -> Result<(), LineFault>
        requires { place ≡ place_of row.now.topic.now self.now.groups }
        ensures fault { result ≡ checked (limits_after self.now.groups (row_said row.now)) }
        ensures few { OnOk result (row_count self.now.groups + 1 ≤ MOST_QRELS_ROWS) }
        ensures small { OnOk result (name_bytes_in self.now.groups + length row.now.document.now ≤
            MOST_NAME_BYTES) }
    {
        if place.is_none() && self.groups.topics() >= MOST_TOPICS {
            return Err(LineFault::TooManyTopics);
        }
        if self.groups.rows() >= MOST_QRELS_ROWS {
            return Err(LineFault::TooManyRows);
        }
        if self.groups.name_bytes() as usize + row.document.len() > MOST_NAME_BYTES as usize {
            return Err(LineFault::TooManyNameBytes);
        }
        Ok(())
    }
}

// The rows of a file without a fault.
fn qrels_from(alloc: Global, groups: GrowingRows<i16>) -> Result<Qrels, FileFault>
    requires { 0 < row_count groups → IsQrels groups }
    ensures { IsUnlessMemory result
        (if row_count groups == 0 then Err FileFault.NoTopics else Ok groups) }
{
    if groups.rows() == 0 {
        return Err(FileFault::NoTopics);
    }
    Ok(Qrels::new(groups.into_grouped(alloc)?))
}
