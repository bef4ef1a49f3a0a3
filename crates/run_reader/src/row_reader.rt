// A reader of the lines of a run file.
ghost use Rattle.std.specs.Prelude.{◌≡◌, ◌⊎◌, ◌+◌, ◌<◌, ◌≤◌, [], ◌∷◌, ◌++◌, List, ℕ, length, true, false, not, if◌then◌else◌, unwrap_or, option_map, All, IfErr, IfOk, IfSome, OnOk, Ok, Err, Some};
ghost use Rattle.desk_text.specs.Lines.{lines};
ghost use Rattle.desk_model.specs.Name.{is_name};
ghost use Rattle.file_rows.specs.Reading.{checked, IsTooLong, IsUnlessMemory};
ghost use Rattle.file_rows.specs.Rows.{Row};
ghost use Rattle.file_rows.specs.Grouped.{grouped, is_topic, names_of, place_of, with_row_on, row_count, name_bytes_in};
ghost use Rattle.file_rows.specs.declared.limits.TheConstants.{MOST_NAME_BYTES};
ghost use Rattle.run_reader.specs.Run.{run_of, limits_after, faults_after, IsRun, IsWithinLimits};
ghost use Rattle.run_reader.specs.Reader.{row_said, given_in, given_or, name_in, name_after, IsSound, ReadsLine, HasRead, IsReady, run_with};

use crate::gathered::Gathered;
use crate::limits::{MOST_RANKS, MOST_RUN_ROWS};
use crate::line::{RowText, row_text};
use crate::run_rows::RunRows;
use crate::used::Used;
use desk_model::{Memory, Name};
use desk_text::is_blank;
use file_rows::{Fed, FileFault, LineFault, LineReader, MOST_NAME_BYTES};
use qrels_reader::Qrels;
use std::alloc::Global;

/// What a run file is read beside: the name that is given, what earlier files used, and the qrels.
#[derive(Drop)]
pub struct Beside<'q> {
    pub qrels: &'q Qrels,
    pub used: Used,
    pub given: Option<Name>,
}

/// Reads a run file line by line. A first fault is kept, and the lines after it are passed over.
#[derive(Drop)]
pub struct RowReader<'q> {
    pub beside: Beside<'q>,
    // The tag of the first line, where no name is given.
    tag: Option<Name>,
    gathered: Gathered,
    lines: u64,
    fault: Option<FileFault>,
}

impl<'q> LineReader for RowReader<'q> {
    ghost use Rattle.std.specs.Prelude.{◌≡◌, is_some, refl};
    ghost use Rattle.std.proofs.Common.{◌∙◌};
    ghost use Rattle.file_rows.proofs.ReadOn.{stays};
    ghost use Rattle.run_reader.specs.Rows.{read_row};
    ghost use Rattle.run_reader.specs.Reader.{Gathers, HasRead, IsReady};

    ghost has_read = { λ reader. HasRead reader.fault reader };

    ghost stopped = { λ reader. is_some reader.fault };

    ghost is_ready = { λ reader. IsReady reader.fault reader };

    ghost same = { λ old new. new.beside ≡ old.beside };

    ghost stays = { λ reader before more. stays (read_row reader.beside.qrels.now reader.beside.used) (Gathers reader) reader.fault before more };

    ghost itself = { λ _. refl };

    ghost later = { λ _ _ _ e f. f ∙ e };

    fn is_stopped(&self) -> bool {
        self.fault.is_some()
    }

    fn read(&mut self, line: &[u8]) {
        match self.fault {
            Some(_) => {}
            None => match self.read_next(line) {
                Ok(()) => {}
                Err(fault) => self.fault = Some(fault),
            },
        }
    }

    fn read_kept(&mut self, kept: Option<&[u8]>) {
        match kept {
            Some(line) => self.read(line),
            None => self.read_long(),
        }
    }
}

impl<'q> RowReader<'q> {
    pub fn new(alloc: Global, beside: Beside<'q>) -> RowReader<'q>
        requires { IsWithinLimits beside.used }
        ensures none { HasRead result.fault result [] }
        ensures ready { IsReady result.fault result }
        ensures beside { result.beside ≡ beside.entry }
    {
        RowReader {
            beside,
            tag: None,
            gathered: Gathered::new(alloc),
            lines: 0,
            fault: None,
        }
    }

    /// Whether memory ran out.
    pub fn lacks_memory(&self) -> bool {
        matches!(self.fault, Some(FileFault::Memory))
    }

    /// What was read of the bytes that were fed.
    pub fn finish(self, fed: &Fed) -> Result<RunRows, FileFault>
        requires read { HasRead self.fault self (lines fed.now.bytes) }
        requires ready { IsReady self.fault self }
        requires name { IfSome (given_in self.beside) (λ n. is_name n ≡ true) }
        ensures run { IsUnlessMemory result
            (run_of (given_in self.entry.beside) self.entry.beside.qrels.now self.entry.beside.used
            fed.now.bytes) }
        ensures known { IfOk result (λ run.
            All (λ topic. is_topic topic self.entry.beside.qrels.now ≡ true)
            (names_of run.topics)) }
    {
        match self.fault {
            Some(fault) => Err(fault),
            None => self.run(),
        }
    }

    // The run of a file without a fault.
    fn run(self) -> Result<RunRows, FileFault>
        requires sound { IsSound self }
        requires name { IfSome (name_in self) (λ n. is_name n ≡ true) }
        requires kept { IsRun self.gathered.kept }
        ensures { IsUnlessMemory result
            (run_with (name_in self.entry) self.entry.beside.used self.entry.gathered.kept) }
    {
        let RowReader {
            beside,
            tag,
            gathered,
            lines: _,
            fault: _,
        } = self;
        let Beside {
            qrels: _,
            used,
            given,
        } = beside;
        let Some(name) = given_or(given, tag) else {
            return Err(FileFault::NoTag);
        };
        let kept = gathered.into_grouped()?;
        let used = Used {
            rows: used.rows + kept.rows(),
            name_bytes: used.name_bytes + kept.name_bytes(),
        };
        Ok(RunRows::new(name, kept, used))
    }

    // Reads a line that is too long.
    fn read_long(&mut self)
        requires { IsReady self.old.fault self.old }
        ensures ready { IsReady self.new.fault self.new }
        ensures beside { self.new.beside ≡ self.old.beside }
        ensures read { (before : List (List ℕ)) (line : List ℕ) → IsTooLong line →
            HasRead self.old.fault self.old before →
            HasRead self.new.fault self.new (before ++ line ∷ []) }
    {
        match self.fault {
            Some(_) => {}
            None => self.fault = Some(FileFault::too_long(self.lines)),
        }
    }

    // Reads the next line. Where there are too many to be counted, memory is said to run out.
    fn read_next(&mut self, line: &[u8]) -> Result<(), FileFault>
        requires { IsSound self.old }
        ensures read { (rows : List Row) → self.old.gathered.kept ≡ grouped rows →
            ReadsLine self.old.beside.qrels.now self.old.beside.used (self.old.lines + 1) rows
            line.now result self.new.gathered.kept }
        ensures sound { OnOk result (IsSound self.new) }
        ensures lines { OnOk result (self.new.lines ≡ self.old.lines + 1) }
        ensures name { OnOk result (name_in self.new ≡ name_after (name_in self.old) line.now) }
        ensures beside { self.new.beside ≡ self.old.beside }
        ensures fault { OnOk result (self.new.fault ≡ self.old.fault) }
    {
        if self.lines == u64::MAX {
            return Err(FileFault::Memory);
        }
        self.lines += 1;
        if is_blank(line) {
            return Ok(());
        }
        match row_text(line) {
            Ok(row) => {
                self.take_name(row.tag)?;
                self.add(&row)
            }
            Err(fault) => Err(FileFault::Line {
                line: self.lines,
                fault,
            }),
        }
    }

    // The tag of the first line, where no name was given.
    fn take_name(&mut self, tag: &[u8]) -> Result<(), Memory>
        requires { is_name tag.now ≡ true }
        ensures name { OnOk result (name_in self.new ≡
            Some (unwrap_or (name_in self.old) tag.now)) }
        ensures beside { self.new.beside ≡ self.old.beside }
        ensures gathered { OnOk result (self.new.gathered ≡ self.old.gathered) }
        ensures lines { OnOk result (self.new.lines ≡ self.old.lines) }
        ensures fault { self.new.fault ≡ self.old.fault }
    {
        if self.beside.given.is_none() && self.tag.is_none() {
            self.tag = Some(Name::copy_of(self.gathered.alloc, tag)?);
        }
        Ok(())
    }

    // A row of the line that was read last, which is dropped where the qrels lack its topic.
    fn add(&mut self, row: &RowText<'_>) -> Result<(), FileFault>
        requires { IsSound self.old }
        ensures dropped { OnOk result (is_topic row.now.topic.now self.old.beside.qrels.now ≡
            false → self.new.gathered.kept ≡ self.old.gathered.kept) }
        ensures right { OnOk result (is_topic row.now.topic.now self.old.beside.qrels.now ≡ true →
            checked (faults_after self.old.beside.used self.old.gathered.kept (row_said row.now)) ≡
            Ok (tt {0})) }
        ensures added { OnOk result (is_topic row.now.topic.now self.old.beside.qrels.now ≡ true →
            self.new.gathered.kept ≡ with_row_on self.old.gathered.kept (row_said row.now)) }
        ensures wrong { IfErr result (λ e. (e ≡ FileFault.Memory)
            ⊎ ((fault : LineFault) × (is_topic row.now.topic.now self.old.beside.qrels.now ≡ true) ×
            (checked (faults_after self.old.beside.used self.old.gathered.kept (row_said row.now)) ≡
            Err fault) × (e ≡ FileFault.Line self.old.lines fault))) }
        ensures sound { OnOk result (IsSound self.new) }
        ensures lines { OnOk result (self.new.lines ≡ self.old.lines) }
        ensures tag { self.new.tag ≡ self.old.tag }
        ensures beside { self.new.beside ≡ self.old.beside }
        ensures fault { self.new.fault ≡ self.old.fault }
    {
        let place = self.gathered.place(row.topic)?;
        if self.lacks(place, row.topic) {
            return Ok(());
        }
        let room = self.room(place, row);
        match self.gathered.put(place, row, room)? {
            Ok(()) => Ok(()),
            Err(fault) => Err(FileFault::Line {
                line: self.lines,
                fault,
            }),
        }
    }

    // Whether the qrels lack a topic, where it has a place among the kept ones if these have it.
    fn lacks(&self, place: Option<usize>, topic: &[u8]) -> bool
        requires sound { IsSound self.now }
        requires place { place ≡ place_of topic.now self.now.gathered.kept }
        ensures { result ≡ not (is_topic topic.now self.now.beside.qrels.now) }
    {
        match place {
            Some(_) => false,
            None => !self.beside.qrels.has_topic(topic),
        }
    }

    // Which limit a row would pass after those that were read, where its topic has a place.
    fn room(&self, place: Option<usize>, row: &RowText<'_>) -> Result<(), LineFault>
        requires sound { IsSound self.now }
        requires place { place ≡ place_of row.now.topic.now self.now.gathered.kept }
        ensures fault { result ≡
            checked (limits_after self.now.beside.used self.now.gathered.kept (row_said row.now)) }
        ensures few { OnOk result (self.now.beside.used.rows + row_count self.now.gathered.kept +
            1 ≤ MOST_RUN_ROWS) }
        ensures small { OnOk result (self.now.beside.used.name_bytes +
            name_bytes_in self.now.gathered.kept + length row.now.document.now ≤ MOST_NAME_BYTES) }
    {
        if self.gathered.depth(row.topic, place) >= MOST_RANKS {
            return Err(LineFault::TooDeep);
        }
        let kept = &self.gathered.kept;
        if self.beside.used.rows + kept.rows() >= MOST_RUN_ROWS {
            return Err(LineFault::TooManyRows);
        }
        let name_bytes = (self.beside.used.name_bytes + kept.name_bytes()) as usize;
        if name_bytes + row.document.len() > MOST_NAME_BYTES as usize {
            return Err(LineFault::TooManyNameBytes);
        }
        Ok(())
    }
}

// The name that is given, else the tag.
fn given_or(given: Option<Name>, tag: Option<Name>) -> Option<Name>
    ensures { result ≡ given_or given tag }
{
    given.or(tag)
}
