// A whole sheet.
ghost use Rattle.sheet_merge.specs.Lines.{sheet_of, IsSheetUnlessMemory};

use crate::fault::SheetFault;
use crate::reader::SheetReader;
use crate::sheet::Sheet;
use std::alloc::Global;

/// Reads a sheet: lines of stamp, assessor, topic, document and grade, in any order. Of the entries of one document the greatest is
/// kept, by stamp, then by assessor, then by grade.
///
/// # Errors
/// - `Line`: the first faulty line, with its number and its first fault.
/// - `Memory`: out of memory.
pub fn read_sheet(alloc: Global, bytes: &[u8]) -> Result<Sheet, SheetFault>
    ensures { IsSheetUnlessMemory result (sheet_of bytes.now) }
{
    let mut reader = SheetReader::new(alloc)?;
    reader.feed(bytes)?;
    reader.finish()
}
