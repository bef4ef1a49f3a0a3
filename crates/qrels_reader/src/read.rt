// A whole qrels file.
ghost use Rattle.file_rows.specs.Reading.{IsUnlessMemory};
ghost use Rattle.qrels_reader.specs.Grouped.{qrels_of};

use crate::qrels::Qrels;
use crate::reader::QrelsReader;
use file_rows::FileFault;
use std::alloc::Global;

/// Reads the rows of a qrels file, in the format of trec_eval: lines of topic, a field that is not used, document and grade.
///
/// The first faulty line is told with its number and its first fault. `NoTopics` comes where no line has a fault and the file has
/// no row, `Memory` where memory runs out, and `NoTag` never.
pub fn read_qrels(alloc: Global, bytes: &[u8]) -> Result<Qrels, FileFault>
    ensures { IsUnlessMemory result (qrels_of bytes.now) }
{
    let mut reader = QrelsReader::new(alloc)?;
    reader.feed(bytes)?;
    reader.finish()
}
