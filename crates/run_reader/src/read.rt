// A whole run file.
ghost use Rattle.std.specs.Prelude.{◌≡◌, true, All, IfOk, IfSome};
ghost use Rattle.std.specs.Option.{option_copied};
ghost use Rattle.desk_model.specs.Name.{is_name};
ghost use Rattle.file_rows.specs.Reading.{IsUnlessMemory};
ghost use Rattle.file_rows.specs.Grouped.{is_topic, names_of};
ghost use Rattle.run_reader.specs.Run.{run_of, IsWithinLimits};

use crate::reader::RunReader;
use crate::run_rows::RunRows;
use crate::used::Used;
use file_rows::FileFault;
use qrels_reader::Qrels;
use std::alloc::Global;

/// Reads the rows of a run file, in the format of trec_eval: lines of topic, a field that is not used, document, a rank that is not
/// used, score and tag. Rows on topics that the qrels lack are dropped after the form of their lines was looked at.
///
/// The run's name is the one that is given, else the tag of the first line that is not blank. `used` is what the qrels and the
/// earlier runs used. The first faulty line is told with its number and its first fault. `NoTag` comes where no line has a fault and
/// the run has no name, `Memory` where memory runs out, and `NoTopics` never.
pub fn read_run(
    alloc: Global,
    bytes: &[u8],
    name: Option<&[u8]>,
    qrels: &Qrels,
    used: Used,
) -> Result<RunRows, FileFault>
    requires name { IfSome name (λ n. is_name n.now ≡ true) }
    requires within { IsWithinLimits used }
    ensures run { IsUnlessMemory result
        (run_of (option_copied name.entry) qrels.now used bytes.now) }
    ensures known { IfOk result (λ run.
        All (λ topic. is_topic topic qrels.now ≡ true) (names_of run.topics)) }
{
    let mut reader = RunReader::new(alloc, name, used, qrels)?;
    reader.feed(bytes)?;
    reader.finish()
}
