//! The certificate of a file, of either version, and the depth under which it was made.
ghost use Rattle.std.specs.Prelude.{◌≡◌, ◌≤◌, IfOk};
ghost use Rattle.order_bundle.specs.Scoped.{IsScoped};
ghost use Rattle.desk_files.specs.Certificates.{ReadsCertificate};
ghost use Rattle.desk_files.specs.Reads.{ReadsFile, extent_of};
ghost use Rattle.desk_files.specs.Views.{answer_of};

use crate::files::read_file;
use crate::stop::{Refusal, Stop};
use desk_outside::Shelf;
use desk_words::Path;
use order_bundle::{Scoped, read_scoped, scoped_certificates_have_texts};
use order_certificate::CertFault;
use std::alloc::Global;

/// The certificate of a file, of version 1 or 2, with the depth under which it was made; or why there is none: a line that is
/// none at its place of the version that the first line names, a file that is too long, one that is missing or a shelf that failed, or memory that ran out.
pub fn load_certificate<'a, F: Shelf>(
    alloc: Global,
    files: &mut F,
    path: &'a Path,
) -> Result<Scoped, Stop<'a>>
    ensures comes { ReadsCertificate (F.state files.old).files (F.state files.old).faults
        (F.state files.new).faults path.now result }
    ensures certificate { IfOk result IsScoped }
    ensures files { (F.state files.new).files ≡ (F.state files.old).files }
    ensures reads { ReadsFile path.now (extent_of (answer_of result)) (F.state files.old).calls
        (F.state files.new).calls }
    ensures later { (F.state files.old).faults ≤ (F.state files.new).faults }
{
    scoped_certificates_have_texts();
    let path = path.as_str();
    let bytes = read_file(alloc, files, path)?;
    match read_scoped(alloc, &bytes) {
        Ok(certificate) => Ok(certificate),
        Err(CertFault::BadLine { line }) => Err(Stop::Refused(Refusal::BadLine(path, line))),
        Err(CertFault::Memory) => Err(Stop::Memory),
    }
}
