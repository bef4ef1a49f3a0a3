//! The desk and the certificate of a check.
ghost use Rattle.std.specs.Prelude.{◌≡◌, ◌≤◌, IfOk};
ghost use Rattle.desk_outside.specs.Calls.{opened_in};
ghost use Rattle.order_bundle.specs.Scoped.{IsScoped};
ghost use Rattle.desk_files.specs.Load.{Opens};
ghost use Rattle.desk_files.specs.Checks.{MakesCheck, CheckMayOpen};
ghost use Rattle.desk_files.specs.Reads.{ReadsFiles, extent_of};
ghost use Rattle.desk_files.specs.Views.{answer_of};

use crate::certificate::load_certificate;
use crate::desk::load_desk;
use crate::stop::Stop;
use desk_model::Desk;
use desk_outside::Shelf;
use desk_words::Check;
use order_bundle::Scoped;
use std::alloc::Global;

/// The desk of a check, and after it the certificate with its depth; or why there is none, as for each.
pub fn load_check<'a, F: Shelf>(
    alloc: Global,
    files: &mut F,
    check: &'a Check,
) -> Result<(Desk, Scoped), Stop<'a>>
    ensures makes { MakesCheck (F.state files.old).files (F.state files.old).faults
        (F.state files.new).faults check.now result }
    ensures certificate { IfOk result (λ made. IsScoped made.1) }
    ensures files { (F.state files.new).files ≡ (F.state files.old).files }
    ensures opened { Opens (CheckMayOpen (F.state files.old).files check.now)
        (opened_in (F.state files.old).calls) (opened_in (F.state files.new).calls) }
    ensures reads { ReadsFiles (extent_of (answer_of result)) (F.state files.old).calls
        (F.state files.new).calls }
    ensures later { (F.state files.old).faults ≤ (F.state files.new).faults }
{
    let desk = load_desk(alloc, files, &check.qrels, &check.runs, 1)?;
    let certificate = load_certificate(alloc, files, &check.cert)?;
    Ok((desk, certificate))
}
