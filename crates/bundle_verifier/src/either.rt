//! A certificate of either version, checked by the checker of its version.
ghost use Rattle.std.specs.Prelude.{IfOk};
ghost use Rattle.desk_model.specs.Desk.{AreMarksOf};
ghost use Rattle.order_certificate.specs.Certificate.{IsCertificate};
ghost use Rattle.order_bundle.specs.Either.{AnyClaimHolds};
ghost use Rattle.order_bundle.specs.Places.{IsAnyCertificate};
ghost use Rattle.bundle_verifier.specs.Either.{IsAnyVerified};

use crate::rejected::BundleRejected;
use crate::room::Room;
use crate::verifier::BundleVerifier;
use desk_model::{Desk, Marks, Memory, Rows};
use order_bundle::{AnyCertificate, Bundle};
use order_certificate::Certificate;
use order_verifier::Verifier;
use std::alloc::Global;

/// A certificate of one pair: there is no number of a claim beside the reason.
fn check_one(
    alloc: Global,
    desk: &Desk,
    marks: &Marks,
    certificate: &Certificate,
) -> Result<Result<(), BundleRejected>, Memory>
    requires certificate { IsCertificate certificate.now }
    requires marks { AreMarksOf desk.now marks.now.rows }
    ensures verified { IfOk result
        (IsAnyVerified (AnyCertificate.One certificate.now) desk.now marks.now.rows) }
    ensures claim { IfOk result (λ answer.
        IfOk answer (λ _. AnyClaimHolds (AnyCertificate.One certificate.now) desk.now
        marks.now.rows)) }
{
    let verifier = Verifier::new(alloc, &certificate.measure)?;
    match verifier.verify(desk, marks, certificate) {
        Ok(()) => Ok(Ok(())),
        Err(why) => Ok(Err(BundleRejected { claim: 0, why })),
    }
}

/// A bundle.
fn check_many(
    alloc: Global,
    desk: &Desk,
    marks: &Rows,
    bundle: &Bundle,
) -> Result<Result<(), BundleRejected>, Memory>
    requires { AreMarksOf desk.now marks.now }
    ensures verified { IfOk result
        (IsAnyVerified (AnyCertificate.Many bundle.now) desk.now marks.now) }
    ensures claims { IfOk result (λ answer.
        IfOk answer (λ _. AnyClaimHolds (AnyCertificate.Many bundle.now) desk.now marks.now)) }
{
    bundle.valid();
    let verifier = BundleVerifier::new(alloc, &bundle.measure)?;
    let room = Room::new(alloc, desk, marks, bundle)?;
    match verifier.verify_in(&room) {
        Ok(()) => Ok(Ok(())),
        Err(rejected) => Ok(Err(rejected)),
    }
}

/// Whether a certificate of either version is evidence for what it claims of a desk under its marks, or what is told of
/// the first reason why not. Where it is, all that it claims holds in every completion. The only error is out of memory.
pub fn check_any(
    alloc: Global,
    desk: &Desk,
    marks: &Marks,
    certificate: &AnyCertificate,
) -> Result<Result<(), BundleRejected>, Memory>
    requires certificate { IsAnyCertificate certificate.now }
    requires marks { AreMarksOf desk.now marks.now.rows }
    ensures verified { IfOk result (IsAnyVerified certificate.now desk.now marks.now.rows) }
    ensures claims { IfOk result (λ answer.
        IfOk answer (λ _. AnyClaimHolds certificate.now desk.now marks.now.rows)) }
{
    let rows = marks.rows();
    match certificate {
        AnyCertificate::One(certificate) => check_one(alloc, desk, marks, certificate),
        AnyCertificate::Many(bundle) => check_many(alloc, desk, rows, bundle),
    }
}
