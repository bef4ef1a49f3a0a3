ghost use Rattle.std.specs.Prelude.{◌≡◌, IfOk, MatchResult, length};
ghost use Rattle.desk_model.specs.Desk.{AreMarksOf};
ghost use Rattle.desk_model.specs.MeasureText.{IsMeasure};
ghost use Rattle.order_certificate.specs.Certificate.{IsCertificate, IsWritable};
ghost use Rattle.order_certificate.specs.Claim.{ClaimHolds, topics_of};
ghost use Rattle.order_verifier.specs.Refusal.{ShowsOf, topics_in};
ghost use Rattle.order_verifier.specs.Verified.{FailsBy, IsVerified};

use crate::comparison::Comparison;
use crate::failure::{Failure, rejection, wrong_names};
use crate::names::{runs_of, wrong_topic};
use crate::rejected::Rejected;
use desk_model::{Desk, Marks, MeasureName, Memory};
use order_certificate::{Certificate, Evidence, evidence_implies_claim};
use std::alloc::Global;
use std::marker::Model;
use topic_ends::{DeskMarks, TopicEnds};

/// Checks certificates under one measure.
#[derive(Drop)]
pub struct Verifier {
    ends: TopicEnds,
}

impl Model for Verifier {
    ghost use Rattle.desk_model.specs.declared.types.MeasureName.{MeasureName as Name};

    ghost Value = { Name };

    ghost view = { λ v. v.ends };
}

impl Verifier {
    /// A verifier of certificates under a measure. The only error is out of memory, which only rank-biased
    /// precision takes.
    pub fn new(alloc: Global, measure: &MeasureName) -> Result<Verifier, Memory>
        requires { IsMeasure measure.now }
        ensures { IfOk result (λ verifier. verifier ≡ measure.now) }
    {
        Ok(Verifier {
            ends: TopicEnds::new(alloc, measure)?,
        })
    }

    /// Whether a certificate is evidence for what it claims of a desk under its marks, or the first reason why not.
    /// Where it is, its claim holds in every completion. It takes no memory.
    pub fn verify(
        &self,
        desk: &Desk,
        marks: &Marks,
        certificate: &Certificate,
    ) -> Result<(), Rejected>
        requires made { self.now ≡ certificate.now.measure }
        requires certificate { IsCertificate certificate.now }
        requires marks { AreMarksOf desk.now marks.now.rows }
        ensures verified { IsVerified certificate.now desk.now marks.now.rows result }
        ensures claim { IfOk result (λ _. ClaimHolds certificate.now desk.now marks.now.rows) }
    {
        evidence_implies_claim();
        let rows = marks.rows();
        let runs = match runs_of(desk, certificate) {
            Ok(runs) => runs,
            Err(place) => return Err(wrong_names(&certificate.evidence, place)),
        };
        if let Some(place) = wrong_topic(desk, &certificate.evidence) {
            return Err(wrong_names(&certificate.evidence, place));
        }
        let marks = DeskMarks::anew(rows);
        match check(
            &Comparison::new(&self.ends, desk, &marks, runs, &[]),
            &certificate.evidence,
        ) {
            Ok(()) => Ok(()),
            Err(failure) => Err(rejection(&certificate.evidence, failure)),
        }
    }
}

/// Whether evidence shows what it claims of two runs.
fn check(comparison: &Comparison<'_>, evidence: &Evidence) -> Result<(), Failure>
    requires form { IsWritable evidence.now }
    requires topics { length (topics_of evidence.now) ≡ length (topics_in comparison.now) }
    ensures { MatchResult result (λ _. ShowsOf comparison.now evidence.now)
        (FailsBy comparison.now evidence.now) }
{
    match evidence {
        Evidence::Above(bounds) => comparison.check_above(bounds),
        Evidence::Equal(bounds) => comparison.check_equal(bounds),
        Evidence::Open(witnesses) => comparison.check_open(witnesses),
    }
}
