ghost use Rattle.std.specs.Prelude.{◌≡◌, IfOk};
ghost use Rattle.desk_model.specs.Desk.{AreMarksOf, IsDesk};
ghost use Rattle.desk_model.specs.MeasureText.{IsMeasure};
ghost use Rattle.order_bundle.specs.Evidence.{ClaimsHold};
ghost use Rattle.topic_ends.specs.RunBounds.{AreBoundsOf};
ghost use Rattle.bundle_verifier.specs.Lines.{IsAnswer};
ghost use Rattle.bundle_verifier.specs.Refusal.{NamesDesk};
ghost use Rattle.bundle_verifier.specs.Rows.{AreNumbersOf};
ghost use Rattle.bundle_verifier.specs.Verified.{IsVerified};

use crate::claim::check_claim;
use crate::names::wrong_name;
use crate::numbers::DocumentNumbers;
use crate::reason::BundleReason;
use crate::rejected::BundleRejected;
use crate::room::Room;
use crate::told::told;
use desk_model::{Desk, Marks, MeasureName, Memory, Rows};
use order_bundle::{Bundle, bundle_evidence_implies_claims};
use order_verifier::{BoundsOnTopic, DeskMarks, TopicEnds};
use std::alloc::Global;
use std::marker::Model;

/// Checks bundles under one measure.
#[derive(Drop)]
pub struct BundleVerifier {
    ends: TopicEnds,
}

impl Model for BundleVerifier {
    ghost use Rattle.desk_model.specs.declared.types.MeasureName.{MeasureName as Name};

    ghost Value = { Name };

    ghost view = { λ v. v.ends };
}

impl BundleVerifier {
    /// A verifier of bundles under a measure. The only error is out of memory, which only rank-biased precision
    /// takes.
    pub fn new(alloc: Global, measure: &MeasureName) -> Result<BundleVerifier, Memory>
        requires { IsMeasure measure.now }
        ensures { IfOk result (λ verifier. verifier ≡ measure.now) }
    {
        Ok(BundleVerifier {
            ends: TopicEnds::new(alloc, measure)?,
        })
    }

    /// Whether all claims of a bundle are evidence, where its names are the desk's, or the first that is none.
    fn check_claims(
        &self,
        desk: &Desk,
        marks: &DeskMarks<'_>,
        bundle: &Bundle,
        numbers: &[DocumentNumbers],
        bounds: &[BoundsOnTopic],
    ) -> Result<(), BundleReason>
        requires made { self.now ≡ bundle.now.measure }
        requires whole { IsDesk desk.now }
        requires marks { AreMarksOf desk.now marks.now }
        requires names { NamesDesk bundle.now desk.now }
        requires numbers { AreNumbersOf desk.now bundle.now.topics numbers.now }
        requires bounds { AreBoundsOf desk.now marks.now bounds.now }
        ensures { IsVerified bundle.now desk.now marks.now result }
    {
        bundle.valid();
        let mut number = 0;
        for claim in bundle.claims.as_slice() {
            if let Err(failure) = check_claim(
                &self.ends, desk, marks, bundle, numbers, bounds, claim,
            ) {
                return Err(BundleReason::ClaimFails {
                    claim: number,
                    failure,
                });
            }
            number += 1;
        }
        Ok(())
    }

    /// The same, or the first name of the bundle that is not the desk's.
    fn check(
        &self,
        desk: &Desk,
        marks: &DeskMarks<'_>,
        bundle: &Bundle,
        numbers: &[DocumentNumbers],
        bounds: &[BoundsOnTopic],
    ) -> Result<(), BundleReason>
        requires made { self.now ≡ bundle.now.measure }
        requires marks { AreMarksOf desk.now marks.now }
        requires numbers { AreNumbersOf desk.now bundle.now.topics numbers.now }
        requires bounds { AreBoundsOf desk.now marks.now bounds.now }
        ensures verified { IsVerified bundle.now desk.now marks.now result }
        ensures claims { IfOk result (λ _. ClaimsHold bundle.now desk.now marks.now) }
    {
        bundle_evidence_implies_claims();
        bundle.valid();
        if let Some(name) = wrong_name(desk, bundle) {
            return Err(BundleReason::WrongName { name });
        }
        self.check_claims(desk, marks, bundle, numbers, bounds)
    }

    /// Whether a bundle is evidence for all that it claims of a desk under its marks, or the first reason why not.
    /// Where it is, each claim holds in every completion. It takes no memory.
    pub fn check_bundle(
        &self,
        desk: &Desk,
        marks: &Rows,
        bundle: &Bundle,
    ) -> Result<(), BundleReason>
        requires made { self.now ≡ bundle.now.measure }
        requires marks { AreMarksOf desk.now marks.now }
        ensures verified { IsVerified bundle.now desk.now marks.now result }
        ensures claims { IfOk result (λ _. ClaimsHold bundle.now desk.now marks.now) }
    {
        self.check(desk, &DeskMarks::anew(marks), bundle, &[], &[])
    }

    /// The same, with what is told of a reason: the claim, counted from 1, and the line of the bundle's text.
    pub fn verify_bundle(
        &self,
        desk: &Desk,
        marks: &Marks,
        bundle: &Bundle,
    ) -> Result<(), BundleRejected>
        requires made { self.now ≡ bundle.now.measure }
        requires marks { AreMarksOf desk.now marks.now.rows }
        ensures verified { IsAnswer bundle.now desk.now marks.now.rows result }
        ensures claims { IfOk result (λ _. ClaimsHold bundle.now desk.now marks.now.rows) }
    {
        let rows = marks.rows();
        match self.check_bundle(desk, rows, bundle) {
            Ok(()) => Ok(()),
            Err(reason) => Err(told(bundle, reason)),
        }
    }

    /// What `check_bundle` answers, for the bundle of a room, in which nothing is counted or looked up again for
    /// each claim.
    pub fn check_in(&self, room: &Room<'_>) -> Result<(), BundleReason>
        requires { self.now ≡ room.now.bundle.measure }
        ensures verified { IsVerified room.now.bundle room.now.desk room.now.marks result }
        ensures claims { IfOk result (λ _.
            ClaimsHold room.now.bundle room.now.desk room.now.marks) }
    {
        let marks = DeskMarks::counted(room.marks, room.counts.as_slice());
        self.check(
            room.desk,
            &marks,
            room.bundle,
            room.numbers.as_slice(),
            room.bounds.as_slice(),
        )
    }

    /// What `verify_bundle` answers, for the bundle of a room.
    pub fn verify_in(&self, room: &Room<'_>) -> Result<(), BundleRejected>
        requires { self.now ≡ room.now.bundle.measure }
        ensures verified { IsAnswer room.now.bundle room.now.desk room.now.marks result }
        ensures claims { IfOk result (λ _.
            ClaimsHold room.now.bundle room.now.desk room.now.marks) }
    {
        match self.check_in(room) {
            Ok(()) => Ok(()),
            Err(reason) => Err(told(room.bundle, reason)),
        }
    }
}
