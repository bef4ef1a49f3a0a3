// Why evidence fails, as the checks below the verifier answer it, and how a certificate is told to be rejected for it.
ghost use Rattle.std.specs.Prelude.{◌≡◌};
ghost use Rattle.order_certificate.specs.Certificate.{IsWritable};
ghost use Rattle.order_certificate.specs.PlaceLines.{HasPlace, line_of_place};
ghost use Rattle.order_verifier.specs.Verified.{IsPlaced, rejection};

use crate::rejected::Rejected;
use order_certificate::{CertificatePlace, Evidence, line_of_place};

/// Why evidence does not show what it claims of two runs, where all its names are the desk's.
#[derive(Clone, Copy)]
pub enum Failure {
    /// A number of this topic is beyond its end.
    BoundTooGreat { topic: u32 },
    /// The sums of the numbers do not show the claim.
    NoSum,
    /// This document is no unjudged one of its topic.
    NotCompletion { place: CertificatePlace },
    /// The two completions do not differ on the order.
    NoDifference,
}

/// A place by its line in the certificate's text.
pub fn wrong_names(evidence: &Evidence, place: CertificatePlace) -> Rejected
    requires form { IsWritable evidence.now }
    requires place { HasPlace evidence.now place }
    ensures { result ≡ Rejected.WrongNames (line_of_place evidence.now place) }
{
    Rejected::WrongNames {
        line: line_of_place(evidence, place),
    }
}

/// A failure with the line of its place.
pub fn rejection(evidence: &Evidence, failure: Failure) -> Rejected
    requires form { IsWritable evidence.now }
    requires place { IsPlaced evidence.now failure }
    ensures { result ≡ rejection evidence.now failure }
{
    match failure {
        Failure::BoundTooGreat { topic } => Rejected::BoundTooGreat { topic },
        Failure::NoSum => Rejected::NoSum,
        Failure::NotCompletion { place } => Rejected::NotCompletion {
            line: line_of_place(evidence, place),
        },
        Failure::NoDifference => Rejected::NoDifference,
    }
}
