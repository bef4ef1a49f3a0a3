//! A certificate of either version.
ghost use Rattle.std.specs.Prelude.{◌≡◌};
ghost use Rattle.order_bundle.specs.Either.{any_level};

use crate::bundle::Bundle;
use order_certificate::Certificate;

/// What the first line of a text says that it is.
#[derive(Clone, Copy)]
pub enum Version {
    /// A certificate of one pair of runs.
    One,
    /// A certificate of many pairs.
    Many,
}

/// A certificate of one pair of runs, or of many.
#[derive(Drop)]
pub enum AnyCertificate {
    /// Version 1.
    One(Certificate),
    /// Version 2.
    Many(Bundle),
}

impl AnyCertificate {
    /// The least grade of a relevant document, from 1 to 1,000.
    pub fn level(&self) -> u32
        ensures { result ≡ any_level self.now }
    {
        match self {
            AnyCertificate::One(certificate) => certificate.level,
            AnyCertificate::Many(bundle) => bundle.level,
        }
    }
}
