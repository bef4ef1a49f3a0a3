//! A certificate of either version, and the depth under which it was made.

use crate::any_certificate::AnyCertificate;

/// A certificate of one pair of runs, or of many, with the depth under which it was made.
#[derive(Drop)]
pub struct Scoped {
    /// The depth of the pool under which it was made, from 1 to 10,000, or none.
    pub depth: Option<u32>,
    /// The certificate.
    pub body: AnyCertificate,
}
