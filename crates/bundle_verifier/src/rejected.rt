use order_verifier::Rejected;

/// Why a bundle is rejected. Names come before all claims, and the claims go in their order.
#[derive(Clone, Copy, PartialEq, Eq, Debug)]
pub struct BundleRejected {
    /// The first claim of a bundle that is no evidence, counted from 1. It is 0 where a name is not the desk's, and for
    /// a certificate of one pair.
    pub claim: u32,
    /// The first reason, with the line of the bundle's text where the reason has one.
    pub why: Rejected,
}
