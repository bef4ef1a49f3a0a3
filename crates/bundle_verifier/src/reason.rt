use order_verifier::Failure;

/// A name or a number of a bundle that a desk has to have, too.
#[derive(Clone, Copy, PartialEq, Eq, Debug)]
pub enum BundleName {
    /// The name of a run, by its number from 0.
    Run { run: u32 },
    /// The number of topics.
    TopicCount,
    /// The name of a topic, by its number from 0.
    Topic { topic: u32 },
}

/// Why a bundle is no evidence. The first reason that applies, in this order, is told.
#[derive(Clone, Copy)]
pub enum BundleReason {
    /// A run, the number of topics or a topic is not the desk's: the first that differs.
    WrongName { name: BundleName },
    /// A claim, by its number from 0, is no evidence, and all claims before it are: why, by places of the claim.
    ClaimFails { claim: u32, failure: Failure },
}
