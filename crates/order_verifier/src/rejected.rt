/// Why a certificate is no evidence. The first that applies, in this order, is told.
#[derive(Clone, Copy, PartialEq, Eq, Debug)]
pub enum Rejected {
    /// A run, the number of topics or a topic is not the desk's. The line of the first that differs, from 1, in
    /// the certificate's text: 4 for the first run, 5 for the second, which may not be the first, 7 for the number
    /// of topics, and for a topic's name the line that names it.
    WrongNames { line: u64 },
    /// A lower number is greater than the lower end of the least difference of the two runs on its topic, or an
    /// upper number is smaller than the upper end of the greatest. The first such topic, from 0 in the desk's order.
    BoundTooGreat { topic: u32 },
    /// The sums of the numbers do not show the claim: for `above` that of the lower ones is not positive, for
    /// `equal` it is negative, or that of the upper ones is positive.
    NoSum,
    /// A list of `open` names what is no unjudged document of its topic. The first such line, from 1.
    NotCompletion { line: u64 },
    /// The two completions of `open` do not differ on the order, by the sums of their differences' ends.
    NoDifference,
}
