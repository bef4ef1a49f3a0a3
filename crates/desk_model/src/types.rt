ghost use Rattle.std.specs.Prelude.{◌≡◌};
ghost use Rattle.desk_model.specs.Verdict.{verdict};

/// What the judgements say of one document.
#[derive(Clone, Copy, PartialEq, Eq)]
pub enum Mark {
    /// It has no grade, or one below 0.
    Unjudged,
    /// Its grade is at least the level.
    Relevant,
    /// Its grade is from 0 to below the level.
    Other,
}

/// A measure by its name and its numbers.
#[derive(Clone, Copy, PartialEq, Eq)]
pub enum MeasureName {
    /// `P_k` of trec_eval: the relevant documents among the first k, out of k.
    Precision(u32),
    /// `recall_k` of trec_eval: the relevant documents among the first k, out of all relevant ones.
    Recall(u32),
    /// `Rprec` of trec_eval: precision at the number of relevant documents.
    RPrecision,
    /// `recip_rank` of trec_eval: one over the first rank with a relevant document.
    Reciprocal,
    /// Rank-biased precision (Moffat and Zobel 2008), with the persistence `top / bottom`.
    Biased { top: u32, bottom: u32 },
    /// `map` of trec_eval: average precision, the sum of the precisions at the ranks of relevant
    /// documents, out of all relevant ones.
    AveragePrecision,
}

/// Four sums over all topics, in units of the measure: the lower and the upper ends of the least
/// difference of a pair, and those of its greatest difference.
#[derive(Clone, Copy, PartialEq, Eq)]
pub struct Totals {
    pub least_lo: i128,
    pub least_hi: i128,
    pub most_lo: i128,
    pub most_hi: i128,
}

/// What the four sums of a pair say of the first run and the second.
#[derive(Clone, Copy, PartialEq, Eq)]
pub enum Verdict {
    /// The first run's mean is greater in every completion.
    Above,
    /// The second run's mean is greater in every completion.
    Below,
    /// The two means are equal in every completion.
    Equal,
    /// Two completions differ on the order.
    Open,
    /// The sums are too near to 0 to tell.
    Close,
}

/// The verdict of a pair with these sums, the first that applies: `Above` where `least_lo` is
/// positive, `Below` where `most_hi` is negative, `Equal` where both are 0, `Open` where `least_hi`
/// and `most_lo` lie on two sides of 0 or one of them at 0, and else `Close`.
pub fn verdict_of(totals: &Totals) -> Verdict
    ensures { result ≡ verdict totals.now }
{
    if totals.least_lo > 0 {
        Verdict::Above
    } else if totals.most_hi < 0 {
        Verdict::Below
    } else if totals.least_lo == 0 && totals.most_hi == 0 {
        Verdict::Equal
    } else if totals.least_hi < 0 && totals.most_lo >= 0
        || totals.least_hi <= 0 && totals.most_lo > 0
    {
        Verdict::Open
    } else {
        Verdict::Close
    }
}
