//! An exact score.
ghost use Rattle.std.specs.Prelude.{◌<◌, ◌≤◌};
ghost use Rattle.desk_model.specs.Limits.{DOCUMENT_LIMIT, RANK_LIMIT};

/// An exact fraction. Its facts: it has at most 10,000 parts, of a universe of at most 25,000,000 documents.
#[derive(Clone, Copy)]
pub struct ScoreFraction {
    pub num: u64,
    pub den: u64,
    pub ghost few: { num ≤ RANK_LIMIT },
    pub ghost positive: { 0 < den },
    pub ghost small: { den ≤ DOCUMENT_LIMIT },
}
