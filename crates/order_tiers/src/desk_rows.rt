// The runs of a desk, and which are certified above which.
ghost use Rattle.std.proofs.Props.{props};
ghost use Rattle.std.specs.Prelude.{◌≡◌, ◌≢◌, ◌<◌, length};
ghost use Rattle.order_tiers.specs.Rows.{IsStrictOrder};

use crate::run_set::RunSet;
use desk_model::Desk;

/// A desk, and a row for each of its runs, of the runs that it is certified above. Its facts: each run has a row, and the
/// rows are those of a strict order.
#[derive(Clone, Copy)]
pub(crate) struct DeskRows<'r> {
    pub desk: &'r Desk,
    pub rows: &'r [RunSet],
    pub ghost count: { length rows.now ≡ length desk.now.runs },
    pub ghost strict: { IsStrictOrder rows.now } by { Prim.hlevel props },
}

/// One of these runs. Its fact: the desk has it.
#[derive(Clone, Copy)]
pub(crate) struct DeskRow<'r> {
    pub of: DeskRows<'r>,
    pub run: u32,
    pub ghost within: { run < length of.rows.now },
}

/// Two different runs of a desk. Its facts: the desk has both, and they are two.
#[derive(Clone, Copy)]
pub(crate) struct TwoRuns<'r> {
    pub desk: &'r Desk,
    pub first: u32,
    pub second: u32,
    pub ghost different: { first ≢ second },
    pub ghost has_first: { first < length desk.now.runs },
    pub ghost has_second: { second < length desk.now.runs },
}
