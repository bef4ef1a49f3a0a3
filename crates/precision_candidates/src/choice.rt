//! A candidate of a run, and which of two is chosen.
ghost use Rattle.std.specs.Prelude.{◌≡◌, ◌*◌, ◌≤◌};
ghost use Rattle.desk_model.specs.Limits.{PARTS_OF_ONE, RANK_LIMIT};

/// A candidate, by how many unjudged documents it takes, or leaves out, and its number. Its fact: the number is not
/// great.
#[derive(Clone, Copy)]
pub struct Choice {
    pub count: u32,
    pub value: u128,
    pub ghost small: { value ≤ RANK_LIMIT * PARTS_OF_ONE },
}

impl Choice {
    ghost use Rattle.precision_candidates.specs.Firsts.{is_before};

    /// Whether a candidate is chosen before another.
    pub fn is_chosen(high: bool, x: Choice, y: Choice) -> bool
        ensures { result ≡ is_before high x y }
    {
        if high {
            x.value > y.value || (x.value == y.value && x.count < y.count)
        } else {
            x.value < y.value || (x.value == y.value && x.count > y.count)
        }
    }
}
