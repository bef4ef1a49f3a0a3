ghost use Rattle.std.specs.Prelude.{◌≡◌, ◌-◌, ◌≤◌, ◌&&◌, ◌||◌, not, nat_lt, length, IfOk, if◌then◌else◌};
ghost use Rattle.desk_model.specs.Limits.{DOCUMENT_LIMIT};
ghost use Rattle.desk_model.specs.Completion.{picked_value, with_picked};
ghost use Rattle.measure_laws.specs.Classes.{is_unjudged};
ghost use Rattle.measure_core.specs.Laws.{AreValues};
ghost use Rattle.rprec.specs.Picks.{picks};

use desk_model::{Mark, Memory, Ranking};
use std::alloc::Global;
use topic_counts::counts::is_among_first;

/// How many unjudged documents of each class are to be made relevant: of those that the second run
/// alone has among its first ones, of those that both or neither have, and of the first run's own.
#[derive(Clone, Copy, PartialEq, Eq)]
pub struct Wanted {
    pub second: u32,
    pub both: u32,
    pub first: u32,
}

/// Whether a document is relevant, and what is left to be made relevant after it.
#[derive(Clone, Copy, PartialEq, Eq)]
struct Choice {
    value: bool,
    left: Wanted,
}

/// The least case of two runs: how many relevant documents the topic has in it, and how many unjudged ones of each
/// class are made relevant for that.
#[derive(Clone, Copy, PartialEq, Eq)]
pub struct LeastCase {
    pub count: u32,
    pub wanted: Wanted,
}

/// The greedy choice of so many documents out of all unjudged ones, from how many of these each run alone has.
pub fn wanted_of(chosen: u32, first: u32, second: u32, unjudged: u32) -> Wanted
    ensures second { result.second ≡ chosen }
    ensures both { result.both ≡ chosen - second }
    ensures first { result.first ≡ chosen - second - (unjudged - first - second) }
{
    let both = chosen.saturating_sub(second);
    let others = unjudged.saturating_sub(first).saturating_sub(second);
    Wanted {
        second: chosen,
        both,
        first: both.saturating_sub(others),
    }
}

fn choose(left: Wanted, mark: Mark, in_first: bool, in_second: bool) -> Choice
    ensures value { result.value ≡
        picked_value (((is_unjudged mark && (in_second && not in_first)) && nat_lt 0 left.second) ||
        (((is_unjudged mark && (not (in_second && not in_first) && not (in_first && not in_second)))
        && nat_lt 0 left.both) ||
        ((is_unjudged mark && (in_first && not in_second)) && nat_lt 0 left.first))) mark }
    ensures second { result.left.second ≡ left.second -
        (if is_unjudged mark && (in_second && not in_first) then 1 else 0) }
    ensures both { result.left.both ≡ left.both -
        (if is_unjudged mark && (not (in_second && not in_first) && not (in_first && not in_second))
        then 1 else 0) }
    ensures first { result.left.first ≡ left.first -
        (if is_unjudged mark && (in_first && not in_second) then 1 else 0) }
{
    match mark {
        Mark::Relevant => Choice { value: true, left },
        Mark::Other => Choice { value: false, left },
        Mark::Unjudged => choose_open(left, in_first, in_second),
    }
}

fn choose_open(left: Wanted, in_first: bool, in_second: bool) -> Choice
    ensures value { result.value ≡
        (((in_second && not in_first) && nat_lt 0 left.second) ||
        (((not (in_second && not in_first) && not (in_first && not in_second)) && nat_lt 0
        left.both) || ((in_first && not in_second) && nat_lt 0 left.first))) }
    ensures second { result.left.second ≡ left.second -
        (if in_second && not in_first then 1 else 0) }
    ensures both { result.left.both ≡ left.both -
        (if not (in_second && not in_first) && not (in_first && not in_second) then 1 else 0) }
    ensures first { result.left.first ≡ left.first - (if in_first && not in_second then 1 else 0) }
{
    match (in_first, in_second) {
        (false, true) => Choice {
            value: 0 < left.second,
            left: Wanted {
                second: left.second.saturating_sub(1),
                both: left.both,
                first: left.first,
            },
        },
        (true, false) => Choice {
            value: 0 < left.first,
            left: Wanted {
                second: left.second,
                both: left.both,
                first: left.first.saturating_sub(1),
            },
        },
        _ => Choice {
            value: 0 < left.both,
            left: Wanted {
                second: left.second,
                both: left.both.saturating_sub(1),
                first: left.first,
            },
        },
    }
}

/// Whether each document is relevant, where of each class the first ones are made so.
pub fn values(
    alloc: Global,
    wanted: Wanted,
    count: u32,
    a: &Ranking,
    b: &Ranking,
    marks: &[Mark],
) -> Result<Vec<bool>, Memory>
    requires { length marks.now ≤ DOCUMENT_LIMIT }
    ensures { IfOk result (λ values.
        AreValues (with_picked marks.now (picks wanted marks.now a.now b.now count))
        (length marks.now) values.items) }
{
    let mut values = Vec::new(alloc);
    let mut left = wanted;
    for (place, mark) in marks.iter().enumerate() {
        let doc = place as u32;
        let choice = choose(
            left,
            *mark,
            is_among_first(count, a, doc),
            is_among_first(count, b, doc),
        );
        left = choice.left;
        values.push(choice.value)?;
    }
    Ok(values)
}
