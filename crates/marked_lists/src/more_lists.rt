// Lists of the unjudged documents that one of two rankings alone has among its first k, and of some more.
ghost use Rattle.std.specs.Prelude.{◌≡◌, ◌-◌, ◌++◌, ◌&&◌, ◌||◌, not, nat_lt, if◌then◌else◌, drop, OnOk};
ghost use Rattle.desk_model.specs.Completion.{with_picked};
ghost use Rattle.desk_model.specs.Mark.{is_unjudged};
ghost use Rattle.desk_model.specs.Placed.{lookup};
ghost use Rattle.measure_core.specs.Lists.{added_documents};
ghost use Rattle.marked_lists.specs.More.{own_and_more};
ghost use Rattle.measure_core.specs.OneSide.{is_by};
ghost use Rattle.measure_core.specs.Places.{BeginsAt};
ghost use Rattle.measure_core.specs.Worths.{rank_or_none};

use crate::own_lists::SecondAlone;
use desk_model::{Mark, Memory};
use measure_core::places::rest;
use measure_core::rank_lists::push_places;
use measure_core::{MarkedPair, MarkedPlaces};

/// How many unjudged documents are listed beside those that the second of two rankings alone has among its first k: of
/// those that both or neither have there, and of those that the first alone has.
#[derive(Clone, Copy, PartialEq, Eq)]
pub struct More {
    pub both: u32,
    pub first: u32,
}

impl More {
    /// Whether some are left to be listed.
    fn is_some(self) -> bool
        ensures { result ≡ (nat_lt 0 self.both || nat_lt 0 self.first) }
    {
        (self.both > 0) | (self.first > 0)
    }

    /// Whether one more document is listed.
    fn lists(self, mark: Mark, in_first: bool, in_second: bool) -> bool
        ensures { result ≡
            (is_unjudged mark &&
            ((in_second && not in_first) ||
            (((not (in_second && not in_first) && not (in_first && not in_second)) && nat_lt 0
            self.both) || ((in_first && not in_second) && nat_lt 0 self.first)))) }
    {
        let is_left = match (in_first, in_second) {
            (false, true) => true,
            (true, false) => 0 < self.first,
            _ => 0 < self.both,
        };
        mark == Mark::Unjudged && is_left
    }

    /// How many are left to be listed after it.
    fn after(self, mark: Mark, in_first: bool, in_second: bool) -> More
        ensures both { result.both ≡ self.both -
            (if is_unjudged mark &&
            (not (in_second && not in_first) && not (in_first && not in_second)) then 1 else 0) }
        ensures first { result.first ≡ self.first -
            (if is_unjudged mark && (in_first && not in_second) then 1 else 0) }
    {
        let of_both = u32::from(mark == Mark::Unjudged && in_first == in_second);
        let of_first = u32::from(mark == Mark::Unjudged && in_first && !in_second);
        More {
            both: self.both.saturating_sub(of_both),
            first: self.first.saturating_sub(of_first),
        }
    }
}

/// The rank of a document that no place from one on comes before, and 0 where it has none there.
#[inline]
pub(crate) fn rank_from(marked: &MarkedPlaces, at: usize, doc: u32) -> u32
    requires { BeginsAt doc (drop at marked.now.places.now) }
    ensures { rank_or_none result ≡ lookup (drop at marked.now.places.now) doc }
{
    let places = marked.places;
    if at < places.len() && places[at].doc == doc {
        places[at].rank
    } else {
        0
    }
}

/// Whether a rank is at most k; 0 stands for that of an absent document.
#[inline]
pub(crate) fn is_by(k: u32, rank: u32) -> bool
    ensures { result ≡ is_by k (rank_or_none rank) }
{
    (rank > 0) & (rank <= k)
}

/// How many places a walk goes on after a document: one where it has a rank.
#[inline]
pub(crate) fn gone_on(rank: u32) -> usize
    ensures { result ≡ (if nat_lt 0 rank then 1 else 0) }
{
    usize::from(rank > 0)
}

/// Appends the unjudged documents that b has among its first k and a has not, and with them the first ones of the
/// others, as many of each kind as are wanted, all ascending: by one walk over the marks and both rankings while some of the
/// others are wanted, and then over the rankings alone.
///
/// # Errors
/// `Memory`: out of memory. It is then not known what `docs` holds.
pub fn push_own_and_more(
    k: u32,
    more: More,
    pair: &MarkedPair,
    docs: &mut Vec<u32>,
) -> Result<(), Memory>
    ensures { OnOk result (docs.new.items ≡ docs.old.items ++
        added_documents pair.now.marks.now
        (with_picked pair.now.marks.now
        (own_and_more k more pair.now.marks.now pair.now.a.now pair.now.b.now))) }
{
    let marks = pair.marks;
    let first = pair.a.by_doc();
    let second = pair.b.by_doc();
    let one = MarkedPlaces {
        places: first,
        marks,
    };
    let other = MarkedPlaces {
        places: second,
        marks,
    };
    let mut i = 0;
    let mut j = 0;
    let mut left = more;
    let mut doc = 0;
    while (doc as usize) < marks.len() && left.is_some() {
        let mark = marks[doc as usize];
        let x = rank_from(&one, i, doc);
        let y = rank_from(&other, j, doc);
        let in_first = is_by(k, x);
        let in_second = is_by(k, y);
        if left.lists(mark, in_first, in_second) {
            docs.push(doc)?;
        }
        left = left.after(mark, in_first, in_second);
        i += gone_on(x);
        j += gone_on(y);
        doc += 1;
    }
    // Of the documents that are left only the second run's own are listed.
    let one = MarkedPlaces {
        places: rest(first, i),
        marks,
    };
    let other = MarkedPlaces {
        places: rest(second, j),
        marks,
    };
    push_places(&SecondAlone { k }, &one, &other, docs)
}
