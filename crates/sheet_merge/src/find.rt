// The row of a place.
ghost use Rattle.std.specs.Prelude.{◌≡◌, MatchOption, None, Some, if◌then◌else◌, ◌+◌, ◌<◌, ◌^◌};
ghost use Rattle.std.specs.Ordering.{is_lt};
ghost use Rattle.sheet_merge.specs.Sheet.{IsMap, greatest_on};

use crate::row::RowRef;
use crate::rows::SheetRows;
use std::cmp::Ordering;

// The places that are left of those from a low one on and before a high one, after a look at one between them.
fn narrowed(order: Ordering, low: usize, middle: usize, high: usize) -> (usize, usize)
    requires { middle + 1 < 2 ^ 64 }
    ensures { result ≡ (if is_lt order then (middle + 1, high) else (low, middle)) }
{
    match order {
        Ordering::Less => (middle + 1, high),
        _ => (low, middle),
    }
}

/// The row of a place in a map, and `None` exactly where there is none.
pub fn find<'r>(rows: &'r SheetRows, topic: &[u8], document: &[u8]) -> Option<RowRef<'r>>
    requires { IsMap rows.now }
    ensures { MatchOption result (greatest_on (topic.now, document.now) rows.now ≡ None) (λ row.
        greatest_on (topic.now, document.now) rows.now ≡ Some row.1) }
{
    let (mut low, mut high) = (0, rows.len());
    while low < high {
        let middle = low + (high - low) / 2;
        let row = rows.get(middle);
        let order = row.compare_place_with(topic, document);
        if order.is_eq() {
            return Some(row);
        }
        (low, high) = narrowed(order, low, middle, high);
    }
    None
}
