// Searches and marks in a list of changes.
ghost use Rattle.std.specs.Prelude.{◌≡◌, ◌<◌, ℕ, false, filter, length, Option, ℤ, MatchOption, Some, if◌then◌else◌, slice_index_or, slice_set};
ghost use Rattle.std.specs.List.{list_any};
ghost use Rattle.judge_session.specs.Session.{without_undone, is_live_by, is_undone_by, with_live};
ghost use Rattle.judge_session.specs.InForce.{grade_after, counted_grade, is_live_on as on_document};
ghost use Rattle.judge_session.specs.Marking.{IsLastThat, IsFirstThat};
ghost use Rattle.judge_session.specs.declared.change.Change.{Change};

use crate::change::Change;

/// The place of the caller's first undone change.
pub fn first_undone(changes: &[Change], who: &[u8]) -> Option<usize>
    ensures { MatchOption result (list_any (is_undone_by who.now) changes.now ≡ false)
        (IsFirstThat (is_undone_by who.now) changes.now) }
{
    for (place, change) in changes.iter().enumerate() {
        if is_undone_of(change, who) {
            return Some(place);
        }
    }
    None
}

/// Whether it is a live change of this caller.
pub fn is_live_of(change: &Change, who: &[u8]) -> bool
    ensures { result ≡ is_live_by who.now change.now }
{
    change.live && change.who.is_same(who)
}

fn is_undone_of(change: &Change, who: &[u8]) -> bool
    ensures { result ≡ is_undone_by who.now change.now }
{
    !change.live && change.who.is_same(who)
}

/// Makes the change at a place live or undone.
pub fn set_live(changes: &mut Vec<Change>, place: usize, live: bool)
    requires { place < length changes.old.items }
    ensures { (d : Change) →
        changes.new.items ≡ slice_set changes.old.items place
        (with_live live (slice_index_or changes.old.items place d)) }
{
    let change = &mut changes[place];
    change.live = live;
}

/// Drops a caller's undone changes.
pub fn drop_undone(changes: &mut Vec<Change>, who: &[u8])
    ensures { changes.new.items ≡ without_undone who.now changes.old.items }
{
    changes.retain(|change| !is_undone_of(change, who));
}

/// The grade as it counts: one below 0 counts as none.
pub fn counted(grade: Option<i32>) -> Option<i32>
    ensures { result ≡ counted_grade grade }
{
    match grade {
        Some(grade) if grade >= 0 => Some(grade),
        _ => None,
    }
}

// The place of a document's last live change.
fn last_on(changes: &[Change], topic: u32, doc: u32) -> Option<usize>
    ensures { MatchOption result (list_any (on_document topic doc) changes.now ≡ false)
        (IsLastThat (on_document topic doc) changes.now) }
{
    let mut place = changes.len();
    while place > 0 {
        place -= 1;
        if is_live_on(&changes[place], topic, doc) {
            return Some(place);
        }
    }
    None
}

/// Whether it is a live change of this document.
pub fn is_live_on(change: &Change, topic: u32, doc: u32) -> bool
    ensures { result ≡ on_document topic doc change.now }
{
    change.live && change.topic == topic && change.doc == doc
}

/// The grade of a document's last live change, else the one given, by at most one walk from the end.
pub fn last_grade(changes: &[Change], topic: u32, doc: u32, file: Option<i32>) -> Option<i32>
    ensures { result ≡ grade_after file topic doc changes.now }
{
    match last_on(changes, topic, doc) {
        Some(place) => grade_of(&changes[place]),
        None => file,
    }
}

fn grade_of(change: &Change) -> Option<i32>
    ensures { result ≡ Some change.now.grade }
{
    Some(change.grade)
}
