// The three steps of a session, over its list of changes and the counts of each caller.
ghost use Rattle.std.specs.Prelude.{◌≡◌, ◌<◌, true, false, length, OnOk, OnErr, MatchOption, slice_index_or};
ghost use Rattle.std.specs.List.{list_any};
ghost use Rattle.desk_model.specs.Name.{is_name};
ghost use Rattle.judge_session.specs.Session.{is_live_by, is_undone_by, judged, undone, redone, without_undone, CHANGE_LIMIT};
ghost use Rattle.judge_session.specs.Marking.{IsFirstThat};
ghost use Rattle.judge_session.specs.Looking.{IsMarkOf};
ghost use Rattle.judge_session.specs.Tally.{changed_document};
ghost use Rattle.judge_session.specs.declared.change.Change.{Change};
ghost use Rattle.judge_session.specs.Kept.{IsKept};

use crate::change::Change;
use crate::counts::ChangeCounts;
use crate::looking::look_back;
use crate::marking::{drop_undone, first_undone, set_live};
use crate::tally::Tally;
use desk_model::{Memory, Name};
use std::alloc::Global;

/// Drops the caller's undone changes and appends a live one. All memory is taken before anything changes.
pub fn append(
    changes: &mut Vec<Change>,
    tally: &mut Tally,
    alloc: Global,
    who: &[u8],
    topic: u32,
    doc: u32,
    grade: i32,
) -> Result<(), Memory>
    requires named { is_name who.now ≡ true }
    requires kept { IsKept changes.old.items tally.old }
    requires room { length (without_undone who.now changes.old.items) < CHANGE_LIMIT }
    ensures ok { OnOk result (changes.new.items ≡
        judged who.now topic doc grade changes.old.items) }
    ensures err { OnErr result (changes.new.items ≡ changes.old.items) }
    ensures kept { IsKept changes.new.items tally.new }
{
    changes.reserve(1)?;
    let name = Name::copy_of(alloc, who)?;
    // The last that can fail, so that no name of a refused caller stays.
    tally.add(alloc, who)?;
    let change = Change {
        who: name,
        topic,
        doc,
        grade,
        live: true,
    };
    changes.push_reserved(change);
    let counts = tally.counts(who);
    // Only here does a judgement walk the list.
    if counts.undone > 0 {
        drop_undone(changes, who);
    }
    let now = ChangeCounts {
        live: counts.live + 1,
        undone: 0,
        last: Some((topic, doc)),
    };
    tally.set(who, now);
    Ok(())
}

/// The document of a change that was undone, and its grade afterwards.
#[derive(Clone, Copy)]
pub struct UndoneMark {
    /// The number of the topic in the desk, from 0.
    pub topic: u32,
    /// The number of the document in the topic's universe, from 0.
    pub doc: u32,
    /// The grade of the document's last live change, as it was given, and `None` where it has none.
    pub grade: Option<i32>,
}

/// Marks the caller's last live change as undone. It looks at each change once at most.
pub fn undo_last(changes: &mut Vec<Change>, tally: &mut Tally, who: &[u8]) -> Option<UndoneMark>
    requires { IsKept changes.old.items tally.old }
    ensures mark { MatchOption result (list_any (is_live_by who.now) changes.old.items ≡ false)
        (IsMarkOf who.now changes.old.items changes.new.items) }
    ensures undone { changes.new.items ≡ undone who.now changes.old.items }
    ensures kept { IsKept changes.new.items tally.new }
{
    let counts = tally.counts(who);
    let Some((topic, doc)) = counts.last else {
        return None;
    };
    let found = look_back(changes, who, topic, doc);
    let Some(place) = found.place else {
        return None;
    };
    set_live(changes, place, false);
    let now = ChangeCounts {
        live: counts.live - 1,
        undone: counts.undone + 1,
        last: found.next,
    };
    tally.set(who, now);
    Some(UndoneMark {
        topic,
        doc,
        grade: found.grade,
    })
}

/// Makes the caller's first undone change live, and answers its place.
pub fn redo_first(changes: &mut Vec<Change>, tally: &mut Tally, who: &[u8]) -> Option<usize>
    requires { IsKept changes.old.items tally.old }
    ensures place { MatchOption result (list_any (is_undone_by who.now) changes.old.items ≡ false)
        (IsFirstThat (is_undone_by who.now) changes.old.items) }
    ensures redone { changes.new.items ≡ redone who.now changes.old.items }
    ensures kept { IsKept changes.new.items tally.new }
{
    let place = first_undone(changes, who)?;
    let counts = tally.counts(who);
    let last = document_at(changes, place);
    set_live(changes, place, true);
    let now = ChangeCounts {
        live: counts.live + 1,
        undone: counts.undone - 1,
        last: Some(last),
    };
    tally.set(who, now);
    Some(place)
}

fn document_at(changes: &[Change], place: usize) -> (u32, u32)
    requires { place < length changes.now }
    ensures { (d : Change) → result ≡ changed_document (slice_index_or changes.now place d) }
{
    let change = &changes[place];
    (change.topic, change.doc)
}
