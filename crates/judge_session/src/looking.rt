// The search of an undo: one walk of the list, from its end back.
ghost use Rattle.std.specs.Prelude.{◌≡◌, ◌&&◌, is_some, Some, None, if◌then◌else◌};
ghost use Rattle.judge_session.specs.Tally.{changed_document};
ghost use Rattle.judge_session.specs.Looking.{looked, looked_back};

use crate::change::Change;
use crate::marking::{is_live_of, is_live_on};

/// What the changes looked at so far, the last ones of the list, say of a caller and a document.
#[derive(Clone, Copy)]
pub struct Found {
    /// The place of the caller's last live change, from 0.
    pub place: Option<usize>,
    /// The document of the caller's last live change before that one, by the numbers of its topic and of itself.
    pub next: Option<(u32, u32)>,
    /// The grade of the document's last live change, the one at the place left out.
    pub grade: Option<i32>,
}

impl Found {
    fn is_all(&self) -> bool
        ensures { result ≡
            (is_some self.now.place && (is_some self.now.next && is_some self.now.grade)) }
    {
        self.place.is_some() && self.next.is_some() && self.grade.is_some()
    }

    // What is found with one more change, which stands before those looked at.
    fn look(self, place: usize, change: &Change, who: &[u8], topic: u32, doc: u32) -> Found
        ensures { result ≡ looked who.now topic doc place change.now self }
    {
        let mine = is_live_of(change, who);
        if mine && !self.place.is_some() {
            return Found {
                place: Some(place),
                next: self.next,
                grade: self.grade,
            };
        }
        Found {
            place: self.place,
            next: self.next.or(document_if(mine, change)),
            grade: self
                .grade
                .or(grade_if(is_live_on(change, topic, doc), change)),
        }
    }
}

fn document_if(mine: bool, change: &Change) -> Option<(u32, u32)>
    ensures { result ≡ (if mine then Some (changed_document change.now) else None) }
{
    if mine {
        Some((change.topic, change.doc))
    } else {
        None
    }
}

fn grade_if(live: bool, change: &Change) -> Option<i32>
    ensures { result ≡ (if live then Some change.now.grade else None) }
{
    if live { Some(change.grade) } else { None }
}

/// Looks for the caller's last live change, for the document of the caller's live one before it, and for the grade of a
/// document's last live change other than the first of these. It looks at each change once at most, from the end back,
/// and stops where it has found all three.
pub fn look_back(changes: &[Change], who: &[u8], topic: u32, doc: u32) -> Found
    ensures { result ≡ looked_back who.now topic doc 0 changes.now }
{
    let mut found = Found {
        place: None,
        next: None,
        grade: None,
    };
    let mut place = changes.len();
    while place > 0 {
        if found.is_all() {
            return found;
        }
        place -= 1;
        found = found.look(place, &changes[place], who, topic, doc);
    }
    found
}
