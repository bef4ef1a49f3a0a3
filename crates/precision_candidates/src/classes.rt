//! The class of each document: in which of a run's two candidates it is true.
ghost use Rattle.std.specs.Prelude.{◌≡◌, length, not, true, false, ◌&&◌, ◌||◌};
ghost use Rattle.precision_candidates.specs.Classes.{AreBase, AreClasses, base_class, has};

use crate::crossing::{Classes, is_in};
use crate::runs::ChosenRun;
use desk_model::Mark;
use measure_core::Class;

/// The class of a document that the run lacks.
pub fn class_for(mark: Mark) -> Class
    ensures { result ≡ base_class mark }
{
    match mark {
        Mark::Relevant => Class::Both,
        Mark::Other => Class::Neither,
        Mark::Unjudged => Class::Low,
    }
}

/// The class of a document that is taken in the high candidate too, or left out in the low one.
fn class_after(class: Class, taken: bool, left_out: bool) -> Class
    ensures high { has true result ≡ (has true class || taken) }
    ensures low { not (has false result) ≡ (not (has false class) || left_out) }
{
    if is_in(true, class) || taken {
        if is_in(false, class) && !left_out {
            Class::Both
        } else {
            Class::High
        }
    } else if is_in(false, class) && !left_out {
        Class::Low
    } else {
        Class::Neither
    }
}

/// Makes classes those of a topic, of documents that no run has.
fn set_base(marks: &[Mark], classes: &mut [Class])
    requires { length classes.old ≡ length marks.now }
    ensures { AreBase marks.now classes.new }
{
    for (place, mark) in marks.iter().enumerate() {
        classes[place] = class_for(*mark);
    }
}

/// Makes classes those of a run, from how many unjudged documents its high candidate takes and its low one leaves out.
pub fn mark_run(run: &ChosenRun<'_>, classes: &mut [Class])
    requires { length classes.old ≡ length run.now.on.marks.now }
    ensures { AreClasses run.now.on.marks.now run.now.on.docs.now classes.new }
{
    let on = run.on;
    set_base(on.marks, classes);
    let mut to_take = run.chosen.high.count;
    let mut to_leave = run.chosen.low.count;
    for doc in on.docs {
        if on.marks[*doc as usize] == Mark::Unjudged {
            classes[*doc as usize] = class_after(classes[*doc as usize], to_take > 0, to_leave > 0);
            to_take = to_take.saturating_sub(1);
            to_leave = to_leave.saturating_sub(1);
        }
    }
}

/// A run on a topic with its chosen candidates and the class of each document. Its fact: these are the classes.
#[derive(Clone, Copy)]
pub struct KeptClasses<'k> {
    pub run: ChosenRun<'k>,
    pub classes: &'k [Class],
    pub ghost are: { AreClasses run.on.marks.now run.on.docs.now classes.now },
}

impl Classes for KeptClasses<'_> {
    ghost marks = { λ k. k.run.on.marks.now };

    ghost run = { λ k. k.run.on.docs.now };

    fn chosen(&self) -> &ChosenRun<'_> {
        &self.run
    }

    fn class_of(&self, doc: u32) -> Class {
        self.classes[doc as usize]
    }
}
