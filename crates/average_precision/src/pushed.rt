//! The lists of the documents that both cases of two runs add, by the class of each document.
ghost use Rattle.std.specs.Prelude.{◌≡◌, ◌++◌, ◌&&◌, IfOk, OnOk};
ghost use Rattle.desk_model.specs.Mark.{is_unjudged};
ghost use Rattle.desk_model.specs.declared.types.MeasureName.TheVariants.{AveragePrecision as A};
ghost use Rattle.measure_core.specs.Laws.{AreMet};
ghost use Rattle.measure_core.specs.Lists.{added_documents, least_documents};
ghost use Rattle.precision_candidates.specs.Classes.{AreClasses, class_truth, has};
ghost use Rattle.average_precision.specs.Least.{case_truth};

use crate::average_precision::{AveragePrecision, counts_of};
use crate::numbers::Case;
use crate::pair::leasts_of;
use desk_model::{Mark, Memory, Ranking};
use measure_core::Class;
use precision_candidates::classes::{KeptClasses, mark_run};
use precision_candidates::crossing::is_in;
use precision_candidates::runs::ChosenRun;
use std::alloc::Global;

/// Whether a document with this mark and class is unjudged, and true in a run's high candidate, or in its low one.
fn is_added(high: bool, mark: Mark, class: Class) -> bool
    ensures { result ≡ (is_unjudged mark && has high class) }
{
    mark == Mark::Unjudged && is_in(high, class)
}

/// Appends the unjudged documents that are true in a run's high candidate, or in its low one.
fn push_in(high: bool, run: &KeptClasses<'_>, docs: &mut Vec<u32>) -> Result<(), Memory>
    ensures { OnOk result (docs.new.items ≡ docs.old.items ++
        added_documents run.now.run.on.marks.now (class_truth high run.now.classes.now)) }
{
    let marks = run.run.on.marks;
    for doc in 0..marks.len() {
        if is_added(high, marks[doc], run.classes[doc]) {
            docs.push(doc as u32)?;
        }
    }
    Ok(())
}

/// Appends the unjudged documents that a case of two runs makes relevant.
fn push_case(
    case: Case,
    first: &KeptClasses<'_>,
    second: &KeptClasses<'_>,
    docs: &mut Vec<u32>,
) -> Result<(), Memory>
    requires { second.now.run.on.marks.now ≡ first.now.run.on.marks.now }
    ensures { OnOk result (docs.new.items ≡ docs.old.items ++
        added_documents first.now.run.on.marks.now
        (case_truth first.now.run.on.marks.now first.now.run.on.docs.now
        second.now.run.on.docs.now case)) }
{
    match case {
        Case::OfNone => Ok(()),
        Case::OfLow => push_in(false, first, docs),
        Case::OfHigh => push_in(true, second, docs),
    }
}

/// The class of each document of a topic for a run.
fn classes_of(alloc: Global, run: &ChosenRun<'_>) -> Result<Vec<Class>, Memory>
    ensures { IfOk result (λ classes.
        AreClasses run.now.on.marks.now run.now.on.docs.now classes.items) }
{
    let mut classes = vec![in alloc; Class::Neither; run.on.marks.len()]?;
    mark_run(run, &mut classes);
    Ok(classes)
}

impl AveragePrecision {
    /// Appends the documents that the least case of two runs adds to `least`, and those that the most case adds to `most`.
    ///
    /// # Errors
    /// `Memory`: out of memory. It is then not known what `least` and `most` hold.
    pub(crate) fn pushed_both(
        &self,
        alloc: Global,
        a: &Ranking,
        b: &Ranking,
        marks: &[Mark],
        least: &mut Vec<u32>,
        most: &mut Vec<u32>,
    ) -> Result<(), Memory>
        requires { AreMet marks.now a.now b.now }
        ensures least { OnOk result (least.new.items ≡ least.old.items ++
            least_documents A marks.now a.now b.now) }
        ensures most { OnOk result (most.new.items ≡ most.old.items ++
            least_documents A marks.now b.now a.now) }
    {
        let all = counts_of(marks);
        let one = self.chosen_run(a, marks, all);
        let two = self.chosen_run(b, marks, all);
        let in_one = classes_of(alloc, &one)?;
        let in_two = classes_of(alloc, &two)?;
        let first = KeptClasses {
            run: one,
            classes: &in_one,
        };
        let second = KeptClasses {
            run: two,
            classes: &in_two,
        };
        let both = leasts_of(&first, &second, &self.parts);
        push_case(both.least.kind, &first, &second, least)?;
        push_case(both.swapped.kind, &second, &first, most)
    }
}
