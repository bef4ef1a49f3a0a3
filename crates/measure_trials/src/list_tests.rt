//! The documents that each measure lists, beside its least case.
ghost use Rattle.desk_model.specs.MeasureText.{IsMeasure};

use crate::answers::ask;
use crate::tests::{MARKS, RANKINGS};
use desk_model::{Mark, MeasureName};
use std::alloc::Global;
use std::process::Abort;
use std::test::Fail;

/// The unjudged documents that are relevant in a case.
fn added(rt: &impl Abort, alloc: Global, case: &[bool], marks: &[Mark]) -> Result<Vec<u32>, Fail> {
    assert!(rt; marks.len() <= 100);
    let mut docs = Vec::new(alloc);
    for (doc, mark) in marks.iter().enumerate() {
        if *mark == Mark::Unjudged && case.get(doc) == Some(&true) {
            docs.push(doc as u32)?;
        }
    }
    Ok(docs)
}

/// How often two lists have each of some documents.
fn times(
    rt: &impl Abort,
    alloc: Global,
    lists: (&[u32], &[u32]),
    universe: usize,
) -> Result<Vec<u32>, Fail> {
    assert!(rt; universe <= 100);
    let mut counts = Vec::new(alloc);
    for doc in 0..universe as u32 {
        let in_both = u32::from(lists.0.contains(&doc)) + u32::from(lists.1.contains(&doc));
        counts.push(in_both)?;
    }
    Ok(counts)
}

fn compare_lists(rt: &impl Abort, alloc: Global, name: MeasureName) -> Result<(), Fail>
    requires { IsMeasure name }
{
    for marks in &MARKS[..2] {
        for first in &RANKINGS {
            for second in &RANKINGS {
                let runs = (*first, *second);
                let answers = ask(rt, alloc, name, runs, marks, 0)?;
                let expected = added(rt, alloc, &answers.least_case, marks)?;
                assert!(rt;
                    answers.least_docs.as_slice() == expected.as_slice(),
                    "{runs:?}"
                );
                let others = added(rt, alloc, &answers.most_case, marks)?;
                let lists = (expected.as_slice(), others.as_slice());
                let counts = times(rt, alloc, lists, marks.len())?;
                assert!(rt; answers.counts.as_slice() == counts.as_slice(), "{runs:?}");
                assert!(rt; answers.sizes.least as usize == expected.len(), "{runs:?}");
                assert!(rt; answers.sizes.most as usize == others.len(), "{runs:?}");
            }
        }
    }
    Ok(())
}

#[test]
fn lists_the_documents_of_the_least_case(rt: HostRuntime) -> Result<(), Fail> {
    let alloc = rt.alloc();
    // The one k is looked up, and for the other two rankings are walked over.
    for k in [2, 200] {
        compare_lists(&rt, alloc, MeasureName::Precision(k))?;
        compare_lists(&rt, alloc, MeasureName::Recall(k))?;
    }
    compare_lists(&rt, alloc, MeasureName::Reciprocal)?;
    compare_lists(&rt, alloc, MeasureName::RPrecision)?;
    compare_lists(&rt, alloc, MeasureName::Biased { top: 8, bottom: 10 })?;
    compare_lists(&rt, alloc, MeasureName::AveragePrecision)
}
