// A small desk and the pool of a depth on it, by hand.
use crate::desks::{desk_of, marks_of};
use desk_model::{PoolCount, pool_count};
use std::test::Fail;

#[test]
fn two_runs_make_a_desk_and_a_pool(rt: HostRuntime) -> Result<(), Fail> {
    let alloc = rt.alloc();
    let qrels: &[u8] = b"402 0 b 1\n401 0 c 2\n401 0 a 0\n402 0 x -1\n";
    let first: &[u8] = b"401 Q0 c 1 3.0 A\n401 Q0 d 2 2.0 A\n402 Q0 b 1 1.0 A\n";
    let second: &[u8] = b"401 Q0 a 1 1.0 B\n403 Q0 z 1 1 B\n401 Q0 e 2 5.0 B\n";
    let desk = desk_of(alloc, &[qrels], &[first], &[second])?;
    let marks = marks_of(alloc, &desk, None)?;
    assert!(rt; 0 < desk.topic_count());
    let pool = PoolCount {
        size: 4,
        judged: 2,
        relevant: 1,
        unjudged: 2,
    };
    assert!(rt; pool_count(&desk, &marks, 0, 2) == pool);
    Ok(())
}

#[test]
fn closed_documents_count_as_judged(rt: HostRuntime) -> Result<(), Fail> {
    let alloc = rt.alloc();
    let qrels: &[u8] = b"401 0 d1 1\n401 0 d2 0\n";
    let first: &[u8] = b"401 Q0 d1 1 2.0 A\n401 Q0 x 2 1.0 A\n";
    let second: &[u8] = b"401 Q0 d2 1 2.0 B\n401 Q0 y 2 1.0 B\n";
    let desk = desk_of(alloc, &[qrels], &[first], &[second])?;
    let marks = marks_of(alloc, &desk, Some(1))?;
    assert!(rt; 0 < desk.topic_count());
    let pool = PoolCount {
        size: 4,
        judged: 4,
        relevant: 1,
        unjudged: 0,
    };
    assert!(rt; pool_count(&desk, &marks, 0, 2) == pool);
    let pooled = marks.pooled(0, 0) && marks.pooled(0, 1);
    assert!(rt; pooled);
    let closed = !marks.pooled(0, 2) && !marks.pooled(0, 3);
    assert!(rt; closed);
    Ok(())
}
