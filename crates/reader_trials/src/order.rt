// What is meant by trec_eval's order, by examples.
use qrels_reader::{FileFault, read_qrels};
use run_reader::{RunRows, Used, read_run};
use std::alloc::Global;
use topic_universe::{RankedNames, ranking};

// Two rows on each of three topics. Those of the second have scores that differ in the twentieth place alone.
fn tied(alloc: Global) -> Result<RunRows, FileFault> {
    let qrels = read_qrels(alloc, b"401 0 d 1\n402 0 d 1\n403 0 d 1\n404 0 d 1\n")?;
    let used = Used {
        rows: 0,
        name_bytes: 0,
    };
    let text =
        b"401 Q0 d1 1 1.0 A\n401 Q0 d2 2 1.00 A\n402 Q0 d1 2 0.30000000000000000001 A\n402 Q0 d2 1 0.3 A\n403 Q0 d1 1 1e1 A\n403 Q0 d2 2 10.0 A\n";
    read_run(alloc, text, None, &qrels, used)
}

fn are_two(names: &RankedNames<'_>, first: &[u8], second: &[u8]) -> bool {
    names.len() == 2 && names.get(0) == first && names.get(1) == second
}

// Whether the rows on a topic stand in this order.
fn is_ranked(alloc: Global, run: &RunRows, topic: &[u8], first: &[u8], second: &[u8]) -> bool {
    ranking(alloc, run, topic).is_ok_and(|names| are_two(&names, first, second))
}

fn are_ranked(alloc: Global, run: &RunRows) -> bool {
    is_ranked(alloc, run, b"401", b"d2", b"d1")
        && is_ranked(alloc, run, b"402", b"d1", b"d2")
        && is_ranked(alloc, run, b"403", b"d2", b"d1")
        && ranking(alloc, run, b"404").is_ok_and(|names| names.len() == 0)
}

#[test]
fn ranks_by_score_and_then_by_name(rt: HostRuntime) {
    let alloc = rt.alloc();
    assert!(rt; tied(alloc).is_ok_and(|run| are_ranked(alloc, &run)));
}
