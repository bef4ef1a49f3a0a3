// The texts and the desk of a demo. What is expected was worked out by a program in another language, from the definitions.
use demo_desk::{DemoDesk, Generator, demo_desk, qrels_text, run_text};
use std::alloc::Global;
use std::test::Fail;

// How the texts of seed 7 begin.
const QRELS: &[u8] = b"401 0 D0000 0\n401 0 D0013 2\n401 0 D0026 2\n401 0 D0032 2\n";

const FIRST: &[u8] = b"401 Q0 D0651 0 63.296 S1\n401 Q0 D0658 1 46.645 S1\n";

const SECOND: &[u8] = b"401 Q0 D1966 0 40.423 S2\n401 Q0 D1973 1 12.286 S2\n";

fn are_first_lines(alloc: Global) -> Result<bool, Fail> {
    let mut generator = Generator::new(7);
    let qrels = qrels_text(alloc, &mut generator)?;
    let first = run_text(alloc, &mut generator, 0)?;
    let second = run_text(alloc, &mut generator, 1)?;
    Ok(qrels.starts_with(QRELS) && first.starts_with(FIRST) && second.starts_with(SECOND))
}

// Topics 401 and 450 have so many documents.
fn is_desk_of_seed_7(demo: &DemoDesk) -> bool {
    let desk = &demo.desk;
    demo.rows == 200_000
        && desk.topic_count() == 50
        && desk.topic(0).name() == b"401".as_slice()
        && desk.topic(0).doc_count() == 1_902
        && desk.topic(49).name() == b"450".as_slice()
        && desk.topic(49).doc_count() == 1_735
}

#[test]
fn the_texts_and_the_desk_of_a_seed_are_made(rt: HostRuntime) -> Result<(), Fail> {
    assert!(rt; are_first_lines(rt.alloc())?);
    let demo = demo_desk(rt.alloc(), 7)?;
    assert!(rt; is_desk_of_seed_7(&demo));
    Ok(())
}
