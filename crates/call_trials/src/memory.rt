// The objects in memory, which fail where they are told to.
use crate::reading::{TEXT, read_to_end};
use desk_outside::{Failed, MemShelf, MemSink, MemSource, Shelf, put_all};
use std::alloc::Global;
use std::test::Fail;

// Two files of one name, and none of another.
fn shelf(alloc: Global, failing: u64) -> Result<MemShelf, Fail> {
    let first = (String::from_str(alloc, "a")?, TEXT.to_vec(alloc)?);
    let second = (String::from_str(alloc, "a")?, b"other".to_vec(alloc)?);
    let files = vec![in alloc; first, second]?;
    Ok(MemShelf::new(files, vec![in alloc; failing]?))
}

// The bytes of the file `a`, or the number of the first call that fails.
fn read_a<F: Shelf>(shelf: &mut F, room: &mut [u8; 16]) -> Result<usize, u64> {
    shelf.open("a").map_err(|_| 0u64)?;
    let count = shelf.read(room).map_err(|_| 1u64)?;
    shelf.read(&mut [0; 4]).map_err(|_| 2u64)?;
    Ok(count)
}

fn shelf_gives(alloc: Global, failing: u64, count: Result<usize, u64>) -> Result<bool, Fail> {
    let mut room = [0; 16];
    let read = read_a(&mut shelf(alloc, failing)?, &mut room);
    Ok(read == count && (read.is_err() || &room[..10] == TEXT))
}

fn source_gives(alloc: Global, failing: u64, before: Option<usize>) -> Result<bool, Fail> {
    let mut source = MemSource::new(TEXT.to_vec(alloc)?, 4, vec![in alloc; failing]?);
    let mut bytes = Vec::new(alloc);
    Ok(read_to_end(&mut source, &mut bytes)? == before && bytes.as_slice() == TEXT)
}

fn sink_takes(
    alloc: Global,
    room: usize,
    failing: u64,
    answer: Result<(), Failed>,
    received: &str,
) -> Result<bool, Fail> {
    let mut sink = MemSink::new(alloc, room, 4, vec![in alloc; failing]?)?;
    Ok(put_all(&mut sink, TEXT) == answer && sink.received() == received.as_bytes())
}

// A call that fails, and what reading the file gives.
const OF_SHELF: [(u64, Result<usize, u64>); 4] = [
    (0, Err(0)),
    (1, Err(1)),
    (2, Err(2)),
    (3, Ok(10)),
];

#[test]
fn the_shelf_fails_at_each_call_in_turn(rt: HostRuntime) -> Result<(), Fail> {
    for (failing, count) in &OF_SHELF {
        assert!(rt; shelf_gives(rt.alloc(), *failing, *count)?);
    }
    assert!(rt; shelf(rt.alloc(), 3)?.open("b").is_err());
    Ok(())
}

// A call that fails, and the bytes before it.
const OF_SOURCE: [(u64, Option<usize>); 5] = [
    (0, Some(0)),
    (1, Some(4)),
    (2, Some(8)),
    (3, Some(10)),
    (4, None),
];

#[test]
fn the_source_fails_at_each_call_in_turn(rt: HostRuntime) -> Result<(), Fail> {
    for (failing, before) in &OF_SOURCE {
        assert!(rt; source_gives(rt.alloc(), *failing, *before)?);
    }
    Ok(())
}

// The room, a call that fails, the answer, and what was received.
const OF_SINK: [(usize, u64, Result<(), Failed>, &str); 5] = [
    (10, 0, Err(Failed), ""),
    (10, 1, Err(Failed), "ten "),
    (10, 2, Err(Failed), "ten byte"),
    (10, 3, Ok(()), "ten bytes."),
    (6, 3, Err(Failed), "ten by"),
];

#[test]
fn the_sink_fails_at_each_call_in_turn(rt: HostRuntime) -> Result<(), Fail> {
    for (room, failing, answer, received) in &OF_SINK {
        assert!(rt; sink_takes(rt.alloc(), *room, *failing, *answer, received)?);
    }
    Ok(())
}
