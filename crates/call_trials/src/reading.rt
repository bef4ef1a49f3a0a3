// What the tests read.
use desk_outside::{Failed, Source};
use std::test::Fail;

pub const TEXT: &[u8] = b"ten bytes.";

// Reads to the end, also past failures, and answers how many bytes came before the first.
pub fn read_to_end<S: Source>(source: &mut S, bytes: &mut Vec<u8>) -> Result<Option<usize>, Fail> {
    let mut before = None;
    let mut room = [0; 7];
    for _ in 0..100 {
        match source.read(&mut room) {
            Ok(0) => break,
            Ok(count) => bytes.extend_from_slice(&room[..count])?,
            Err(Failed) => before = before.or(Some(bytes.len())),
        }
    }
    Ok(before)
}
