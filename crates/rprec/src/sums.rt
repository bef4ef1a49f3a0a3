ghost use Rattle.std.specs.Prelude.{◌≡◌, ℕ, ◌+◌, ◌*◌, ◌<◌, ◌≤◌, length, sum, take, slice_index_or};
ghost use Rattle.desk_model.specs.Limits.{RANK_LIMIT};
ghost use Rattle.rprec.specs.Packed.{pack};
ghost use Rattle.rprec.specs.Blocks.{AreSharedSums, AreBlockSums, counts_of};

use crate::prefixes::{MarkedDocs, number_at};
use measure_core::{BLOCK, RunSums};

/// The counts of a run's documents up to the end of a block that they fill, from those up to its start. No test of how
/// many there are stands between them, since each block has as many.
fn with_whole_block(number: u32, block: u32, run: &MarkedDocs) -> u32
    requires whole { 10 * (block + 1) ≤ length run.now.docs.now }
    requires number { number ≡
        pack (counts_of run.now.marks.now (take (10 * block) run.now.docs.now)) }
    ensures { result ≡
        pack (counts_of run.now.marks.now (take (10 * (block + 1)) run.now.docs.now)) }
{
    let start = block * BLOCK;
    let end = start + BLOCK;
    let mut longer = number;
    for place in start..end {
        longer = longer + number_at(run, place);
    }
    longer
}

/// The counts of all documents of a run, from those up to a place.
fn with_rest(number: u32, start: u32, run: &MarkedDocs) -> u32
    requires start { start ≤ length run.now.docs.now }
    requires number { number ≡ pack (counts_of run.now.marks.now (take start run.now.docs.now)) }
    ensures { result ≡ pack (counts_of run.now.marks.now run.now.docs.now) }
{
    let end = run.docs.len() as u32;
    let mut longer = number;
    for place in start..end {
        longer = longer + number_at(run, place);
    }
    longer
}

/// Sets the numbers of all blocks after some.
fn set_after(numbers: &mut [u32], blocks: u32, number: u32)
    requires { blocks < length numbers.old }
    ensures before { (block : ℕ) → block ≤ blocks →
        slice_index_or numbers.new block 0 ≡ slice_index_or numbers.old block 0 }
    ensures after { (block : ℕ) → blocks < block → block < length numbers.old →
        slice_index_or numbers.new block 0 ≡ number }
{
    numbers[blocks as usize + 1..].fill(number);
}

/// The counts of a run's documents up to the end of each block, both in one number.
pub fn sums_of_run(run: &MarkedDocs) -> RunSums
    ensures { AreBlockSums run.now.marks.now run.now.docs.now result.numbers }
{
    let whole = run.docs.len() as u32 / BLOCK;
    let mut numbers = [0; 1001];
    let mut number = 0;
    for block in 0..whole {
        number = with_whole_block(number, block, run);
        numbers[block as usize + 1] = number;
    }
    let all = with_rest(number, whole * BLOCK, run);
    set_after(&mut numbers, whole, all);
    RunSums { numbers }
}

/// How many documents are shared up to the end of a block, from those up to its start.
fn with_block(number: u32, block: u32, counts: &[u8]) -> u32
    requires few { (place : ℕ) → slice_index_or counts.now place 0 ≤ 2 }
    requires block { block < 1000 }
    requires whole { 10 * (block + 1) ≤ length counts.now }
    requires number { number ≡ sum (take (10 * block) counts.now) }
    ensures { result ≡ sum (take (10 * (block + 1)) counts.now) }
{
    let start = block * BLOCK;
    let mut longer = number;
    for place in start..start + BLOCK {
        longer = longer + u32::from(counts[place as usize]);
    }
    longer
}

/// Makes `sums`, for each number of blocks, from 0, up to a depth, how many documents are shared up to there, from how
/// many are at each place.
pub fn sum_shared(counts: &[u8], depth: u32, sums: &mut [u32])
    requires few { (place : ℕ) → slice_index_or counts.now place 0 ≤ 2 }
    requires depth { depth ≤ RANK_LIMIT }
    requires places { depth ≤ length counts.now }
    requires blocks { depth < 10 * length sums.old }
    ensures { AreSharedSums counts.now sums.new depth }
{
    let mut number = 0;
    sums[0] = 0;
    for block in 0..depth / BLOCK {
        number = with_block(number, block, counts);
        sums[block as usize + 1] = number;
    }
}
