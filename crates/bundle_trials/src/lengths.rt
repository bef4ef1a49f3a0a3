// How long the text of a bundle is where each list picks every document of a topic.
use order_bundle::{AnyCertificate, BundleFault, read_any, write_bundle};
use std::alloc::{AllocError, Global};
use std::test::Fail;

const LONGEST: u64 = 1_073_741_824;

// With 105 runs the text would have 1,080,186,794 bytes, and is too long.
const RUNS: u32 = 2;

// With 10,000 documents the picks of a list have 98,890 bytes: 60,000, and 38,890 digits.
const BYTES: u64 = 297_918;

fn push_runs(alloc: Global, text: &mut Vec<u8>) -> Result<(), AllocError> {
    for run in 0..RUNS {
        text.extend_from_slice(format!(in alloc; "run r{run:0>3}\n")?.as_bytes())?;
    }
    Ok(())
}

fn push_documents(alloc: Global, text: &mut Vec<u8>) -> Result<(), AllocError> {
    for doc in 0..10_000u32 {
        text.extend_from_slice(format!(in alloc; "doc d{doc:0>4}\n")?.as_bytes())?;
    }
    Ok(())
}

// The numbers of all documents.
fn picks(alloc: Global) -> Result<Vec<u8>, AllocError> {
    let mut text = Vec::new(alloc);
    for pick in 0..10_000u32 {
        text.extend_from_slice(format!(in alloc; "pick {pick}\n")?.as_bytes())?;
    }
    Ok(text)
}

// Claims on a run and each later one.
fn push_claims(
    alloc: Global,
    text: &mut Vec<u8>,
    first: u32,
    picks: &[u8],
) -> Result<(), AllocError> {
    for second in first.saturating_add(1)..RUNS {
        let claim = format!(in alloc; "claim open {first} {second}\nlow 10000\n")?;
        text.extend_from_slice(claim.as_bytes())?;
        text.extend_from_slice(picks)?;
        text.extend_from_slice(b"high 10000\n")?;
        text.extend_from_slice(picks)?;
    }
    Ok(())
}

fn text(alloc: Global) -> Result<Vec<u8>, AllocError> {
    let runs = format!(in alloc; "desk-certificate 2\nmeasure P_1\nlevel 1\nruns {RUNS}\n")?;
    let mut text = runs.as_bytes().to_vec(alloc)?;
    push_runs(alloc, &mut text)?;
    text.extend_from_slice(b"topics 1\ntopic 401 10000\n")?;
    push_documents(alloc, &mut text)?;
    let pairs = RUNS.saturating_mul(RUNS.saturating_sub(1)) / 2;
    text.extend_from_slice(format!(in alloc; "claims {pairs}\n")?.as_bytes())?;
    let picks = picks(alloc)?;
    for first in 0..RUNS {
        push_claims(alloc, &mut text, first, &picks)?;
    }
    text.extend_from_slice(b"end\n")?;
    Ok(text)
}

// Whether a bundle is written again with so many bytes, or is too long by them.
fn has_length(alloc: Global, text: &[u8]) -> bool {
    let Ok(AnyCertificate::Many(bundle)) = read_any(alloc, text) else {
        return false;
    };
    match write_bundle(alloc, &bundle) {
        Ok(again) => again.as_slice() == text && text.len() as u64 == BYTES,
        Err(BundleFault::TooLong { bytes }) => bytes == BYTES && bytes > LONGEST,
        Err(BundleFault::Memory) => false,
    }
}

#[test]
fn a_length_is_exact(rt: HostRuntime) -> Result<(), Fail> {
    let text = text(rt.alloc())?;
    assert!(rt; has_length(rt.alloc(), &text));
    Ok(())
}
