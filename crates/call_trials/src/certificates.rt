// Certificates that are read and written again, and the line of a fault.
use desk_model::Memory;
use order_certificate::{CertFault, certificates_have_texts, read_certificate, write_certificate};
use std::alloc::Global;

// The text that is written of the certificate that a text is of.
fn written_again(alloc: Global, text: &[u8]) -> Result<Vec<u8>, CertFault> {
    certificates_have_texts();
    let certificate = read_certificate(alloc, text)?;
    match write_certificate(alloc, &certificate) {
        Ok(text) => Ok(text),
        Err(Memory) => Err(CertFault::Memory),
    }
}

fn is_written_again(alloc: Global, text: &[u8]) -> bool {
    match written_again(alloc, text) {
        Ok(again) => again.as_slice() == text,
        Err(_) => false,
    }
}

const OPEN: &[u8] =
    b"desk-certificate 1\nmeasure recip_rank\nlevel 1\nfirst A\nsecond B\nclaim open\ntopics 1\nlow 401 0\nhigh 401 1\ndoc u\nend\n";

const ABOVE: &[u8] =
    b"desk-certificate 1\nmeasure recall_1\nlevel 1\nfirst A\nsecond B\nclaim above\ntopics 1\ntopic 401 333333333333333333\nend\n";

const TAILS: &[u8] =
    b"desk-certificate 1\nmeasure rbp_0.5\nlevel 1\nfirst X\nsecond Y\nclaim open\ntopics 1\nlow 401 0\nhigh 401 0\nend\n";

const TWO_TOPICS: &[u8] =
    b"desk-certificate 1\nmeasure recip_rank\nlevel 1\nfirst BM25\nsecond dense\nclaim above\ntopics 2\ntopic 401 500000000000000000\ntopic 402 0\nend\n";

const EQUAL: &[u8] =
    b"desk-certificate 1\nmeasure P_10\nlevel 1\nfirst X\nsecond X\nclaim equal\ntopics 1\ntopic 401 -9999999999999999999 9999999999999999999\nend\n";

#[test]
fn what_was_read_is_written_again(rt: HostRuntime) {
    for text in &[OPEN, ABOVE, TAILS, TWO_TOPICS, EQUAL] {
        assert!(rt; is_written_again(rt.alloc(), text));
    }
}

#[test]
fn a_fault_has_its_line(rt: HostRuntime) {
    let answer = read_certificate(
        rt.alloc(),
        b"desk-certificate 1\nmeasure rbp_0.50\nlevel 1\n",
    );
    assert!(rt; answer.err() == Some(CertFault::BadLine { line: 2 }));
}
