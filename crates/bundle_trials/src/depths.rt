// Texts of certificates with the line of a depth, and the lines of their faults.
use order_bundle::{read_any, read_scoped, scoped_certificates_have_texts, write_scoped};
use order_certificate::{CertFault, read_certificate};
use std::alloc::Global;

const OF_ONE_PAIR: &[u8] =
    b"desk-certificate 1\nmeasure recall_1\nlevel 1\ndepth 7\nfirst A\nsecond B\nclaim above\ntopics 1\ntopic 401 333333333333333333\nend\n";

const OF_MANY_PAIRS: &[u8] =
    b"desk-certificate 2\nmeasure recall_1\nlevel 1\ndepth 10000\nruns 2\nrun A\nrun B\ntopics 1\ntopic 401 1\ndoc z1\nclaims 1\nclaim open 0 1\nlow 1\npick 0\nhigh 0\nend\n";

const UNDER_NONE: &[u8] =
    b"desk-certificate 1\nmeasure recall_1\nlevel 1\nfirst A\nsecond B\nclaim above\ntopics 1\ntopic 401 333333333333333333\nend\n";

// Whether a text is of a certificate with this depth and is written as it was.
fn is_written_again(alloc: Global, text: &[u8], depth: Option<u32>) -> bool {
    scoped_certificates_have_texts();
    let Ok(scoped) = read_scoped(alloc, text) else {
        return false;
    };
    match write_scoped(alloc, &scoped) {
        Ok(again) => scoped.depth == depth && again.as_slice() == text,
        Err(_) => false,
    }
}

// The first bad line of a text, or 0 where it is read.
fn bad_line(alloc: Global, text: &[u8]) -> Option<u64> {
    match read_scoped(alloc, text) {
        Ok(_) => Some(0),
        Err(CertFault::BadLine { line }) => Some(line),
        Err(CertFault::Memory) => None,
    }
}

#[test]
fn certificates_with_a_depth_are_written_as_they_were_read(rt: HostRuntime) {
    assert!(rt; is_written_again(rt.alloc(), OF_ONE_PAIR, Some(7)));
    assert!(rt; is_written_again(rt.alloc(), OF_MANY_PAIRS, Some(10_000)));
    assert!(rt; is_written_again(rt.alloc(), UNDER_NONE, None));
}

#[test]
fn a_depth_is_a_bad_line_where_none_may_come(rt: HostRuntime) {
    let fourth = CertFault::BadLine { line: 4 };
    assert!(rt; read_certificate(rt.alloc(), OF_ONE_PAIR).err() == Some(fourth));
    assert!(rt; read_any(rt.alloc(), OF_ONE_PAIR).err() == Some(fourth));
    assert!(rt; read_any(rt.alloc(), OF_MANY_PAIRS).err() == Some(fourth));
    assert!(rt; read_any(rt.alloc(), UNDER_NONE).is_ok());
}

#[test]
fn a_bad_line_beside_a_depth_is_told_by_its_number(rt: HostRuntime) {
    let faulty: &[(&[u8], u64)] = &[
        (
            b"desk-certificate 1\nmeasure recall_1\nlevel 1\ndepth 0\nfirst A\n",
            4,
        ),
        (
            b"desk-certificate 1\nmeasure recall_1\nlevel 1\ndepth 10001\nfirst A\n",
            4,
        ),
        (
            b"desk-certificate 1\nmeasure recall_1\nlevel 1\ndepth 07\nfirst A\n",
            4,
        ),
        (
            b"desk-certificate 1\nmeasure recall_1\nlevel 1\ndepth 7 \nfirst A\n",
            4,
        ),
        (
            b"desk-certificate 1\nmeasure recall_1\nlevel 1\ndepth seven\nfirst A\n",
            4,
        ),
        // No line feed at the end.
        (b"desk-certificate 1\nmeasure recall_1\nlevel 1\ndepth 7", 4),
        // Nothing after it.
        (
            b"desk-certificate 1\nmeasure recall_1\nlevel 1\ndepth 7\n",
            5,
        ),
        // A second one.
        (
            b"desk-certificate 1\nmeasure recall_1\nlevel 1\ndepth 7\ndepth 7\nfirst A\n",
            5,
        ),
        // One after the first run, and one before the level.
        (
            b"desk-certificate 1\nmeasure recall_1\nlevel 1\nfirst A\ndepth 7\n",
            5,
        ),
        (
            b"desk-certificate 2\nmeasure recall_1\ndepth 7\nlevel 1\nruns 2\n",
            3,
        ),
        // A line of version 1 under version 2.
        (
            b"desk-certificate 2\nmeasure recall_1\nlevel 1\ndepth 7\nfirst A\n",
            5,
        ),
        // One run.
        (
            b"desk-certificate 2\nmeasure recall_1\nlevel 1\ndepth 7\nruns 1\n",
            5,
        ),
    ];
    for (text, line) in faulty {
        assert!(rt; bad_line(rt.alloc(), text) == Some(*line));
    }
}

#[test]
fn a_prefix_of_a_text_with_a_depth_is_refused_after_its_last_whole_line(rt: HostRuntime) {
    let mut line: u64 = 1;
    for end in 0..OF_MANY_PAIRS.len() {
        let prefix = &OF_MANY_PAIRS[..end];
        assert!(rt; bad_line(rt.alloc(), prefix) == Some(line));
        if OF_MANY_PAIRS[end] == b'\n' {
            line = line.saturating_add(1);
        }
    }
}
