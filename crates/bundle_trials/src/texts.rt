// Texts of certificates that are read and written again, and the lines of their faults.
use order_bundle::{AnyCertificate, bundle_length, read_any, write_bundle};
use order_certificate::{CertFault, read_certificate};
use std::alloc::Global;
use std::test::Fail;

// Three claims on one topic with one document.
const THREE_CLAIMS: &[u8] =
    b"desk-certificate 2\nmeasure recall_1\nlevel 1\nruns 3\nrun A\nrun B\nrun C\ntopics 1\ntopic 401 1\ndoc z1\nclaims 3\nclaim above 0 1\nbound 333333333333333333\nclaim open 0 2\nlow 1\npick 0\nhigh 0\nclaim open 1 2\nlow 1\npick 0\nhigh 0\nend\n";

const OF_ONE_PAIR: &[u8] =
    b"desk-certificate 1\nmeasure recall_1\nlevel 1\nfirst A\nsecond B\nclaim above\ntopics 1\ntopic 401 333333333333333333\nend\n";

// Whether a text is of a bundle that has the counted length and is written as it was.
fn is_written_again(alloc: Global, text: &[u8]) -> bool {
    let Ok(AnyCertificate::Many(bundle)) = read_any(alloc, text) else {
        return false;
    };
    if bundle_length(&bundle) != text.len() as u64 {
        return false;
    }
    match write_bundle(alloc, &bundle) {
        Ok(again) => again.as_slice() == text,
        Err(_) => false,
    }
}

// The first bad line of a text, or 0 where it is read.
fn bad_line(alloc: Global, text: &[u8]) -> Option<u64> {
    match read_any(alloc, text) {
        Ok(_) => Some(0),
        Err(CertFault::BadLine { line }) => Some(line),
        Err(CertFault::Memory) => None,
    }
}

#[test]
fn bundles_are_written_as_they_were_read(rt: HostRuntime) {
    assert!(rt; is_written_again(rt.alloc(), THREE_CLAIMS));
    // No claim, and a document that nothing picks.
    assert!(rt;
        is_written_again(
            rt.alloc(),
            b"desk-certificate 2\nmeasure recall_1\nlevel 1\nruns 2\nrun A\nrun B\ntopics 1\ntopic 401 1\ndoc z1\nclaims 0\nend\n",
        )
    );
    // Both numbers, the greater run first.
    assert!(rt;
        is_written_again(
            rt.alloc(),
            b"desk-certificate 2\nmeasure recall_1\nlevel 1\nruns 2\nrun A\nrun B\ntopics 1\ntopic 401 1\ndoc z1\nclaims 1\nclaim equal 1 0\nbound -1 1\nend\n",
        )
    );
    // No documents.
    assert!(rt;
        is_written_again(
            rt.alloc(),
            b"desk-certificate 2\nmeasure recall_1\nlevel 1\nruns 2\nrun A\nrun B\ntopics 1\ntopic 401 0\nclaims 1\nclaim open 0 1\nlow 0\nhigh 0\nend\n",
        )
    );
}

#[test]
fn a_certificate_of_one_pair_is_read_as_before(rt: HostRuntime) {
    let is_of_one_pair = matches!(
        read_any(rt.alloc(), OF_ONE_PAIR),
        Ok(AnyCertificate::One(_))
    );
    assert!(rt; is_of_one_pair);
    assert!(rt; read_certificate(rt.alloc(), OF_ONE_PAIR).is_ok());
    assert!(rt;
        read_certificate(rt.alloc(), THREE_CLAIMS).err() == Some(CertFault::BadLine { line: 1 })
    );
}

#[test]
fn a_bad_line_is_told_by_its_number(rt: HostRuntime) {
    let faulty: &[(&[u8], u64)] = &[
        // A pair that has a claim already, in the other order.
        (
            b"desk-certificate 2\nmeasure recall_1\nlevel 1\nruns 2\nrun A\nrun B\ntopics 1\ntopic 401 1\ndoc z1\nclaims 2\nclaim above 0 1\nbound 1\nclaim above 1 0\nbound 1\nend\n",
            13,
        ),
        // A pair below the last one.
        (
            b"desk-certificate 2\nmeasure recall_1\nlevel 1\nruns 3\nrun A\nrun B\nrun C\ntopics 1\ntopic 401 1\ndoc z1\nclaims 2\nclaim above 1 2\nbound 1\nclaim above 2 0\nbound 1\nend\n",
            14,
        ),
        // A claim on one run.
        (
            b"desk-certificate 2\nmeasure recall_1\nlevel 1\nruns 2\nrun A\nrun B\ntopics 1\ntopic 401 1\ndoc z1\nclaims 1\nclaim above 1 1\nbound 1\nend\n",
            11,
        ),
        // A run that is not there.
        (
            b"desk-certificate 2\nmeasure recall_1\nlevel 1\nruns 2\nrun A\nrun B\ntopics 1\ntopic 401 1\ndoc z1\nclaims 1\nclaim above 0 2\nbound 1\nend\n",
            11,
        ),
        // A document that is not there.
        (
            b"desk-certificate 2\nmeasure recall_1\nlevel 1\nruns 2\nrun A\nrun B\ntopics 1\ntopic 401 1\ndoc z1\nclaims 1\nclaim open 0 1\nlow 1\npick 1\nhigh 0\nend\n",
            13,
        ),
        // One run.
        (
            b"desk-certificate 2\nmeasure recall_1\nlevel 1\nruns 1\nrun A\ntopics 1\ntopic 401 1\ndoc z1\nclaims 0\nend\n",
            4,
        ),
        // Lines after the end.
        (
            b"desk-certificate 2\nmeasure recall_1\nlevel 1\nruns 2\nrun A\nrun B\ntopics 1\ntopic 401 1\ndoc z1\nclaims 0\nend\nend\n",
            12,
        ),
        // No line feed at the end.
        (
            b"desk-certificate 2\nmeasure recall_1\nlevel 1\nruns 2\nrun A\nrun B\ntopics 1\ntopic 401 1\ndoc z1\nclaims 0\nend",
            11,
        ),
        // No such version.
        (b"desk-certificate 3\nmeasure recall_1\n", 1),
        // A line of version 1 under version 2.
        (
            b"desk-certificate 2\nmeasure recall_1\nlevel 1\nfirst A\n",
            4,
        ),
        // A line of version 2 under version 1.
        (
            b"desk-certificate 1\nmeasure recall_1\nlevel 1\nruns 2\n",
            4,
        ),
    ];
    for (text, line) in faulty {
        assert!(rt; bad_line(rt.alloc(), text) == Some(*line));
    }
}

#[test]
fn a_prefix_of_a_text_is_refused_at_the_line_after_its_last_whole_one(rt: HostRuntime) {
    let mut line: u64 = 1;
    for end in 0..THREE_CLAIMS.len() {
        let prefix = &THREE_CLAIMS[..end];
        assert!(rt; bad_line(rt.alloc(), prefix) == Some(line));
        if THREE_CLAIMS[end] == b'\n' {
            line = line.saturating_add(1);
        }
    }
}

#[test]
fn a_text_with_another_byte_is_read_or_refused(rt: HostRuntime) -> Result<(), Fail> {
    for at in 0..THREE_CLAIMS.len() {
        let mut text = THREE_CLAIMS.to_vec(rt.alloc())?;
        if let Some(byte) = text.get_mut(at) {
            *byte = b'2';
        }
        assert!(rt; bad_line(rt.alloc(), text.as_slice()).is_some());
    }
    Ok(())
}
