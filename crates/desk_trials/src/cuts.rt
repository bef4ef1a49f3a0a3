// Certificates that are cut, or changed in one byte.
ghost use Rattle.std.specs.Prelude.{◌<◌, length};

use crate::certificates::checked;
use std::alloc::{AllocError, Global};
use std::test::Fail;

const ABOVE: &str =
    "desk-certificate 1\nmeasure recall_1\nlevel 1\nfirst A\nsecond B\nclaim above\ntopics 1\ntopic 401 333333333333333333\nend\n";

const OPEN: &str =
    "desk-certificate 1\nmeasure recip_rank\nlevel 1\nfirst A\nsecond B\nclaim open\ntopics 1\nlow 401 0\nhigh 401 1\ndoc u\nend\n";

// Whether a text is accepted, rejected or refused.
fn is_judged(alloc: Global, text: &[u8]) -> Result<bool, AllocError> {
    let status = checked(alloc, text)?.status;
    Ok(status <= 1 || status == 5)
}

fn is_judged_with_x(alloc: Global, text: &[u8], at: usize) -> Result<bool, AllocError>
    requires { at < length text.now }
{
    let mut forged = text.to_vec(alloc)?;
    forged[at] = b'x';
    is_judged(alloc, &forged)
}

/// Whether each prefix of a text, and the text with any byte replaced by `x`, is judged.
pub fn is_survived(alloc: Global, text: &[u8]) -> Result<bool, AllocError> {
    for end in 0..text.len() {
        if !is_judged(alloc, &text[..end])? || !is_judged_with_x(alloc, text, end)? {
            return Ok(false);
        }
    }
    Ok(true)
}

#[test]
fn cut_and_forged_certificates_are_survived(rt: HostRuntime) -> Result<(), Fail> {
    assert!(rt; is_survived(rt.alloc(), ABOVE.as_bytes())?);
    assert!(rt; is_survived(rt.alloc(), OPEN.as_bytes())?);
    Ok(())
}
