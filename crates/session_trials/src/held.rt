// A session that is held over lines in memory.
ghost use Rattle.std.specs.Prelude.{◌≡◌, ◌<◌};
ghost use Rattle.session_replies.specs.State.{IsSetting, setting_of};

use desk_outside::{MemSink, MemSource};
use measure_core::{Maker, Steps};
use session_replies::Given;
use session_stream::{Ended, hold_session};
use std::alloc::Global;
use std::sync::ledger::{Blank, Ledger};
use std::test::Fail;

// Whether a session hears these lines to their end with these replies.
pub fn hears<P: Maker, L: Ledger>(
    alloc: Global,
    given: &Given<'_>,
    maker: &P,
    lines: &[u8],
    replies: &[u8],
    blank: Blank,
) -> Result<bool, Fail>
    requires setting { IsSetting (setting_of given.now) }
    requires name { blank.name ≡ L.name }
    requires parts { blank.parts ≡ L.parts }
    requires some { 0 < blank.parts }
{
    let mut input = MemSource::new(lines.to_vec(alloc)?, 100_000, Vec::new(alloc));
    let mut out = MemSink::new(alloc, 40_000, 4096, Vec::new(alloc))?;
    let mut steps: Steps<L> = Steps::new(blank);
    let ended = hold_session(alloc, &mut input, &mut out, given, maker, &mut steps);
    Ok(ended == Ok(Ended::Done) && out.received() == replies)
}
