// What a command makes of what its files come to.
ghost use Rattle.std.specs.Prelude.{◌≡◌};
ghost use Rattle.desk_outside.specs.Seen.{sink};
ghost use Rattle.desk_top.specs.Works.{PutsText};

use crate::status::Status;
use crate::tell::tell_outside;
use desk_model::{Desk, MeasureName};
use desk_outside::{Sink, put_all};
use desk_report::Grading;

/// What a command makes of what its files come to.
#[derive(Drop)]
pub enum Outcome {
    /// A text for the output, and the status that goes with it.
    Prints {
        text: Vec<u8>,
        status: Status,
    },
    /// The line of a refusal, for the error output.
    Refuses {
        line: Vec<u8>,
    },
    /// A desk on which a session is held, by a measure and with grades that are read so.
    Holds {
        desk: Desk,
        measure: MeasureName,
        grading: Grading,
    },
}

/// Puts a text, and answers its status; or where the output fails, tells that.
pub fn put_text<K: Sink, E: Sink>(out: &mut K, err: &mut E, text: &[u8], status: Status) -> Status
    ensures { PutsText (sink (K.state out.old) (K.state out.new))
        (sink (E.state err.old) (E.state err.new)) text.now status result }
{
    match put_all(out, text) {
        Ok(()) => status,
        Err(_) => tell_outside(err),
    }
}
