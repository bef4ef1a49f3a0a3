// The form of a line of a sheet.
ghost use Rattle.std.specs.Prelude.{◌≡◌, ◌||◌, IfOk};
ghost use Rattle.std.specs.Result.{result_map_both};
ghost use Rattle.file_rows.specs.Reading.{unless, is_long};
ghost use Rattle.sheet_merge.specs.Lines.{stamp_of, entry_faults, entry_of};
ghost use Rattle.sheet_merge.specs.Reader.{entry_said};
ghost use Rattle.sheet_merge.specs.Sheet.{IsSheetRow};

use crate::fault::SheetLineFault;
use crate::limits::{GREATEST_GRADE, GREATEST_STAMP, LEAST_GRADE};
use desk_model::Name;
use desk_text::{Fields, LONGEST_LINE, fields, plain, whole};

/// What a line says.
#[derive(Clone, Copy)]
pub struct EntryText<'a> {
    pub stamp: u64,
    pub who: &'a [u8],
    pub topic: &'a [u8],
    pub document: &'a [u8],
    pub grade: i16,
}

// The stamp that a text is, if it is one.
fn stamp(text: &[u8]) -> Option<u64>
    ensures { result ≡ stamp_of text.now }
{
    match plain(text, GREATEST_STAMP) {
        Some(0) => None,
        found => found,
    }
}

// Whether one of three names has more bytes than a name has.
fn is_any_long(first: &[u8], second: &[u8], third: &[u8]) -> bool
    ensures { result ≡ is_long first.now || (is_long second.now || is_long third.now) }
{
    first.len() > Name::LONGEST || second.len() > Name::LONGEST || third.len() > Name::LONGEST
}

/// The row of a line, or the first fault of the line's form.
pub fn entry_text(line: &[u8]) -> Result<EntryText<'_>, SheetLineFault>
    ensures said { result_map_both entry_said (λ fault. fault) result ≡
        unless (entry_faults line.now) (entry_of line.now) }
    ensures right { IfOk result (λ text. IsSheetRow (entry_said text)) }
{
    if line.len() > LONGEST_LINE {
        return Err(SheetLineFault::LineTooLong);
    }
    let Ok(found) = fields(line) else {
        return Err(SheetLineFault::BadByte);
    };
    if found.count() != 5 {
        return Err(SheetLineFault::BadFieldCount);
    }
    let Some(stamp) = stamp(found.text(line, 0)) else {
        return Err(SheetLineFault::BadStamp);
    };
    let who = found.text(line, 1);
    let topic = found.text(line, 2);
    let document = found.text(line, 3);
    if is_any_long(who, topic, document) {
        return Err(SheetLineFault::NameTooLong);
    }
    let Some(grade) = whole(found.text(line, 4), LEAST_GRADE, GREATEST_GRADE) else {
        return Err(SheetLineFault::BadGrade);
    };
    Ok(EntryText {
        stamp,
        who,
        topic,
        document,
        grade: grade as i16,
    })
}
