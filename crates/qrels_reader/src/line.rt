// The form of a line of a qrels file.
ghost use Rattle.std.specs.Prelude.{◌≡◌};
ghost use Rattle.std.specs.Result.{result_map_both};
ghost use Rattle.file_rows.specs.Reading.{unless};
ghost use Rattle.qrels_reader.specs.Rows.{form_faults, row_of};
ghost use Rattle.qrels_reader.specs.Reader.{row_said};

use crate::limits::{GREATEST_GRADE, LEAST_GRADE};
use desk_model::Name;
use desk_text::{LONGEST_LINE, fields, whole};
use file_rows::LineFault;

/// What a line says.
#[derive(Clone, Copy)]
pub struct RowText<'a> {
    pub topic: &'a [u8],
    pub document: &'a [u8],
    pub grade: i16,
}

/// The row of a line, or the first fault of the line's form.
pub fn row_text(line: &[u8]) -> Result<RowText<'_>, LineFault>
    ensures { result_map_both row_said (λ fault. fault) result ≡
        unless (form_faults line.now) (row_of line.now) }
{
    if line.len() > LONGEST_LINE {
        return Err(LineFault::LineTooLong);
    }
    let Ok(found) = fields(line) else {
        return Err(LineFault::BadByte);
    };
    if found.count() != 4 {
        return Err(LineFault::BadFieldCount);
    }
    let topic = found.text(line, 0);
    let document = found.text(line, 2);
    if topic.len() > Name::LONGEST || document.len() > Name::LONGEST {
        return Err(LineFault::NameTooLong);
    }
    let Some(grade) = whole(found.text(line, 3), LEAST_GRADE, GREATEST_GRADE) else {
        return Err(LineFault::BadGrade);
    };
    Ok(RowText {
        topic,
        document,
        grade: grade as i16,
    })
}
