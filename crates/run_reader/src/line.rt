// The form of a line of a run file.
ghost use Rattle.std.specs.Prelude.{◌≡◌, ◌||◌, IfOk};
ghost use Rattle.std.specs.Result.{result_map_both};
ghost use Rattle.file_rows.specs.Reading.{is_long};
ghost use Rattle.run_reader.specs.Rows.{formed, tag_of, line_fault};
ghost use Rattle.run_reader.specs.Reader.{row_said};

use desk_model::Name;
use desk_text::{LONGEST_LINE, Score, ScoreFault, fields, read_score};
use file_rows::LineFault;

/// What a line says.
#[derive(Clone, Copy)]
pub struct RowText<'a> {
    pub topic: &'a [u8],
    pub document: &'a [u8],
    pub score: Score,
    pub tag: &'a [u8],
}

// What is wrong with a line whose score is not read.
fn line_fault(fault: ScoreFault) -> LineFault
    ensures { result ≡ line_fault fault }
{
    match fault {
        ScoreFault::BadScore => LineFault::BadScore,
        ScoreFault::ScoreTooLong => LineFault::ScoreTooLong,
        ScoreFault::ScoreExponent => LineFault::ScoreExponent,
    }
}

fn is_long(name: &[u8]) -> bool
    ensures { result ≡ is_long name.now }
{
    name.len() > Name::LONGEST
}

// Whether one of the names of a line is too long.
fn has_long(topic: &[u8], document: &[u8], tag: &[u8]) -> bool
    ensures { result ≡ (is_long topic.now || (is_long document.now || is_long tag.now)) }
{
    is_long(topic) || is_long(document) || is_long(tag)
}

/// The row of a line, or the first fault of the line's form.
pub fn row_text(line: &[u8]) -> Result<RowText<'_>, LineFault>
    ensures row { result_map_both row_said (λ fault. fault) result ≡ formed line.now }
    ensures tag { IfOk result (λ row. row.tag.now ≡ tag_of line.now) }
{
    if line.len() > LONGEST_LINE {
        return Err(LineFault::LineTooLong);
    }
    let Ok(found) = fields(line) else {
        return Err(LineFault::BadByte);
    };
    if found.count() != 6 {
        return Err(LineFault::BadFieldCount);
    }
    let topic = found.text(line, 0);
    let document = found.text(line, 2);
    let tag = found.text(line, 5);
    if has_long(topic, document, tag) {
        return Err(LineFault::NameTooLong);
    }
    match read_score(found.text(line, 4)) {
        Ok(score) => Ok(RowText {
            topic,
            document,
            score,
            tag,
        }),
        Err(fault) => Err(line_fault(fault)),
    }
}
