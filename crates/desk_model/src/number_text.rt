// Whole numbers and names of measures as text, put at the end of a vector.
ghost use Rattle.std.specs.Prelude.{◌≡◌, ◌++◌, [], decimal, drop, OnOk};
ghost use Rattle.std.specs.Fmt.{signed_decimal};
ghost use Rattle.desk_model.specs.MeasureText.{measure_text};

use crate::MeasureName;
use itoa::Buffer;
use std::alloc::AllocError;

/// Puts a number.
pub fn push_number(out: &mut Vec<u8>, number: u32) -> Result<(), AllocError>
    ensures { OnOk result (out.new.items ≡ out.old.items ++ decimal number) }
{
    out.extend_from_slice(Buffer::new().format(number).as_bytes())
}

/// Puts a number of up to 128 bits.
pub fn push_whole(out: &mut Vec<u8>, number: u128) -> Result<(), AllocError>
    ensures { OnOk result (out.new.items ≡ out.old.items ++ decimal number) }
{
    out.extend_from_slice(Buffer::new().format(number).as_bytes())
}

/// Puts a number, with `-` where it is negative.
pub fn push_signed(out: &mut Vec<u8>, number: i128) -> Result<(), AllocError>
    ensures { OnOk result (out.new.items ≡ out.old.items ++ signed_decimal number) }
{
    out.extend_from_slice(Buffer::new().format(number).as_bytes())
}

/// Puts a grade, with `-` where it is negative.
pub fn push_grade(out: &mut Vec<u8>, grade: i32) -> Result<(), AllocError>
    ensures { OnOk result (out.new.items ≡ out.old.items ++ signed_decimal grade) }
{
    out.extend_from_slice(Buffer::new().format(grade).as_bytes())
}

// The text without its first byte.
fn rest(text: &[u8]) -> &[u8]
    ensures { result.now ≡ drop 1 text.now }
{
    match text {
        [_, rest @ ..] => rest,
        [] => text,
    }
}

/// Puts the digits of a number but for the first.
pub fn push_digits_after_first(out: &mut Vec<u8>, number: u64) -> Result<(), AllocError>
    ensures { OnOk result (out.new.items ≡ out.old.items ++ drop 1 (decimal number)) }
{
    let mut buffer = Buffer::new();
    let text = buffer.format(number).as_bytes();
    out.extend_from_slice(rest(text))
}

/// Puts the name of a measure, as it is printed.
pub fn push_measure(out: &mut Vec<u8>, measure: &MeasureName) -> Result<(), AllocError>
    ensures { OnOk result (out.new.items ≡ out.old.items ++ measure_text measure.now) }
{
    match measure {
        MeasureName::Precision(k) => {
            out.extend_from_slice(b"P_")?;
            push_number(out, *k)
        }
        MeasureName::Recall(k) => {
            out.extend_from_slice(b"recall_")?;
            push_number(out, *k)
        }
        MeasureName::RPrecision => out.extend_from_slice(b"Rprec"),
        MeasureName::Reciprocal => out.extend_from_slice(b"recip_rank"),
        MeasureName::AveragePrecision => out.extend_from_slice(b"map"),
        MeasureName::Biased { top, bottom } => {
            out.extend_from_slice(b"rbp_0.")?;
            push_digits_after_first(out, *bottom as u64 + *top as u64)
        }
    }
}
