// Numbers in digits.
ghost use Rattle.std.specs.Prelude.{◌≡◌, ◌≢◌, ℕ, ◌^◌, ◌<◌, ◌≤◌, ◌-◌, List, Some, None, IfSome, IfNone, decimal, min, if◌then◌else◌};
ghost use Rattle.desk_text.specs.Numbers.{plain_of, whole_of, read_on, is_digits, is_negative, after_sign, with_sign};

/// The number that the text is, if it is one in digits with no sign and no leading zero, and is no greater than `most`.
/// It takes no memory.
pub fn plain(text: &[u8], most: u64) -> Option<u64>
    ensures { result ≡ plain_of most text.now }
{
    digits(text, most)
}

fn digits(text: &[u8], most: u64) -> Option<u64>
    ensures some { IfSome result (λ n. text.now ≡ decimal n) }
    ensures small { IfSome result (λ n. n ≤ most) }
    ensures none { IfNone result ((n : ℕ) → n ≤ most → text.now ≢ decimal n) }
{
    if text.is_empty() {
        return None;
    }
    if text[0] == b'+' {
        return None;
    }
    if text.len() > 1 && text[0] == b'0' {
        return None;
    }
    let Ok(text) = std::str::from_utf8(text) else {
        return None;
    };
    let Ok(number) = text.parse::<u64>() else {
        return None;
    };
    if number <= most { Some(number) } else { None }
}

/// A text is read as a number exactly where it is what is written of that number.
pub fn plain_is_decimal()
    ensures { (most n : ℕ) (text : List ℕ) → most < 2 ^ 64 → n ≤ most → text ≡ decimal n →
        plain_of most text ≡ Some n }
{}

/// The number that the text is, if it is an optional `+` or `-` and one or more digits, and lies from `least` to `most`.
/// Leading zeros may stand in any number. It takes no memory.
pub fn whole(text: &[u8], least: i64, most: i64) -> Option<i64>
    ensures { result ≡ whole_of least most text.now }
{
    let size = magnitude(unsigned(text))?;
    let value = with_sign(is_negative(text), size);
    if i128::from(least) <= value && value <= i128::from(most) {
        Some(value as i64)
    } else {
        None
    }
}

fn is_negative(text: &[u8]) -> bool
    ensures { result ≡ is_negative text.now }
{
    !text.is_empty() && text[0] == b'-'
}

fn unsigned(text: &[u8]) -> &[u8]
    ensures { result.now ≡ after_sign text.now }
{
    if !text.is_empty() && (text[0] == b'+' || text[0] == b'-') {
        &text[1..]
    } else {
        text
    }
}

fn with_sign(negative: bool, size: u64) -> i128
    ensures { result ≡ with_sign negative size }
{
    let size = i128::from(size);
    if negative { -size } else { size }
}

// The number that digits say, or the greatest u64 where it is greater.
fn magnitude(digits: &[u8]) -> Option<u64>
    ensures { result ≡
        (if is_digits digits.now then Some (min (read_on 0 digits.now) (2 ^ 64 - 1)) else None) }
{
    if digits.is_empty() {
        return None;
    }
    let mut value: u64 = 0;
    for digit in digits {
        if !digit.is_ascii_digit() {
            return None;
        }
        value = value
            .saturating_mul(10)
            .saturating_add(u64::from(*digit - b'0'));
    }
    Some(value)
}
