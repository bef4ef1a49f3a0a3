ghost use Rattle.std.specs.Prelude.{◌≡◌, ◌↔◌, IsTrue, IfSome, IfNone, All, position};
ghost use Rattle.std.specs.Str.Parse.{starts_with_minus, without_leading_sign, AllDigits};
ghost use Rattle.std.specs.Char.{IsAsciiDigit};
ghost use Rattle.desk_text.specs.Text.{HasParts, IsScoreText};
ghost use Rattle.desk_text.specs.Spelling.{is_mark, AreDigitParts, parts_of};
ghost use Rattle.std.specs.List.{before_first, after_first};

/// The parts of a score's text. An exponent that is left out has no digits.
#[derive(Clone, Copy)]
pub struct Spelling<'a> {
    pub is_negative: bool,
    pub whole: &'a [u8],
    pub fraction: &'a [u8],
    pub has_negative_exponent: bool,
    pub exponent: &'a [u8],
}

/// Whether the text begins with `-`, and the text without a sign.
pub fn cut_sign(text: &[u8]) -> (bool, &[u8])
    ensures negative { result.0 ≡ starts_with_minus text.now }
    ensures rest { result.1.now ≡ without_leading_sign text.now }
{
    match text {
        [b'-', rest @ ..] => (true, rest),
        [b'+', rest @ ..] => (false, rest),
        _ => (false, text),
    }
}

/// What stands before the first mark, and what stands after it.
fn cut_at(text: &[u8], mark: u8, other: u8) -> (&[u8], &[u8])
    ensures prefix { result.0.now ≡ before_first (is_mark mark other) text.now }
    ensures rest { result.1.now ≡ after_first (is_mark mark other) text.now }
{
    match first_mark(text, mark, other) {
        Some(i) => (&text[..i], &text[i + 1..]),
        None => (text, &[]),
    }
}

fn first_mark(text: &[u8], mark: u8, other: u8) -> Option<usize>
    ensures { result ≡ position (is_mark mark other) text.now }
{
    text.iter().position(|b| *b == mark || *b == other)
}

fn is_digits(text: &[u8]) -> bool
    ensures { IsTrue result ↔ All IsAsciiDigit text.now }
{
    text.iter().all(|b| b.is_ascii_digit())
}

/// Whether these are digits, at least one of them before the exponent, and one in an exponent.
fn are_parts(whole: &[u8], fraction: &[u8], exponent: &[u8], has_power: bool) -> bool
    ensures { IsTrue result ↔ AreDigitParts whole.now fraction.now exponent.now has_power }
{
    is_digits(whole)
        && is_digits(fraction)
        && is_digits(exponent)
        && !(whole.is_empty() && fraction.is_empty())
        && !(has_power && exponent.is_empty())
}

/// The parts of a score's text, or None where it is no score's.
pub fn spelling_of(text: &[u8]) -> Option<Spelling<'_>>
    ensures some { IfSome result (λ spelling. HasParts text.now (parts_of spelling)) }
    ensures exponent { IfSome result (λ spelling. AllDigits 10 spelling.exponent.now) }
    ensures none { IfNone result (¬ (IsScoreText text.now)) }
{
    let (is_negative, unsigned) = cut_sign(text);
    let (mantissa, power) = cut_at(unsigned, b'e', b'E');
    let (whole, fraction) = cut_at(mantissa, b'.', b'.');
    let (has_negative_exponent, exponent) = cut_sign(power);
    let has_power = mantissa.len() < unsigned.len();
    if !are_parts(whole, fraction, exponent, has_power) {
        return None;
    }
    Some(Spelling {
        is_negative,
        whole,
        fraction,
        has_negative_exponent,
        exponent,
    })
}
