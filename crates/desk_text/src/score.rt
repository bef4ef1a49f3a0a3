ghost use Rattle.std.specs.Prelude.{◌≡◌, ◌^◌, ◌<◌, ◌≤◌, ◌↔◌, ℤ, IsTrue, pos, neg_ℤ, Result, Some};
ghost use Rattle.std.proofs.Common.{rules};
ghost use Rattle.std.specs.Cmp.Rules.{comparing};
ghost use Rattle.std.specs.Ordering.{int_cmp, int_eq};
ghost use Rattle.desk_text.specs.declared.score.ScoreFault.{ScoreFault};
ghost use Rattle.desk_text.specs.Reading.{score_of};
ghost use Rattle.desk_text.specs.Value.{ReadsAs, IsPlace};

use crate::key;
use crate::mantissa::{Plain, plain_of};
use crate::significand::{exponent_of, significand_of};
use crate::spelling::spelling_of;
use std::cmp::Ordering;
use std::marker::Model;

/// An exact decimal score, which contracts see as a whole number in units of ten to the power of
/// -999. Where trec_eval keeps a float, two scores that the float would merge stay apart here.
///
/// It is kept in one number, whose plain order is the order of the values: the first 30 digits,
/// above them the place of the first one, and the sign.
#[derive(Clone, Copy)]
pub struct Score {
    key: i128,
}

impl Model for Score {
    ghost use Rattle.std.specs.Prelude.{ℤ};
    ghost use Rattle.desk_text.specs.Key.{value_of_key, key_of_value, IsKey};
    ghost use Rattle.desk_text.specs.KeyLaws.{key_of_value-value_of_key};

    ghost Value = { ℤ };

    ghost view = { λ s. value_of_key s.key };

    ghost invariant = { λ s. IsKey s.key };

    ghost inverse = { λ value. record { key = key_of_value value } };

    ghost inverse_ok = { λ s h. key_of_value-value_of_key s h };
}

impl Score {
    ghost use Rattle.desk_text.specs.Value.{scaled};

    fn zero() -> Score
        ensures { result ≡ pos 0 }
    {
        Score { key: 0 }
    }

    /// The number that plain digits make.
    fn of_plain(plain: Plain) -> Score
        requires small { plain.mantissa.digits < 10 ^ 19 }
        requires near { plain.mantissa.places ≤ 19 }
        ensures { result ≡ scaled plain.is_negative plain.mantissa.digits
            (neg_ℤ (pos plain.mantissa.places)) }
    {
        let number = plain.mantissa;
        if number.digits == 0 {
            return Score::zero();
        }
        let place = -(number.places as i128);
        Score::new(plain.is_negative, u128::from(number.digits), place)
    }

    /// The number with its sign, in units of ten to the power of -999.
    fn new(is_negative: bool, digits: u128, place: i128) -> Score
        requires some { 0 < digits }
        requires short { digits < 10 ^ 30 }
        requires near { IsPlace place }
        ensures { result ≡ scaled is_negative digits place }
    {
        let size = key::size_of(digits, place);
        Score {
            key: key::with_sign(is_negative, size),
        }
    }
}

/// Why a text is no score.
#[derive(Clone, Copy, PartialEq, Eq, Debug)]
pub enum ScoreFault {
    /// It is not an optional sign, digits with at most one point and at least one digit, and then
    /// optionally `e` or `E`, an optional sign and digits.
    BadScore,
    /// Without the zeros at both ends of its digits it has more than 30 digits.
    ScoreTooLong,
    /// Its last digit other than 0 stands for a power of ten outside -999 to 999.
    ScoreExponent,
}

impl PartialEq for Score {
    ghost eq = { int_eq };

    ghost laws = { Prim.search (comparing, rules) };

    fn eq(&self, other: &Score) -> bool {
        self.cmp(other).is_eq()
    }
}

impl Eq for Score {
    ghost laws = { Prim.search rules };
}

impl PartialOrd for Score {
    ghost partial_cmp = { λ x y. Some (int_cmp x y) };

    ghost laws = { Prim.search (comparing, rules) };

    fn partial_cmp(&self, other: &Score) -> Option<Ordering> {
        Some(self.cmp(other))
    }
}

impl Ord for Score {
    ghost cmp = { int_cmp };

    ghost total = { Prim.search rules };

    ghost matches_partial_cmp = { Prim.search rules };

    ghost matches_eq = { Prim.search rules };

    /// The order of the exact values.
    fn cmp(&self, other: &Score) -> Ordering {
        self.key.cmp(&other.key)
    }
}

/// Whether a number's last digit other than 0 may stand there.
fn is_place(place: i128) -> bool
    ensures { IsTrue result ↔ IsPlace place }
{
    -999 <= place && place <= 999
}

/// The score that a text spells. Digits that are all 0 spell zero at any length and with any
/// exponent; of the faults of other texts, the first in the order of `ScoreFault` is told.
pub fn read_score(text: &[u8]) -> Result<Score, ScoreFault>
    ensures value { result ≡ score_of text.now }
    ensures reads { ReadsAs text.now result }
    ensures only { (answer : Result ℤ ScoreFault) → ReadsAs text.now answer → answer ≡ result }
{
    match plain_of(text) {
        Some(plain) => Ok(Score::of_plain(plain)),
        None => read_parts(text),
    }
}

/// The score that any text spells, by its parts.
fn read_parts(text: &[u8]) -> Result<Score, ScoreFault>
    ensures { ReadsAs text.now result }
{
    let Some(spelling) = spelling_of(text) else {
        return Err(ScoreFault::BadScore);
    };
    let Some(significand) = significand_of(spelling.whole, spelling.fraction) else {
        return Err(ScoreFault::ScoreTooLong);
    };
    if significand.digits == 0 {
        return Ok(Score::zero());
    }
    let exponent = exponent_of(spelling.has_negative_exponent, spelling.exponent);
    let place = exponent + significand.place;
    if !is_place(place) {
        return Err(ScoreFault::ScoreExponent);
    }
    Ok(Score::new(spelling.is_negative, significand.digits, place))
}
