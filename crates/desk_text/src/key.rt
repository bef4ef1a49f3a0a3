ghost use Rattle.std.specs.Prelude.{◌≡◌, ℕ, ◌+◌, ◌*◌, ◌^◌, ◌<◌, ◌≤◌, pos, ◌+ℤ◌, min};
ghost use Rattle.std.specs.Int.RustNames.{unsigned_abs};
ghost use Rattle.desk_text.specs.Key.{first_place, size_value, IsSize};
ghost use Rattle.desk_text.specs.Text.{signed};
ghost use Rattle.desk_text.specs.Value.{IsPlace};

/// One more than the greatest number of 30 digits.
pub const LIMIT: u128 = 1_000_000_000_000_000_000_000_000_000_000;

/// One more than the greatest number of 19 digits, which fits in 64 bits.
const SHORT_LIMIT: u128 = 10_000_000_000_000_000_000;

/// A number of at most 30 digits times a power of ten.
#[derive(Clone, Copy)]
struct Scaled {
    digits: u128,
    power: u32,
}

/// The same number, with more digits if these are below the bound.
fn raised(number: Scaled, bound: u128, factor: u128, places: u32) -> Scaled
    requires places { places ≤ number.power }
    requires factor { factor ≡ 10 ^ places }
    requires fits { bound * factor ≡ 10 ^ 30 }
    requires short { number.digits < 10 ^ 30 }
    ensures same { result.digits * 10 ^ result.power ≡ number.digits * 10 ^ number.power }
    ensures short { result.digits < 10 ^ 30 }
    ensures least { min bound (number.digits * factor) ≤ result.digits }
    ensures low { number.power ≤ result.power + places }
    ensures high { result.power ≤ number.power }
{
    if number.digits < bound {
        Scaled {
            digits: number.digits * factor,
            power: number.power - places,
        }
    } else {
        number
    }
}

/// A number of at most 19 digits times a power of ten.
#[derive(Clone, Copy)]
struct Short {
    digits: u64,
    power: u32,
}

/// The same number, with more digits if these are below the bound.
fn raised_short(number: Short, bound: u64, factor: u64, places: u32) -> Short
    requires places { places ≤ number.power }
    requires factor { factor ≡ 10 ^ places }
    requires fits { bound * factor ≡ 10 ^ 19 }
    requires short { number.digits < 10 ^ 19 }
    ensures same { result.digits * 10 ^ result.power ≡ number.digits * 10 ^ number.power }
    ensures short { result.digits < 10 ^ 19 }
    ensures least { min bound (number.digits * factor) ≤ result.digits }
    ensures low { number.power ≤ result.power + places }
    ensures high { result.power ≤ number.power }
{
    if number.digits < bound {
        Short {
            digits: number.digits * factor,
            power: number.power - places,
        }
    } else {
        number
    }
}

/// The same number with 30 digits, whose first is not 0.
fn aligned_short(number: Short) -> Scaled
    requires some { 0 < number.digits }
    requires short { number.digits < 10 ^ 19 }
    requires places { 29 ≤ number.power }
    ensures same { result.digits * 10 ^ result.power ≡ number.digits * 10 ^ number.power }
    ensures first { 10 ^ 29 ≤ result.digits }
    ensures short { result.digits < 10 ^ 30 }
    ensures high { result.power ≤ number.power }
{
    let number = raised_short(number, 10_000_000_000, 1_000_000_000, 9);
    let number = raised_short(number, 100_000_000_000_000, 100_000, 5);
    let number = raised_short(number, 100_000_000_000_000_000, 100, 2);
    let number = raised_short(number, 1_000_000_000_000_000_000, 10, 1);
    let number = raised_short(number, 1_000_000_000_000_000_000, 10, 1);
    Scaled {
        digits: u128::from(number.digits) * 100_000_000_000,
        power: number.power - 11,
    }
}

/// The same number with 30 digits, whose first is not 0.
fn aligned(number: Scaled) -> Scaled
    requires some { 0 < number.digits }
    requires short { number.digits < 10 ^ 30 }
    requires places { 29 ≤ number.power }
    ensures same { result.digits * 10 ^ result.power ≡ number.digits * 10 ^ number.power }
    ensures first { 10 ^ 29 ≤ result.digits }
    ensures short { result.digits < 10 ^ 30 }
    ensures high { result.power ≤ number.power }
{
    if number.digits < SHORT_LIMIT {
        return aligned_short(Short {
            digits: number.digits as u64,
            power: number.power,
        });
    }
    let number = raised(number, 1_000_000_000_000_000, 1_000_000_000_000_000, 15);
    let number = raised(number, 100_000_000_000_000_000_000_000, 10_000_000, 7);
    let number = raised(number, 100_000_000_000_000_000_000_000_000, 10_000, 4);
    let number = raised(number, 10_000_000_000_000_000_000_000_000_000, 100, 2);
    raised(number, 100_000_000_000_000_000_000_000_000_000, 10, 1)
}

/// The size with its sign.
pub fn with_sign(is_negative: bool, size: u128) -> i128
    requires { size < 2 ^ 120 }
    ensures { result ≡ signed is_negative size }
{
    let size = size as i128;
    if is_negative { -size } else { size }
}

/// The size of a number other than 0: its first 30 digits, and above them the place of the first.
pub fn size_of(digits: u128, place: i128) -> u128
    requires some { 0 < digits }
    requires short { digits < 10 ^ 30 }
    requires near { IsPlace place }
    ensures size { IsSize first_place result }
    ensures value { size_value first_place result ≡ digits * 10 ^ unsigned_abs (place +ℤ pos 999) }
    ensures fits { result < 2 ^ 120 }
{
    let power = (place + 1028) as u32;
    let number = aligned(Scaled { digits, power });
    u128::from(number.power) * LIMIT + number.digits
}
