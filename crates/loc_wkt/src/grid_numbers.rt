// The value of a number text on the grid of a scale, exactly, for texts and exponents of any length.

ghost use Rattle.std.specs.Prelude.{◌≡◌, ◌≤◌, ◌^◌, ℕ, List, if◌then◌else◌, length, min, true};
ghost use Rattle.std.specs.Char.{is_ascii_digit};
ghost use Rattle.std.specs.List.{list_all};
ghost use Rattle.std.specs.Str.Parse.{digits_value};
ghost use Rattle.loc_spec_text.specs.Number.{is_negative as is_negative_text, is_number as is_number_text, is_on_grid, magnitude as magnitude_of, unsigned as unsigned_text};
ghost use Rattle.loc_wkt.specs.GridNumbers.{IsBounded, IsDecimal, IsGridNumber};
ghost use Rattle.loc_wkt.specs.NumberTexts.{text_of};

mod digits;
mod parts;
mod short;

use crate::numbers::{LIMIT, is_negative, signed, unsigned};
use digits::{Digits, capped_value};
pub(crate) use parts::long_number;
pub use parts::{LongNumber, is_number};
pub use short::ShortNumber;
pub(crate) use short::short_number;
use short::short_on_grid;

/// What a number text is on the grid of a scale: its grid value, or off the grid, or on it and beyond 10^18 either way.
#[derive(Clone, Copy)]
pub enum GridNumber {
    OnGrid(i64),
    OffGrid,
    OutOfRange,
}

/// The parts of a number without its sign: its digits without the point, how many of them stand behind it, and how far its exponent
/// raises and lowers, of which no more than 2^66 is kept.
#[derive(Clone, Copy)]
struct Decimal {
    digits: Digits,
    fraction: usize,
    raised: u128,
    lowered: u128,
}

/// A number text that has been read: a short one, or any other by its parts.
#[derive(Clone, Copy)]
pub enum NumberText<'a> {
    Short(ShortNumber<'a>),
    Long(LongNumber<'a>),
}

/// How far an exponent raises and lowers, of which no more than 2^66 is kept.
fn shifts(exponent: &[u8]) -> (u128, u128)
    requires { list_all is_ascii_digit (unsigned_text exponent.now) ≡ true }
    ensures raised { result.0 ≡ min (if is_negative_text exponent.now then 0 else digits_value 10 (unsigned_text exponent.now)) (2 ^ 66) }
    ensures lowered { result.1 ≡ min (if is_negative_text exponent.now then digits_value 10 (unsigned_text exponent.now) else 0) (2 ^ 66) }
{
    let shift = capped_value(unsigned(exponent));
    if is_negative(exponent) {
        (0, shift)
    } else {
        (shift, 0)
    }
}

/// The parts of a number text as numbers.
fn decimal_of(number: &LongNumber<'_>) -> Decimal
    ensures { IsDecimal result number.now.text.now }
{
    // tells that its digits can be counted
    let _length = number.text.len();
    let parts = number.parts;
    let whole = Digits::none().followed_by(parts.whole);
    let digits = whole.followed_by(parts.fraction);
    let (raised, lowered) = shifts(parts.exponent);
    Decimal {
        digits,
        fraction: parts.fraction.len(),
        raised,
        lowered,
    }
}

/// A whole number on the grid, with its sign, unless it is past 10^18.
fn ranged(magnitude: u128, negative: bool) -> GridNumber
    ensures number { (scale : ℕ) (text : List ℕ) → is_on_grid scale text ≡ true → magnitude_of scale text ≡ magnitude → negative ≡ is_negative_text text → IsGridNumber scale text result }
    ensures bound { IsBounded result }
{
    if magnitude > LIMIT as u128 {
        return GridNumber::OutOfRange;
    }
    GridNumber::OnGrid(signed(magnitude as u64, negative))
}

/// What a number is, by its parts, on the grid of a scale, which is at most 15.
fn long_on_grid(number: &LongNumber<'_>, scale: u8) -> GridNumber
    requires { scale ≤ 15 }
    ensures number { IsGridNumber scale number.now.text.now result }
    ensures bound { IsBounded result }
{
    let decimal = decimal_of(number);
    if decimal.digits.head == 0 && !decimal.digits.long {
        return GridNumber::OnGrid(0);
    }
    let up = decimal.digits.zeros as u128 + decimal.raised + scale as u128;
    let down = decimal.lowered + decimal.fraction as u128;
    if up < down {
        return GridNumber::OffGrid;
    }
    let places = up - down;
    if decimal.digits.long || places > 18 {
        return GridNumber::OutOfRange;
    }
    let magnitude = decimal.digits.head as u128 * 10u64.pow(places as u32) as u128;
    ranged(magnitude, is_negative(number.text))
}

/// What a number is on the grid of a scale, which is at most 15.
pub(crate) fn on_grid(number: &NumberText<'_>, scale: u8) -> GridNumber
    requires { scale ≤ 15 }
    ensures number { IsGridNumber scale (text_of number.now) result }
    ensures bound { IsBounded result }
{
    match number {
        NumberText::Short(short) => short_on_grid(short, scale),
        NumberText::Long(long) => long_on_grid(long, scale),
    }
}

/// What a number text is on the grid of a scale, which is at most 15.
pub fn grid_number(text: &[u8], scale: u8) -> GridNumber
    requires number { is_number_text text.now ≡ true }
    requires scale { scale ≤ 15 }
    ensures number { IsGridNumber scale text.now result }
    ensures bound { IsBounded result }
{
    match long_number(text) {
        Some(number) => long_on_grid(&number, scale),
        None => unreachable!(),
    }
}
