// Short number texts, read in one pass: digits with at most one point among or behind them, and no exponent.

ghost use Rattle.std.specs.Prelude.{◌≡◌, ◌≤◌, ◌<◌, ◌+◌, ◌-◌, ◌*◌, ◌^◌, ℕ, List, ◌++◌, length, take, true, IfSome, Some};
ghost use Rattle.std.specs.Char.{is_ascii_digit};
ghost use Rattle.std.specs.List.{list_all};
ghost use Rattle.std.specs.Str.Parse.{digits_value};
ghost use Rattle.loc_spec_text.specs.Geometry.{symbols};
ghost use Rattle.loc_spec_text.specs.Number.{fraction_digits, is_number, lowered, raised, significand};
ghost use Rattle.loc_wkt.specs.Fronts.{number_at};
ghost use Rattle.loc_wkt.specs.GridNumbers.{IsBounded, IsGridNumber};
ghost use Rattle.loc_wkt.specs.ShortNumbers.{IsFront};

use super::{GridNumber, ranged};
use crate::numbers::{is_negative, unsigned};
use crate::tokens::ends_symbol;

/// The longest text behind a sign that is short: so many digits are less than 2^64.
const MOST_BYTES: usize = 19;

/// A short number text: its digits as one number, and how many of them stand behind the point.
#[derive(Clone, Copy)]
pub struct ShortNumber<'a> {
    pub text: &'a [u8],
    pub digits: u64,
    pub fraction: usize,
    ghost number: { is_number text.now ≡ true },
    ghost significand: { digits ≡ significand text.now },
    ghost places: { fraction ≡ length (fraction_digits text.now) },
    ghost few: { fraction ≤ 19 },
    ghost raised: { raised text.now ≡ 0 },
    ghost lowered: { lowered text.now ≡ 0 },
}

/// Digits with at most one point among or behind them: their number, how many stand behind the point, and how many bytes they are.
#[derive(Clone, Copy)]
pub struct Front {
    pub digits: u64,
    pub fraction: usize,
    pub length: usize,
}

/// The digits at the front of a text, behind digits whose number is `before`: the number of them all, and how many are at the front.
fn leading_digits(text: &[u8], before: u64) -> (u64, usize)
    requires room { (before + 1) * 10 ^ length text.now ≤ 10 ^ 19 }
    ensures within { result.1 ≤ length text.now }
    ensures digits { list_all is_ascii_digit (take result.1 text.now) ≡ true }
    ensures value { (ds : List ℕ) → before ≡ digits_value 10 ds → result.0 ≡ digits_value 10 (ds ++ take result.1 text.now) }
    ensures room { (result.0 + 1) * 10 ^ (length text.now - result.1) ≤ 10 ^ 19 }
{
    let mut value = before;
    for (i, b) in text.iter().enumerate() {
        if !b.is_ascii_digit() {
            return (value, i);
        }
        value = value * 10 + (*b - b'0') as u64;
    }
    (value, text.len())
}

/// The digits at the front of a text that begins with one, up to a second point.
fn front_of(text: &[u8]) -> Option<Front>
    requires { length text.now ≤ 19 }
    ensures { IfSome result (λ front. IsFront front text.now) }
{
    let (whole, places) = leading_digits(text, 0);
    if places == 0 {
        return None;
    }
    match &text[places..] {
        [b'.', behind @ ..] => {
            let (digits, fraction) = leading_digits(behind, whole);
            Some(Front {
                digits,
                fraction,
                length: places + 1 + fraction,
            })
        }
        _ => Some(Front {
            digits: whole,
            fraction: 0,
            length: places,
        }),
    }
}

/// The short number at the front of a text, where it is a whole symbol, and what follows it.
pub(crate) fn short_number(text: &[u8]) -> Option<(ShortNumber<'_>, &[u8])>
    ensures found { IfSome result (λ r. number_at (symbols text.now) ≡ Some (r.0.text.now, symbols r.1.now)) }
    ensures shorter { IfSome result (λ r. length r.1.now < length text.now) }
{
    let body = unsigned(text);
    let front = front_of(&body[..body.len().min(MOST_BYTES)])?;
    if !ends_symbol(&body[front.length..]) {
        return None;
    }
    let (text, rest) = text.split_at(text.len() - body.len() + front.length);
    let number = ShortNumber {
        text,
        digits: front.digits,
        fraction: front.fraction,
    };
    Some((number, rest))
}

/// What a short number is on the grid of a scale, which is at most 15.
pub(crate) fn short_on_grid(number: &ShortNumber<'_>, scale: u8) -> GridNumber
    requires { scale ≤ 15 }
    ensures number { IsGridNumber scale number.now.text.now result }
    ensures bound { IsBounded result }
{
    let places = scale as usize;
    if number.fraction <= places {
        let unit = 10u64.pow((places - number.fraction) as u32);
        return ranged(
            number.digits as u128 * unit as u128,
            is_negative(number.text),
        );
    }
    let unit = 10u64.pow((number.fraction - places) as u32);
    if number.digits % unit == 0 {
        ranged((number.digits / unit) as u128, is_negative(number.text))
    } else {
        GridNumber::OffGrid
    }
}
