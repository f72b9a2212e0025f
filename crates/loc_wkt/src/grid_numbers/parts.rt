// The parts of a number text: its digits before and behind the point, and its exponent.

ghost use Rattle.std.specs.Prelude.{◌≡◌, ◌≤◌, ◌<◌, ◌+◌, ℕ, List, length, position, true, false, IfSome, IfNone};
ghost use Rattle.std.specs.Char.{is_ascii_digit};
ghost use Rattle.std.specs.List.{before_first, after_first, list_all, list_any};
ghost use Rattle.loc_spec_text.specs.Number.{are_digits, exponent, fraction_digits, has_exponent, is_exponent_mark, is_number as is_number_text, is_point, whole_digits};

use crate::numbers::unsigned;

/// The parts of a number text without its sign. The exponent is what stands behind its mark.
#[derive(Clone, Copy)]
pub struct NumberParts<'a> {
    pub whole: &'a [u8],
    pub fraction: &'a [u8],
    pub exponent: &'a [u8],
    pub has_exponent: bool,
}

/// The place of the first point.
fn point_place(text: &[u8]) -> Option<usize>
    ensures place { result ≡ position is_point text.now }
    ensures within { IfSome result (λ i. i < length text.now) }
{
    text.iter().position(|b| *b == b'.')
}

/// The place of the first E.
fn exponent_place(text: &[u8]) -> Option<usize>
    ensures place { result ≡ position is_exponent_mark text.now }
    ensures within { IfSome result (λ i. i < length text.now) }
{
    text.iter().position(|b| *b == b'e' || *b == b'E')
}

/// The parts of a text round its point, or the text and nothing.
fn cut_at_point(text: &[u8]) -> (&[u8], &[u8])
    ensures whole { result.0.now ≡ before_first is_point text.now }
    ensures fraction { result.1.now ≡ after_first is_point text.now }
{
    match point_place(text) {
        Some(i) => (&text[..i], &text[i + 1..]),
        None => (text, &[]),
    }
}

/// The parts of a text round its exponent's mark, and whether it has one; else the text and nothing.
fn cut_at_exponent(text: &[u8]) -> (&[u8], &[u8], bool)
    ensures mantissa { result.0.now ≡ before_first is_exponent_mark text.now }
    ensures exponent { result.1.now ≡ after_first is_exponent_mark text.now }
    ensures has { result.2 ≡ list_any is_exponent_mark text.now }
{
    match exponent_place(text) {
        Some(i) => (&text[..i], &text[i + 1..], true),
        None => (text, &[], false),
    }
}

/// The parts of a text that is read as a number.
pub fn parts(text: &[u8]) -> NumberParts<'_>
    ensures whole { result.whole.now ≡ whole_digits text.now }
    ensures fraction { result.fraction.now ≡ fraction_digits text.now }
    ensures exponent { result.exponent.now ≡ exponent text.now }
    ensures has { result.has_exponent ≡ has_exponent text.now }
{
    let (mantissa, exponent, has_exponent) = cut_at_exponent(unsigned(text));
    let (whole, fraction) = cut_at_point(mantissa);
    NumberParts {
        whole,
        fraction,
        exponent,
        has_exponent,
    }
}

/// Whether each byte of a text is a digit.
fn all_digits(text: &[u8]) -> bool
    ensures { result ≡ list_all is_ascii_digit text.now }
{
    text.iter().all(|b| b.is_ascii_digit())
}

/// Whether a text is one digit or more.
fn is_digits(text: &[u8]) -> bool
    ensures { result ≡ are_digits text.now }
{
    !text.is_empty() && all_digits(text)
}

/// A number text of any length, cut into its parts once.
#[derive(Clone, Copy)]
pub struct LongNumber<'a> {
    pub text: &'a [u8],
    pub parts: NumberParts<'a>,
    ghost number: { is_number_text text.now ≡ true },
    ghost whole: { parts.whole.now ≡ whole_digits text.now },
    ghost fraction: { parts.fraction.now ≡ fraction_digits text.now },
    ghost exponent: { parts.exponent.now ≡ exponent text.now },
}

/// Whether the parts are those of a number: digits with at most one point, and an exponent or none.
fn are_of_number(parts: &NumberParts<'_>) -> bool
    ensures { (text : List ℕ) → parts.now.whole.now ≡ whole_digits text → parts.now.fraction.now ≡ fraction_digits text → parts.now.exponent.now ≡ exponent text → parts.now.has_exponent ≡ has_exponent text → result ≡ is_number_text text }
{
    if parts.whole.is_empty() && parts.fraction.is_empty() {
        return false;
    }
    if !all_digits(parts.whole) || !all_digits(parts.fraction) {
        return false;
    }
    !parts.has_exponent || is_digits(unsigned(parts.exponent))
}

/// The number that a text is: a sign or none, digits with at most one point, and an exponent or none.
pub fn long_number(text: &[u8]) -> Option<LongNumber<'_>>
    ensures none { IfNone result (is_number_text text.now ≡ false) }
    ensures same { IfSome result (λ number. number.text.now ≡ text.now) }
{
    let parts = parts(text);
    if are_of_number(&parts) {
        Some(LongNumber { text, parts })
    } else {
        None
    }
}

/// Whether a text is a number: a sign or none, digits with at most one point, and an exponent or none.
pub fn is_number(text: &[u8]) -> bool
    ensures { result ≡ is_number_text text.now }
{
    long_number(text).is_some()
}
