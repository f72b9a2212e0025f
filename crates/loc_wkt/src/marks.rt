// White space, and what stands at the front of a text: marks, numbers and words.

ghost use Rattle.std.specs.Prelude.{◌≡◌, ◌+◌, ◌<◌, ◌≤◌, [], codes, length, true, IfSome, Some, None, MatchOption};
ghost use Rattle.std.specs.Char.{is_ascii_alphabetic};
ghost use Rattle.std.specs.List.{list_all};
ghost use Rattle.std.specs.Str.{bytes_eq};
ghost use Rattle.loc_spec_text.specs.Bytes.{capitals, drop_while, is_white as is_white_byte};
ghost use Rattle.loc_spec_text.specs.Geometry.{symbol_of, symbols};
ghost use Rattle.loc_wkt.specs.Fronts.{empty_at, goes_on_at, is_word, mark_at, number_at, open_at};
ghost use Rattle.loc_wkt.specs.NumberTexts.{text_of};

use crate::grid_numbers::{NumberText, long_number, short_number};
use crate::tokens::{is_mark, next_symbol, white_length};

/// The text behind the white space at its front.
pub(crate) fn skip_white(text: &[u8]) -> &[u8]
    ensures { result.now ≡ drop_while is_white_byte text.now }
{
    &text[white_length(text)..]
}

/// The mark at the front of a text and what follows it, or nothing where another symbol or none is there.
pub(crate) fn next_mark(text: &[u8]) -> Option<(u8, &[u8])>
    ensures found { MatchOption result (mark_at (symbols text.now) ≡ None) (λ m. mark_at (symbols text.now) ≡ Some (m.0, symbols m.1.now)) }
    ensures shorter { IfSome result (λ m. length m.1.now < length text.now) }
{
    match skip_white(text) {
        [] => None,
        [b, more @ ..] => { if is_mark(*b) { Some((*b, more)) } else { None } }
    }
}

/// What follows an open mark at the front of a text.
pub(crate) fn behind_open(text: &[u8]) -> Option<&[u8]>
    ensures found { MatchOption result (open_at (symbols text.now) ≡ None) (λ rest. open_at (symbols text.now) ≡ Some (symbols rest.now)) }
    ensures shorter { IfSome result (λ rest. length rest.now < length text.now) }
{
    let (mark, rest) = next_mark(text)?;
    if mark == b'(' { Some(rest) } else { None }
}

/// Whether more members of a list follow behind one of them, and what follows the comma or the close mark that tells it.
pub(crate) fn goes_on(text: &[u8]) -> Option<(bool, &[u8])>
    ensures found { MatchOption result (goes_on_at (symbols text.now) ≡ None) (λ r. goes_on_at (symbols text.now) ≡ Some (r.0, symbols r.1.now)) }
    ensures shorter { IfSome result (λ r. length r.1.now < length text.now) }
{
    let (mark, rest) = next_mark(text)?;
    match mark {
        b',' => Some((true, rest)),
        b')' => Some((false, rest)),
        _ => None,
    }
}

/// The number at the front of a text and what follows it.
pub(crate) fn next_number(text: &[u8]) -> Option<(NumberText<'_>, &[u8])>
    ensures found { MatchOption result (number_at (symbols text.now) ≡ None) (λ r. number_at (symbols text.now) ≡ Some (text_of r.0, symbols r.1.now)) }
    ensures shorter { IfSome result (λ r. length r.1.now < length text.now) }
{
    let text = skip_white(text);
    if let Some((number, rest)) = short_number(text) {
        return Some((NumberText::Short(number), rest));
    }
    let (symbol, rest) = next_symbol(text)?;
    let number = long_number(symbol)?;
    Some((NumberText::Long(number), rest))
}

/// Whether a run is this word in any ASCII case.
pub(crate) fn is_this_word(run: &[u8], name: &[u8]) -> bool
    requires letters { list_all is_ascii_alphabetic name.now ≡ true }
    requires capitals { capitals name.now ≡ name.now }
    ensures letters { result ≡ bytes_eq (capitals run.now) name.now }
    ensures symbol { result ≡ is_word name.now (symbol_of run.now) }
{
    run.eq_ignore_ascii_case(name)
}

/// What follows the word EMPTY at the front of a text.
pub(crate) fn behind_empty(text: &[u8]) -> Option<&[u8]>
    ensures found { MatchOption result (empty_at (symbols text.now) ≡ None) (λ rest. empty_at (symbols text.now) ≡ Some (symbols rest.now)) }
    ensures shorter { IfSome result (λ rest. length rest.now < length text.now) }
{
    let (word, rest) = next_symbol(text)?;
    if is_this_word(word, b"EMPTY") {
        Some(rest)
    } else {
        None
    }
}
