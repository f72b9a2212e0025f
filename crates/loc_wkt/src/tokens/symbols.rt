// The symbols of a text: each mark by itself, and what stands before the next break.

ghost use Rattle.std.specs.Prelude.{◌≡◌, ◌∷◌, [], ◌<◌, ◌≤◌, length, take, drop, slice_index, false, IfSome, IfNone};
ghost use Rattle.std.specs.List.{position_or_len};
ghost use Rattle.loc_spec_text.specs.Bytes.{is_white as is_white_byte};
ghost use Rattle.loc_spec_text.specs.Geometry.{ends_symbol as ends_symbol_before, is_break as is_break_byte, is_mark as is_mark_byte, symbol_of, symbols};

use super::lengths::{is_white, white_length};

/// Whether a byte is a parenthesis or a comma.
pub fn is_mark(b: u8) -> bool
    ensures { result ≡ is_mark_byte b }
{
    b == b'(' || b == b')' || b == b','
}

/// Whether a byte ends a symbol.
fn is_break(b: u8) -> bool
    ensures { result ≡ is_break_byte b }
{
    is_white(b) || is_mark(b)
}

/// Whether no symbol goes on into a text.
pub fn ends_symbol(text: &[u8]) -> bool
    ensures { result ≡ ends_symbol_before text.now }
{
    match text {
        [] => true,
        [b, ..] => is_break(*b),
    }
}

/// The number of bytes before the first white space or mark.
fn run_length(text: &[u8]) -> usize
    ensures within { result ≤ length text.now }
    ensures front { result ≡ position_or_len is_break_byte text.now }
{
    text.iter().take_while(|b| !is_break(**b)).count()
}

/// The length of the first symbol of a text that begins with no white space: a mark by itself, or what stands before the first break.
fn symbol_length(text: &[u8]) -> usize
    requires some { 0 < length text.now }
    requires no_white { is_white_byte (slice_index text.now 0) ≡ false }
    ensures some { 0 < result }
    ensures within { result ≤ length text.now }
    ensures cut { symbols text.now ≡ symbol_of (take result text.now) ∷ symbols (drop result text.now) }
{
    if is_mark(text[0]) {
        1
    } else {
        run_length(text)
    }
}

/// The first symbol of a text and what follows it, or nothing where the text is blank.
pub fn next_symbol(text: &[u8]) -> Option<(&[u8], &[u8])>
    ensures found { IfSome result (λ p. symbols text.now ≡ symbol_of p.0.now ∷ symbols p.1.now) }
    ensures shorter { IfSome result (λ p. length p.1.now < length text.now) }
    ensures none { IfNone result (symbols text.now ≡ []) }
{
    let white = white_length(text);
    if white == text.len() {
        return None;
    }
    let text = &text[white..];
    Some(text.split_at(symbol_length(text)))
}
