// The tokens of a text: words, numbers, marks and single other bytes.

ghost use Rattle.std.specs.Prelude.{◌<◌, ◌+◌, ◌^◌, length};

mod iterator;
mod lengths;
mod symbols;

pub use lengths::{is_white, white_length, word_length};
pub use symbols::{ends_symbol, is_mark, next_symbol};

/// A token and the place at which it begins.
#[derive(Clone, Copy)]
pub struct Token<'a> {
    pub text: &'a [u8],
    pub start: usize,
}

/// The tokens of a text that have not been given yet.
#[derive(Clone, Copy)]
pub struct Tokens<'a> {
    left: &'a [u8],
    start: usize,
    ghost fits: { start + length left.now < 2 ^ 64 },
}
