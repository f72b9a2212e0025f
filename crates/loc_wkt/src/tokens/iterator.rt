// The iterator over the tokens of a text.

ghost use Rattle.std.specs.Iterator.{YieldsFirstBy, item_count};
ghost use Rattle.loc_spec_text.specs.Tokens.{AreTokens};
ghost use Rattle.loc_wkt.specs.TokensLeft.{token_of, tokens_left};

use super::lengths::{token_length, white_length};
use super::{Token, Tokens};

impl<'a> Tokens<'a> {
    /// The tokens of a text: words, numbers, `(`, `)`, `,` and single other bytes, in order, each the longest at its place, with
    /// white space alone outside them.
    pub fn new(text: &'a [u8]) -> Tokens<'a>
        ensures { AreTokens 0 text.now (tokens_left result) }
    {
        Tokens {
            left: text,
            start: 0,
        }
    }
}

impl<'a> Iterator for Tokens<'a> {
    type Item = Token<'a>;

    ghost next_gives = { YieldsFirstBy token_of tokens_left };

    ghost remaining = { item_count tokens_left };

    fn next(&mut self) -> Option<Token<'a>> {
        let white = white_length(self.left);
        if white == self.left.len() {
            return None;
        }
        let text = &self.left[white..];
        let start = self.start + white;
        let length = token_length(text);
        self.left = &text[length..];
        self.start = start + length;
        Some(Token {
            text: &text[..length],
            start,
        })
    }
}
