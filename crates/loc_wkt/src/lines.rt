// The lines of a text, and white space alone.

ghost use Rattle.std.specs.Prelude.{◌≡◌, ◌∷◌, ◌<◌, ◌≤◌, [], ◌==◌, length, position, MatchOption, IfSome};
ghost use Rattle.loc_spec_text.specs.Bytes.{is_blank as is_blank_text, lines};

use crate::tokens::is_white;

// Where the first LF stands.
fn feed_place(text: &[u8]) -> Option<usize>
    ensures place { result ≡ position (λ b. b == 10) text.now }
    ensures within { IfSome result (λ i. i < length text.now) }
{
    text.iter().position(|b| *b == b'\n')
}

/// The first line of a text, without its LF, and what follows it. Nothing where the text is empty, and so has no line.
pub fn next_line(text: &[u8]) -> Option<(&[u8], &[u8])>
    ensures found { MatchOption result (text.now ≡ []) (λ l. lines text.now ≡ l.0.now ∷ lines l.1.now) }
    ensures within { IfSome result (λ l. length l.0.now ≤ length text.now) }
    ensures shorter { IfSome result (λ l. length l.1.now < length text.now) }
{
    if text.is_empty() {
        return None;
    }
    match feed_place(text) {
        Some(i) => Some((&text[..i], &text[i + 1..])),
        None => Some((text, &[])),
    }
}

/// Whether a text is white space alone, or nothing.
pub fn is_blank(text: &[u8]) -> bool
    ensures { result ≡ is_blank_text text.now }
{
    text.iter().all(|b| is_white(*b))
}
