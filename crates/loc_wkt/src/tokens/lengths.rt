// How long the word, the number and the token at the front of a text are.

ghost use Rattle.std.specs.Prelude.{◌≡◌, ◌<◌, ◌≤◌, ℕ, List, [], ◌∷◌, length, slice_index, false, IfSome, IfNone};
ghost use Rattle.std.specs.Char.{is_ascii_alphabetic};
ghost use Rattle.std.specs.List.{prefix_len};
ghost use Rattle.loc_spec_text.specs.Bytes.{is_white as is_white_byte};
ghost use Rattle.loc_spec_text.specs.Number.{is_number};
ghost use Rattle.loc_spec_text.specs.Tokens.{is_token};
ghost use Rattle.loc_wkt.specs.TokenList.{longest};
ghost use Rattle.loc_wkt.specs.TokenParts.{completes};

/// How much of a number has been read.
#[derive(Clone, Copy)]
enum Part {
    Start,
    Sign,
    Whole,
    Point,
    Fraction,
    Mark,
    ExponentSign,
    Exponent,
}

impl Part {
    /// The part behind one byte more, or nothing where no number goes on with it.
    fn after(self, b: u8) -> Option<Part>
        ensures goes_on { IfSome result (λ next. (text : List ℕ) → completes self (b ∷ text) ≡ completes next text) }
        ensures stops { IfNone result ((text : List ℕ) → completes self (b ∷ text) ≡ false) }
    {
        match (self, b) {
            (Part::Start, b'+' | b'-') => Some(Part::Sign),
            (Part::Start | Part::Sign | Part::Whole, b'0'..=b'9') => Some(Part::Whole),
            (Part::Start | Part::Sign, b'.') => Some(Part::Point),
            (Part::Whole, b'.') => Some(Part::Fraction),
            (Part::Point | Part::Fraction, b'0'..=b'9') => Some(Part::Fraction),
            (Part::Whole | Part::Fraction, b'e' | b'E') => Some(Part::Mark),
            (Part::Mark, b'+' | b'-') => Some(Part::ExponentSign),
            (Part::Mark | Part::ExponentSign | Part::Exponent, b'0'..=b'9') => Some(Part::Exponent),
            _ => None,
        }
    }

    /// Whether a number may end here.
    fn may_end(self) -> bool
        ensures { result ≡ completes self [] }
    {
        matches!(self, Part::Whole | Part::Fraction | Part::Exponent)
    }
}

/// The length of the longest number at the front of a text, and 0 where none begins there.
fn number_length(text: &[u8]) -> usize
    ensures { result ≡ longest is_number text.now }
{
    let mut part = Part::Start;
    let mut length = 0;
    for (i, b) in text.iter().enumerate() {
        match part.after(*b) {
            Some(next) => part = next,
            None => return length,
        }
        if part.may_end() {
            length = i + 1;
        }
    }
    length
}

/// The number of letters at the front of a text.
pub fn word_length(text: &[u8]) -> usize
    ensures { result ≡ prefix_len is_ascii_alphabetic text.now }
{
    text.iter().take_while(|b| b.is_ascii_alphabetic()).count()
}

/// The length of the longest token at the front of a text that begins with no white space.
pub fn token_length(text: &[u8]) -> usize
    requires some { 0 < length text.now }
    requires no_white { is_white_byte (slice_index text.now 0) ≡ false }
    ensures within { result ≤ length text.now }
    ensures longest { result ≡ longest is_token text.now }
{
    let word = word_length(text);
    if word > 0 {
        return word;
    }
    number_length(text).max(1)
}

/// Whether a byte is white space.
pub fn is_white(b: u8) -> bool
    ensures { result ≡ is_white_byte b }
{
    b == b' ' || b == b'\t' || b == b'\r' || b == b'\n'
}

/// The number of bytes of white space at the front of a text.
pub fn white_length(text: &[u8]) -> usize
    ensures within { result ≤ length text.now }
    ensures front { result ≡ prefix_len is_white_byte text.now }
{
    text.iter().take_while(|b| is_white(**b)).count()
}
