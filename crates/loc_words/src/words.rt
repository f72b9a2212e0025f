//! What words look like.
ghost use Rattle.std.specs.Prelude.{◌≡◌, map, string_bytes};
ghost use Rattle.std.specs.List.{list_all};
ghost use Rattle.loc_words.specs.Tested as tested;
ghost use Rattle.loc_words.specs.Rows as spec;

/// Whether the word is a place or a value: not empty, and it does not begin with a hyphen.
pub(crate) fn is_value(word: &str) -> bool
    ensures { result ≡ spec.is_value word.now }
{
    match word.as_bytes().first() {
        Some(first) => *first != b'-',
        None => false,
    }
}

// Two hyphens and a byte at least.
fn is_long(word: &str) -> bool
    ensures { result ≡ tested.is_long word.now }
{
    let bytes = word.as_bytes();
    bytes.len() > 2 && bytes[0] == b'-' && bytes[1] == b'-'
}

// What stands behind the first "=" is a value, where there is one.
fn has_value(word: &str) -> bool
    ensures { result ≡ tested.has_value word.now }
{
    match word.split_once('=') {
        Some((_, value)) => is_value(value),
        None => true,
    }
}

fn is_tested(word: &str) -> bool
    ensures { result ≡ tested.is_tested word.now }
{
    is_value(word) || (is_long(word) && has_value(word))
}

fn are_values(words: &[String]) -> bool
    ensures { result ≡ list_all spec.is_value (map string_bytes words.now) }
{
    for word in words {
        if !is_value(word) {
            return false;
        }
    }
    true
}

fn may_follow(words: &[String]) -> bool
    ensures { result ≡ list_all tested.is_tested (map string_bytes words.now) }
{
    for word in words {
        if !is_tested(word) {
            return false;
        }
    }
    true
}

/// Whether the words begin with so many places, and each behind them is a value, or an option by its
/// full name, with a value behind its "=" if it has one.
pub(crate) fn are_tested(words: &[String], places: usize) -> bool
    ensures { result ≡ tested.are_tested places (map string_bytes words.now) }
{
    if words.len() < places {
        return false;
    }
    are_values(&words[..places]) && may_follow(&words[places..])
}
