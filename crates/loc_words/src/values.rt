//! The values of options.
ghost use Rattle.std.specs.Prelude.{◌≡◌, ◌≤◌, IfSome, option_map};
ghost use Rattle.std.specs.Char.{is_ascii_digit};
ghost use Rattle.std.specs.List.{list_all};
ghost use Rattle.loc_spec_asked.specs.Orders.{asked_order};
ghost use Rattle.loc_words.specs.Words.{form_word, index_or_tree, index_word, kind_word, number_word, order_by_words, scale_word, scale_and_form};

use crate::{EdgeOrder, Form, Index, Kind};
use loc_spec_text::MOST_SCALE;

const MOST_DIGITS: usize = 20;

// The number from which edges are shuffled where none is named.
const FIRST_SHUFFLE: u64 = 1;

fn are_digits(bytes: &[u8]) -> bool
    ensures { result ≡ list_all is_ascii_digit bytes.now }
{
    for byte in bytes {
        if !byte.is_ascii_digit() {
            return false;
        }
    }
    true
}

/// A number of 1 to 20 digits below 2^64.
pub(crate) fn number_of(word: &str) -> Option<u64>
    ensures { result ≡ number_word word.now }
{
    if word.is_empty() || word.len() > MOST_DIGITS || !are_digits(word.as_bytes()) {
        return None;
    }
    word.parse::<u64>().ok()
}

fn scale_of(word: &str) -> Option<u8>
    ensures value { result ≡ scale_word word.now }
    ensures bound { IfSome result (λ scale. scale ≤ 15) }
{
    match number_of(word) {
        Some(scale) if scale <= MOST_SCALE as u64 => Some(scale as u8),
        _ => None,
    }
}

// The form of this name.
fn form_of(word: &str) -> Option<Form>
    ensures { result ≡ form_word word.now }
{
    match word {
        "lines" => Some(Form::Lines),
        "csv" => Some(Form::Csv),
        _ => None,
    }
}

/// The scale, which is required, and the form, lines where it is left out, of their words.
pub(crate) fn read_scale_and_form(scale: Option<&str>, form: Option<&str>) -> Option<(u8, Form)>
    ensures bound { IfSome result (λ values. values.0 ≤ 15) }
    ensures value { result ≡ scale_and_form (option_map (λ s. s.now) scale.entry) (option_map (λ s. s.now) form.entry) }
{
    let scale = scale_of(scale?)?;
    let form = match form {
        Some(word) => form_of(word)?,
        None => Form::Lines,
    };
    Some((scale, form))
}

// The index of this name.
fn index_of(word: &str) -> Option<Index>
    ensures { result ≡ index_word word.now }
{
    match word {
        "scan" => Some(Index::Scan),
        "tree" => Some(Index::Tree),
        "trap" => Some(Index::Trap),
        _ => None,
    }
}

/// The index, tree where it is left out, of its word.
pub(crate) fn read_index(index: Option<&str>) -> Option<Index>
    ensures { result ≡ index_or_tree (option_map (λ s. s.now) index.entry) }
{
    match index {
        Some(word) => index_of(word),
        None => Some(Index::Tree),
    }
}

/// The order of the edges, shuffled from 1 where it is left out, of its words: they stand only beside trap, and not together.
pub(crate) fn read_order<'a>(
    index: Index,
    order: Option<&'a str>,
    shuffle: Option<&str>,
) -> Option<EdgeOrder<'a>>
    ensures { option_map asked_order result ≡ order_by_words index (option_map (λ s. s.now) order.entry) (option_map (λ s. s.now) shuffle.entry) }
{
    match (index, order, shuffle) {
        (_, None, None) => Some(EdgeOrder::Shuffled(FIRST_SHUFFLE)),
        (Index::Trap, Some(name), None) => Some(EdgeOrder::File(name)),
        (Index::Trap, None, Some(number)) => Some(EdgeOrder::Shuffled(number_of(number)?)),
        _ => None,
    }
}

/// The kind of generated layer of this name.
pub(crate) fn kind_of(word: &str) -> Option<Kind>
    ensures { result ≡ kind_word word.now }
{
    match word {
        "grid" => Some(Kind::Grid),
        "nest" => Some(Kind::Nest),
        "strips" => Some(Kind::Strips),
        _ => None,
    }
}
