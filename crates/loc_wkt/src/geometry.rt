// The reader of geometry texts.

ghost use Rattle.std.specs.Prelude.{◌≡◌, ◌≢◌, ◌≤◌, ◌<◌, ℕ, List, length, option_and_then, Ok, Err, IfOk, IfErr};
ghost use Rattle.loc_spec_text.specs.Limits.{most_text};
ghost use Rattle.loc_spec_text.specs.Bytes.{after_word, capitals, first_word as first_word_of};
ghost use Rattle.loc_spec_text.specs.Geometry.{symbols};
ghost use Rattle.loc_spec_text.specs.Reader.{all_of, list_at, one_of, wide_geometry_of};
ghost use Rattle.loc_spec_text.specs.Reading.{reading, word_fault as word_fault_of};
ghost use Rattle.loc_wkt.specs.Lists.{IsUnread, wide_polygon_at};
ghost use Rattle.loc_wkt.specs.Passes.{HasRoom, IsTreeRead, outcome as outcome_of};

use crate::marks::{is_this_word, skip_white};
use crate::tokens::{next_symbol, word_length};
use crate::values::Values;
use loc_rings::Rings;
use loc_spec_text::TextFault;
use std::alloc::Global;

/// The letters at the front of a text, behind white space, and what follows them.
fn first_word(text: &[u8]) -> (&[u8], &[u8])
    ensures word { first_word_of text.now ≡ capitals result.0.now }
    ensures rest { result.1.now ≡ after_word text.now }
{
    let text = skip_white(text);
    text.split_at(word_length(text))
}

/// The fault of the words at the front of a text, if there is one.
fn word_fault(text: &[u8]) -> Option<TextFault>
    ensures { result ≡ word_fault_of text.now }
{
    let (tag, rest) = first_word(text);
    if tag.is_empty() {
        return Some(TextFault::Syntax);
    }
    if !(is_this_word(tag, b"POLYGON") || is_this_word(tag, b"MULTIPOLYGON")) {
        return Some(TextFault::Tag);
    }
    let (dimension, _) = first_word(rest);
    if is_this_word(dimension, b"Z")
        || is_this_word(dimension, b"M")
        || is_this_word(dimension, b"ZM")
    {
        return Some(TextFault::Dimension);
    }
    None
}

impl Values {
    /// Reads one polygon with nothing behind it.
    fn read_polygon(&mut self, alloc: Global, text: &[u8]) -> Result<(), TextFault>
        requires room { HasRoom self.old text.now }
        ensures ok { IfOk result (λ u. IsTreeRead (option_and_then one_of (wide_polygon_at (symbols text.now))) self.old self.new) }
        ensures err { IfErr result (λ fault. IsUnread fault (option_and_then one_of (wide_polygon_at (symbols text.now)))) }
    {
        let rest = self.behind_polygon(alloc, text)?;
        match next_symbol(rest) {
            None => Ok(()),
            Some(_) => Err(TextFault::Syntax),
        }
    }

    /// Reads EMPTY or a list of polygons with nothing behind it.
    fn read_polygons(&mut self, alloc: Global, text: &[u8]) -> Result<(), TextFault>
        requires room { HasRoom self.old text.now }
        ensures ok { IfOk result (λ u. IsTreeRead (option_and_then all_of (list_at wide_polygon_at (symbols text.now))) self.old self.new) }
        ensures err { IfErr result (λ fault. IsUnread fault (option_and_then all_of (list_at wide_polygon_at (symbols text.now)))) }
    {
        let rest = self.behind_polygon_list(alloc, text)?;
        match next_symbol(rest) {
            None => Ok(()),
            Some(_) => Err(TextFault::Syntax),
        }
    }

    /// What the text reads as whose values these are.
    fn outcome(self) -> Result<Rings, TextFault>
        ensures { result ≡ outcome_of self }
    {
        if self.is_wide {
            return Err(TextFault::Dimension);
        }
        match self.numbers.fault.or(self.rings.fault) {
            Some(fault) => Err(fault),
            None => Ok(self.built),
        }
    }
}

/// Reads a whole geometry text whose points may have two, three or four numbers.
fn read_values(values: &mut Values, alloc: Global, text: &[u8]) -> Result<(), TextFault>
    requires { (rest : List ℕ) → length rest < length text.now → HasRoom values.old rest }
    ensures ok { IfOk result (λ u. IsTreeRead (wide_geometry_of text.now) values.old values.new) }
    ensures err { IfErr result (λ fault. IsUnread fault (wide_geometry_of text.now)) }
{
    let Some((tag, rest)) = next_symbol(text) else {
        return Err(TextFault::Syntax);
    };
    if is_this_word(tag, b"POLYGON") {
        return values.read_polygon(alloc, rest);
    }
    if is_this_word(tag, b"MULTIPOLYGON") {
        return values.read_polygons(alloc, rest);
    }
    Err(TextFault::Syntax)
}

/// The polygons of a geometry text on the grid of a scale, or the first of its faults in the order of docs/FORMATS.md. `NoMemory` says nothing of the text.
pub fn read_geometry(alloc: Global, text: &[u8], scale: u8) -> Result<Rings, TextFault>
    requires scale { scale ≤ 15 }
    requires size { length text.now ≤ most_text }
    ensures ok { IfOk result (λ rings. reading scale text.now ≡ Ok rings) }
    ensures err { IfErr result (λ fault. fault ≢ TextFault.NoMemory → reading scale text.now ≡ Err fault) }
{
    if let Some(fault) = word_fault(text) {
        return Err(fault);
    }
    let mut values = Values::new(alloc, scale);
    read_values(&mut values, alloc, text)?;
    values.outcome()
}
