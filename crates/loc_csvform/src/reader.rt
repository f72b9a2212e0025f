// A layer text in either form.

ghost use Rattle.std.specs.Prelude.{◌≡◌, ◌≤◌, length, Ok, IfOk, IfErr};
ghost use Rattle.csv.specs.Reading.{strip_bom};
ghost use Rattle.loc_spec_text.specs.Limits.{most_scale, most_text};
ghost use Rattle.loc_csvform.specs.Layer.{layer_of};
ghost use Rattle.loc_csvform.specs.Faults.{IsFaultOf};

use crate::csv_form::read_csv;
use crate::line_form::read_lines;
use crate::{Form, LayerFault};
use loc_rings::Layer;
use loc_spec_text::Scale;
use std::alloc::Global;

// The text behind a byte order mark, if it has one.
fn without_mark(text: &[u8]) -> &[u8]
    ensures value { result.now ≡ strip_bom text.now }
    ensures within { length result.now ≤ length text.now }
{
    text.strip_prefix(b"\xEF\xBB\xBF").unwrap_or(text)
}

#[tactic(auto, unfolding(crate::specs::Layer::layer_of))]
/// Reads a layer text of at most 2^28 bytes in a form, at a scale of at most 15.
pub fn read_layer(alloc: Global, bytes: &[u8], form: Form, scale: u8) -> Result<Layer, LayerFault>
    requires scale { scale ≤ most_scale }
    requires size { length bytes.now ≤ most_text }
    ensures ok { IfOk result (λ layer. layer_of form scale bytes.now ≡ Ok layer) }
    ensures err { IfErr result (IsFaultOf (layer_of form scale bytes.now)) }
{
    let scale = Scale::new(scale);
    match form {
        Form::Lines => read_lines(alloc, without_mark(bytes), scale),
        Form::Csv => read_csv(alloc, bytes, scale),
    }
}
