// A layer text in form lines.

ghost use Rattle.std.specs.Prelude.{◌≡◌, ◌≤◌, [], length, Ok, IfOk, IfErr};
ghost use Rattle.std.specs.Fmt.{decimal};
ghost use Rattle.loc_spec_text.specs.Reading.{reading};
ghost use Rattle.loc_csvform.specs.Layer.{features_from, line_rows};
ghost use Rattle.loc_csvform.specs.Faults.{IsFaultOf};
ghost use Rattle.loc_spec_text.specs.Limits.{most_id_bytes, most_text};

use crate::LayerFault;
use crate::rows::add_row;
use itoa::Buffer;
use loc_rings::Layer;
use loc_spec_text::Scale;
use loc_wkt::{is_blank, next_line};
use std::alloc::{AllocError, Global};

// The number of a line in decimal, which is the feature's id.
fn id_of(alloc: Global, row: u32) -> Result<Vec<u8>, AllocError>
    ensures value { IfOk result (λ id. id.items ≡ decimal row) }
    ensures short { IfOk result (λ id. length id.items ≤ most_id_bytes) }
{
    let mut buffer = Buffer::new();
    Vec::from_slice(alloc, buffer.format(row).as_bytes())
}

/// The layer of a text in form lines: each line that is not blank is a row, and its number from 1 is the feature's id.
pub(crate) fn read_lines(alloc: Global, text: &[u8], scale: Scale) -> Result<Layer, LayerFault>
    requires size { length text.now ≤ most_text }
    ensures ok { IfOk result (λ layer. features_from (reading scale) (line_rows text.now) [] ≡ Ok layer) }
    ensures err { IfErr result (IsFaultOf (features_from (reading scale) (line_rows text.now) [])) }
{
    let mut layer = Layer::new(alloc);
    let mut rest = text;
    let mut row = 0u32;
    while let Some((line, more)) = next_line(rest) {
        row += 1;
        if !is_blank(line) {
            let id = id_of(alloc, row)?;
            add_row(alloc, &mut layer, row, id, line, scale)?;
        }
        rest = more;
    }
    Ok(layer)
}
