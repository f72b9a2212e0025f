// A row of a layer text, in either form: how its feature joins the layer.

ghost use Rattle.std.specs.Prelude.{◌≡◌, ◌≢◌, ◌≤◌, length, Ok, Err, IfOk, IfErr, OnOk};
ghost use Rattle.loc_spec_text.specs.Reading.{reading};
ghost use Rattle.loc_csvform.specs.Layer.{text_reading, with_feature, with_row};
ghost use Rattle.loc_csvform.specs.Faults.{IsFaultOf};
ghost use Rattle.loc_spec_text.specs.Limits.{most_id_bytes, most_text};

use crate::LayerFault;
use loc_rings::{Feature, Layer, Rings};
use loc_spec_text::{Scale, TextFault};
use loc_wkt::{is_blank, read_geometry};
use std::alloc::Global;

// The polygons of a geometry text, of which one of white space alone has none.
fn read_text(alloc: Global, text: &[u8], scale: Scale) -> Result<Rings, TextFault>
    requires size { length text.now ≤ most_text }
    ensures ok { IfOk result (λ rings. text_reading (reading scale) text.now ≡ Ok rings) }
    ensures err { IfErr result (λ fault. fault ≢ TextFault.NoMemory → text_reading (reading scale) text.now ≡ Err fault) }
{
    if is_blank(text) {
        return Ok(Rings::new(alloc));
    }
    read_geometry(alloc, text, scale.decimals())
}

// Appends a feature, unless it is one too many or its points are.
fn add_feature(layer: &mut Layer, row: u32, feature: Feature) -> Result<(), LayerFault>
    ensures ok { OnOk result (with_feature row layer.old feature ≡ Ok layer.new) }
    ensures err { IfErr result (IsFaultOf (with_feature row layer.old feature)) }
{
    if layer.is_full() {
        return Err(LayerFault::ManyFeatures { row });
    }
    if !layer.has_room(&feature) {
        return Err(LayerFault::ManyPoints { row });
    }
    layer.add(feature)?;
    Ok(())
}

/// Appends the feature of a row with this number, this id and this geometry text.
pub(crate) fn add_row(
    alloc: Global,
    layer: &mut Layer,
    row: u32,
    id: Vec<u8>,
    text: &[u8],
    scale: Scale,
) -> Result<(), LayerFault>
    requires size { length text.now ≤ most_text }
    requires short { length id.items ≤ most_id_bytes }
    ensures ok { OnOk result (with_row layer.old (record { number = row; id = id.items; text = text.now }) (text_reading (reading scale) text.now) ≡ Ok layer.new) }
    ensures err { IfErr result (IsFaultOf (with_row layer.old (record { number = row; id = id.items; text = text.now }) (text_reading (reading scale) text.now))) }
{
    match read_text(alloc, text, scale) {
        Ok(rings) => add_feature(layer, row, Feature::new(id, rings)),
        Err(TextFault::NoMemory) => Err(LayerFault::NoMemory),
        Err(fault) => Err(LayerFault::Text { row, fault }),
    }
}
