//! The index file of a layer, from the layer's bytes in to the file's bytes out.

ghost use Rattle.std.specs.Prelude.{List};
ghost use Rattle.loc_laws_index.specs.IndexReading.{AreBytes};
ghost use Rattle.loc_rings.specs.Values.{Feature as FeatureOf};
ghost use Rattle.loc_sweep.specs.Swept.{IsSwept};
ghost use Rattle.loc_treeidx.specs.Meaning.{meaning_of};
ghost use Rattle.loc_course.specs.Sentences.{status_of};
ghost use Rattle.loc_course.specs.Stops.{end_of};
ghost use Rattle.loc_maps.specs.MapCourses.{layer_file};
ghost use Rattle.loc_indexed.specs.Building.{build_course};
ghost use Rattle.loc_indexed.specs.Builds.{Built};
ghost use Rattle.loc_indexed.specs.Followed.{AreShort, FollowsTruly, IsLaidOut, MakesIndex};
ghost use Rattle.loc_course.specs.Runs.{RunsOnFiles};

use loc_course::Stop;
use loc_io::Shelf;
use loc_maps::{Plane, judge, read_layer_file};
use loc_rings::Layer;
use loc_spec_text::{Form, Scale};
use loc_treeidx::TreeIndex;
use loc_treeidx::laws::swept_stands;
use loc_write::laws::content_holds_parts;
use loc_write::write_index;
use std::alloc::Global;

// The numbers of a text are bytes. The call does nothing.
fn is_of_bytes(text: &[u8])
    ensures { AreBytes text.now }
{
    let _ = text;
}

// The ids of a layer are short, and of bytes. They are looked at one by one, and nothing is done to them.
fn ids_are_short(layer: &Layer)
    ensures { AreShort layer.now }
{
    for feature in layer.features() {
        is_of_bytes(feature.id());
    }
}

// Writes the index file of a plane.
fn write_plane<F: Shelf>(
    shelf: &mut F,
    index: &str,
    scale: Scale,
    plane: &Plane<TreeIndex>,
) -> Result<(), Stop>
    requires laid_out { (layer : List FeatureOf) × IsLaidOut layer plane.now.table plane.now.legend }
    requires swept { IsSwept plane.now.table (meaning_of plane.now.status) }
    ensures { (layer : List FeatureOf) → IsLaidOut layer plane.now.table plane.now.legend
        → MakesIndex scale layer index.now (F.meaning shelf.old) (F.meaning shelf.new) (end_of result) }
{
    plane.table.law();
    plane.legend.law();
    swept_stands(&plane.table, &plane.status);
    content_holds_parts();
    let versions = plane.status.versions();
    let _sealed = versions.sealed();
    match write_index(
        shelf,
        index,
        scale.decimals(),
        &plane.table,
        &plane.legend,
        versions,
    ) {
        Ok(()) => Ok(()),
        Err(_) => Err(Stop::WriteFault),
    }
}

// Reads the layer, judges it, and makes its index file.
fn make_index<F: Shelf>(
    alloc: Global,
    name: &str,
    form: Form,
    scale: Scale,
    index: &str,
    shelf: &mut F,
) -> Result<(), Stop>
    ensures { FollowsTruly (layer_file name.now form scale) index.now (F.meaning shelf.old) (F.meaning shelf.new)
        (end_of result) }
{
    let layer = read_layer_file(alloc, shelf, name, form, scale)?;
    ids_are_short(&layer);
    let plane: Plane<TreeIndex> = judge(alloc, layer, scale)?;
    let outcome = write_plane(shelf, index, scale, &plane);
    drop(plane);
    outcome
}

/// Reads the layer whole and makes its index file. All memory is taken before the file is created, and nothing is written on an output. What
/// was made is the file of a true index of the layer; where a write failed it is a front of one, or the file is as before.
pub fn build<F: Shelf>(
    alloc: Global,
    layer_name: &str,
    index_name: &str,
    form: Form,
    scale: Scale,
    shelf: &mut F,
) -> Result<(), Stop>
    ensures follows { RunsOnFiles (build_course (layer_file layer_name.now form scale) index_name.now)
        F.meaning shelf result }
    ensures built { Built (layer_file layer_name.now form scale) index_name.now (F.meaning shelf.old)
        (F.meaning shelf.new) (status_of (end_of result)) }
{
    make_index(alloc, layer_name, form, scale, index_name, shelf)
}
