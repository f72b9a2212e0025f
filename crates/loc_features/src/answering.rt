// The answer line to a point.

ghost use Rattle.std.specs.Prelude.{◌≡◌, ◌+◌, ◌<◌, ◌≤◌, ◌++◌, [], All, get_or, length};
ghost use Rattle.loc_spec_text.specs.Points.{ended, ids_text, quoted};
ghost use Rattle.loc_batch.specs.Desks.{PutsAnswer};
ghost use Rattle.loc_page.specs.Puts.{PutsText};
ghost use Rattle.loc_spec_plane.specs.Tables.{layer_segments};
ghost use Rattle.loc_edges.specs.Layers.{layer_rings};
ghost use Rattle.loc_parts.specs.Parts.{IsParted};
ghost use Rattle.loc_features.specs.Places.{AreAt};
ghost use Rattle.loc_features.specs.Features.{features_text};
ghost use Rattle.loc_features.specs.Told.{counted, ids_of, names_in, told_at, told_lists};

use crate::placing::{Found, find_in};
use crate::whole::name_at;
use loc_batch::{Answerer, FeedFault, Lists, Tally, put_quoted};
use loc_geom::{Point, Steps};
use loc_io::{Sink, WriteFault};
use loc_page::Page;
use loc_parts::Parted;
use loc_rings::Layer;
use std::sync::ledger::Ledger;

// The id of a feature.
fn put_name<O: Sink>(
    page: &mut Page,
    sink: &mut O,
    layer: &Layer,
    feature: u32,
) -> Result<(), WriteFault>
    requires in_range { feature < length layer.now }
    ensures { PutsText (quoted (get_or (ids_of layer.now) feature [])) (O.meaning sink.old) (O.meaning sink.new)
        page.old page.new result }
{
    put_quoted(page, sink, layer.feature(feature as usize).id())
}

// The ids of features.
fn put_names<O: Sink>(
    page: &mut Page,
    sink: &mut O,
    layer: &Layer,
    features: &[u32],
) -> Result<(), WriteFault>
    requires in_range { All (λ f. f < length layer.now) features.now }
    ensures { PutsText (ids_text (names_in layer.now features.now)) (O.meaning sink.old) (O.meaning sink.new) page.old
        page.new result }
{
    for feature in features {
        put_name(page, sink, layer, *feature)?;
    }
    Ok(())
}

// A word, and the ids of features.
fn put_named<O: Sink>(
    page: &mut Page,
    sink: &mut O,
    word: &[u8],
    layer: &Layer,
    features: &[u32],
) -> Result<(), WriteFault>
    requires in_range { All (λ f. f < length layer.now) features.now }
    ensures { PutsText (word.now ++ ids_text (names_in layer.now features.now)) (O.meaning sink.old)
        (O.meaning sink.new) page.old page.new result }
{
    page.put(sink, word)?;
    put_names(page, sink, layer, features)
}

// The features that touch, where there are any, and those that cover.
fn put_lists<O: Sink>(
    page: &mut Page,
    sink: &mut O,
    layer: &Layer,
    lists: &Lists,
) -> Result<(), WriteFault>
    requires touching { All (λ f. f < length layer.now) lists.now.touching }
    requires covering { All (λ f. f < length layer.now) lists.now.covering }
    ensures { PutsText (features_text (names_in layer.now lists.now.touching) (names_in layer.now lists.now.covering))
        (O.meaning sink.old) (O.meaning sink.new) page.old page.new result }
{
    if lists.touching().is_empty() {
        return put_named(page, sink, b"in", layer, lists.covering());
    }
    put_named(page, sink, b"on", layer, lists.touching())?;
    put_named(page, sink, b" in", layer, lists.covering())
}

// The same with an LF.
fn put_line<O: Sink>(
    page: &mut Page,
    sink: &mut O,
    layer: &Layer,
    lists: &Lists,
) -> Result<(), WriteFault>
    requires touching { All (λ f. f < length layer.now) lists.now.touching }
    requires covering { All (λ f. f < length layer.now) lists.now.covering }
    ensures { PutsText (ended (features_text (names_in layer.now lists.now.touching)
        (names_in layer.now lists.now.covering))) (O.meaning sink.old) (O.meaning sink.new) page.old page.new result }
{
    put_lists(page, sink, layer, lists)?;
    page.put(sink, b"\n")
}

// One answer more.
fn count(tally: &mut Tally, lists: &Lists)
    ensures { tally.new ≡ counted (length lists.now.touching) (length lists.now.covering) tally.old }
{
    tally.lines = tally.lines.saturating_add(1);
    tally.on = tally.on.saturating_add(lists.touching().len() as u64);
    tally.covering = tally.covering.saturating_add(lists.covering().len() as u64);
}

// The answer by two lists, put and counted.
fn put_told<O: Sink>(
    page: &mut Page,
    sink: &mut O,
    layer: &Layer,
    lists: &Lists,
    tally: &mut Tally,
) -> Result<(), FeedFault>
    requires touching { All (λ f. f < length layer.now) lists.now.touching }
    requires covering { All (λ f. f < length layer.now) lists.now.covering }
    ensures { PutsAnswer (told_lists layer.now lists.now) tally.old tally.new (O.meaning sink.old)
        (O.meaning sink.new) page.old page.new result }
{
    put_line(page, sink, layer, lists)?;
    count(tally, lists);
    Ok(())
}

// The answer to a point that was found, put and counted.
fn answer_found<const N: usize, O: Sink, L: Ledger>(
    parted: &Parted,
    layer: &Layer,
    found: &Found<N>,
    lists: &mut Lists,
    tally: &mut Tally,
    page: &mut Page,
    sink: &mut O,
    steps: &mut Steps<L>,
) -> Result<(), FeedFault>
    requires few { length parted.now.parts.items ≤ N }
    requires parted { IsParted layer.now parted.now }
    requires known { AreAt parted.now.parts.items found.now }
    ensures puts { PutsAnswer (told_at layer.now found.now.point) tally.old tally.new (O.meaning sink.old)
        (O.meaning sink.new) page.old page.new result }
    ensures counted { steps.old ≤ steps.new }
    ensures within { steps.new ≤ steps.old + length (layer_segments (layer_rings layer.now)) }
{
    name_at(parted, found, lists, steps);
    put_told(page, sink, layer, lists, tally)
}

// What answers a point by the parts of a layer, which are at most so many.
#[derive(Drop)]
pub(crate) struct ByParts<'a, const N: usize> {
    pub(crate) parted: &'a Parted,
    pub(crate) layer: &'a Layer,
}

impl<'a, const N: usize> Answerer<Found<N>> for ByParts<'a, N> {
    ghost use Rattle.std.specs.Prelude.{◌≤◌, Ok, length};
    ghost use Rattle.loc_spec_plane.specs.Tables.{layer_segments};
    ghost use Rattle.loc_edges.specs.Layers.{layer_rings};
    ghost use Rattle.loc_parts.specs.Parts.{IsParted};
    ghost use Rattle.loc_features.specs.Places.{AreAt, found_at};
    ghost use Rattle.loc_features.specs.Told.{told_at};

    ghost fits = { λ d. IsParted d.layer.now d.parted.now × (length d.parted.now.parts.items ≤ N) };

    ghost finds = { λ d p. found_at d.parted.now.parts.items p };

    ghost knows = { λ d found. AreAt d.parted.now.parts.items found };

    ghost tells = { λ d found. Ok (told_at d.layer.now found.point) };

    ghost most_found = { λ _. 1008 };

    ghost most_put = { λ d. length (layer_segments (layer_rings d.layer.now)) };

    fn find<L: Ledger>(&self, p: Point, steps: &mut Steps<L>) -> Found<N> {
        find_in(self.parted, p, steps)
    }

    fn put<O: Sink, L: Ledger>(
        &self,
        found: Found<N>,
        lists: &mut Lists,
        tally: &mut Tally,
        page: &mut Page,
        sink: &mut O,
        steps: &mut Steps<L>,
    ) -> Result<(), FeedFault> {
        answer_found(
            self.parted,
            self.layer,
            &found,
            lists,
            tally,
            page,
            sink,
            steps,
        )
    }
}
