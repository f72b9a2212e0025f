//! The answers to the lines of a spans text.

ghost use Rattle.std.specs.Prelude.{◌≡◌, ◌+◌, ◌≤◌, IfSome};
ghost use Rattle.loc_io.specs.Streams.{TakesAll};
ghost use Rattle.loc_page.specs.Puts.{PutsText};
ghost use Rattle.loc_spec_plane.specs.Spans.{IsSpan, met_at};
ghost use Rattle.loc_spec_text.specs.Points.{ended};
ghost use Rattle.loc_spec_text.specs.Spans.{met_text, span_of};
ghost use Rattle.loc_treeidx.specs.Standing.{AreVersionsOf};
ghost use Rattle.loc_reach.specs.SpanCourses.{line_answer, line_steps, met_output, span_steps, text_steps};

use loc_edges::Views;
use loc_geom::{Point, Steps};
use loc_io::{Sink, WriteFault};
use loc_page::Page;
use loc_spec_text::{MOST_LINE, Scale};
use loc_stab::put_met;
use loc_treeidx::TreeIndex;
use loc_wkt::{next_line, read_span};
use std::sync::ledger::Ledger;

// The span of a line of at most 4096 bytes.
fn span_in(line: &[u8], scale: Scale) -> Option<(Point, Point)>
    ensures value { result ≡ span_of scale line.now }
    ensures span { IfSome result (λ span. IsSpan span.0 span.1) }
{
    if line.len() > MOST_LINE {
        return None;
    }
    read_span(line, scale.decimals())
}

// The edges that a span meets, as an answer line.
fn put_edges<O: Sink, L: Ledger>(
    index: &TreeIndex,
    views: &Views<'_, L>,
    low: Point,
    high: Point,
    page: &mut Page,
    sink: &mut O,
    steps: &mut Steps<L>,
) -> Result<(), WriteFault>
    requires stands { AreVersionsOf views.now index.now }
    requires span { IsSpan low high }
    ensures written { PutsText (ended (met_text (met_at views.now low high))) (O.meaning sink.old)
        (O.meaning sink.new) page.old page.new result }
    ensures counted { steps.old ≤ steps.new }
    ensures within { steps.new ≤ steps.old + span_steps views.now (low, high) }
{
    page.put(sink, b"edges")?;
    put_met(index, views, low, high, page, sink, steps)?;
    page.put(sink, b"\n")
}

// The answer to a line.
fn put_answer<O: Sink, L: Ledger>(
    index: &TreeIndex,
    views: &Views<'_, L>,
    line: &[u8],
    scale: Scale,
    page: &mut Page,
    sink: &mut O,
    steps: &mut Steps<L>,
) -> Result<(), WriteFault>
    requires stands { AreVersionsOf views.now index.now }
    ensures written { PutsText (ended (line_answer scale views.now line.now)) (O.meaning sink.old)
        (O.meaning sink.new) page.old page.new result }
    ensures counted { steps.old ≤ steps.new }
    ensures within { steps.new ≤ steps.old + line_steps scale views.now line.now }
{
    match span_in(line, scale) {
        Some((low, high)) => put_edges(index, views, low, high, page, sink, steps),
        None => page.put(sink, b"unread\n"),
    }
}

// The answers to the lines of a text, in order.
fn put_answers<O: Sink, L: Ledger>(
    index: &TreeIndex,
    views: &Views<'_, L>,
    text: &[u8],
    scale: Scale,
    page: &mut Page,
    sink: &mut O,
    steps: &mut Steps<L>,
) -> Result<(), WriteFault>
    requires stands { AreVersionsOf views.now index.now }
    ensures written { PutsText (met_output scale views.now text.now) (O.meaning sink.old) (O.meaning sink.new)
        page.old page.new result }
    ensures counted { steps.old ≤ steps.new }
    ensures within { steps.new ≤ steps.old + text_steps scale views.now text.now }
{
    let mut rest = text;
    'lines: while let Some((line, more)) = next_line(rest) {
        put_answer(index, views, line, scale, page, sink, steps)?;
        rest = more;
    }
    Ok(())
}

/// Writes the answers to the lines of a spans text at a scale, in order.
pub(crate) fn write_answers<O: Sink, L: Ledger>(
    index: &TreeIndex,
    views: &Views<'_, L>,
    text: &[u8],
    scale: Scale,
    sink: &mut O,
    steps: &mut Steps<L>,
) -> Result<(), WriteFault>
    requires stands { AreVersionsOf views.now index.now }
    ensures written { TakesAll (met_output scale views.now text.now) (O.meaning sink.old) (O.meaning sink.new) result }
    ensures counted { steps.old ≤ steps.new }
    ensures within { steps.new ≤ steps.old + text_steps scale views.now text.now }
{
    let mut page = Page::new();
    put_answers(index, views, text, scale, &mut page, sink, steps)?;
    page.flush(sink)
}
