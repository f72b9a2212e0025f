// The reader of span lines.

ghost use Rattle.std.specs.Prelude.{◌≡◌, ◌≤◌, if◌then◌else◌, int_le, option_and_then, IfSome, MatchOption, Some, None};
ghost use Rattle.loc_spec_plane.specs.Points.{OnGrid, point_at};
ghost use Rattle.loc_spec_plane.specs.Spans.{IsSpan};
ghost use Rattle.loc_spec_text.specs.Geometry.{symbols};
ghost use Rattle.loc_spec_text.specs.Spans.{SpanText, span_on_grid, span_texts};
ghost use Rattle.loc_wkt.specs.Fronts.{IsOn};

use crate::points::{next_pair, next_value};
use crate::tokens::next_symbol;
use loc_geom::Point;

/// The grid values of a span line: of three numbers, and nothing behind them.
fn span_values(text: &[u8], scale: u8) -> Option<(Option<i64>, Option<i64>, Option<i64>)>
    requires { scale ≤ 15 }
    ensures { MatchOption result (span_texts (symbols text.now) ≡ None) (λ r. (s : SpanText) × (span_texts (symbols text.now) ≡ Some s) × IsOn scale s.0 r.0 × IsOn scale s.1 r.1 × IsOn scale s.2 r.2) }
{
    let (x, low, rest) = next_pair(text, scale)?;
    let (high, rest) = next_value(rest, scale)?;
    if next_symbol(rest).is_none() {
        Some((x, low, high))
    } else {
        None
    }
}

/// The span from one height up to another, unless it goes down.
fn span_between(x: i64, low: i64, high: i64) -> Option<(Point, Point)>
    requires x { OnGrid x }
    requires low { OnGrid low }
    requires high { OnGrid high }
    ensures value { result ≡ (if int_le low high then Some (point_at x low, point_at x high) else None) }
    ensures span { IfSome result (λ span. IsSpan span.0 span.1) }
{
    if low > high {
        return None;
    }
    Some((Point::new(x, low)?, Point::new(x, high)?))
}

/// The span of a line at a scale, from its low point up to its high one: three numbers on its grid and in range, of which the second is at
/// most the third. Any other line has none. How long the line is does not matter here.
pub fn read_span(text: &[u8], scale: u8) -> Option<(Point, Point)>
    requires { scale ≤ 15 }
    ensures value { result ≡ option_and_then (span_on_grid scale) (span_texts (symbols text.now)) }
    ensures span { IfSome result (λ span. IsSpan span.0 span.1) }
{
    let (x, low, high) = span_values(text, scale)?;
    span_between(x?, low?, high?)
}
