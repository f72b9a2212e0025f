// The reader of point lines.

ghost use Rattle.std.specs.Prelude.{◌≡◌, ◌≤◌, ◌<◌, ◌^◌, ℕ, List, length, true, if◌then◌else◌, IfSome, MatchOption, Some, None};
ghost use Rattle.loc_spec_plane.specs.Points.{OnGrid};
ghost use Rattle.loc_spec_text.specs.Geometry.{PointText, symbols};
ghost use Rattle.loc_spec_text.specs.Number.{grid_value as grid_value_of};
ghost use Rattle.loc_spec_text.specs.Points.{is_grid_number, point_of, point_texts};
ghost use Rattle.loc_spec_text.specs.Reader.{point_at};
ghost use Rattle.loc_wkt.specs.Fronts.{IsOn, is_end, number_at, point_mark_at};
ghost use Rattle.loc_wkt.specs.NumberTexts.{text_of};

use crate::grid_numbers::{GridNumber, NumberText, on_grid};
use crate::marks::{behind_open, is_this_word, next_mark, next_number};
use crate::tokens::next_symbol;
use loc_geom::Point;
use loc_spec_text::MOST_LINE;

/// The grid value of a number, unless it is off the grid or out of range.
fn grid_value(number: &NumberText<'_>, scale: u8) -> Option<i64>
    requires { scale ≤ 15 }
    ensures value { result ≡ (if is_grid_number scale (text_of number.now) then Some (grid_value_of scale (text_of number.now)) else None) }
    ensures bound { IfSome result (λ value. OnGrid value) }
{
    match on_grid(number, scale) {
        GridNumber::OnGrid(value) => Some(value),
        _ => None,
    }
}

/// The grid value of the number at the front of a text, if it has one, and what follows it.
pub(crate) fn next_value(text: &[u8], scale: u8) -> Option<(Option<i64>, &[u8])>
    requires { scale ≤ 15 }
    ensures { MatchOption result (number_at (symbols text.now) ≡ None) (λ r. (x : List ℕ) × (number_at (symbols text.now) ≡ Some (x, symbols r.1.now)) × IsOn scale x r.0) }
{
    let (number, rest) = next_number(text)?;
    Some((grid_value(&number, scale), rest))
}

/// The grid values of two numbers at the front of a text, and what follows them.
pub(crate) fn next_pair(text: &[u8], scale: u8) -> Option<(Option<i64>, Option<i64>, &[u8])>
    requires { scale ≤ 15 }
    ensures { MatchOption result (point_at (symbols text.now) ≡ None) (λ r. (p : PointText) × (point_at (symbols text.now) ≡ Some (p, symbols r.2.now)) × IsOn scale p.0 r.0 × IsOn scale p.1 r.1) }
{
    let (x, rest) = next_value(text, scale)?;
    let (y, rest) = next_value(rest, scale)?;
    Some((x, y, rest))
}

/// What follows the word POINT and an open mark at the front of a text.
fn behind_point_mark(text: &[u8]) -> Option<&[u8]>
    ensures found { MatchOption result (point_mark_at (symbols text.now) ≡ None) (λ rest. point_mark_at (symbols text.now) ≡ Some (symbols rest.now)) }
    ensures shorter { IfSome result (λ rest. length rest.now < length text.now) }
{
    let (word, rest) = next_symbol(text)?;
    if is_this_word(word, b"POINT") {
        behind_open(rest)
    } else {
        None
    }
}

/// Whether a text is a close mark, but for white space.
fn is_close_mark(text: &[u8]) -> bool
    ensures { result ≡ is_end (symbols text.now) }
{
    match next_mark(text) {
        Some((mark, rest)) => mark == b')' && next_symbol(rest).is_none(),
        None => false,
    }
}

/// The grid values of a point line: of two numbers alone, or of two behind the word POINT in parentheses.
fn point_values(text: &[u8], scale: u8) -> Option<(Option<i64>, Option<i64>)>
    requires { scale ≤ 15 }
    ensures { MatchOption result (point_texts (symbols text.now) ≡ None) (λ r. (p : PointText) × (point_texts (symbols text.now) ≡ Some p) × IsOn scale p.0 r.0 × IsOn scale p.1 r.1) }
{
    match behind_point_mark(text) {
        Some(inside) => {
            let (x, y, rest) = next_pair(inside, scale)?;
            if is_close_mark(rest) {
                Some((x, y))
            } else {
                None
            }
        }
        None => {
            let (x, y, rest) = next_pair(text, scale)?;
            if next_symbol(rest).is_none() {
                Some((x, y))
            } else {
                None
            }
        }
    }
}

/// The point of a line at a scale: two numbers on its grid and in range, alone or as a well-known text. Any other line has none, nor has
/// one of more than 4096 bytes.
pub fn read_point(text: &[u8], scale: u8) -> Option<Point>
    requires { scale ≤ 15 }
    ensures { result ≡ point_of scale text.now }
{
    if text.len() > MOST_LINE {
        return None;
    }
    let (x, y) = point_values(text, scale)?;
    Point::new(x?, y?)
}
