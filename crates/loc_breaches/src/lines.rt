//! The line of a feature.

ghost use Rattle.std.specs.Prelude.{◌≡◌, ◌++◌, OnOk, Some, codes};
ghost use Rattle.std.specs.Fmt.{decimal};
ghost use Rattle.std.specs.List.{flat_map};
ghost use Rattle.loc_spec_text.specs.Points.{grid_text, position_text, quoted_byte};
ghost use Rattle.loc_spec_valid.specs.BreachTexts.{breach_line, breach_text, edge_text};
ghost use Rattle.loc_valid.specs.Judged.{told};

use itoa::Buffer;
use loc_geom::{Edge, Point};
use loc_spec_text::Scale;
use loc_valid::Breach;
use loc_wkt::put_grid;
use std::alloc::AllocError;

// Room for a grid value.
const ROOM: usize = 40;

// A number between words.
fn push_numbered(
    text: &mut Vec<u8>,
    before: &[u8],
    number: u32,
    after: &[u8],
) -> Result<(), AllocError>
    ensures { OnOk result (text.new.items ≡ text.old.items ++ (before.now ++ decimal number ++ after.now)) }
{
    let mut buffer = Buffer::new();
    text.extend_from_slice(before)?;
    text.extend_from_slice(buffer.format(number).as_bytes())?;
    text.extend_from_slice(after)
}

// A coordinate at a scale.
fn push_value(text: &mut Vec<u8>, value: i64, scale: Scale) -> Result<(), AllocError>
    ensures { OnOk result (text.new.items ≡ text.old.items ++ grid_text scale value) }
{
    let mut room = [b'0'; ROOM];
    let start = put_grid(&mut room, value, scale.decimals());
    text.extend_from_slice(&room[start..])
}

// x, a space, y.
fn push_position(text: &mut Vec<u8>, point: Point, scale: Scale) -> Result<(), AllocError>
    ensures { OnOk result (text.new.items ≡ text.old.items ++ position_text scale point) }
{
    push_value(text, point.x(), scale)?;
    text.push(b' ')?;
    push_value(text, point.y(), scale)
}

// The two ends of an edge.
fn push_edge(text: &mut Vec<u8>, edge: Edge, scale: Scale) -> Result<(), AllocError>
    ensures { OnOk result (text.new.items ≡ text.old.items ++ edge_text scale edge) }
{
    push_position(text, edge.lo(), scale)?;
    text.extend_from_slice(b", ")?;
    push_position(text, edge.hi(), scale)
}

// An edge between words.
fn push_edge_in(
    text: &mut Vec<u8>,
    before: &[u8],
    edge: Edge,
    after: &[u8],
    scale: Scale,
) -> Result<(), AllocError>
    ensures { OnOk result (text.new.items ≡ text.old.items ++ (before.now ++ edge_text scale edge ++ after.now)) }
{
    text.extend_from_slice(before)?;
    push_edge(text, edge, scale)?;
    text.extend_from_slice(after)
}

// Two edges that cross.
fn push_crossing(text: &mut Vec<u8>, a: Edge, b: Edge, scale: Scale) -> Result<(), AllocError>
    ensures { OnOk result (text.new.items ≡ text.old.items
        ++ (codes "edges " ++ edge_text scale a ++ codes " and " ++ edge_text scale b ++ codes " cross")) }
{
    push_edge_in(text, b"edges ", a, b" and ", scale)?;
    push_edge_in(text, b"", b, b" cross", scale)
}

// A ring that is twice at a point.
fn push_pinch(text: &mut Vec<u8>, ring: u32, at: Point, scale: Scale) -> Result<(), AllocError>
    ensures { OnOk result (text.new.items ≡ text.old.items
        ++ (codes "ring " ++ decimal ring ++ codes " twice at " ++ position_text scale at)) }
{
    push_numbered(text, b"ring ", ring, b" twice at ")?;
    push_position(text, at, scale)
}

// Two numbers between words.
fn push_pair(
    text: &mut Vec<u8>,
    before: &[u8],
    first: u32,
    between: &[u8],
    second: u32,
    after: &[u8],
) -> Result<(), AllocError>
    ensures { OnOk result (text.new.items ≡ text.old.items
        ++ (before.now ++ decimal first ++ between.now ++ decimal second ++ after.now)) }
{
    push_numbered(text, before, first, between)?;
    push_numbered(text, b"", second, after)
}

// What is said of a breach.
fn push_breach(text: &mut Vec<u8>, breach: Breach, scale: Scale) -> Result<(), AllocError>
    ensures { OnOk result (text.new.items ≡ text.old.items ++ breach_text scale (told (Some breach))) }
{
    match breach {
        Breach::PointRing { ring } => push_numbered(text, b"ring ", ring, b" is a point"),
        Breach::Cross { a, b } => push_crossing(text, a, b, scale),
        Breach::Twice { edge } => push_edge_in(text, b"edge ", edge, b" twice", scale),
        Breach::Pinch { ring, at } => push_pinch(text, ring, at, scale),
        Breach::Outside { ring } => push_numbered(text, b"ring ", ring, b" outside"),
        Breach::Nested { ring, inside } => {
            push_pair(text, b"ring ", ring, b" in ring ", inside, b"")
        }
        Breach::Parts { polygon, parts } => {
            push_pair(text, b"polygon ", polygon, b" in ", parts, b" parts")
        }
        Breach::Overlap { polygon, other } => {
            push_pair(text, b"polygon ", polygon, b" in polygon ", other, b"")
        }
    }
}

// What is said of a feature.
fn push_said(text: &mut Vec<u8>, breach: Option<Breach>, scale: Scale) -> Result<(), AllocError>
    ensures { OnOk result (text.new.items ≡ text.old.items ++ breach_text scale (told breach)) }
{
    match breach {
        Some(breach) => push_breach(text, breach, scale),
        None => text.extend_from_slice(b"valid"),
    }
}

// A byte, doubled where it is a double quote.
fn push_doubled_byte(text: &mut Vec<u8>, byte: u8) -> Result<(), AllocError>
    ensures { OnOk result (text.new.items ≡ text.old.items ++ quoted_byte byte) }
{
    if byte == b'"' {
        text.extend_from_slice(b"\"\"")
    } else {
        text.extend_from_slice(&[byte])
    }
}

// The bytes with each double quote doubled.
fn push_doubled(text: &mut Vec<u8>, id: &[u8]) -> Result<(), AllocError>
    ensures { OnOk result (text.new.items ≡ text.old.items ++ flat_map quoted_byte id.now) }
{
    for byte in id {
        push_doubled_byte(text, *byte)?;
    }
    Ok(())
}

/// The line of a feature behind a text: its id, and its breach or that it is valid.
pub(crate) fn push_line(
    text: &mut Vec<u8>,
    id: &[u8],
    breach: Option<Breach>,
    scale: Scale,
) -> Result<(), AllocError>
    ensures { OnOk result (text.new.items ≡ text.old.items ++ breach_line scale id.now (told breach)) }
{
    text.push(b'"')?;
    push_doubled(text, id)?;
    text.extend_from_slice(b"\" ")?;
    push_said(text, breach, scale)?;
    text.extend_from_slice(b"\n")
}
