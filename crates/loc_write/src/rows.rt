// The bytes of single rows.

ghost use Rattle.std.specs.Prelude.{◌≡◌, ◌≤◌, ◌+◌, ◌++◌, length};
ghost use Rattle.std.specs.Int.{w8, w32, w64, to_be_bytes, cast_unsigned};
ghost use Rattle.loc_spec_index.specs.IndexFile.{none_or_next};
ghost use Rattle.loc_write.specs.Bytes.{header_bytes, id_bytes, corner_bytes, edge_bytes, mark_bytes, number_bytes, node_bytes};
ghost use Rattle.loc_spec_text.specs.Limits.{most_id_bytes, most_pieces};

use arrayvec::ArrayVec;
use byteorder::{BigEndian, ByteOrder};
use loc_edges::Mark;
use loc_geom::Point;
use loc_spec_index::NodeRow;

// Room for an id with its length, and for each other row.
pub(crate) type RowBytes = ArrayVec<u8, 256>;

// Bytes behind the others, for which there is room.
fn add(row: &mut RowBytes, bytes: &[u8])
    requires room { length row.old.items + length bytes.now ≤ 256 }
    ensures bytes { row.new.items ≡ row.old.items ++ bytes.now }
    ensures size { length row.new.items ≡ length row.old.items + length bytes.now }
{
    match row.try_extend_from_slice(bytes) {
        Ok(()) => {}
        Err(_) => unreachable!(),
    }
}

// A number of four bytes behind the others, its highest byte first.
fn add_number(row: &mut RowBytes, number: u32)
    requires room { length row.old.items + 4 ≤ 256 }
    ensures bytes { row.new.items ≡ row.old.items ++ to_be_bytes w32 number }
    ensures size { length row.new.items ≡ length row.old.items + 4 }
{
    let mut bytes = [0; 4];
    BigEndian::write_u32(&mut bytes, number);
    add(row, &bytes);
}

// A coordinate behind the others, in two's complement.
fn add_coordinate(row: &mut RowBytes, value: i64)
    requires room { length row.old.items + 8 ≤ 256 }
    ensures bytes { row.new.items ≡ row.old.items ++ to_be_bytes w64 (cast_unsigned w64 value) }
    ensures size { length row.new.items ≡ length row.old.items + 8 }
{
    let mut bytes = [0; 8];
    BigEndian::write_i64(&mut bytes, value);
    add(row, &bytes);
}

// A number of one byte behind the others.
fn add_byte(row: &mut RowBytes, byte: u8)
    requires room { length row.old.items + 1 ≤ 256 }
    ensures bytes { row.new.items ≡ row.old.items ++ to_be_bytes w8 byte }
    ensures size { length row.new.items ≡ length row.old.items + 1 }
{
    row.push(byte);
}

// A number by itself.
pub(crate) fn number_row(number: u32) -> RowBytes
    ensures { result.items ≡ number_bytes number }
{
    let mut row = RowBytes::new();
    add_number(&mut row, number);
    row
}

// The number of a floor: one more than that of its edge, or 0 where there is none.
pub(crate) fn floor_number(floor: Option<u32>) -> u32
    requires { none_or_next floor ≤ most_pieces }
    ensures { result ≡ none_or_next floor }
{
    match floor {
        None => 0,
        Some(edge) => edge + 1,
    }
}

// An id behind its length.
pub(crate) fn id_row(id: &[u8]) -> RowBytes
    requires { length id.now ≤ most_id_bytes }
    ensures { result.items ≡ id_bytes id.now }
{
    let mut row = RowBytes::new();
    add_byte(&mut row, id.len() as u8);
    add(&mut row, id);
    row
}

// A corner.
pub(crate) fn corner_row(corner: Point) -> RowBytes
    ensures { result.items ≡ corner_bytes corner }
{
    let mut row = RowBytes::new();
    add_coordinate(&mut row, corner.x());
    add_coordinate(&mut row, corner.y());
    row
}

// An edge by its ends, the number of its cover list, and its source.
pub(crate) fn edge_row(ends: (u32, u32), cover: u32, source: (u32, u32)) -> RowBytes
    ensures { result.items ≡ edge_bytes (record { ends = ends; source = source; cover = cover }) }
{
    let mut row = RowBytes::new();
    add_number(&mut row, ends.0);
    add_number(&mut row, ends.1);
    add_number(&mut row, cover);
    add_number(&mut row, source.0);
    add_number(&mut row, source.1);
    row
}

// A mark behind the number of its edge.
pub(crate) fn mark_row(edge: u32, mark: Mark) -> RowBytes
    ensures { result.items ≡ mark_bytes (edge, mark) }
{
    let mut row = RowBytes::new();
    add_number(&mut row, edge);
    add_number(&mut row, mark.feature);
    add_byte(&mut row, mark.odd as u8);
    row
}

// A node.
pub(crate) fn node_row(node: NodeRow) -> RowBytes
    ensures { result.items ≡ node_bytes node }
{
    let mut row = RowBytes::new();
    add_number(&mut row, node.item);
    add_number(&mut row, node.left);
    add_number(&mut row, node.right);
    add_byte(&mut row, node.side);
    add_number(&mut row, node.stamp);
    add_number(&mut row, node.extra);
    row
}

// How many rows each part has.
#[derive(Clone, Copy, Drop)]
pub(crate) struct Counts {
    pub(crate) features: u32,
    pub(crate) corners: u32,
    pub(crate) edges: u32,
    pub(crate) marks: u32,
    pub(crate) covers: u32,
    pub(crate) nodes: u32,
}

// The header of a file of the second version.
pub(crate) fn header_row(scale: u8, counts: Counts) -> RowBytes
    ensures { result.items ≡ header_bytes scale counts.features counts.corners counts.edges counts.marks counts.covers counts.nodes }
{
    let mut row = RowBytes::new();
    add(&mut row, b"LOCINDEX");
    add_number(&mut row, 2);
    add_number(&mut row, scale as u32);
    add_number(&mut row, counts.features);
    add_number(&mut row, counts.corners);
    add_number(&mut row, counts.edges);
    add_number(&mut row, counts.marks);
    add_number(&mut row, counts.covers);
    add_number(&mut row, counts.nodes);
    row
}
