//! The lines that name what is wrong with the bytes of an index file.

ghost use Rattle.std.specs.Prelude.{◌≡◌, ◌++◌, codes};
ghost use Rattle.std.specs.Fmt.{decimal};
ghost use Rattle.loc_spec_text.specs.Points.{ended};
ghost use Rattle.loc_course.specs.Lines.{line_text, part_text};
ghost use Rattle.loc_course.specs.Stops.{stopped};
ghost use Rattle.loc_indexed.specs.IndexTexts.{index_stop, part_name};

use itoa::Buffer;
use loc_course::{Line, Part as Piece, Stop};
use loc_file::{IndexFault, Part};

// A number of 64 bits.
fn number_piece(number: u64) -> Piece
    ensures { part_text result ≡ decimal number }
{
    let mut buffer = Buffer::new();
    Piece::of(buffer.format(number).as_bytes())
}

// A part of a file.
fn name_piece(part: Part) -> Piece
    ensures { part_text result ≡ part_name part }
{
    match part {
        Part::Corners => Piece::of(b"corners"),
        Part::Edges => Piece::of(b"edges"),
        Part::Marks => Piece::of(b"marks"),
        Part::Covers => Piece::of(b"covers"),
    }
}

// The file ends before a field does.
fn short_line(need: u64) -> Line
    ensures { line_text result ≡ ended (codes "index: short, " ++ decimal need ++ codes " bytes needed") }
{
    Line {
        parts: [
            Piece::of(b"index: short, "),
            number_piece(need),
            Piece::of(b" bytes needed"),
            Piece::None,
            Piece::None,
            Piece::None,
        ],
    }
}

// The version is another.
fn version_line(found: u32) -> Line
    ensures { line_text result ≡ ended (codes "index: version " ++ decimal found) }
{
    Line {
        parts: [
            Piece::of(b"index: version "),
            Piece::Number(found),
            Piece::None,
            Piece::None,
            Piece::None,
            Piece::None,
        ],
    }
}

// A field is out of its bound.
fn field_line(offset: u64, value: u64, bound: u64) -> Line
    ensures { line_text result ≡ ended (codes "index: field at " ++ decimal offset ++ codes " holds " ++ decimal value
        ++ codes ", bound " ++ decimal bound) }
{
    Line {
        parts: [
            Piece::of(b"index: field at "),
            number_piece(offset),
            Piece::of(b" holds "),
            number_piece(value),
            Piece::of(b", bound "),
            number_piece(bound),
        ],
    }
}

// A row is out of its order.
fn order_line(part: Part, row: u32) -> Line
    ensures { line_text result ≡ ended (codes "index: " ++ part_name part ++ codes " row " ++ decimal row
        ++ codes " not in order") }
{
    Line {
        parts: [
            Piece::of(b"index: "),
            name_piece(part),
            Piece::of(b" row "),
            Piece::Number(row),
            Piece::of(b" not in order"),
            Piece::None,
        ],
    }
}

// Bytes are left behind the last field.
fn long_line(rest: u64) -> Line
    ensures { line_text result ≡ ended (codes "index: " ++ decimal rest ++ codes " bytes too many") }
{
    Line {
        parts: [
            Piece::of(b"index: "),
            number_piece(rest),
            Piece::of(b" bytes too many"),
            Piece::None,
            Piece::None,
            Piece::None,
        ],
    }
}

/// Why a command stops where the bytes of an index file are at fault.
pub(crate) fn index_stop_of(fault: IndexFault) -> Stop
    ensures { stopped result ≡ index_stop fault }
{
    match fault {
        IndexFault::Short { need } => Stop::Refused(short_line(need)),
        IndexFault::Magic => Stop::Refused(Line::of(b"index: bad magic")),
        IndexFault::Version { found } => Stop::Refused(version_line(found)),
        IndexFault::Field {
            offset,
            value,
            bound,
        } => Stop::Refused(field_line(offset, value, bound)),
        IndexFault::NotSorted { part, row } => Stop::Refused(order_line(part, row)),
        IndexFault::Long { rest } => Stop::Refused(long_line(rest)),
        IndexFault::NoMemory => Stop::NoMemory,
    }
}
