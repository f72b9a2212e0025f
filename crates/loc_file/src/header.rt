// The header of a file.

ghost use Rattle.std.specs.Prelude.{◌≡◌, ℕ, ◌≤◌, [], ◌∷◌, IfOk, IfErr, OnOk, codes};
ghost use Rattle.loc_spec_text.specs.Limits.{most_pieces};
ghost use Rattle.loc_spec_index.specs.IndexFile.{magic, most_edges, version};
ghost use Rattle.loc_file.specs.Readings.{IsRead, IsWrong, IsRowStop};
ghost use Rattle.loc_file.specs.Told.{header_row};

use crate::cursor::Cursor;
use byteorder::{BigEndian, ByteOrder};
use loc_spec_index::IndexFault;
use loc_spec_text::{MOST_FEATURES, MOST_PIECES, MOST_POINTS};

// The letters with which each file begins.
const MAGIC: &[u8] = b"LOCINDEX";

// The numbers of a header.
#[derive(Clone, Copy, Drop)]
pub(crate) struct Header {
    pub(crate) version: u32,
    pub(crate) scale: u32,
    pub(crate) features: u32,
    pub(crate) corners: u32,
    pub(crate) edges: u32,
    pub(crate) marks: u32,
    pub(crate) covers: u32,
    pub(crate) nodes: u32,
}

// The letters with which each file begins.
fn read_magic(cursor: &mut Cursor<'_>) -> Result<(), IndexFault>
    ensures ok { OnOk result (IsRead (magic (codes "LOCINDEX") ∷ []) cursor.old cursor.new) }
    ensures err { IfErr result (IsWrong (magic (codes "LOCINDEX")) cursor.old) }
{
    let held = cursor.take(8)?;
    if held == MAGIC {
        Ok(())
    } else {
        Err(IndexFault::Magic)
    }
}

// One of the two versions.
fn read_version(cursor: &mut Cursor<'_>) -> Result<u32, IndexFault>
    ensures ok { IfOk result (λ v. IsRead (version v ∷ []) cursor.old cursor.new) }
    ensures err { IfErr result (λ f. (v : ℕ) → IsWrong (version v) cursor.old f) }
{
    let held = cursor.take(4)?;
    let _first = held[0]; // tells that bytes are below 256
    let found = BigEndian::read_u32(held);
    if found == 1 {
        return Ok(found);
    }
    if found == 2 {
        return Ok(found);
    }
    Err(IndexFault::Version { found })
}

// How many edges, and how many marks, a file of the version may have.
fn most_rows(version: u32) -> u32
    ensures value { result ≡ most_edges version }
    ensures within { result ≤ most_pieces }
{
    if version == 1 {
        1_048_576
    } else {
        MOST_PIECES as u32
    }
}

// The header of a file.
pub(crate) fn read_header(cursor: &mut Cursor<'_>) -> Result<Header, IndexFault>
    ensures ok { IfOk result (λ header. IsRead (header_row header) cursor.old cursor.new) }
    ensures err { IfErr result (IsRowStop header_row cursor.old) }
{
    read_magic(cursor)?;
    let version = read_version(cursor)?;
    let (scale, features, corners) = cursor.three_numbers(
        16,
        MOST_FEATURES as u32 + 1,
        MOST_POINTS as u32 + 1,
    )?;
    let most = most_rows(version);
    let (edges, marks) = cursor.two_numbers(most + 1, most + 1)?;
    let covers = cursor.number(edges + 1)?;
    let nodes = cursor.number(24 * edges + 1)?;
    Ok(Header {
        version,
        scale,
        features,
        corners,
        edges,
        marks,
        covers,
        nodes,
    })
}
