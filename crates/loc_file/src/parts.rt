// All parts of a file.

ghost use Rattle.std.specs.Prelude.{ℕ, IfOk, IfErr};
ghost use Rattle.loc_spec_index.specs.IndexFile.{fields, IsShaped};
ghost use Rattle.loc_file.specs.Readings.{IsRead, IsStop};
ghost use Rattle.loc_file.specs.Contents.{content_in};

use crate::corners::read_corners;
use crate::covers::{read_covers, read_numbers};
use crate::cursor::Cursor;
use crate::edges::{EdgeOf, read_edges};
use crate::floors::read_floors;
use crate::header::read_header;
use crate::ids::read_ids;
use crate::marks::read_marks;
use crate::nodes::read_nodes;
use loc_geom::Point;
use loc_spec_index::{IndexFault, NodeRow};
use loc_spec_plane::Mark;
use std::alloc::Global;

// What a file holds, part by part.
#[derive(Drop)]
pub(crate) struct Parts {
    pub(crate) version: u32,
    pub(crate) scale: u32,
    pub(crate) ids: Vec<Vec<u8>>,
    pub(crate) corners: Vec<Point>,
    pub(crate) edges: Vec<EdgeOf>,
    pub(crate) marks: Vec<(u32, Mark)>,
    pub(crate) covers: Vec<Vec<u32>>,
    pub(crate) floors: Vec<Option<u32>>,
    pub(crate) roots: Vec<u32>,
    pub(crate) nodes: Vec<NodeRow>,
}

// All parts of a file.
pub(crate) fn read_parts(alloc: Global, cursor: &mut Cursor<'_>) -> Result<Parts, IndexFault>
    ensures ok { IfOk result (λ parts. IsRead (fields parts.version (content_in parts)) cursor.old cursor.new) }
    ensures shaped { IfOk result (λ parts. IsShaped parts.version (content_in parts)) }
    ensures err { IfErr result (λ f. (v : ℕ) × IsStop (IsShaped v) (fields v) cursor.old f) }
{
    let header = read_header(cursor)?;
    let ids = read_ids(alloc, cursor, header.features)?;
    let corners = read_corners(alloc, cursor, header.corners)?;
    let edges = read_edges(
        alloc,
        cursor,
        header.version,
        header.corners,
        header.covers,
        header.edges,
    )?;
    let marks = read_marks(alloc, cursor, header.edges, header.features, header.marks)?;
    let covers = read_covers(alloc, cursor, header.features, header.covers)?;
    let floors = read_floors(alloc, cursor, header.edges, header.corners)?;
    let (roots, _rise) = read_numbers(alloc, cursor, header.nodes + 1, header.corners)?;
    let nodes = read_nodes(alloc, cursor, header.edges, header.corners, header.nodes)?;
    Ok(Parts {
        version: header.version,
        scale: header.scale,
        ids,
        corners,
        edges,
        marks,
        covers,
        floors,
        roots,
        nodes,
    })
}
