// The part of the nodes.

ghost use Rattle.std.specs.Prelude.{◌≡◌, ◌==◌, if◌then◌else◌, ◌+◌, ◌<◌, ◌^◌, IfOk, IfErr};
ghost use Rattle.loc_spec_index.specs.IndexFile.{node_fields};
ghost use Rattle.loc_file.specs.Readings.{IsRead, IsRowStop, AreRows, IsRowsStop, alone};

use crate::cursor::Cursor;
use crate::rows::keep;
use loc_spec_index::{IndexFault, NodeRow};
use std::alloc::Global;

// The bound of a field that only a node with a side has.
fn bound_at(side: u8, bound: u32) -> u32
    ensures { result ≡ (if side == 0 then 1 else bound) }
{
    if side == 0 { 1 } else { bound }
}

// A node. Without a side it has neither stamp nor extra.
fn next_node(
    cursor: &mut Cursor<'_>,
    edges: u32,
    corners: u32,
    nodes: u32,
) -> Result<NodeRow, IndexFault>
    requires { nodes < 2 ^ 31 }
    ensures ok { IfOk result (λ node. IsRead (node_fields edges corners nodes node) cursor.old cursor.new) }
    ensures err { IfErr result (IsRowStop (node_fields edges corners nodes) cursor.old) }
{
    let (item, left, right) = cursor.three_numbers(edges, nodes + 1, nodes + 1)?;
    let side = cursor.byte(3)?;
    let (stamp, extra) = cursor.two_numbers(bound_at(side, corners), bound_at(side, nodes + 1))?;
    Ok(NodeRow {
        item,
        left,
        right,
        side,
        stamp,
        extra,
    })
}

// The nodes.
pub(crate) fn read_nodes(
    alloc: Global,
    cursor: &mut Cursor<'_>,
    edges: u32,
    corners: u32,
    count: u32,
) -> Result<Vec<NodeRow>, IndexFault>
    requires { count < 2 ^ 31 }
    ensures ok { IfOk result (λ nodes. AreRows (alone (node_fields edges corners count)) count nodes.items cursor.old cursor.new) }
    ensures err { IfErr result (IsRowsStop (alone (node_fields edges corners count)) count cursor.old) }
{
    let mut nodes = Vec::new(alloc);
    for _row in 0..count {
        let node = next_node(cursor, edges, corners, count)?;
        keep(&mut nodes, node)?;
    }
    Ok(nodes)
}
