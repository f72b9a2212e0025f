// What is looked for in a list of edges, and which edges stand before it.

ghost use Rattle.std.specs.Prelude.{◌≡◌, ◌<◌, length};
ghost use Rattle.loc_spec_plane.specs.Points.{is_above};
ghost use Rattle.loc_spec_plane.specs.Tables.{corner as corner_of, edge as edge_of};
ghost use Rattle.loc_status.specs.Targets.{IsTarget, is_passed};

use loc_edges::Ranks;
use loc_geom::Side;

/// What is looked for in a list of edges: the place of an edge by the corner where it begins, or by the corner where it ends, or the
/// place of a corner.
#[derive(Clone, Copy)]
pub enum Target {
    Begin(u32),
    End(u32),
    Corner(u32),
}

// Whether a corner is above the line through an edge.
fn has_above(ranks: &Ranks<'_>, edge: u32, corner: u32) -> bool
    requires edge_in_range { edge < length ranks.now.ends }
    requires corner_in_range { corner < length ranks.now.corners }
    ensures { result ≡ is_above (edge_of ranks.now edge) (corner_of ranks.now corner) }
{
    match ranks.side(edge, corner) {
        Side::Below | Side::On => false,
        Side::Above => true,
    }
}

impl Target {
    /// Whether an edge stands before the target, so that a search from the lowest edge on passes it.
    pub fn passes(self, ranks: &Ranks<'_>, edge: u32) -> bool
        requires edge_in_range { edge < length ranks.now.ends }
        requires target_in_range { IsTarget ranks.now self }
        ensures { result ≡ is_passed ranks.now self edge }
    {
        match self {
            Target::Begin(begun) => ranks.begins_above(edge, begun),
            Target::End(ending) => ranks.ends_above(edge, ending),
            Target::Corner(corner) => has_above(ranks, edge, corner),
        }
    }
}
