// The kept edges of all groups, in one pass over the edges.

ghost use Rattle.std.specs.Prelude.{◌≡◌, ◌<◌, ◌≤◌, ℕ, All, IsTrue, map, length, nat_lt, IfOk, OnOk};
ghost use Rattle.std.specs.List.Sorted.{IsSorted};
ghost use Rattle.std.specs.Ordering.{nat_cmp};
ghost use Rattle.loc_spec_plane.specs.Lists.{is_rising, numbers};
ghost use Rattle.loc_spec_plane.specs.Covers.{feature_count};
ghost use Rattle.loc_spec_groups.specs.Groups.{kept_edges};
ghost use Rattle.loc_cover.specs.Legends.{FitsTable, IsTrueLegend};
ghost use Rattle.loc_dissolve.specs.Grouping.{AreMembers, in_group};
ghost use Rattle.loc_dissolve.specs.Keeping.{AreKeptTo, GainsKept, keeps};

use crate::crossing::Crossing;
use loc_cover::Legend;
use loc_edges::{EdgeTable, Rows};
use std::alloc::{AllocError, Global};

// Puts an edge behind each group that keeps it.
fn put_keepers(
    kept: &mut Vec<(u32, u32)>,
    crossing: &Crossing,
    above: &[u32],
    edge: u32,
) -> Result<(), AllocError>
    requires in_order { IsSorted nat_cmp above.now }
    requires odd_in_order { IsSorted nat_cmp crossing.now.odd_groups.items }
    requires inside_in_order { IsSorted nat_cmp crossing.now.inside_groups.items }
    requires distinct { IsTrue (is_rising nat_lt crossing.now.groups.items) }
    ensures gained { OnOk result (GainsKept (keeps crossing.now above.now) edge kept.old.items kept.new.items) }
    ensures within { OnOk result ((count : ℕ) → All (λ pair. pair.0 < count) kept.old.items → All (λ g. g < count) crossing.now.groups.items → All (λ pair. pair.0 < count) kept.new.items) }
{
    for group in crossing.groups() {
        if crossing.changes(above, *group) {
            kept.push((*group, edge))?;
        }
    }
    Ok(())
}

// The edges that each group keeps, each behind the number of the group.
fn kept_pairs(
    alloc: Global,
    table: &EdgeTable,
    legend: &Legend,
    groups: &[u32],
    members: &Rows<u32>,
    count: u32,
) -> Result<Vec<(u32, u32)>, AllocError>
    requires features { feature_count table.now ≤ length groups.now }
    requires groups { All (λ g. g < count) groups.now }
    requires is_true { IsTrueLegend table.now legend.now }
    requires fits { FitsTable table.now legend.now }
    requires members { AreMembers groups.now legend.now.lists members.now }
    ensures { IfOk result (λ pairs. AreKeptTo table.now groups.now count (length table.now.ends) pairs.items) }
{
    table.law();
    legend.law();
    let mut kept = Vec::new(alloc);
    let mut crossing = Crossing::new(alloc);
    for edge in 0..table.edge_count() {
        let above = members.row(legend.cover_of(edge) as usize);
        crossing.note(table.marks(edge), legend.above(edge), groups)?;
        put_keepers(&mut kept, &crossing, above, edge)?;
    }
    Ok(kept)
}

/// For each group the edges that it keeps.
pub(crate) fn kept_rows(
    alloc: Global,
    table: &EdgeTable,
    legend: &Legend,
    groups: &[u32],
    members: &Rows<u32>,
    count: u32,
) -> Result<Rows<u32>, AllocError>
    requires features { feature_count table.now ≤ length groups.now }
    requires groups { All (λ g. g < count) groups.now }
    requires is_true { IsTrueLegend table.now legend.now }
    requires fits { FitsTable table.now legend.now }
    requires members { AreMembers groups.now legend.now.lists members.now }
    ensures { IfOk result (λ rows. rows ≡ map (λ g. kept_edges table.now (in_group groups.now g)) (numbers count)) }
{
    let mut kept = kept_pairs(alloc, table, legend, groups, members, count)?;
    kept.sort_by_key(|pair| pair.0)?;
    Rows::by_key(alloc, &kept, count as usize)
}
