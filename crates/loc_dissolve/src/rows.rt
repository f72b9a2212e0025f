// Rows of group numbers in order, each as often as it stands there.

ghost use Rattle.std.specs.Prelude.{◌≡◌, ◌==◌, ◌<◌, All, count_by, length, IfOk, OnOk};
ghost use Rattle.std.specs.List.Sorted.{IsSorted};
ghost use Rattle.std.specs.Ordering.{nat_cmp};
ghost use Rattle.loc_dissolve.specs.Grouping.{AreMembers, IsGroupRow};

use loc_cover::Legend;
use loc_edges::Rows;
use std::alloc::{AllocError, Global};

/// Puts the groups of features into a row in order, in place of what it held.
pub(crate) fn put_groups(
    row: &mut Vec<u32>,
    features: &[u32],
    groups: &[u32],
) -> Result<(), AllocError>
    requires named { All (λ f. f < length groups.now) features.now }
    ensures { OnOk result (IsGroupRow groups.now features.now row.new.items) }
{
    row.clear();
    for feature in features {
        row.push(groups[*feature as usize])?;
    }
    row.sort_unstable();
    Ok(())
}

/// For each cover list the groups of its features.
pub(crate) fn member_rows(
    alloc: Global,
    legend: &Legend,
    groups: &[u32],
) -> Result<Rows<u32>, AllocError>
    requires named { length groups.now ≡ length legend.now.ids }
    ensures { IfOk result (AreMembers groups.now legend.now.lists) }
{
    legend.law();
    let mut rows = Rows::new(alloc);
    let mut row = Vec::new(alloc);
    for n in 0..legend.covers() {
        put_groups(&mut row, legend.cover(n), groups)?;
        rows.push(&row)?;
    }
    Ok(rows)
}

/// How often a group stands in a row in order.
pub(crate) fn occurrences(row: &[u32], group: u32) -> usize
    requires in_order { IsSorted nat_cmp row.now }
    ensures { result ≡ count_by (λ h. h == group) row.now }
{
    row.partition_point(|h| *h <= group) - row.partition_point(|h| *h < group)
}
