// Cover lists that are not those above their edges.

ghost use Rattle.std.specs.Prelude.{ℕ, ◌≡◌, ◌<◌, ◌≤◌, ◌↔◌, true, length, nat_lt, slice_index, IsTrue, IfSome, IfOk, OnOk};
ghost use Rattle.loc_spec_plane.specs.Lists.{IsRisingListOf, exactly_one, is_in, is_rising};
ghost use Rattle.loc_spec_plane.specs.Tables.{lo_of, mark_before};
ghost use Rattle.loc_spec_plane.specs.Places.{IsJustBelow, IsVersion};
ghost use Rattle.loc_spec_plane.specs.Covers.{cover_above, cover_of_floor};
ghost use Rattle.loc_cover.specs.Exchanges.{IsExchange, is_marked_odd};
ghost use Rattle.loc_cover.specs.Legends.{list_above, list_over};
ghost use Rattle.loc_cover.specs.Numbered.{AreBelow, IsEven};
ghost use Rattle.loc_verify.specs.Following.{IsNext};
ghost use Rattle.loc_verify.specs.Least.{AreCoversBefore, IsLeastFailing, IsLeastFrom, IsLeastWith};

use crate::line::go_to;
use loc_cover::Legend;
use loc_edges::EdgeTable;
use loc_spec_plane::Mark;
use loc_status::VecStatus;
use std::alloc::{AllocError, Global};

// The place of the first feature in a list in order that is not below this one.
fn first_from(list: &[u32], feature: u32) -> usize
    requires { IsTrue (is_rising nat_lt list.now) }
    ensures within { result ≤ length list.now }
    ensures before { (k : ℕ) → k < result → slice_index list.now k < feature }
    ensures from { (k : ℕ) → result ≤ k → k < length list.now → feature ≤ slice_index list.now k }
{
    list.partition_point(|other| *other < feature)
}

// Exchanges a feature in a list in order: it goes where it was a member, and comes where it was not.
fn exchange(list: &mut Vec<u32>, feature: u32) -> Result<(), AllocError>
    requires { IsTrue (is_rising nat_lt list.old.items) }
    ensures { OnOk result (IsExchange feature list.old.items list.new.items) }
{
    let place = first_from(list, feature);
    if place < list.len() && list[place] == feature {
        list.remove(place);
    } else {
        list.insert(place, feature)?;
    }
    Ok(())
}

// Exchanges the features that are marked odd.
fn exchange_odd(list: &mut Vec<u32>, marks: &[Mark]) -> Result<(), AllocError>
    requires in_order { IsTrue (is_rising nat_lt list.old.items) }
    requires marks_in_order { IsTrue (is_rising mark_before marks.now) }
    ensures { OnOk result (IsRisingListOf nat_lt (λ f. exactly_one (is_marked_odd marks.now f) (is_in f list.old.items)) list.new.items) }
{
    for mark in marks {
        if mark.odd {
            exchange(list, mark.feature)?;
        }
    }
    Ok(())
}

// Puts the list above an edge that may be missing into `covers`, as the legend has it.
fn put_over(legend: &Legend, below: Option<u32>, covers: &mut Vec<u32>) -> Result<(), AllocError>
    requires in_range { IfSome below (λ d. d < length legend.now.above) }
    ensures { OnOk result (covers.new.items ≡ list_over legend.now below) }
{
    covers.clear();
    if let Some(edge) = below {
        covers.extend_from_slice(legend.above(edge))?;
    }
    Ok(())
}

// Whether two lists are the same.
fn is_same(a: &[u32], b: &[u32]) -> bool
    ensures { result ≡ true → a.now ≡ b.now }
{
    a == b
}

// Whether the list of an edge follows from the list of the edge just below it.
fn is_next(
    table: &EdgeTable,
    legend: &Legend,
    below: Option<u32>,
    edge: u32,
    covers: &mut Vec<u32>,
) -> Result<bool, AllocError>
    requires as_many { length legend.now.above ≡ length table.now.ends }
    requires in_range { edge < length table.now.ends }
    requires just_below { IsJustBelow table.now edge below }
    ensures { IfOk result (λ follows. follows ≡ true → IsNext table.now legend.now below edge) }
{
    table.law();
    legend.law();
    put_over(legend, below, covers)?;
    exchange_odd(covers, table.marks(edge))?;
    Ok(is_same(legend.above(edge), covers.as_slice()))
}

// Whether the list of each edge follows from that of the edge just below it. Then all lists are those above their edges.
fn all_follow(
    alloc: Global,
    table: &EdgeTable,
    legend: &Legend,
    below: &[Option<u32>],
) -> Result<bool, AllocError>
    requires even { IsEven table.now }
    requires as_many { length legend.now.above ≡ length table.now.ends }
    requires below { AreBelow table.now below.now }
    ensures { IfOk result (λ follow. follow ≡ true → (e : ℕ) → e < length table.now.ends → list_above legend.now e ≡ cover_above table.now e) }
{
    table.law();
    let mut covers = Vec::new(alloc);
    for edge in 0..table.edge_count() {
        if !is_next(table, legend, below[edge as usize], edge, &mut covers)? {
            return Ok(false);
        }
    }
    Ok(true)
}

// Puts the list above an edge that may be missing into `covers`. Where the edge begins at the corner it is there already; where it begins
// before the corner, the legend has it.
fn put_under(
    table: &EdgeTable,
    legend: &Legend,
    corner: u32,
    below: Option<u32>,
    covers: &mut Vec<u32>,
) -> Result<(), AllocError>
    requires as_many { length legend.now.above ≡ length table.now.ends }
    requires in_range { IfSome below (λ d. d < length table.now.ends) }
    requires begun { IfSome below (λ d. lo_of table.now d ≤ corner) }
    requires earlier { AreCoversBefore table.now legend.now corner }
    requires there { IfSome below (λ d. lo_of table.now d ≡ corner → covers.old.items ≡ cover_above table.now d) }
    ensures { OnOk result (covers.new.items ≡ cover_of_floor table.now below) }
{
    let Some(edge) = below else {
        covers.clear();
        return Ok(());
    };
    if table.ends(edge).0 < corner {
        covers.clear();
        covers.extend_from_slice(legend.above(edge))?;
    }
    Ok(())
}

// Puts the list above an edge that begins at the corner into `covers`, from the list above the edge just below it.
fn put_above(
    table: &EdgeTable,
    legend: &Legend,
    below: Option<u32>,
    edge: u32,
    covers: &mut Vec<u32>,
) -> Result<(), AllocError>
    requires even { IsEven table.now }
    requires as_many { length legend.now.above ≡ length table.now.ends }
    requires in_range { edge < length table.now.ends }
    requires just_below { IsJustBelow table.now edge below }
    requires earlier { AreCoversBefore table.now legend.now (lo_of table.now edge) }
    requires there { IfSome below (λ d. lo_of table.now d ≡ lo_of table.now edge → covers.old.items ≡ cover_above table.now d) }
    ensures { OnOk result (covers.new.items ≡ cover_above table.now edge) }
{
    table.law();
    put_under(table, legend, table.ends(edge).0, below, covers)?;
    exchange_odd(covers, table.marks(edge))
}

// The least edge so far whose list is not the one above it, with one edge more.
fn with_edge(least: Option<u32>, edge: u32, named: &[u32], covers: &[u32]) -> Option<u32>
    ensures { IsLeastWith (named.now ≡ covers.now) least edge result }
{
    if named == covers {
        return least;
    }
    match least {
        Some(other) if other < edge => least,
        _ => Some(edge),
    }
}

// Whether a number is from the first on and before the other.
fn is_between(first: u32, number: u32, past: u32) -> bool
    ensures { IsTrue result ↔ ((first ≤ number) × (number < past)) }
{
    first <= number && number < past
}

// The least of the edges that begin at a corner whose list is not the one above it. The list of the corner is gone through from below.
fn least_wrong_at(
    table: &EdgeTable,
    legend: &Legend,
    corner: u32,
    list: &[u32],
    covers: &mut Vec<u32>,
) -> Result<Option<u32>, AllocError>
    requires even { IsEven table.now }
    requires as_many { length legend.now.above ≡ length table.now.ends }
    requires in_range { corner < length table.now.corners }
    requires list { IsVersion table.now corner list.now }
    requires earlier { AreCoversBefore table.now legend.now corner }
    ensures { IfOk result (IsLeastFrom table.now corner (λ e. list_above legend.now e ≡ cover_above table.now e)) }
{
    table.law();
    let (first, past) = table.beginning(corner);
    if first == past {
        return Ok(None);
    }
    let mut least = None;
    let mut below = None;
    for edge in list {
        if is_between(first, *edge, past) {
            put_above(table, legend, below, *edge, covers)?;
            least = with_edge(least, *edge, legend.above(*edge), covers.as_slice());
        }
        below = Some(*edge);
    }
    Ok(least)
}

// The least edge whose list is not the one above it, found by a sweep.
fn least_by_sweep(
    alloc: Global,
    table: &EdgeTable,
    legend: &Legend,
) -> Result<Option<u32>, AllocError>
    requires even { IsEven table.now }
    requires as_many { length legend.now.above ≡ length table.now.ends }
    ensures { IfOk result (IsLeastFailing (length table.now.ends) (λ e. list_above legend.now e ≡ cover_above table.now e)) }
{
    table.law();
    let mut status = VecStatus::new(alloc);
    let mut covers = Vec::new(alloc);
    for corner in 0..table.corner_count() {
        go_to(table, &mut status, corner)?;
        let least = least_wrong_at(table, legend, corner, status.list(), &mut covers)?;
        if least.is_some() {
            return Ok(least);
        }
    }
    Ok(None)
}

// The least edge whose list is not the one above it. A sweep looks for it only where a list does not follow from the one just below it.
pub(crate) fn least_wrong_cover(
    alloc: Global,
    table: &EdgeTable,
    legend: &Legend,
    below: &[Option<u32>],
) -> Result<Option<u32>, AllocError>
    requires even { IsEven table.now }
    requires as_many { length legend.now.above ≡ length table.now.ends }
    requires below { AreBelow table.now below.now }
    ensures { IfOk result (IsLeastFailing (length table.now.ends) (λ e. list_above legend.now e ≡ cover_above table.now e)) }
{
    if all_follow(alloc, table, legend, below)? {
        return Ok(None);
    }
    least_by_sweep(alloc, table, legend)
}
