// The part of the cover lists.

ghost use Rattle.std.specs.Prelude.{◌≡◌, ◌&&◌, ◌+◌, ◌-◌, ◌≤◌, min, IfOk, IfErr, nat_lt, None, map, length};
ghost use Rattle.std.specs.List.{last_or};
ghost use Rattle.std.specs.Int.{w32};
ghost use Rattle.loc_spec_text.specs.Limits.{most_features, most_members};
ghost use Rattle.loc_spec_plane.specs.Lists.{is_rising};
ghost use Rattle.loc_spec_plane.specs.Covers.{list_before};
ghost use Rattle.loc_spec_index.specs.IndexFile.{follows, cover_fields, cover_row, number};
ghost use Rattle.loc_file.specs.Readings.{IsRead, IsRowStop, AreRows, IsRowsStop, alone, one};

use crate::cursor::Cursor;
use crate::rows::keep;
use loc_spec_index::{IndexFault, Part};
use loc_spec_text::MOST_MEMBERS;
use std::alloc::Global;

// So many numbers below a bound, as the members of a list or the roots, and whether they rise.
pub(crate) fn read_numbers(
    alloc: Global,
    cursor: &mut Cursor<'_>,
    bound: u32,
    count: u32,
) -> Result<(Vec<u32>, bool), IndexFault>
    ensures ok { IfOk result (λ found. AreRows (alone (one (number w32 bound))) count found.0.items cursor.old cursor.new) }
    ensures rising { IfOk result (λ found. found.1 ≡ is_rising nat_lt found.0.items) }
    ensures err { IfErr result (IsRowsStop (alone (one (number w32 bound))) count cursor.old) }
{
    let mut numbers = Vec::new(alloc);
    let mut last = None;
    let mut rises = true;
    for _row in 0..count {
        let number = cursor.number(bound)?;
        rises = is_still(rises, last, number);
        keep(&mut numbers, number)?;
        last = Some(number);
    }
    Ok((numbers, rises))
}

// Whether a member is above the one before it, if there is one.
fn is_above(last: Option<u32>, member: u32) -> bool
    ensures { result ≡ follows nat_lt last member }
{
    match last {
        None => true,
        Some(other) => other < member,
    }
}

// Whether a list still rises with one member more.
fn is_still(rises: bool, last: Option<u32>, member: u32) -> bool
    ensures { result ≡ (rises && follows nat_lt last member) }
{
    rises && is_above(last, member)
}

// Whether a list comes behind the last of the others, if there is one.
fn follows(others: &[Vec<u32>], list: &[u32]) -> bool
    ensures { result ≡ follows list_before (last_or None (map (λ other. other.items) others.now)) list.now }
{
    match others.last() {
        None => true,
        Some(other) => other.as_slice().cmp(list).is_lt(),
    }
}

// Whether a list that rises or not is in order behind the others.
fn is_in_order(rises: bool, others: &[Vec<u32>], list: &[u32]) -> bool
    ensures { result ≡ (rises && follows list_before (last_or None (map (λ other. other.items) others.now)) list.now) }
{
    rises && follows(others, list)
}

// The bound of the length of a list behind so many members.
fn bound_of(features: u32, members: u32) -> u32
    requires features { features ≤ most_features }
    requires members { members ≤ most_members }
    ensures { result ≡ min features (most_members - members) + 1 }
{
    features.min(MOST_MEMBERS as u32 - members) + 1
}

// A list behind others.
fn next_cover(
    alloc: Global,
    cursor: &mut Cursor<'_>,
    features: u32,
    members: u32,
    row: u32,
    others: &[Vec<u32>],
) -> Result<Vec<u32>, IndexFault>
    requires features { features ≤ most_features }
    requires members { members ≤ most_members }
    ensures ok { IfOk result (λ list. IsRead (cover_row features members row (last_or None (map (λ other. other.items) others.now)) list.items) cursor.old cursor.new) }
    ensures few { IfOk result (λ list. members + length list.items ≤ most_members) }
    ensures err { IfErr result (IsRowStop (cover_row features members row (last_or None (map (λ other. other.items) others.now))) cursor.old) }
{
    let count = cursor.number(bound_of(features, members))?;
    let (list, rises) = read_numbers(alloc, cursor, features, count)?;
    let holds = is_in_order(rises, others, list.as_slice());
    cursor.in_order(holds, Part::Covers, row)?;
    Ok(list)
}

// The lists, which rise, and the members of each.
pub(crate) fn read_covers(
    alloc: Global,
    cursor: &mut Cursor<'_>,
    features: u32,
    count: u32,
) -> Result<Vec<Vec<u32>>, IndexFault>
    requires { features ≤ most_features }
    ensures ok { IfOk result (λ lists. AreRows (cover_fields features) count (map (λ list. list.items) lists.items) cursor.old cursor.new) }
    ensures err { IfErr result (IsRowsStop (cover_fields features) count cursor.old) }
{
    let mut lists = Vec::new(alloc);
    let mut members = 0;
    for row in 0..count {
        let list = next_cover(alloc, cursor, features, members, row, lists.as_slice())?;
        members += list.len() as u32;
        keep(&mut lists, list)?;
    }
    Ok(lists)
}
