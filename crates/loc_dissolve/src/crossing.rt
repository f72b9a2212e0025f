// What the odd marks of an edge change for the groups, going down across the edge.

ghost use Rattle.std.specs.Prelude.{◌≡◌, ◌==◌, ◌<◌, All, IsTrue, count_by, filter, length, nat_lt, OnOk};
ghost use Rattle.std.specs.List.Sorted.{IsSorted};
ghost use Rattle.std.specs.Ordering.{nat_cmp};
ghost use Rattle.loc_spec_plane.specs.Lists.{is_in, is_rising, IsRisingListOf};
ghost use Rattle.loc_dissolve.specs.Keeping.{IsCrossing, changes as changes_of, odd_features};

use crate::rows::{occurrences, put_groups};
use loc_spec_plane::Mark;
use std::alloc::{AllocError, Global};

/// Of an edge: the features with an odd mark on it, those of them that are in the list above it, the groups of both, and the groups of the first
/// each once.
#[derive(Drop)]
pub(crate) struct Crossing {
    odd: Vec<u32>,
    inside: Vec<u32>,
    odd_groups: Vec<u32>,
    inside_groups: Vec<u32>,
    groups: Vec<u32>,
}

// Puts the features of the odd marks into a row, in place of what it held.
fn put_odd(row: &mut Vec<u32>, marks: &[Mark]) -> Result<(), AllocError>
    ensures { OnOk result (row.new.items ≡ odd_features marks.now) }
{
    row.clear();
    for mark in marks {
        if mark.odd {
            row.push(mark.feature)?;
        }
    }
    Ok(())
}

// Whether a feature is in a list in order.
fn is_listed(list: &[u32], feature: u32) -> bool
    requires { IsTrue (is_rising nat_lt list.now) }
    ensures { result ≡ is_in feature list.now }
{
    match list.binary_search(&feature) {
        Ok(_) => true,
        Err(_) => false,
    }
}

// Puts those features that are in a list in order into a row, in place of what it held.
fn put_listed(row: &mut Vec<u32>, features: &[u32], list: &[u32]) -> Result<(), AllocError>
    requires { IsTrue (is_rising nat_lt list.now) }
    ensures { OnOk result (row.new.items ≡ filter (λ f. is_in f list.now) features.now) }
{
    row.clear();
    for feature in features {
        if is_listed(list, *feature) {
            row.push(*feature)?;
        }
    }
    Ok(())
}

// Puts the numbers of a row in order into another each once, in place of what it held.
fn put_distinct(row: &mut Vec<u32>, numbers: &[u32]) -> Result<(), AllocError>
    requires in_order { IsSorted nat_cmp numbers.now }
    ensures { OnOk result (IsRisingListOf nat_lt (λ n. is_in n numbers.now) row.new.items) }
{
    row.clear();
    row.extend_from_slice(numbers)?;
    row.dedup();
    Ok(())
}

impl Crossing {
    /// Room for the rows of an edge.
    pub(crate) fn new(alloc: Global) -> Crossing {
        Crossing {
            odd: Vec::new(alloc),
            inside: Vec::new(alloc),
            odd_groups: Vec::new(alloc),
            inside_groups: Vec::new(alloc),
            groups: Vec::new(alloc),
        }
    }

    /// Notes an edge by its marks and the list above it.
    pub(crate) fn note(
        &mut self,
        marks: &[Mark],
        above: &[u32],
        groups: &[u32],
    ) -> Result<(), AllocError>
        requires in_order { IsTrue (is_rising nat_lt above.now) }
        requires named { All (λ f. f < length groups.now) (odd_features marks.now) }
        ensures { OnOk result (IsCrossing groups.now above.now marks.now self.new) }
    {
        put_odd(&mut self.odd, marks)?;
        put_listed(&mut self.inside, &self.odd, above)?;
        put_groups(&mut self.odd_groups, &self.odd, groups)?;
        put_groups(&mut self.inside_groups, &self.inside, groups)?;
        put_distinct(&mut self.groups, &self.odd_groups)?;
        Ok(())
    }

    /// The groups with an odd mark on the edge, each once.
    pub(crate) fn groups(&self) -> &[u32]
        ensures { result.now ≡ self.now.groups.items }
    {
        self.groups.as_slice()
    }

    /// Whether a group covers exactly one side of the edge, by the groups of the list above it.
    pub(crate) fn changes(&self, above: &[u32], group: u32) -> bool
        requires in_order { IsSorted nat_cmp above.now }
        requires odd_in_order { IsSorted nat_cmp self.now.odd_groups.items }
        requires inside_in_order { IsSorted nat_cmp self.now.inside_groups.items }
        ensures { result ≡ changes_of (count_by (λ h. h == group) above.now) (count_by (λ h. h == group) self.now.odd_groups.items) (count_by (λ h. h == group) self.now.inside_groups.items) }
    {
        let over = occurrences(above, group);
        let odd = occurrences(&self.odd_groups, group);
        let inside = occurrences(&self.inside_groups, group);
        (over > 0) != (over + odd > inside + inside)
    }
}
