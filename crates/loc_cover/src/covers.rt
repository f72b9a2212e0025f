// The list above each edge, from the list above the edge just below it.

ghost use Rattle.std.specs.Prelude.{◌≡◌, ◌≢◌, ℕ, ◌<◌, [], Some, None, length, get_or, map, IfSome, IfOk, IfErr, OnOk};
ghost use Rattle.loc_spec_plane.specs.Places.{IsJustBelow};
ghost use Rattle.loc_spec_plane.specs.Covers.{cover_above, cover_lists, cover_of_floor};
ghost use Rattle.loc_cover.specs.Legends.{IsFew, IsRefused};
ghost use Rattle.loc_cover.specs.Numbered.{AreBelow, IsEven, IsKnownUnder, IsNumbered, IsPath, KeepsKnown};
ghost use Rattle.loc_cover.specs.Stores.{IsAt, IsStore, lists_of};

use crate::LegendFault;
use crate::exchange::exchange_marked;
use crate::store::Store;
use bumpalo::Bump;
use loc_edges::{EdgeTable, Rows};
use std::alloc::{AllocError, Global};

// Lists that are used again for each edge: the way down from it, and the features that cover what lies above it.
#[derive(Drop)]
struct Room {
    path: Vec<u32>,
    list: Vec<u32>,
}

// The number of the list above an edge that may be missing.
fn number_under(numbers: &[Option<u32>], below: Option<u32>) -> Option<u32>
    requires { IfSome below (λ d. d < length numbers.now) }
    ensures none { below ≡ None → result ≡ None }
    ensures some { (d : ℕ) → below ≡ Some d → result ≡ get_or numbers.now d None }
{
    numbers[below? as usize]
}

// The edge just below an edge, where the list above it is not known.
fn unknown_below(below: &[Option<u32>], numbers: &[Option<u32>], edge: u32) -> Option<u32>
    requires in_range { edge < length below.now }
    requires below_in_range { IfSome (get_or below.now edge None) (λ d. d < length numbers.now) }
    ensures some { IfSome result (λ d. get_or below.now edge None ≡ Some d) }
    ensures none { result ≡ None → IsKnownUnder numbers.now (get_or below.now edge None) }
{
    let next = below[edge as usize];
    match number_under(numbers, next) {
        Some(_) => None,
        None => next,
    }
}

// Puts into a path the way down from an edge to the last whose list is not known.
fn path_down(
    path: &mut Vec<u32>,
    table: &EdgeTable,
    below: &[Option<u32>],
    numbers: &[Option<u32>],
    edge: u32,
) -> Result<(), AllocError>
    requires even { IsEven table.now }
    requires below { AreBelow table.now below.now }
    requires as_many { length numbers.now ≡ length table.now.ends }
    requires in_range { edge < length table.now.ends }
    ensures { OnOk result (IsPath table.now below.now numbers.now edge path.new.items) }
{
    table.law();
    path.clear();
    path.push(edge)?;
    let mut last = edge;
    while let Some(next) = unknown_below(below, numbers, last) {
        path.push(next)?;
        last = next;
    }
    Ok(())
}

// The list above an edge that may be missing: without an edge it is empty.
fn list_under<'s>(
    table: &EdgeTable,
    store: &'s Store<'_>,
    numbers: &[Option<u32>],
    below: Option<u32>,
) -> &'s [u32]
    requires numbered { IsNumbered table.now store.now.rows numbers.now }
    requires in_range { IfSome below (λ d. d < length table.now.ends) }
    requires known { IsKnownUnder numbers.now below }
    ensures { result.now ≡ cover_of_floor table.now below }
{
    match number_under(numbers, below) {
        Some(number) => store.row(number),
        None => &[],
    }
}

// Puts into a list the list above an edge, from the list above the edge just below it.
fn list_above(
    list: &mut Vec<u32>,
    table: &EdgeTable,
    store: &Store<'_>,
    numbers: &[Option<u32>],
    below: Option<u32>,
    edge: u32,
) -> Result<(), AllocError>
    requires even { IsEven table.now }
    requires in_range { edge < length table.now.ends }
    requires just_below { IsJustBelow table.now edge below }
    requires numbered { IsNumbered table.now store.now.rows numbers.now }
    requires known { IsKnownUnder numbers.now below }
    ensures { OnOk result (list.new.items ≡ cover_above table.now edge) }
{
    table.law();
    let under = list_under(table, store, numbers, below);
    exchange_marked(list, under, table.marks(edge))
}

// Makes the list above an edge, and notes its number.
fn number_edge(
    list: &mut Vec<u32>,
    table: &EdgeTable,
    store: &mut Store<'_>,
    numbers: &mut Vec<Option<u32>>,
    below: Option<u32>,
    edge: u32,
) -> Result<(), LegendFault>
    requires even { IsEven table.now }
    requires in_range { edge < length table.now.ends }
    requires just_below { IsJustBelow table.now edge below }
    requires stands { IsStore store.old }
    requires numbered { IsNumbered table.now store.old.rows numbers.old.items }
    requires known { IsKnownUnder numbers.old.items below }
    ensures stands { OnOk result (IsStore store.new) }
    ensures numbered { OnOk result (IsNumbered table.now store.new.rows numbers.new.items) }
    ensures known { OnOk result (get_or numbers.new.items edge None ≢ None) }
    ensures kept { OnOk result (KeepsKnown numbers.old.items numbers.new.items) }
    ensures refused { IfErr result (IsRefused table.now) }
{
    list_above(list, table, store, numbers, below, edge)?;
    let number = store.number_of(list.as_slice())?;
    numbers[edge as usize] = Some(number);
    Ok(())
}

// Makes the list above an edge, after those above the edges on the way down from it.
fn number_down(
    room: &mut Room,
    table: &EdgeTable,
    store: &mut Store<'_>,
    numbers: &mut Vec<Option<u32>>,
    below: &[Option<u32>],
    edge: u32,
) -> Result<(), LegendFault>
    requires even { IsEven table.now }
    requires in_range { edge < length table.now.ends }
    requires below { AreBelow table.now below.now }
    requires stands { IsStore store.old }
    requires numbered { IsNumbered table.now store.old.rows numbers.old.items }
    ensures stands { OnOk result (IsStore store.new) }
    ensures numbered { OnOk result (IsNumbered table.now store.new.rows numbers.new.items) }
    ensures known { OnOk result (get_or numbers.new.items edge None ≢ None) }
    ensures kept { OnOk result (KeepsKnown numbers.old.items numbers.new.items) }
    ensures refused { IfErr result (IsRefused table.now) }
{
    path_down(&mut room.path, table, below, numbers, edge)?;
    while let Some(next) = room.path.pop() {
        number_edge(
            &mut room.list,
            table,
            store,
            numbers,
            below[next as usize],
            next,
        )?;
    }
    Ok(())
}

// Makes the lists above all edges.
fn number_all<'a>(
    alloc: Global,
    arena: &'a Bump,
    table: &EdgeTable,
    below: &[Option<u32>],
) -> Result<(Store<'a>, Vec<Option<u32>>), LegendFault>
    requires even { IsEven table.now }
    requires below { AreBelow table.now below.now }
    ensures stands { IfOk result (λ made. IsStore made.0) }
    ensures numbered { IfOk result (λ made. IsNumbered table.now made.0.rows made.1.items) }
    ensures known { IfOk result (λ made. (e : ℕ) → e < length table.now.ends → get_or made.1.items e None ≢ None) }
    ensures refused { IfErr result (IsRefused table.now) }
{
    table.law();
    let mut numbers = Vec::new(alloc);
    numbers.resize(table.edge_count() as usize, None)?;
    let mut store = Store::new(alloc, arena);
    let mut room = Room {
        path: Vec::new(alloc),
        list: Vec::new(alloc),
    };
    for edge in 0..table.edge_count() {
        if numbers[edge as usize].is_none() {
            let made = number_down(&mut room, table, &mut store, &mut numbers, below, edge);
            if let Err(fault) = made {
                drop(room);
                drop(store);
                return Err(fault);
            }
        }
    }
    drop(room);
    Ok((store, numbers))
}

// For each edge the place of the list of its number.
fn above_of(alloc: Global, numbers: &[Option<u32>], places: &[u32]) -> Result<Vec<u32>, AllocError>
    requires in_range { (e n : ℕ) → get_or numbers.now e None ≡ Some n → n < length places.now }
    ensures as_many { IfOk result (λ above. length above.items ≡ length numbers.now) }
    ensures each { IfOk result (λ above. (e n : ℕ) → get_or numbers.now e None ≡ Some n → get_or above.items e 0 ≡ get_or places.now n 0) }
{
    let mut above = Vec::with_capacity(alloc, numbers.len())?;
    for number in numbers {
        above.push(match number {
            Some(n) => places[*n as usize],
            None => 0,
        })?;
    }
    Ok(above)
}

// The lists of a store in their order, and for each edge the place of the list of its number.
fn distinct_rows(
    alloc: Global,
    store: &Store<'_>,
    numbers: &[Option<u32>],
) -> Result<(Rows<u32>, Vec<u32>), AllocError>
    requires stands { IsStore store.now }
    requires in_range { (e n : ℕ) → get_or numbers.now e None ≡ Some n → n < length store.now.rows }
    ensures lists { IfOk result (λ made. made.0 ≡ lists_of store.now) }
    ensures as_many { IfOk result (λ made. length made.1.items ≡ length numbers.now) }
    ensures above { IfOk result (λ made. (e n : ℕ) → get_or numbers.now e None ≡ Some n → IsAt (lists_of store.now) (get_or store.now.rows n []) (get_or made.1.items e 0)) }
{
    let lists = store.lists(alloc)?;
    let places = store.places(alloc)?;
    let above = above_of(alloc, numbers, &places)?;
    Ok((lists, above))
}

// The distinct lists in lexicographic order, and for each edge the place of the list above it.
pub(crate) fn cover_rows(
    alloc: Global,
    table: &EdgeTable,
    below: &[Option<u32>],
) -> Result<(Rows<u32>, Vec<u32>), LegendFault>
    requires even { IsEven table.now }
    requires below { AreBelow table.now below.now }
    ensures lists { IfOk result (λ made. made.0 ≡ cover_lists table.now) }
    ensures as_many { IfOk result (λ made. length made.1.items ≡ length table.now.ends) }
    ensures above { IfOk result (λ made. (e : ℕ) → e < length table.now.ends → IsAt (cover_lists table.now) (cover_above table.now e) (get_or made.1.items e 0)) }
    ensures few { IfOk result (λ _. IsFew table.now) }
    ensures refused { IfErr result (IsRefused table.now) }
{
    let arena = Bump::new(alloc);
    let (store, numbers) = number_all(alloc, &arena, table, below)?;
    let made = distinct_rows(alloc, &store, &numbers);
    drop(store);
    match made {
        Ok(rows) => Ok(rows),
        Err(_) => Err(LegendFault::NoMemory),
    }
}
