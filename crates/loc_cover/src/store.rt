// The distinct lists that were found so far.

ghost use Rattle.std.specs.Prelude.{◌≡◌, ◌≢◌, ℕ, ◌+◌, ◌<◌, ◌≤◌, ◌^◌, ◌++◌, [], ◌∷◌, false, length, get_or, Some, None, IfOk, IfErr, IfSome, OnOk, OnErr};
ghost use Rattle.loc_spec_text.specs.Limits.{most_members};
ghost use Rattle.loc_cover.specs.Stores.{GainsAtMost, IsAt, IsStore, IsPast, is_among, lists_of, short_list};

use crate::LegendFault;
use bumpalo::Bump;
use loc_edges::Rows;
use loc_spec_text::MOST_MEMBERS;
use std::alloc::{AllocError, Global};
use std::collections::BTreeMap;
use std::marker::Model;

// Each list stands once in an arena. The rows have it by its number, and the numbers are in the lexicographic order of their lists. Those of
// lists of at most one feature are noted apart too: that of the empty list, and then that of the list of each feature alone.
#[derive(Drop)]
pub(crate) struct Store<'a> {
    arena: &'a Bump,
    rows: Vec<&'a [u32]>,
    numbers: BTreeMap<&'a [u32], u32>,
    members: usize,
    short: Vec<Option<u32>>,
}

impl<'a> Model for Store<'a> {
    ghost use Rattle.std.specs.Prelude.{map};
    ghost use Rattle.loc_cover.specs.Stores.{AreShort, StoreRows};

    ghost Value = { StoreRows };

    ghost view = { λ s. record {
      rows = map (λ row. row.now) s.rows.items;
      lists = map (λ entry. entry.0.now) s.numbers.entries;
      order = map (λ entry. entry.1) s.numbers.entries;
      members = s.members;
    } };

    ghost invariant = { λ s. AreShort (map (λ row. row.now) s.rows.items) s.short.items };
}

// The place of a list among those of at most one feature, where it is one of them.
fn short_place(list: &[u32]) -> Option<usize>
    ensures within { IfSome result (λ place. place ≤ 2 ^ 32) }
    ensures found { IfSome result (λ place. short_list place ≡ list.now) }
{
    match list.len() {
        0 => Some(0),
        1 => Some(list[0] as usize + 1),
        _ => None,
    }
}

// Notes a number at a place.
fn note_at(numbers: &mut Vec<Option<u32>>, place: usize, number: u32) -> Result<(), AllocError>
    requires within { place ≤ 2 ^ 32 }
    ensures here { OnOk result (get_or numbers.new.items place None ≡ Some number) }
    ensures others { (k : ℕ) → k ≢ place → get_or numbers.new.items k None ≡ get_or numbers.old.items k None }
    ensures err { OnErr result (numbers.new.items ≡ numbers.old.items) }
{
    if place >= numbers.len() {
        numbers.resize(place + 1, None)?;
    }
    numbers[place] = Some(number);
    Ok(())
}

impl<'a> Store<'a> {
    // No lists.
    pub(crate) fn new(alloc: Global, arena: &'a Bump) -> Store<'a>
        ensures stands { IsStore result }
        ensures none { result.rows ≡ [] }
    {
        Store {
            arena,
            rows: Vec::new(alloc),
            numbers: BTreeMap::new(alloc),
            members: 0,
            short: Vec::new(alloc),
        }
    }

    // List n.
    pub(crate) fn row(&self, n: u32) -> &[u32]
        requires { n < length self.now.rows }
        ensures { result.now ≡ get_or self.now.rows n [] }
    {
        self.rows[n as usize]
    }

    // Puts a new list where it belongs, and answers its number.
    fn put(&mut self, list: &[u32]) -> Result<u32, AllocError>
        requires stands { IsStore self.old }
        requires new { is_among list.now self.old.lists ≡ false }
        requires room { self.old.members + length list.now ≤ most_members }
        ensures stands { IfOk result (λ _. IsStore self.new) }
        ensures number { IfOk result (λ n. n ≡ length self.old.rows) }
        ensures rows { IfOk result (λ _. self.new.rows ≡ self.old.rows ++ list.now ∷ []) }
    {
        let number = self.rows.len() as u32;
        let row: &'a [u32] = self.arena.try_alloc_slice_copy(list)?;
        self.rows.push(row)?;
        self.numbers.insert(row, number)?;
        self.members += list.len();
        Ok(number)
    }

    // The number of a list, which is put where it is new, by the order of the lists.
    fn number_by_order(&mut self, list: &[u32]) -> Result<u32, LegendFault>
        requires stands { IsStore self.old }
        ensures stands { IfOk result (λ _. IsStore self.new) }
        ensures within { IfOk result (λ n. n < length self.new.rows) }
        ensures found { IfOk result (λ n. get_or self.new.rows n [] ≡ list.now) }
        ensures kept { IfOk result (λ _. GainsAtMost list.now self.old.rows self.new.rows) }
        ensures refused { IfErr result (IsPast (list.now ∷ lists_of self.old)) }
    {
        if let Some(number) = self.numbers.get(list).copied() {
            return Ok(number);
        }
        if list.len() > MOST_MEMBERS - self.members {
            return Err(LegendFault::ManyCovers);
        }
        Ok(self.put(list)?)
    }

    // The number of a list of at most one feature, where it is noted.
    fn short_number(&self, list: &[u32]) -> Option<u32>
        ensures within { IfSome result (λ n. n < length self.now.rows) }
        ensures found { IfSome result (λ n. get_or self.now.rows n [] ≡ list.now) }
    {
        let place = short_place(list)?;
        if place < self.short.len() {
            self.short[place]
        } else {
            None
        }
    }

    // Notes the number of a list, where it has at most one feature.
    fn note_short(&mut self, list: &[u32], number: u32) -> Result<(), AllocError>
        requires within { number < length self.old.rows }
        requires found { get_or self.old.rows number [] ≡ list.now }
        ensures { self.new ≡ self.old }
    {
        let Some(place) = short_place(list) else {
            return Ok(());
        };
        note_at(&mut self.short, place, number)?;
        Ok(())
    }

    // The number of a list, which is put where it is new.
    pub(crate) fn number_of(&mut self, list: &[u32]) -> Result<u32, LegendFault>
        requires stands { IsStore self.old }
        ensures stands { IfOk result (λ _. IsStore self.new) }
        ensures within { IfOk result (λ n. n < length self.new.rows) }
        ensures found { IfOk result (λ n. get_or self.new.rows n [] ≡ list.now) }
        ensures kept { IfOk result (λ _. GainsAtMost list.now self.old.rows self.new.rows) }
        ensures refused { IfErr result (IsPast (list.now ∷ lists_of self.old)) }
    {
        if let Some(number) = self.short_number(list) {
            return Ok(number);
        }
        let number = self.number_by_order(list)?;
        self.note_short(list, number)?;
        Ok(number)
    }

    // The lists in their order.
    pub(crate) fn lists(&self, alloc: Global) -> Result<Rows<u32>, AllocError>
        requires stands { IsStore self.now }
        ensures { IfOk result (λ lists. lists ≡ lists_of self.now) }
    {
        let mut lists = Rows::new(alloc);
        for list in self.numbers.keys() {
            lists.push(list)?;
        }
        Ok(lists)
    }

    // The numbers of the lists in their order.
    fn order(&self, alloc: Global) -> Result<Vec<u32>, AllocError>
        ensures { IfOk result (λ order. order.items ≡ self.now.order) }
    {
        self.numbers.values().copied().collect(alloc)
    }

    // For each row the place of its list in the order.
    pub(crate) fn places(&self, alloc: Global) -> Result<Vec<u32>, AllocError>
        requires stands { IsStore self.now }
        ensures as_many { IfOk result (λ places. length places.items ≡ length self.now.rows) }
        ensures each { IfOk result (λ places. (n : ℕ) → n < length self.now.rows → IsAt (lists_of self.now) (get_or self.now.rows n []) (get_or places.items n 0)) }
    {
        let order = self.order(alloc)?;
        let mut places = Vec::new(alloc);
        places.resize(self.rows.len(), 0)?;
        for (place, number) in order.iter().enumerate() {
            places[*number as usize] = place as u32;
        }
        Ok(places)
    }
}
