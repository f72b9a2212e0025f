// Rings one after another, cut into polygons.

ghost use Rattle.std.specs.Prelude.{◌≡◌, ◌^◌, ◌+◌, ◌<◌, ◌≤◌, [], ◌∷◌, ◌++◌, length, Some, slice_get, OnOk, OnErr};
ghost use Rattle.loc_spec_text.specs.Reading.{all_rings};
ghost use Rattle.loc_rings.specs.Values.{IsRing, rings_before, with_ring};

use loc_geom::Point;
use std::alloc::{AllocError, Global};
use std::marker::Model;
use std::mem;

// The rings of any polygons, each of which is the list of its rings.
#[derive(Drop)]
pub(crate) struct CutRings {
    alloc: Global,
    rings: Vec<Vec<Point>>,
    // For each polygon the number of its first ring.
    starts: Vec<u32>,
}

impl Model for CutRings {
    ghost use Rattle.std.specs.Prelude.{map};
    ghost use Rattle.loc_spec_text.specs.Reading.{Polygons};
    ghost use Rattle.loc_rings.specs.Kept.{AreKept};
    ghost use Rattle.loc_rings.specs.Values.{cut_into};

    ghost Value = { Polygons };

    ghost view = { λ r. cut_into r.starts.items (map (λ ring. ring.items) r.rings.items) };

    ghost invariant = { λ r. AreKept r.starts.items (map (λ ring. ring.items) r.rings.items) };
}

impl CutRings {
    // No polygons, and so no rings.
    pub(crate) fn new(alloc: Global) -> CutRings
        ensures { result ≡ [] }
    {
        CutRings {
            alloc,
            rings: Vec::new(alloc),
            starts: Vec::new(alloc),
        }
    }

    // Begins a further polygon, which has no rings yet. A refusal leaves all as it was.
    pub(crate) fn start_polygon(&mut self) -> Result<(), AllocError>
        requires room { length self.old < 2 ^ 28 }
        ensures ok { OnOk result (self.new ≡ self.old ++ [] ∷ []) }
        ensures err { OnErr result (self.new ≡ self.old) }
    {
        let start = self.rings.len() as u32;
        self.starts.push(start)?;
        Ok(())
    }

    // Moves a ring behind those of the last polygon. A refusal leaves it where it was, and the rings as they were.
    pub(crate) fn take(&mut self, ring: &mut Vec<Point>) -> Result<(), AllocError>
        requires closed { IsRing ring.old.items }
        requires room { length (all_rings self.old) < 2 ^ 28 }
        requires started { 0 < length self.old }
        ensures ok { OnOk result (self.new ≡ with_ring self.old ring.old.items) }
        ensures err { OnErr result (self.new ≡ self.old) }
        ensures kept { OnErr result (ring.new ≡ ring.old) }
    {
        self.rings.reserve(1)?;
        self.rings
            .push_reserved(mem::replace(ring, Vec::new(self.alloc)));
        Ok(())
    }

    // How many rings there are.
    pub(crate) fn len(&self) -> usize
        ensures value { result ≡ length (all_rings self.now) }
        ensures within { result ≤ 2 ^ 28 }
    {
        self.rings.len()
    }

    // The points of ring n.
    pub(crate) fn ring(&self, n: usize) -> &[Point]
        requires { n < length (all_rings self.now) }
        ensures value { slice_get (all_rings self.now) n ≡ Some result.now }
        ensures closed { IsRing result.now }
    {
        self.rings[n].as_slice()
    }

    // How many polygons there are.
    pub(crate) fn polygons(&self) -> u32
        ensures value { result ≡ length self.now }
        ensures within { result ≤ 2 ^ 28 }
    {
        self.starts.len() as u32
    }

    // The number of the first ring of polygon n, and the number after its last ring. A polygon without rings has an empty range.
    pub(crate) fn polygon(&self, n: u32) -> (u32, u32)
        requires { n < length self.now }
        ensures first { result.0 ≡ rings_before self.now n }
        ensures past { result.1 ≡ rings_before self.now (n + 1) }
        ensures in_order { result.0 ≤ result.1 }
        ensures within { result.1 ≤ length (all_rings self.now) }
        ensures few { result.1 ≤ 2 ^ 28 }
    {
        let first = self.starts[n as usize];
        match self.starts.get(n as usize + 1) {
            Some(past) => (first, *past),
            None => (first, self.rings.len() as u32),
        }
    }
}
