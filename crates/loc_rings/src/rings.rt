// The rings of a feature, and which polygon each belongs to.

ghost use Rattle.std.specs.Prelude.{◌≡◌, ◌^◌, ◌+◌, ◌<◌, ◌≤◌, [], ◌∷◌, ◌++◌, length, Some, slice_get, IfOk, OnOk, OnErr};
ghost use Rattle.loc_spec_text.specs.Reading.{all_rings};
ghost use Rattle.loc_rings.specs.Values.{IsRing, rings_before, with_ring};

use crate::cut::CutRings;
use loc_geom::Point;
use std::alloc::{AllocError, Global};
use std::marker::Model;

// Most features have one ring, which takes the memory of its points alone.
#[derive(Drop)]
enum Kept {
    // No polygons.
    Empty,
    // One polygon without rings.
    Begun,
    // One polygon with this ring.
    One(Vec<Point>),
    // Any polygons.
    Many(Box<CutRings>),
}

/// Closed rings in the order in which they were added, seen as polygons, each of which is the list of its rings. A ring takes the memory
/// that its points need.
#[derive(Drop)]
pub struct Rings {
    alloc: Global,
    kept: Kept,
}

const _: () = prove!(size_of::<Rings>() <= 32);

impl Model for Rings {
    ghost use Rattle.loc_spec_text.specs.Reading.{Polygons};
    ghost use Rattle.loc_rings.specs.Cases.{polygons_of, IsKept};

    ghost Value = { Polygons };

    ghost view = { λ r. polygons_of r.kept };

    ghost invariant = { λ r. IsKept r.kept };
}

// One polygon without rings.
fn begun(alloc: Global) -> Result<Box<CutRings>, AllocError>
    ensures { IfOk result (λ cut. cut.value ≡ [] ∷ []) }
{
    let mut cut = Box::new(alloc, CutRings::new(alloc))?;
    cut.start_polygon()?;
    Ok(cut)
}

// One polygon with this ring, which is moved there. A refusal leaves it where it was.
fn moved(alloc: Global, ring: &mut Vec<Point>) -> Result<Box<CutRings>, AllocError>
    requires closed { IsRing ring.old.items }
    ensures ok { IfOk result (λ cut. cut.value ≡ (ring.old.items ∷ []) ∷ []) }
    ensures err { OnErr result (ring.new ≡ ring.old) }
{
    let mut cut = begun(alloc)?;
    cut.take(ring)?;
    Ok(cut)
}

impl Rings {
    /// No polygons, and so no rings.
    pub fn new(alloc: Global) -> Rings
        ensures { result ≡ [] }
    {
        Rings {
            alloc,
            kept: Kept::Empty,
        }
    }

    /// Begins a further polygon, which has no rings yet. A refusal leaves all as it was.
    pub fn start_polygon(&mut self) -> Result<(), AllocError>
        requires room { length self.old < 2 ^ 28 }
        ensures ok { OnOk result (self.new ≡ self.old ++ [] ∷ []) }
        ensures err { OnErr result (self.new ≡ self.old) }
    {
        let mut cut = match &mut self.kept {
            Kept::Empty => {
                self.kept = Kept::Begun;
                return Ok(());
            }
            Kept::Begun => begun(self.alloc)?,
            Kept::One(ring) => moved(self.alloc, ring)?,
            Kept::Many(cut) => return cut.start_polygon(),
        };
        let started = cut.start_polygon();
        self.kept = Kept::Many(cut);
        started
    }

    /// Appends a ring to the last polygon. A refusal drops it, and leaves the rings as they were.
    pub fn add(&mut self, mut ring: Vec<Point>) -> Result<(), AllocError>
        requires closed { IsRing ring.items }
        requires room { length (all_rings self.old) < 2 ^ 28 }
        requires started { 0 < length self.old }
        ensures ok { OnOk result (self.new ≡ with_ring self.old ring.items) }
        ensures err { OnErr result (self.new ≡ self.old) }
    {
        ring.shrink_to_fit();
        match &mut self.kept {
            Kept::Empty => unreachable!(),
            Kept::Begun => {
                self.kept = Kept::One(ring);
                Ok(())
            }
            Kept::One(first) => {
                let mut cut = moved(self.alloc, first)?;
                let added = cut.take(&mut ring);
                self.kept = Kept::Many(cut);
                added
            }
            Kept::Many(cut) => cut.take(&mut ring),
        }
    }

    /// How many rings there are.
    pub fn len(&self) -> usize
        ensures value { result ≡ length (all_rings self.now) }
        ensures within { result ≤ 2 ^ 28 }
    {
        match &self.kept {
            Kept::Empty | Kept::Begun => 0,
            Kept::One(_) => 1,
            Kept::Many(cut) => cut.len(),
        }
    }

    /// The points of ring n.
    pub fn ring(&self, n: usize) -> &[Point]
        requires { n < length (all_rings self.now) }
        ensures value { slice_get (all_rings self.now) n ≡ Some result.now }
        ensures closed { IsRing result.now }
    {
        match &self.kept {
            Kept::Empty | Kept::Begun => unreachable!(),
            Kept::One(ring) => ring.as_slice(),
            Kept::Many(cut) => cut.ring(n),
        }
    }

    /// How many polygons there are.
    pub fn polygons(&self) -> u32
        ensures value { result ≡ length self.now }
        ensures within { result ≤ 2 ^ 28 }
    {
        match &self.kept {
            Kept::Empty => 0,
            Kept::Begun | Kept::One(_) => 1,
            Kept::Many(cut) => cut.polygons(),
        }
    }

    /// The number of the first ring of polygon n, and the number after its last ring. A polygon without rings has an empty range.
    pub fn polygon(&self, n: u32) -> (u32, u32)
        requires { n < length self.now }
        ensures first { result.0 ≡ rings_before self.now n }
        ensures past { result.1 ≡ rings_before self.now (n + 1) }
        ensures in_order { result.0 ≤ result.1 }
        ensures within { result.1 ≤ length (all_rings self.now) }
        ensures few { result.1 ≤ 2 ^ 28 }
    {
        match &self.kept {
            Kept::Empty => unreachable!(),
            Kept::Begun => (0, 0),
            Kept::One(_) => (0, 1),
            Kept::Many(cut) => cut.polygon(n),
        }
    }
}
