// What finds the place of a point.

ghost use Rattle.std.specs.Prelude.{◌≡◌, ℕ, ◌+◌, ◌≤◌, Result, IfOk, IsOkAnd};
ghost use Rattle.loc_spec_plane.specs.Points.{Point as PointValue};
ghost use Rattle.loc_spec_plane.specs.Tables.{Table, NoConflict};
ghost use Rattle.loc_spec_plane.specs.Places.{IsPlace};
ghost use Rattle.loc_place.specs.Answers.{Answer, IsInRange};

use loc_edges::Views;
use loc_geom::{Point, Steps};
use loc_spec_plane::Place;
use std::sync::ledger::Ledger;

/// A search that was given up: its path through this version is longer than any that a true index has.
#[derive(Clone, Copy)]
pub struct Deep {
    pub version: u32,
}

/// An index that is asked for the places of points. It sees a table by its views, which count each test.
pub trait Locator {
    /// The tables that it fits: it may be asked with their views.
    ghost fits: { Self → Table → Type 0 };

    /// The tables for which it stands: it finds the places of points in them.
    ghost stands: { Self → Table → Type 0 };

    /// What it finds for a point, in a table that it fits.
    ghost finds: { Self → Table → PointValue → Answer };

    /// How many steps a search in a table takes at most.
    ghost most: { Self → Table → ℕ };

    /// What it finds for a point. Where it stands for the table, that is the place of the point, and never `Deep`. It counts its steps.
    fn locate<L: Ledger>(
        &self,
        views: &Views<'_, L>,
        p: Point,
        steps: &mut Steps<L>,
    ) -> Result<Place, Deep>
        requires { fits self.now views.now }
        ensures found { result ≡ finds self.now views.now p }
        ensures place { stands self.now views.now → IsOkAnd result (IsPlace views.now p) }
        ensures in_range { IfOk result (IsInRange views.now) }
        ensures counted { steps.old ≤ steps.new }
        ensures within { steps.new ≤ steps.old + most self.now views.now };

    /// A locator fits each table for which it stands.
    ghost stands_fits: { (locator : Self) (t : Table) → stands locator t → fits locator t };

    /// No two edges conflict in a table for which it stands.
    ghost stands_apart: { (locator : Self) (t : Table) → stands locator t → NoConflict t };

    /// Where it stands for a table, what it finds is the place of the point.
    ghost stands_finds: { (locator : Self) (t : Table) (p : PointValue) → stands locator t → IsOkAnd (finds locator t p) (IsPlace t p) };
}
