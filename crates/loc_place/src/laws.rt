//! The law of places, as a call that does no work: its contract is the law.

ghost use Rattle.std.specs.Prelude.{◌≡◌};
ghost use Rattle.loc_spec_plane.specs.Tables.{IsTable, NoConflict};
ghost use Rattle.loc_spec_plane.specs.Places.{IsPlace};

use loc_edges::Views;
use loc_geom::Point;
use loc_spec_plane::Place;
use std::sync::ledger::Ledger;

/// A point has one place in a table in which no two edges conflict.
pub fn one_place<L: Ledger>(views: &Views<'_, L>, p: Point, first: Place, second: Place)
    requires in_order { IsTable views.now }
    requires apart { NoConflict views.now }
    requires first_is { IsPlace views.now p first }
    requires second_is { IsPlace views.now p second }
    ensures { first ≡ second }
{}
