//! The law of legends, as a call that does no work: its contract is the law.

ghost use Rattle.std.specs.Prelude.{◌≡◌, ℕ};
ghost use Rattle.loc_spec_plane.specs.Lists.{is_in};
ghost use Rattle.loc_spec_plane.specs.Tables.{AllEnds, AllEven, NoConflict, touches_by_marks, covers_by_marks};
ghost use Rattle.loc_spec_plane.specs.Places.{IsPlace};
ghost use Rattle.loc_cover.specs.Legends.{FitsTable, IsTrueLegend, covering, touching};

use crate::Legend;
use loc_edges::EdgeTable;
use loc_geom::Point;
use loc_spec_plane::Place;

/// At the place of a point a true legend names the features that touch the point, and those that cover it, by the marks.
pub fn true_answer(legend: &Legend, table: &EdgeTable, p: Point, place: Place)
    requires all_ends { AllEnds table.now }
    requires all_even { AllEven table.now }
    requires apart { NoConflict table.now }
    requires fits { FitsTable table.now legend.now }
    requires is_true { IsTrueLegend table.now legend.now }
    requires place { IsPlace table.now p place }
    ensures touching { (f : ℕ) → is_in f (touching legend.now place) ≡ touches_by_marks table.now f p }
    ensures covering { (f : ℕ) → is_in f (covering legend.now place) ≡ covers_by_marks table.now f p }
{
    table.law();
}
