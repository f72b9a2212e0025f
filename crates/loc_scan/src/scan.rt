// The plain locator.

ghost use Rattle.std.specs.Prelude.{◌+◌, Ok, length};
ghost use Rattle.loc_place.specs.Found.{place_at};
ghost use Rattle.loc_place.specs.Planar.{IsPlanar};
ghost use Rattle.loc_place.proofs.FoundPlace.{place_at_is};

use crate::corners::among_corners;
use crate::edges::among_edges;
use loc_edges::Views;
use loc_geom::{Point, Steps};
use loc_place::{Deep, Locator, Place, Standing};
use std::sync::ledger::Ledger;

/// The index that keeps nothing of a table: it looks at the corners and then at the edges, one after another, each at most once. It
/// stands for every table whose rows are in order and of which no two edges conflict.
#[derive(Clone, Copy)]
pub struct Scan;

impl Locator for Scan {
    ghost fits = { λ _ t. IsPlanar t };

    ghost stands = { λ _ t. IsPlanar t };

    ghost finds = { λ _ t p. Ok (place_at t p) };

    ghost most = { λ _ t. length t.corners + length t.ends };

    fn locate<L: Ledger>(
        &self,
        views: &Views<'_, L>,
        p: Point,
        steps: &mut Steps<L>,
    ) -> Result<Place, Deep> {
        match among_corners(views, p, steps) {
            Standing::OnCorner(corner) => Ok(Place::Corner(corner)),
            Standing::Behind(passed) => Ok(among_edges(views, p, passed, steps)),
        }
    }

    ghost stands_fits = { λ _ t planar. planar };

    ghost stands_apart = { λ _ t planar. planar.apart };

    ghost stands_finds = { λ _ t p planar. place_at_is t planar p };
}
