// The faces of a table, for callers.

ghost use Rattle.std.specs.Prelude.{◌≡◌, ◌-◌, ◌*◌, ◌<◌, ◌≤◌, ◌∷◌, [], Some, get_or, length, slice_get, slice_index, IfOk, IfSome};
ghost use Rattle.loc_spec_plane.specs.Faces.{face_above};
ghost use Rattle.loc_edges.specs.Floors.{AreFloors};
ghost use Rattle.loc_half.specs.HalfEdgeLists.{AreHalfEdges, next_in};
ghost use Rattle.loc_faces.specs.FaceLists.{AreFaces, face_in};

use crate::cycles::{hanging_cycles, least_corners, number_outer};
use crate::nesting::{face_of_each, hanging_rows, number_hanging};
use loc_batch::FaceNumbers;
use loc_edges::{EdgeTable, Floors, Rows, Views};
use loc_half::HalfEdges;
use std::alloc::{AllocError, Global};
use std::marker::Model;
use std::sync::ledger::Ledger;

/// The faces of a table: each is numbered, and each half-edge belongs to one.
#[derive(Drop)]
pub struct Faces {
    count: u32,
    of_half: Vec<u32>,
    outers: Vec<u32>,
    inner: Rows<u32>,
}

impl Model for Faces {
    ghost use Rattle.loc_faces.specs.FaceLists.{FaceLists};

    ghost Value = { FaceLists };

    ghost view = { λ f. record { count = f.count; of_half = f.of_half.items; outers = f.outers.items; inner = f.inner } };
}

impl Faces {
    /// The faces of a table. All but the order of the hanging cycles by their faces takes time in the order of the half-edges.
    pub fn make(
        alloc: Global,
        table: &EdgeTable,
        half: &HalfEdges,
        floors: &Floors,
    ) -> Result<Faces, AllocError>
        requires half { AreHalfEdges table.now half.now }
        requires floors { AreFloors table.now floors.now }
        ensures { IfOk result (AreFaces table.now (next_in half.now)) }
    {
        table.law();
        let least = least_corners(alloc, table, half)?;
        let hanging = hanging_cycles(alloc, table, half, &least)?;
        let (outers, of_cycle) = number_outer(alloc, table, half, &hanging)?;
        let of_cycle = number_hanging(of_cycle, table, half, floors, &least, &hanging);
        let of_half = face_of_each(alloc, table, half, &of_cycle)?;
        let count = outers.len() as u32 + 1;
        let inner = hanging_rows(alloc, table, half, &hanging, &of_half, count)?;
        Ok(Faces {
            count,
            of_half,
            outers,
            inner,
        })
    }

    /// How many faces there are, face 0 among them.
    pub fn count(&self) -> u32
        ensures { result ≡ self.now.count }
    {
        self.count
    }

    /// The face of a half-edge.
    pub fn face_of(&self, h: u32) -> u32
        requires { h < length self.now.of_half }
        ensures { result ≡ face_in self.now h }
    {
        self.of_half[h as usize]
    }

    /// The face above a floor: that of the half-edge up the floor, or face 0 without one.
    pub fn above(&self, floor: Option<u32>) -> u32
        requires { IfSome floor (λ e. 2 * e < length self.now.of_half) }
        ensures { result ≡ face_above (face_in self.now) floor }
    {
        match floor {
            Some(edge) => self.of_half[2 * edge as usize],
            None => 0,
        }
    }

    /// The leader of the outer cycle of a face: face 0 has none.
    pub fn outer(&self, number: u32) -> &[u32]
        requires in_range { number ≤ length self.now.outers }
        ensures none { number ≡ 0 → result.now ≡ [] }
        ensures one { 0 < number → result.now ≡ slice_index self.now.outers (number - 1) ∷ [] }
    {
        if number == 0 {
            return &[];
        }
        let place = number as usize - 1;
        &self.outers[place..place + 1]
    }

    /// The leaders of the cycles that hang in a face.
    pub fn inner(&self, number: u32) -> &[u32]
        requires in_range { number < length self.now.inner }
        ensures { slice_get self.now.inner number ≡ Some result.now }
    {
        self.inner.row(number as usize)
    }
}

impl FaceNumbers for Faces {
    ghost use Rattle.std.specs.Prelude.{Some};
    ghost use Rattle.loc_spec_plane.specs.Faces.{face_above};
    ghost use Rattle.loc_faces.specs.FaceLists.{FitsTable, face_in};

    ghost fits = { λ faces t. FitsTable t faces };

    ghost shown = { λ faces floor. Some (face_above (face_in faces) floor) };

    fn number<L: Ledger>(&self, _views: &Views<'_, L>, floor: Option<u32>) -> Option<u32> {
        Some(self.above(floor))
    }
}
