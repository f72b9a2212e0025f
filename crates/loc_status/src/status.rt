// What a sweep asks of its status.

ghost use Rattle.std.specs.Prelude.{◌≡◌, ◌-◌, ◌<◌, ◌^◌, IsTrue, not, length, IfOk, IfErr, OnOk, OnErr};
ghost use Rattle.loc_spec_plane.specs.Lists.{is_in};
ghost use Rattle.loc_spec_plane.specs.Points.{is_above};
ghost use Rattle.loc_spec_plane.specs.Tables.{corner as corner_of, edge as edge_of, lo_of, hi_of};
ghost use Rattle.loc_laws_order.specs.Laws.{last_that};
ghost use Rattle.loc_status.specs.Lists.{is_chain_at, IsBeside};
ghost use Rattle.loc_status.specs.Meaning.{StatusMeaning, Inserts, Removes, Seals, IsCause};

use loc_edges::Ranks;
use std::alloc::AllocError;

/// Why an edge was not inserted: it hits an edge of the list, or there was no memory.
#[derive(Clone, Copy, Drop)]
pub enum InsertFault {
    Hits { edge: u32 },
    NoMemory,
}

/// The edges just below and just above one of a list, or none where it is the lowest or the highest.
#[derive(Clone, Copy, Drop)]
pub struct Beside {
    pub below: Option<u32>,
    pub above: Option<u32>,
}

/// The edges that the sweep line meets, from the lowest to the highest, and the lists that were sealed. It sees a table edge against
/// edge. No call changes a sealed list.
pub trait Status: Drop {
    /// The present list, the sealed lists where they are told, how many lists were sealed and how many edges inserted and removed, one
    /// more than the greatest edge inserted, and whether an edge was inserted or removed since the last seal.
    ghost meaning: { Self → StatusMeaning };

    /// Puts a new edge in its place in a chain at its lower end: behind each edge that it is above, and before each that it is below.
    /// It tells the edges between which the new one stands, or names an edge of the list that it hits, exactly where there is one, unless
    /// memory is wanting. After a refusal all is as before.
    fn insert(&mut self, ranks: &Ranks<'_>, edge: u32) -> Result<Beside, InsertFault>
        requires in_range { edge < length ranks.now.ends }
        requires chain { IsTrue (is_chain_at ranks.now (lo_of ranks.now edge) (meaning self.old).list) }
        requires is_new { IsTrue (not (is_in edge (meaning self.old).list)) }
        requires few { (meaning self.old).inserted < 2 ^ 26 }
        ensures ok { OnOk result (Inserts ranks.now edge (meaning self.old) (meaning self.new)) }
        ensures beside { IfOk result (IsBeside edge (meaning self.new).list) }
        ensures cause { IfErr result (IsCause ranks.now edge (meaning self.old).list) }
        ensures err { OnErr result (meaning self.new ≡ meaning self.old) };

    /// Takes an edge out of a chain at the corner before its upper end, and tells the edges between which it stood. After a refusal all is
    /// as before.
    fn remove(&mut self, ranks: &Ranks<'_>, edge: u32) -> Result<Beside, AllocError>
        requires in_range { edge < length ranks.now.ends }
        requires chain { IsTrue (is_chain_at ranks.now (hi_of ranks.now edge - 1) (meaning self.old).list) }
        requires listed { IsTrue (is_in edge (meaning self.old).list) }
        requires few { (meaning self.old).removed < 2 ^ 26 }
        ensures ok { OnOk result (Removes edge (meaning self.old) (meaning self.new)) }
        ensures beside { IfOk result (IsBeside edge (meaning self.old).list) }
        ensures err { OnErr result (meaning self.new ≡ meaning self.old) };

    /// The last edge of a chain at a corner that has the corner above it, or none.
    fn floor(&self, ranks: &Ranks<'_>, corner: u32) -> Option<u32>
        requires in_range { corner < length ranks.now.corners }
        requires chain { IsTrue (is_chain_at ranks.now corner (meaning self.now).list) }
        ensures { result ≡ last_that (λ e. is_above (edge_of ranks.now e) (corner_of ranks.now corner)) (meaning self.now).list };

    /// Seals the present list. After a refusal all is as before.
    fn seal(&mut self) -> Result<(), AllocError>
        requires few { (meaning self.old).sealed < 2 ^ 26 }
        ensures ok { OnOk result (Seals (meaning self.old) (meaning self.new)) }
        ensures err { OnErr result (meaning self.new ≡ meaning self.old) };
}
