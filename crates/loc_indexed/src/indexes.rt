//! The index file.

ghost use Rattle.std.specs.Prelude.{◌≤◌, IfOk, length};
ghost use Rattle.loc_spec_index.specs.Content.{Content};
ghost use Rattle.loc_indexed.specs.IndexBytes.{IsIndexFile};
ghost use Rattle.loc_laws_index.specs.IndexReading.{AreBytes, reading};
ghost use Rattle.loc_course.specs.Courses.{Course};
ghost use Rattle.loc_course.specs.Following.{Moment};
ghost use Rattle.loc_course.specs.Runs.{GoesOnFiles};
ghost use Rattle.loc_course.specs.Stops.{GoesOn};
ghost use Rattle.loc_indexed.specs.IndexedCourses.{index_course, index_in};
ghost use Rattle.loc_spec_text.specs.Limits.{most_index};
ghost use Rattle.loc_indexed.specs.Verifies.{IsToldFile};

use crate::lines::index_stop_of;
use loc_course::{Stop, read_source};
use loc_file::{Held, read_index};
use loc_io::Shelf;
use loc_spec_text::MOST_INDEX;
use std::alloc::Global;

// What bytes hold.
fn read_index_in(alloc: Global, bytes: &[u8]) -> Result<Held, Stop>
    requires { length bytes.now ≤ most_index }
    ensures goes_on { (next : Content → Course) (m : Moment)
        → GoesOn (index_in (reading bytes.now) next) m (λ held. next held.content) m result }
    ensures small { AreBytes bytes.now }
    ensures file { IfOk result (λ held. IsIndexFile held.content bytes.now) }
{
    match read_index(alloc, bytes) {
        Ok(held) => Ok(held),
        Err(fault) => Err(index_stop_of(fault)),
    }
}

/// Reads an index file. Its bytes are given back when they were read.
pub fn read_index_file<F: Shelf>(alloc: Global, shelf: &mut F, name: &str) -> Result<Held, Stop>
    ensures goes_on { GoesOnFiles (index_course name.now) (λ next held. next held.content) F.meaning shelf result }
    ensures told { IfOk result (λ held. IsToldFile ((F.meaning shelf.old).told name.now) held.content) }
{
    let bytes = read_source(alloc, shelf, name, MOST_INDEX, b"index: too long")?;
    read_index_in(alloc, &bytes)
}
