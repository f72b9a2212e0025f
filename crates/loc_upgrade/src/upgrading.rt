//! An index file that is written anew as one of the second version, from the bytes in to the bytes out.

ghost use Rattle.loc_course.specs.Following.{MakesFile};
ghost use Rattle.loc_course.specs.Runs.{RunsOnFiles};
ghost use Rattle.loc_course.specs.Sentences.{status_of};
ghost use Rattle.loc_course.specs.Stops.{end_of};
ghost use Rattle.loc_spec_index.specs.IndexFile.{bytes_of};
ghost use Rattle.loc_upgrade.specs.UpgradeCourses.{upgrade_course};
ghost use Rattle.loc_upgrade.specs.Upgrades.{Upgraded};

use loc_course::Stop;
use loc_file::{Held, write_held};
use loc_indexed::read_index_file;
use loc_io::Shelf;
use std::alloc::Global;

// Makes the file of the second version of what is held.
fn make_upgrade<F: Shelf>(shelf: &mut F, name: &str, held: &Held) -> Result<(), Stop>
    ensures { MakesFile name.now (bytes_of 2 held.now.content) (F.meaning shelf.old) (F.meaning shelf.new)
        (end_of result) }
{
    match write_held(shelf, name, held) {
        Ok(()) => Ok(()),
        Err(_) => Err(Stop::WriteFault),
    }
}

/// Reads an index file of either version whole and makes the file of its content in the second version. All memory is taken before the new
/// file is created, and nothing is written on an output. Where a write failed the new file holds a front of the bytes, or is as before.
pub fn upgrade<F: Shelf>(
    alloc: Global,
    old_name: &str,
    new_name: &str,
    shelf: &mut F,
) -> Result<(), Stop>
    ensures follows { RunsOnFiles (upgrade_course old_name.now new_name.now) F.meaning shelf result }
    ensures upgraded { Upgraded old_name.now new_name.now (F.meaning shelf.old) (F.meaning shelf.new)
        (status_of (end_of result)) }
{
    let held = read_index_file(alloc, shelf, old_name)?;
    let outcome = make_upgrade(shelf, new_name, &held);
    drop(held);
    outcome
}
