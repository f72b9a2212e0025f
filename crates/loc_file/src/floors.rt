// The part of the floors.

ghost use Rattle.std.specs.Prelude.{◌+◌, ◌<◌, ◌^◌, IfOk, IfErr};
ghost use Rattle.loc_spec_index.specs.IndexFile.{floor_field};
ghost use Rattle.loc_file.specs.Readings.{IsRead, IsRowStop, AreRows, IsRowsStop, alone, one};

use crate::cursor::Cursor;
use crate::rows::keep;
use loc_spec_index::IndexFault;
use std::alloc::Global;

// The floor of a corner, or none.
fn next_floor(cursor: &mut Cursor<'_>, edges: u32) -> Result<Option<u32>, IndexFault>
    requires { edges < 2 ^ 31 }
    ensures ok { IfOk result (λ floor. IsRead (one (floor_field edges) floor) cursor.old cursor.new) }
    ensures err { IfErr result (IsRowStop (one (floor_field edges)) cursor.old) }
{
    let number = cursor.number(edges + 1)?;
    if number == 0 {
        Ok(None)
    } else {
        Ok(Some(number - 1))
    }
}

// The floors of the corners.
pub(crate) fn read_floors(
    alloc: Global,
    cursor: &mut Cursor<'_>,
    edges: u32,
    count: u32,
) -> Result<Vec<Option<u32>>, IndexFault>
    requires { edges < 2 ^ 31 }
    ensures ok { IfOk result (λ floors. AreRows (alone (one (floor_field edges))) count floors.items cursor.old cursor.new) }
    ensures err { IfErr result (IsRowsStop (alone (one (floor_field edges))) count cursor.old) }
{
    let mut floors = Vec::new(alloc);
    for _row in 0..count {
        let floor = next_floor(cursor, edges)?;
        keep(&mut floors, floor)?;
    }
    Ok(floors)
}
