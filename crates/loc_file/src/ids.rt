// The part of the ids.

ghost use Rattle.std.specs.Prelude.{IfOk, IfErr, map};
ghost use Rattle.loc_spec_index.specs.IndexFile.{id_fields};
ghost use Rattle.loc_file.specs.Readings.{IsRead, IsRowStop, AreRows, IsRowsStop, alone};

use crate::cursor::Cursor;
use crate::rows::keep;
use loc_spec_index::IndexFault;
use std::alloc::Global;

// An id: its length, and its bytes.
fn next_id(alloc: Global, cursor: &mut Cursor<'_>) -> Result<Vec<u8>, IndexFault>
    ensures ok { IfOk result (λ id. IsRead (id_fields id.items) cursor.old cursor.new) }
    ensures err { IfErr result (IsRowStop id_fields cursor.old) }
{
    let count = cursor.byte(201)?;
    let bytes = cursor.text(count)?;
    match Vec::from_slice(alloc, bytes) {
        Ok(id) => Ok(id),
        Err(_) => Err(IndexFault::NoMemory),
    }
}

// The ids of the features.
pub(crate) fn read_ids(
    alloc: Global,
    cursor: &mut Cursor<'_>,
    count: u32,
) -> Result<Vec<Vec<u8>>, IndexFault>
    ensures ok { IfOk result (λ ids. AreRows (alone id_fields) count (map (λ id. id.items) ids.items) cursor.old cursor.new) }
    ensures err { IfErr result (IsRowsStop (alone id_fields) count cursor.old) }
{
    let mut ids = Vec::new(alloc);
    for _row in 0..count {
        let id = next_id(alloc, cursor)?;
        keep(&mut ids, id)?;
    }
    Ok(ids)
}
