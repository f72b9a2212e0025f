// The records of a text in form csv, one at a time in the same memory.

ghost use Rattle.std.specs.Prelude.{◌≡◌, ◌≤◌, length, IfOk, IfErr};
ghost use Rattle.csv.specs.Reading.{default_config, records, strip_bom};
ghost use Rattle.csv.specs.Records.{fields_of};
ghost use Rattle.loc_csvform.specs.Layer.{field as field_of};
ghost use Rattle.loc_csvform.specs.Records.{IsReading, Takes, bytes_of, records_of};

use crate::LayerFault;
use csv::{ByteRecord, Reader, ReaderBuilder};
use std::alloc::Global;

/// A reader of the records of a text, behind a byte order mark if it has one. The records may have any numbers of fields.
pub(crate) fn reader_of<'a>(alloc: Global, text: &'a [u8]) -> Reader<&'a [u8]>
    ensures reading { IsReading result }
    ensures records { records_of result ≡ records default_config (strip_bom text.now) }
    ensures size { length (bytes_of result) ≤ length text.now }
{
    ReaderBuilder::new()
        .has_headers(false)
        .flexible(true)
        .from_reader(alloc, text)
}

/// Takes the next record, if there is one.
pub(crate) fn next_record(
    reader: &mut Reader<&[u8]>,
    fields: &mut ByteRecord,
) -> Result<bool, LayerFault>
    requires { IsReading reader.old }
    ensures ok { IfOk result (Takes reader.old reader.new (fields_of fields.new)) }
    ensures err { IfErr result (λ fault. fault ≡ LayerFault.NoMemory) }
{
    let Ok(found) = reader.read_byte_record(fields) else {
        return Err(LayerFault::NoMemory);
    };
    Ok(found)
}

/// A field of a record, or an empty one past its end.
pub(crate) fn field(fields: &ByteRecord, n: usize) -> &[u8]
    ensures { result.now ≡ field_of (fields_of fields.now) n }
{
    fields.get(n).unwrap_or(&[])
}
