// A layer text in form csv.

ghost use Rattle.std.specs.Prelude.{◌≡◌, ◌≤◌, [], ◌∷◌, ℕ, List, All, codes, length, map, true, Some, None, Ok, IfOk, IfErr, IfSome, OnOk, MatchOption};
ghost use Rattle.std.specs.Char.{is_ascii_alphabetic};
ghost use Rattle.std.specs.List.{enumerate_from, list_all};
ghost use Rattle.std.specs.Str.{is_utf8};
ghost use Rattle.csv.specs.Records.{fields_of};
ghost use Rattle.loc_spec_text.specs.declared.Form.TheVariants as form;
ghost use Rattle.loc_spec_text.specs.Bytes.{capitals, result_and_then, same_word};
ghost use Rattle.loc_spec_text.specs.Reading.{reading};
ghost use Rattle.loc_csvform.specs.Faults.{IsFaultOf};
ghost use Rattle.loc_csvform.specs.Layer.{column, csv_row, csv_rows, features_from, layer_of, row_id, row_of};
ghost use Rattle.loc_csvform.specs.Records.{IsReading, bytes_of, records_of};
ghost use Rattle.loc_spec_text.specs.Limits.{most_id_bytes, most_text};

use crate::LayerFault;
use crate::records::{field, next_record, reader_of};
use crate::rows::add_row;
use csv::{ByteRecord, Reader};
use itoa::Buffer;
use loc_rings::Layer;
use loc_spec_text::{MOST_ID_BYTES, Scale};
use std::alloc::Global;

/// What a header says: how many columns there are, and which are the geometry column and the id column.
#[derive(Clone, Copy)]
struct Columns {
    count: usize,
    wkt: usize,
    id: Option<usize>,
}

// Whether a field is this name in any ASCII case. The name is given in capitals.
fn is_named(field: &[u8], name: &[u8]) -> bool
    requires letters { list_all is_ascii_alphabetic name.now ≡ true }
    requires capitals { capitals name.now ≡ name.now }
    ensures { result ≡ same_word field.now name.now }
{
    field.eq_ignore_ascii_case(name)
}

// The first column of this name, which is given in capitals.
fn column_of(header: &ByteRecord, name: &[u8]) -> Option<usize>
    requires letters { list_all is_ascii_alphabetic name.now ≡ true }
    requires capitals { capitals name.now ≡ name.now }
    ensures { result ≡ column name.now (fields_of header.now) }
{
    for n in 0..header.len() {
        if is_named(field(header, n), name) {
            return Some(n);
        }
    }
    None
}

// What a header says, unless it has no geometry column.
fn columns_of(header: &ByteRecord) -> Option<Columns>
    ensures found { MatchOption result (column (codes "wkt") (fields_of header.now) ≡ None) (λ columns. column (codes "wkt") (fields_of header.now) ≡ Some columns.wkt) }
    ensures id { IfSome result (λ columns. columns.id ≡ column (codes "id") (fields_of header.now)) }
    ensures count { IfSome result (λ columns. columns.count ≡ length (fields_of header.now)) }
{
    let wkt = column_of(header, b"WKT")?;
    Some(Columns {
        count: header.len(),
        wkt,
        id: column_of(header, b"ID"),
    })
}

// The bytes of a row's id: the field of the id column if there is one, else the number in decimal, which the buffer holds.
fn id_bytes<'a>(
    columns: &Columns,
    row: u32,
    fields: &'a ByteRecord,
    buffer: &'a mut Buffer,
) -> &'a [u8]
    ensures { result.now ≡ row_id columns.now.id row (fields_of fields.now) }
{
    match columns.id {
        Some(column) => field(fields, column),
        None => buffer.format(row).as_bytes(),
    }
}

// Whether the bytes are UTF-8.
fn is_text(bytes: &[u8]) -> bool
    ensures { result ≡ is_utf8 bytes.now }
{
    str::from_utf8(bytes).is_ok()
}

// The id of a row, or what is wrong with it.
fn read_id(
    alloc: Global,
    columns: &Columns,
    row: u32,
    fields: &ByteRecord,
) -> Result<Vec<u8>, LayerFault>
    ensures ok { IfOk result (λ id. (text : List ℕ) → row_of row (row_id columns.now.id row (fields_of fields.now)) text ≡ Ok (record { number = row; id = id.items; text = text })) }
    ensures short { IfOk result (λ id. length id.items ≤ most_id_bytes) }
    ensures err { IfErr result (λ fault. (text : List ℕ) → IsFaultOf (row_of row (row_id columns.now.id row (fields_of fields.now)) text) fault) }
{
    let mut buffer = Buffer::new();
    let id = id_bytes(columns, row, fields, &mut buffer);
    if !is_text(id) {
        return Err(LayerFault::BadText { row });
    }
    if id.len() > MOST_ID_BYTES {
        return Err(LayerFault::LongId { row });
    }
    Ok(Vec::from_slice(alloc, id)?)
}

// Appends the feature of a record, which is row number `row`.
fn add_record(
    alloc: Global,
    layer: &mut Layer,
    columns: &Columns,
    row: u32,
    fields: &ByteRecord,
    scale: Scale,
) -> Result<(), LayerFault>
    requires sizes { All (λ field. length field ≤ most_text) (fields_of fields.now) }
    ensures ok { OnOk result (features_from (reading scale) (csv_row columns.now.count columns.now.wkt columns.now.id (row, fields_of fields.now) ∷ []) layer.old ≡ Ok layer.new) }
    ensures err { IfErr result (IsFaultOf (features_from (reading scale) (csv_row columns.now.count columns.now.wkt columns.now.id (row, fields_of fields.now) ∷ []) layer.old)) }
{
    if fields.len() != columns.count {
        return Err(LayerFault::Ragged { row });
    }
    let id = read_id(alloc, columns, row, fields)?;
    let text = field(fields, columns.wkt);
    add_row(alloc, layer, row, id, text, scale)
}

// The layer of the records that are left, which are the rows.
fn read_rows(
    alloc: Global,
    reader: &mut Reader<&[u8]>,
    fields: &mut ByteRecord,
    columns: &Columns,
    scale: Scale,
) -> Result<Layer, LayerFault>
    requires reading { IsReading reader.old }
    requires size { length (bytes_of reader.old) ≤ most_text }
    ensures ok { IfOk result (λ layer. features_from (reading scale) (map (csv_row columns.now.count columns.now.wkt columns.now.id) (enumerate_from 1 (records_of reader.old))) [] ≡ Ok layer) }
    ensures err { IfErr result (IsFaultOf (features_from (reading scale) (map (csv_row columns.now.count columns.now.wkt columns.now.id) (enumerate_from 1 (records_of reader.old))) [])) }
{
    let mut layer = Layer::new(alloc);
    let mut row = 0u32;
    while next_record(reader, fields)? {
        row += 1;
        add_record(alloc, &mut layer, columns, row, fields, scale)?;
    }
    Ok(layer)
}

// The layer of the records that are left, of which the first is the header.
fn read_records(
    alloc: Global,
    reader: &mut Reader<&[u8]>,
    fields: &mut ByteRecord,
    scale: Scale,
) -> Result<Layer, LayerFault>
    requires reading { IsReading reader.old }
    requires size { length (bytes_of reader.old) ≤ most_text }
    ensures ok { IfOk result (λ layer. result_and_then (csv_rows (records_of reader.old)) (λ rows. features_from (reading scale) rows []) ≡ Ok layer) }
    ensures err { IfErr result (IsFaultOf (result_and_then (csv_rows (records_of reader.old)) (λ rows. features_from (reading scale) rows []))) }
{
    if !next_record(reader, fields)? {
        return Err(LayerFault::NoColumn);
    }
    let Some(columns) = columns_of(fields) else {
        return Err(LayerFault::NoColumn);
    };
    read_rows(alloc, reader, fields, &columns, scale)
}

/// The layer of a text in form csv, whose first record is the header.
pub(crate) fn read_csv(alloc: Global, text: &[u8], scale: Scale) -> Result<Layer, LayerFault>
    requires size { length text.now ≤ most_text }
    ensures ok { IfOk result (λ layer. layer_of form.Csv scale text.now ≡ Ok layer) }
    ensures err { IfErr result (IsFaultOf (layer_of form.Csv scale text.now)) }
{
    let mut reader = reader_of(alloc, text);
    let mut fields = ByteRecord::new(alloc);
    read_records(alloc, &mut reader, &mut fields, scale)
}
