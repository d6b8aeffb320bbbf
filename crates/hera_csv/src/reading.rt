//! The rows of a text of records.
ghost use Rattle.std.specs.Prelude.{◌≡◌, ◌<◌, true, false, None, Some, All, IfOk, IfErr, IfSome, length};
ghost use Rattle.csv.specs.Reading.{error_kind, stops_reader};
ghost use Rattle.csv.specs.Records.{fields_of};
ghost use Rattle.hera_meaning.specs.Rows.{IsRow};
ghost use Rattle.hera_csv.specs.Fields.{row_read};
ghost use Rattle.hera_csv.specs.Records.{records_of, bad_in, rows_of, rows_behind, is_good, rows_with, IsRefusal};

use crate::fields::{is_head, row};
use crate::row_list::RowList;
use csv::{ByteRecord, ErrorKind, ReaderBuilder};
use hera_meaning::Schema;
use hera_rows::RowSet;
use std::alloc::{AllocError, Global};
use thiserror::Error;

/// Why a text is refused.
#[derive(Debug, Drop, Error)]
pub enum CsvFault {
    /// The record of this number, from 1, is not good; or 1 where there is no record.
    #[error("a record is not good")]
    Record { number: u64 },
    /// No memory.
    #[error("out of memory")]
    Memory,
}

/// What an error of the reader over bytes in memory comes to. It is the reader's underneath or want of memory: no
/// other comes where records may differ in length and no text is asked for.
fn fault_of(error: csv::Error) -> CsvFault
    requires { stops_reader (error_kind error) ≡ true }
    ensures { result ≡ CsvFault.Memory }
{
    match error.into_kind() {
        ErrorKind::Io(_) | ErrorKind::OutOfMemory => CsvFault::Memory,
        _ => unreachable!(),
    }
}

/// Takes in the record of this number, and says whether it is good: the first is the names of the attributes, and each
/// other one writes a row.
fn take(
    alloc: Global,
    schema: &Schema,
    number: usize,
    fields: &ByteRecord,
    rows: &mut RowList,
) -> Result<bool, AllocError>
    ensures good { IfOk result (λ good. good ≡ is_good schema.now number (fields_of fields.now)) }
    ensures rows { IfOk result (λ good. rows.new ≡ rows_with schema.now number (fields_of fields.now) rows.old) }
{
    if number == 1 {
        return Ok(is_head(schema, fields));
    }
    match row(alloc, schema, fields)? {
        Some(row) => {
            rows.push(row.bytes())?;
            Ok(true)
        }
        None => Ok(false),
    }
}

/// The rows that the records behind the first write, in the order of the records.
fn read_list(alloc: Global, schema: &Schema, bytes: &[u8]) -> Result<RowList, CsvFault>
    ensures good { IfOk result (λ rows. bad_in schema.now (records_of bytes.now) ≡ None) }
    ensures rows { IfOk result (λ rows. rows ≡ rows_behind schema.now (records_of bytes.now)) }
    ensures refused { IfErr result (IsRefusal (bad_in schema.now (records_of bytes.now))) }
{
    let mut reader = ReaderBuilder::new()
        .has_headers(false)
        .flexible(true)
        .from_reader(alloc, bytes);
    let mut fields = ByteRecord::new(alloc);
    let mut rows = RowList::new(alloc);
    let most = bytes.len();
    for number in 0..most + 1 {
        match reader.read_byte_record(&mut fields) {
            Ok(true) => {}
            Ok(false) if number == 0 => return Err(CsvFault::Record { number: 1 }),
            Ok(false) => return Ok(rows),
            Err(error) => return Err(fault_of(error)),
        }
        match take(alloc, schema, number + 1, &fields, &mut rows) {
            Ok(true) => {}
            Ok(false) => {
                return Err(CsvFault::Record {
                    number: number as u64 + 1,
                });
            }
            Err(_) => return Err(CsvFault::Memory),
        }
    }
    unreachable!()
}

/// The set of the rows that the records behind the first write. The bytes are let go before the rows are sorted.
pub fn read_rows(alloc: Global, schema: &Schema, bytes: Vec<u8>) -> Result<RowSet, CsvFault>
    ensures good { IfOk result (λ rows. bad_in schema.now (records_of bytes.items) ≡ None) }
    ensures rows { IfOk result (λ rows. rows ≡ rows_of schema.now (records_of bytes.items)) }
    ensures valid { IfOk result (λ rows. All (IsRow schema.now) rows) }
    ensures refused { IfErr result (IsRefusal (bad_in schema.now (records_of bytes.items))) }
{
    let rows = read_list(alloc, schema, &bytes)?;
    drop(bytes);
    match rows.into_set(alloc) {
        Ok(set) => Ok(set),
        Err(_) => Err(CsvFault::Memory),
    }
}
