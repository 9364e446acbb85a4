//! The records of a text, one after another.

ghost use Rattle.std.specs.Prelude.{◌≡◌, ◌∷◌, [], IfOk, OnOk, true, false};
ghost use Rattle.std.specs.Bool.{MatchBool};
ghost use Rattle.csv.specs.Reading.{default_config, records, strip_bom};
ghost use Rattle.csv.specs.Records.{fields_of};
ghost use Rattle.mp_text.specs.Records.{IsBetweenRecords, records_left};

use csv::{ByteRecord, Reader, ReaderBuilder};
use mp_nums::Memory;
use std::alloc::Global;

/// A reader of records that may differ in length.
pub(crate) fn open_records(alloc: Global, text: &[u8]) -> Reader<&[u8]>
    ensures between { IsBetweenRecords result }
    ensures left { records_left result ≡ records default_config (strip_bom text.now) }
{
    ReaderBuilder::new()
        .has_headers(false)
        .flexible(true)
        .from_reader(alloc, text)
}

/// Whether there is another record, which it reads. Over bytes in memory and without a fixed length of records, nothing
/// but want of memory is left to fail.
pub(crate) fn read_record(reader: &mut Reader<&[u8]>, row: &mut ByteRecord) -> Result<bool, Memory>
    requires { IsBetweenRecords reader.old }
    ensures between { IfOk result (λ found. found ≡ true → IsBetweenRecords reader.new) }
    ensures next { IfOk result (λ found. MatchBool found
        (records_left reader.old ≡ fields_of row.new ∷ records_left reader.new)
        (records_left reader.old ≡ [])) }
{
    let Ok(found) = reader.read_byte_record(row) else {
        return Err(Memory);
    };
    Ok(found)
}
