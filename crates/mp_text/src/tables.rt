//! Tables of samples.

ghost use Rattle.std.specs.Prelude.{◌≡◌, ◌≢◌, ◌≤◌, ◌<◌, ◌++◌, ◌∷◌, [], Ok, Err, Some, None, IfOk, IfErr, OnOk, length};
ghost use Rattle.std.specs.Prelude.{map, vec_len, replicate, List, drop};
ghost use Rattle.csv.specs.Records.{fields_of, field_at};
ghost use Rattle.mp_defs.specs.Series.{reading_of, series_of};
ghost use Rattle.mp_text.specs.Records.{IsBetweenRecords, records_left};
ghost use Rattle.mp_text.specs.Gathering.{added, cell, cell_fault, column_of, gathered_of, record_fault, series_in};
ghost use Rattle.mp_text.specs.SampleText.{reading};
ghost use Rattle.mp_text.specs.Table.{Fault, Fields, data_records, table_of, told};

use crate::records::{open_records, read_record};
use crate::refusal::TableFault;
use crate::spelling::read_sample;
use csv::{ByteRecord, Reader};
use mp_nums::{Memory, Sample, Width};
use mp_series::{Bundle, MAX_SAMPLES};
use std::alloc::Global;

/// The samples in some columns of a text of comma-separated values, in units of `10^-scale`: a series for each column
/// given, in their order, with a sample for each record.
///
/// Columns are counted from 0 and may be named twice. With `header` the first record is passed over. A byte-order mark
/// at the start and lines without any byte are no part of a record. The fault is the first one in the order of records,
/// and in a record in the order of the columns given. The first record past `MAX_SAMPLES` is refused as `Rows`, before
/// its fields are looked at. Every error of the reader of records is answered as `Memory`, since over bytes in memory,
/// and with records that may differ in length, none other is left.
pub fn read_table(
    alloc: Global,
    text: &[u8],
    columns: &[u32],
    header: bool,
    scale: u8,
    width: Width,
) -> Result<Bundle, TableFault>
    requires places { scale ≤ 9 }
    requires some { 1 ≤ length columns.now }
    requires few { length columns.now ≤ 8 }
    ensures table { IfOk result (λ bundle.
        table_of (reading width scale) columns.now (data_records header text.now) ≡ Ok (map series_of bundle)) }
    ensures fault { IfErr result (λ fault. (why : Fault) → told fault ≡ Some why →
        table_of (reading width scale) columns.now (data_records header text.now) ≡ Err why) }
{
    let mut reader = open_records(alloc, text);
    if header {
        read_under_header(alloc, &mut reader, columns, scale, width)
    } else {
        read_rows(alloc, &mut reader, columns, scale, width)
    }
}

/// A series for each of the columns of the records behind the next one.
fn read_under_header(
    alloc: Global,
    reader: &mut Reader<&[u8]>,
    columns: &[u32],
    scale: u8,
    width: Width,
) -> Result<Bundle, TableFault>
    requires places { scale ≤ 9 }
    requires between { IsBetweenRecords reader.old }
    ensures table { IfOk result (λ bundle.
        gathered_of (reading width scale) columns.now (drop 1 (records_left reader.old)) ≡ Ok (map series_of bundle)) }
    ensures fault { IfErr result (λ fault. fault ≢ TableFault.Memory →
        gathered_of (reading width scale) columns.now (drop 1 (records_left reader.old)) ≡ Err fault) }
{
    let mut row = ByteRecord::new(alloc);
    if !read_record(reader, &mut row)? {
        let series = empty_series(alloc, columns.len())?;
        return Ok(Bundle::from(series));
    }
    read_rows(alloc, reader, columns, scale, width)
}

/// The sample of a record at a column.
fn read_cell(
    row: &ByteRecord,
    column: u32,
    number: u64,
    scale: u8,
    width: Width,
) -> Result<Sample, TableFault>
    requires { scale ≤ 9 }
    ensures fine { OnOk result
        (cell_fault (reading width scale) number column (field_at (fields_of row.now) column) ≡ None) }
    ensures sample { IfOk result (λ sample. reading_of sample
        ≡ cell (reading width scale) (field_at (fields_of row.now) column)) }
    ensures fault { IfErr result (λ fault.
        cell_fault (reading width scale) number column (field_at (fields_of row.now) column) ≡ Some fault) }
{
    let Some(text) = row.get(column as usize) else {
        return Err(TableFault::NoField { number, column });
    };
    match read_sample(text, scale, width) {
        Ok(sample) => Ok(sample),
        Err(fault) => Err(TableFault::Record {
            number,
            column,
            fault,
        }),
    }
}

/// Appends the sample to series `k`.
fn push_to(series: &mut Vec<Vec<Sample>>, k: usize, sample: Sample) -> Result<(), Memory>
    requires { k < vec_len series.old }
    ensures ok { OnOk result (series_in series.new ≡ added (series_in series.old) k (reading_of sample)) }
    ensures len { vec_len series.new ≡ vec_len series.old }
{
    series[k].push(sample)?;
    Ok(())
}

/// So many series without a sample.
fn empty_series(alloc: Global, count: usize) -> Result<Vec<Vec<Sample>>, Memory>
    ensures len { IfOk result (λ series. vec_len series ≡ count) }
    ensures empty { IfOk result (λ series. series_in series ≡ replicate count []) }
{
    let mut series = Vec::new(alloc);
    for _ in 0..count {
        series.push(Vec::new(alloc))?;
    }
    Ok(series)
}

/// Appends the samples of a record, one to each series.
fn gather(
    series: &mut Vec<Vec<Sample>>,
    row: &ByteRecord,
    columns: &[u32],
    number: u64,
    scale: u8,
    width: Width,
) -> Result<(), TableFault>
    requires places { scale ≤ 9 }
    requires one_each { vec_len series.old ≡ length columns.now }
    ensures fine { OnOk result (record_fault (reading width scale) number (fields_of row.now) columns.now ≡ None) }
    ensures fault { IfErr result (λ fault. fault ≢ TableFault.Memory →
        record_fault (reading width scale) number (fields_of row.now) columns.now ≡ Some fault) }
    ensures series { OnOk result ((rows : List Fields)
        → series_in series.old ≡ map (column_of (reading width scale) rows) columns.now →
        series_in series.new ≡ map (column_of (reading width scale) (rows ++ fields_of row.now ∷ [])) columns.now) }
    ensures len { vec_len series.new ≡ vec_len series.old }
{
    for (k, column) in columns.iter().enumerate() {
        let sample = read_cell(row, *column, number, scale, width)?;
        if push_to(series, k, sample).is_err() {
            return Err(TableFault::Memory);
        }
    }
    Ok(())
}

/// A series for each of the columns of the records that a reader has left.
fn read_rows(
    alloc: Global,
    reader: &mut Reader<&[u8]>,
    columns: &[u32],
    scale: u8,
    width: Width,
) -> Result<Bundle, TableFault>
    requires places { scale ≤ 9 }
    requires between { IsBetweenRecords reader.old }
    ensures table { IfOk result (λ bundle.
        gathered_of (reading width scale) columns.now (records_left reader.old) ≡ Ok (map series_of bundle)) }
    ensures fault { IfErr result (λ fault. fault ≢ TableFault.Memory →
        gathered_of (reading width scale) columns.now (records_left reader.old) ≡ Err fault) }
{
    let mut row = ByteRecord::new(alloc);
    let mut series = empty_series(alloc, columns.len())?;
    for number in 1..MAX_SAMPLES + 1 {
        if !read_record(reader, &mut row)? {
            return Ok(Bundle::from(series));
        }
        gather(&mut series, &row, columns, number, scale, width)?;
    }
    if read_record(reader, &mut row)? {
        return Err(TableFault::Rows);
    }
    Ok(Bundle::from(series))
}
