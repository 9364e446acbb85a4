//! Texts of samples, read and written, and tables.

ghost use Rattle.std.specs.Prelude.{◌≤◌};

use crate::numbers::{sample, samples};
use mp_nums::{Sample, Text, Width};
use mp_text::{SampleFault, TableFault, read_sample, read_table, write_sample};
use std::alloc::{AllocError, Global};
use std::process::Abort;
use std::test::Fail;

/// Texts at scale 2, with the numbers of the samples that are read of them.
static READ: [(&str, Result<Option<i32>, SampleFault>); 20] = [
    ("12.5", Ok(Some(1250))),
    ("12.500", Ok(Some(1250))),
    ("12.505", Err(SampleFault::Fine)),
    (" 7 ", Ok(Some(700))),
    ("5.", Ok(Some(500))),
    (".5", Ok(Some(50))),
    ("-0", Ok(Some(0))),
    ("+1", Ok(Some(100))),
    ("", Ok(None)),
    ("nan", Ok(None)),
    ("NA", Ok(None)),
    ("NAN", Err(SampleFault::Form)),
    (".", Err(SampleFault::Form)),
    ("-", Err(SampleFault::Form)),
    ("1e3", Err(SampleFault::Form)),
    ("1 2", Err(SampleFault::Form)),
    ("21474836.47", Ok(Some(2147483647))),
    ("21474836.48", Err(SampleFault::Range)),
    ("-21474836.48", Ok(Some(-2147483648))),
    ("99999999999.001", Err(SampleFault::Fine)),
];

#[test]
fn texts_are_read_at_scale_2(rt: HostRuntime) {
    for (text, found) in &READ {
        let found = found.map(|number| sample(number));
        assert_eq!(rt;
            read_sample(text.as_bytes(), 2, Width::Narrow),
            found,
            "{text}"
        );
    }
}

/// Texts at the ends of both widths, with their scales, and the numbers that are read of them.
static ENDS: [(&str, u8, Width, Result<i64, SampleFault>); 12] = [
    ("2147483647", 0, Width::Narrow, Ok(2_147_483_647)),
    ("2147483648", 0, Width::Narrow, Err(SampleFault::Range)),
    ("-2.147483648", 9, Width::Narrow, Ok(-2_147_483_648)),
    ("-2.147483649", 9, Width::Narrow, Err(SampleFault::Range)),
    ("2147483648", 0, Width::Wide, Ok(2_147_483_648)),
    ("-2.147483649", 9, Width::Wide, Ok(-2_147_483_649)),
    ("140737488355327", 0, Width::Wide, Ok(140_737_488_355_327)),
    ("140737488355328", 0, Width::Wide, Err(SampleFault::Range)),
    ("-140737488355328", 0, Width::Wide, Ok(-140_737_488_355_328)),
    ("140737.488355327", 9, Width::Wide, Ok(140_737_488_355_327)),
    (
        "-140737.488355328",
        9,
        Width::Wide,
        Ok(-140_737_488_355_328),
    ),
    ("-140737.488355329", 9, Width::Wide, Err(SampleFault::Range)),
];

/// The number of a sample, none of a missing one.
fn number_of(sample: Sample) -> Option<i64> {
    match sample {
        Sample::Value(whole) => Some(whole.get()),
        Sample::Missing => None,
    }
}

#[test]
fn numbers_are_read_to_the_ends_of_a_width(rt: HostRuntime) {
    for (text, scale, width, found) in &ENDS {
        assert!(rt; *scale <= 9);
        let number = read_sample(text.as_bytes(), *scale, *width).map(|sample| number_of(sample));
        assert_eq!(rt; number, found.map(|number| Some(number)), "{text}");
    }
}

static WRITTEN: [(Option<i32>, u8, &str); 4] = [
    (Some(-50), 2, "-0.50"),
    (None, 2, "?"),
    (Some(-2147483648), 9, "-2.147483648"),
    (Some(5), 0, "5"),
];

#[test]
fn samples_are_written_at_a_scale(rt: HostRuntime) -> Result<(), Fail> {
    for (number, scale, text) in &WRITTEN {
        assert!(rt; *scale <= 9);
        let mut out = Text::new(rt.alloc());
        write_sample(sample(*number), *scale, &mut out)?;
        assert_eq!(rt; out.as_slice(), text.as_bytes());
    }
    Ok(())
}

const DAY: &[u8] = b"time,load,temp
0,1.0,7.5
1,2.0,7.5
2,,7.5
3,1.0,7.5
4,2.0,\"\"
5,3.0,7.5
6,1.0,7.5
7,2.0,7.5
8,3.0,7.5
";

const LOADS: [Option<i32>; 9] = [
    Some(10),
    Some(20),
    None,
    Some(10),
    Some(20),
    Some(30),
    Some(10),
    Some(20),
    Some(30),
];

const TEMPERATURES: [Option<i32>; 9] = [
    Some(75),
    Some(75),
    Some(75),
    Some(75),
    None,
    Some(75),
    Some(75),
    Some(75),
    Some(75),
];

/// Expects two series under a header, in tenths.
fn expect_series<R: Abort + AllocGlobal>(
    rt: &R,
    text: &[u8],
    first: &[Option<i32>],
    second: &[Option<i32>],
) -> Result<(), Fail> {
    let table = read_table(rt.alloc(), text, &[1, 2], true, 1, Width::Narrow)?;
    assert_eq!(rt; table.count(), 2);
    assert_eq!(rt; table.series(0), samples(rt.alloc(), first)?.as_slice());
    assert_eq!(rt; table.series(1), samples(rt.alloc(), second)?.as_slice());
    Ok(())
}

#[test]
fn columns_are_read_under_a_header(rt: HostRuntime) -> Result<(), Fail> {
    expect_series(&rt, DAY, &LOADS, &TEMPERATURES)?;
    expect_series(&rt, b"", &[], &[])
}

/// Why a text is no table of whole numbers in one column.
fn fault_of(alloc: Global, text: &[u8], column: u32, header: bool) -> Option<TableFault> {
    read_table(alloc, text, &[column], header, 0, Width::Narrow).err()
}

fn zeros(alloc: Global, records: u64) -> Result<Vec<u8>, AllocError> {
    let mut text = Vec::new(alloc);
    for _ in 0..records {
        text.extend_from_slice(b"0\n")?;
    }
    Ok(text)
}

#[test]
fn the_first_fault_is_told(rt: HostRuntime) -> Result<(), Fail> {
    let no_field = TableFault::NoField {
        number: 4,
        column: 1,
    };
    assert_eq!(rt;
        fault_of(rt.alloc(), b"1,2\n3,4\n5,6\n7\n9,10\n", 1, false),
        Some(no_field)
    );
    let records = zeros(rt.alloc(), 262_145)?;
    assert_eq!(rt;
        fault_of(rt.alloc(), records.as_slice(), 0, false),
        Some(TableFault::Rows)
    );
    assert_eq!(rt; fault_of(rt.alloc(), records.as_slice(), 0, true), None);
    Ok(())
}
