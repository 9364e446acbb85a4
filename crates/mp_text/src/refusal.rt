//! Why a text is refused.

use mp_nums::Memory;
use thiserror::Error;

/// Why a text is no sample.
#[derive(Clone, Copy, Debug, PartialEq, Eq, Error)]
pub enum SampleFault {
    /// It is neither a number nor a word for a missing sample.
    #[error("no number")]
    Form,
    /// A digit past the scale isn't 0.
    #[error("a digit past the scale")]
    Fine,
    /// The number, in units of `10^-scale`, has more bits than the width that was given.
    #[error("out of range")]
    Range,
}

/// Why a text is no table. Records are counted from 1, behind the header where there is one, and columns from 0.
#[derive(Clone, Copy, Debug, PartialEq, Eq, Error)]
pub enum TableFault {
    /// The field of this record in this column is no sample.
    #[error("record {number}, column {column}: {fault}")]
    Record {
        number: u64,
        column: u32,
        fault: SampleFault,
    },
    /// This record has no field in this column.
    #[error("record {number} has no column {column}")]
    NoField {
        number: u64,
        column: u32,
    },
    /// There are more than `MAX_SAMPLES` records.
    #[error("too many records")]
    Rows,
    /// There was no memory. Each error of the reader of records counts as this one.
    #[error("out of memory")]
    Memory,
}

impl From<Memory> for TableFault {
    ghost use Rattle.std.specs.Prelude.{◌≡◌};
    ghost use Rattle.mp_text.specs.declared.refusal.TableFault.TheVariants.{Memory as out_of_memory};

    ghost from_gives = { λ _ fault. fault ≡ out_of_memory };

    fn from(_memory: Memory) -> TableFault {
        TableFault::Memory
    }
}
