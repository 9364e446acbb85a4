//! Laws of texts of samples and of tables, each the contract of a function that does nothing.

ghost use Rattle.mp_text.specs.SampleLaws.{MissingSamplesAreReadBack, WrittenNumbersAreReadBack};
ghost use Rattle.mp_text.specs.TableLaws.{TableFaultsAreTheFirst};

/// What is written of a sample is read as that sample again, at every scale and between any bounds that it fits.
pub fn written_samples_are_read_back()
    ensures numbers { WrittenNumbersAreReadBack }
    ensures missing { MissingSamplesAreReadBack }
{}

/// The fault of a table is the first one: each earlier record is good, and in its record each earlier column.
pub fn table_faults_are_the_first()
    ensures { TableFaultsAreTheFirst }
{}
