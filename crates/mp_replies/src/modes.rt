use mp_nums::Width;

/// How reports are written: each as a text, or as a line that is a JSON object.
#[derive(Clone, Copy, Debug, PartialEq, Eq)]
pub enum ReportForm {
    Text,
    Json,
}

/// What a version line sets: the version by which lines are read, how many bits the numbers of samples may have, and how
/// reports are written.
#[derive(Clone, Copy, Debug, PartialEq, Eq)]
pub struct Mode {
    pub version: u64,
    pub width: Width,
    pub form: ReportForm,
}
