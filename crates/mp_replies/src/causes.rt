/// Why a line is refused, in the order in which the words are tested.
#[derive(Clone, Copy, Debug, PartialEq, Eq)]
pub enum Cause {
    /// The line has more than 1,048,576 bytes.
    Long,
    /// It begins with `session`, and is neither `session 1` nor `session 2`, or some command was accepted before.
    Version,
    /// Its first field is no command word of the session's version.
    Unknown,
    /// The command has another number of fields.
    Fields,
    /// A number, a ref or a list of columns is malformed or outside its limit.
    Number,
    /// A slot is above 7, or it is closed.
    Slot,
    /// The last samples of a slot are kept, and the command asks for more.
    Kept,
    /// The profile of a slot is made in parts, and the command asks for the whole, or the other way round.
    Lazy,
    /// A slot has no such channel, or another number of channels.
    Channel,
    /// The item of this number, counted from 1, is the first with a value that is no sample, or with another number of
    /// values than the slot has channels.
    Sample(u64),
    /// A series would be longer than 262,144 samples, or one of which the last samples are kept longer than
    /// 4,294,967,296.
    Full,
    /// There is no such file.
    File,
    /// The file has more than 67,108,864 bytes.
    FileSize,
    /// The record of this number, counted from 1 behind the header, is the first with a field that is missing or is no
    /// sample.
    Record(u64),
    /// The file has more than 262,144 records.
    Rows,
    /// The series has no window that starts there.
    Index,
    /// The window has a missing sample.
    Missing,
}
