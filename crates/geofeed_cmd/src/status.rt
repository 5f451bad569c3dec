//! How a command ended.

/// How a command ended. The number of a variant is the program's exit status.
#[derive(Clone, Copy, Debug, PartialEq, Eq)]
pub enum Status {
    /// Every step was done.
    Done = 0,
    /// Memory ran out.
    Memory = 1,
    /// The words are no command.
    Words = 2,
    /// The folder failed to read a file.
    ReadFault = 3,
    /// A file is not there.
    Missing = 4,
    /// The folder failed to write a file, or the sink to print.
    WriteFault = 5,
    /// The job is refused.
    Job = 6,
    /// A source is over its limit.
    Source = 7,
    /// The file to be written is too large for the format.
    TooLarge = 8,
    /// The file to be looked up in is damaged there.
    File = 9,
    /// A source to be dropped is not there.
    Drop = 10,
    /// A mark to be gone back to is not there.
    Mark = 11,
    /// The feed to be checked is not there.
    Absent = 12,
}
