//! How much of a job is done.

/// How much of a job is done. Lines that set feeds are read in the groups of the whole job in
/// either case.
#[derive(Clone, Copy, Debug, PartialEq, Eq)]
pub enum Scope {
    /// Every line.
    Whole,
    /// The lines that set and drop sources.
    Sources,
}
