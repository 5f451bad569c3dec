//! The commit that the program was built of.

/// Empty in the repository: the script `geofeed` writes the commit here while it builds,
/// and takes it out again.
pub(crate) const COMMIT: &str = "";
