//! The word that was meant by one that is none.
use geo_addr::Memory;
use std::alloc::Global;
use strsim::osa_distance;

/// The known word that is nearest to another one, where one is near: no more than a third of its
/// letters are wrong, or it is the same in lower case.
pub(crate) fn nearest(
    alloc: Global,
    word: &str,
    known: &'static [&'static str],
) -> Result<Option<&'static str>, Memory> {
    let mut best = None;
    let mut least = usize::MAX;
    for other in known {
        if word.eq_ignore_ascii_case(other) {
            return Ok(Some(*other));
        }
        let edits = osa_distance(alloc, word, other)?;
        if edits <= other.len() / 3 && edits < least {
            least = edits;
            best = Some(*other);
        }
    }
    Ok(best)
}
