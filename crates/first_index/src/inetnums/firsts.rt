//! The index of the first reference at each address.
ghost use Rattle.std.specs.Prelude.{All, IfOk, OnOk};
ghost use Rattle.geo_addr.specs.Ranges.{IsRange};
ghost use Rattle.first_index.specs.FirstIndex.{TellsFirst};
ghost use Rattle.geo_terms.specs.Precedence.{reference_cmp};

use crate::{FirstIndex, Numbered};
use geo_addr::Memory;
use geo_terms::Reference;
use std::alloc::Global;

/// The index of these references.
pub fn firsts_of(alloc: Global, refs: &[Reference]) -> Result<FirstIndex, Memory>
    ensures first { IfOk result
        (λ firsts. TellsFirst reference_cmp (λ r. r.range) refs.now firsts) }
    ensures ranges { OnOk result (All (λ r. IsRange r.range) refs.now) }
{
    let mut statements = Numbered::new(alloc);
    statements.push_all(refs)?;
    let firsts = FirstIndex::of(alloc, statements)?;
    Ok(firsts)
}
