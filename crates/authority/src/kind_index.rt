//! What is kept of the statements of one kind.
ghost use Rattle.std.specs.Prelude.{◌≡◌, map, All, IfOk, OnOk};
ghost use Rattle.std.specs.List.Sorted.{IsStrictlyIncreasing};
ghost use Rattle.authority.specs.Kinds.{IsKindIndex};

use first_index::{FirstIndex, Numbered};
use geo_addr::Memory;
use geo_terms::Statement;
use std::alloc::Global;

/// The first statement of a kind at each address, and with it the cut points of the kind's
/// statements.
#[derive(Debug, Drop)]
pub struct KindIndex {
    pub firsts: FirstIndex,
}

impl KindIndex {
    /// The index of these statements.
    pub fn of<S: Statement>(alloc: Global, statements: &[S]) -> Result<KindIndex, Memory>
        ensures index { IfOk result
            (λ index. IsKindIndex S.order S.range statements.now index) }
        ensures kept { OnOk result (All S.kept statements.now) }
    {
        let mut numbered = Numbered::new(alloc);
        numbered.push_all(statements)?;
        KindIndex::of_numbered(alloc, numbered)
    }

    /// The index of these statements, which may lie in several lists.
    pub fn of_numbered<S: Statement>(
        alloc: Global,
        statements: Numbered<S>,
    ) -> Result<KindIndex, Memory>
        ensures index { IfOk result
            (λ index. IsKindIndex S.order S.range statements.entry index) }
        ensures kept { OnOk result (All S.kept statements.entry) }
    {
        let firsts = FirstIndex::of(alloc, statements)?;
        Ok(KindIndex { firsts })
    }

    /// The cut points of the statements.
    pub fn cuts(&self) -> &[u128]
        ensures same { result.now ≡ map (λ b. b.at) self.now.firsts }
        ensures ascending { IsStrictlyIncreasing result.now }
    {
        self.firsts.cut_points()
    }
}
