//! The index of references, and what is asked of it.
use crate::FirstIndex;
use crate::inetnums::cover::{end_of, first_reaching, some_reach};
use crate::inetnums::firsts::firsts_of;
use crate::inetnums::links::{Link, links_of};
use crate::inetnums::shelf::{family, shelf_order};
use geo_addr::{Addr, Block, Memory, range_of};
use geo_terms::Reference;
use std::alloc::Global;
use std::marker::Model;

/// References of registry objects, kept so that the one that speaks is found by halving.
///
/// Contracts see the list of references, in the order in which the index keeps them: those of one
/// URL and one family together, by their first addresses.
#[derive(Debug, Drop)]
pub struct Index {
    refs: Vec<Reference>,
    firsts: FirstIndex,
    links: Vec<Link>,
}

impl Model for Index {
    ghost use Rattle.std.specs.Prelude.{List};
    ghost use Rattle.geo_terms.specs.declared.statement.Reference.{Reference};
    ghost use Rattle.first_index.specs.Links.{IsIndex};

    ghost Value = { List Reference };

    ghost view = { λ i. i.refs.items };

    ghost invariant = { λ i. IsIndex i.refs.items i.firsts i.links.items };
}

impl Index {
    ghost use Rattle.std.specs.Prelude.{◌≡◌, [], ◌∷◌, IfOk};
    ghost use Rattle.std.specs.Option.{option_copied};
    ghost use Rattle.geo_terms.specs.Covering.{covering};
    ghost use Rattle.geo_terms.specs.First.{first_at};
    ghost use Rattle.geo_terms.specs.Precedence.{reference_before};
    ghost use Rattle.geo_terms.specs.Report.{is_covered};
    ghost use Rattle.first_index.specs.Answers.{AnswerAlike};

    /// The index of no references.
    pub fn new(alloc: Global) -> Index
        ensures { result ≡ [] }
    {
        Index {
            refs: Vec::new(alloc),
            firsts: FirstIndex::new(alloc),
            links: Vec::new(alloc),
        }
    }

    /// The index of these references.
    ///
    /// After `Memory` they are dropped.
    pub fn build(alloc: Global, refs: Vec<Reference>) -> Result<Index, Memory>
        ensures { IfOk result (λ index. AnswerAlike refs.items index) }
    {
        let mut refs = refs;
        refs.sort_unstable_by(|x, y| shelf_order(x, y));
        let firsts = firsts_of(alloc, refs.as_slice())?;
        let links = links_of(alloc, refs.as_slice())?;
        Ok(Index {
            refs,
            firsts,
            links,
        })
    }

    /// The references, as the index keeps them.
    pub fn references(&self) -> &[Reference]
        ensures { result.now ≡ self.now }
    {
        self.refs.as_slice()
    }

    /// The first reference in the order of references that holds an address.
    pub fn best_at(&self, at: Addr) -> Option<&Reference>
        ensures { option_copied result ≡ first_at reference_before (λ r. r.range) self.now at.0 }
    {
        let index = self.firsts.index_at(at)?;
        self.refs.as_slice().get(index)
    }

    /// The first reference in the order of references that holds an address, as `best_at` gives it.
    ///
    /// It is looked for first where `near` says, which is then where it was found: that spares a
    /// halving where addresses ascend. Any number serves, as 0 at first.
    pub fn best_near(&self, at: Addr, near: &mut usize) -> Option<&Reference>
        ensures { option_copied result ≡ first_at reference_before (λ r. r.range) self.now at.0 }
    {
        let index = self.firsts.index_near(at, near)?;
        self.refs.as_slice().get(index)
    }

    /// The first reference of this URL, in the order of references, whose range is of the block's
    /// family and contains the block.
    ///
    /// Those that begin behind the block are passed over by halving; from the last one that does
    /// not, the way leads outward from each range to the nearest one that reaches farther, so that
    /// where ranges nest no more are looked at than lie around the block or its neighbour. Where
    /// ranges overlap without nesting, or many contain the block,
    /// each one that contains it is looked at.
    pub fn covering(&self, block: Block, url: &str) -> Option<&Reference>
        ensures { option_copied result ≡ covering self.now url.entry.now block }
    {
        let range = range_of(block);
        let family = family(&range);
        let refs = self.refs.as_slice();
        let end = end_of(refs, url, family, range.first);
        first_reaching(refs, self.links.as_slice(), url, family, range.last, end)
    }

    /// Whether a reference of this URL is of the block's family and contains the block:
    /// by one halving.
    pub fn covers(&self, block: Block, url: &str) -> bool
        ensures { result ≡ is_covered self.now url.now block }
    {
        let range = range_of(block);
        let family = family(&range);
        let refs = self.refs.as_slice();
        let end = end_of(refs, url, family, range.first);
        some_reach(refs, self.links.as_slice(), url, family, range.last, end)
    }
}
