//! The statistics files in force.
ghost use Rattle.std.specs.Prelude.{◌≡◌, option_map, IfOk};
ghost use Rattle.std.specs.Arc.{arc_value};

use crate::delegations::{Delegations, delegation_at, first_of_all, indexed};
use authority::DropFault;
use geo_addr::{Addr, Memory};
use geo_terms::{Delegation, Stats};
use source_changes::shelf;
use std::alloc::Global;
use std::marker::Model;
use std::sync::Arc;

/// The statistics files in force, in the order of their slots. Their delegations have one index,
/// which `make_ready` makes where a file was set or dropped since; until then each delegation is
/// looked at for an answer.
#[derive(Debug, Drop)]
pub struct Statistics {
    alloc: Global,
    files: Vec<Arc<Stats>>,
    // None where a file was set or dropped since it was made.
    delegations: Option<Arc<Delegations>>,
}

impl Model for Statistics {
    ghost use Rattle.std.specs.Prelude.{List, map};
    ghost use Rattle.std.specs.Arc.{arc_value};
    ghost use Rattle.geo_terms.specs.SourceForm.{StatsParts};
    ghost use Rattle.precedence.specs.Delegations.{AreFiles};

    ghost Value = { List StatsParts };

    ghost view = { λ s. map arc_value s.files.items };

    ghost invariant = { λ s. AreFiles s.files.items s.delegations };
}

impl Statistics {
    ghost use Rattle.std.specs.Prelude.{◌≡◌, [], map, flat_map, option_map, IfOk, IfErr, OnOk};
    ghost use Rattle.std.specs.Prelude.{OnErr, Some, None};
    ghost use Rattle.std.specs.Arc.{arc_value};
    ghost use Rattle.std.specs.Option.{option_copied};
    ghost use Rattle.geo_terms.specs.First.{first_at};
    ghost use Rattle.geo_terms.specs.Precedence.{delegation_before};
    ghost use Rattle.geo_terms.specs.SlotOrder.{AreInOrder, placed, removed};
    ghost use Rattle.source_changes.specs.Changes.{named};
    ghost use Rattle.precedence.specs.Delegations.{IsIndex};
    ghost use Rattle.authority.specs.declared.fault.DropFault.{DropFault};

    /// No files.
    pub fn new(alloc: Global) -> Statistics
        ensures { result ≡ [] }
    {
        Statistics {
            alloc,
            files: Vec::new(alloc),
            delegations: None,
        }
    }

    /// Sets a file, which replaces the one with the same slot, and hands the old one back. No
    /// delegation is looked at.
    pub fn set(&mut self, stats: Stats) -> Result<Option<Arc<Stats>>, Memory>
        ensures new { OnOk result (self.new ≡ placed (λ t. t.slot) stats self.old) }
        ensures old { IfOk result
            (λ old. option_map arc_value old ≡ named (λ t. t.slot) stats.slot self.old) }
        ensures err { OnErr result (self.new ≡ self.old) }
    {
        let stats = Arc::new(self.alloc, stats)?;
        let old = shelf::put(&mut self.files, stats)?;
        self.delegations = None;
        Ok(old)
    }

    /// Takes the file of a slot out of force, and hands it back. It takes no memory.
    pub fn remove(&mut self, slot: &str) -> Result<Arc<Stats>, DropFault>
        ensures new { OnOk result (self.new ≡ removed (λ t. t.slot) slot.now self.old) }
        ensures old { IfOk result
            (λ old. Some (arc_value old) ≡ named (λ t. t.slot) slot.now self.old) }
        ensures not_there { IfErr result (λ fault. (fault ≡ DropFault.NotThere)
            × (named (λ t. t.slot) slot.now self.old ≡ None)) }
        ensures err { OnErr result (self.new ≡ self.old) }
    {
        match shelf::take(&mut self.files, slot) {
            Some(old) => {
                self.delegations = None;
                Ok(old)
            }
            None => Err(DropFault::NotThere),
        }
    }

    /// Makes the index of all delegations, where files changed since.
    pub fn make_ready(&mut self) -> Result<(), Memory>
        ensures { self.new ≡ self.old }
    {
        let delegations = self.delegations()?;
        self.delegations = Some(delegations);
        Ok(())
    }

    /// The index of all delegations, file by file: the one that is kept, or a new one.
    pub fn delegations(&self) -> Result<Arc<Delegations>, Memory>
        ensures { IfOk result (λ made. IsIndex self.now (arc_value made)) }
    {
        match shared(&self.delegations)? {
            Some(made) => Ok(made),
            None => indexed(self.alloc, self.files.as_slice()),
        }
    }

    /// The files in force, ascending by the bytes of their slots.
    pub fn files(&self) -> &[Arc<Stats>]
        ensures files { map arc_value result.now ≡ self.now }
        ensures ascending { AreInOrder (λ t. t.slot) self.now }
    {
        self.files.as_slice()
    }

    /// The file of a slot, by halving.
    pub fn file_of(&self, slot: &str) -> Option<&Stats>
        ensures { option_copied result ≡ named (λ t. t.slot) slot.now self.now }
    {
        let file = shelf::get(self.files.as_slice(), slot)?;
        Some(file)
    }

    /// How many cut points are kept, or how many delegations there are.
    pub fn count(&self) -> usize {
        if let Some(made) = &self.delegations {
            return made.index.cuts().len();
        }
        let mut count: usize = 0;
        for file in self.files.as_slice() {
            count = count.saturating_add(file.rows.as_slice().len());
        }
        count
    }

    /// The first delegation that holds an address. It is looked for first where `near` says, which
    /// is then where it was found; any number serves.
    pub fn first_near(&self, at: Addr, near: &mut usize) -> Option<&Delegation>
        ensures { option_copied result
            ≡ first_at delegation_before (λ d. d.range) (flat_map (λ t. t.rows) self.now) at.0 }
    {
        let Some(made) = &self.delegations else {
            return first_of_all(self.files.as_slice(), at);
        };
        let index = made.index.firsts.index_near(at, near)?;
        delegation_at(self.files.as_slice(), made.starts.as_slice(), index)
    }

    /// The same files once more, shared.
    pub fn snapshot(&self) -> Result<Statistics, Memory>
        ensures { IfOk result (λ same. same ≡ self.now) }
    {
        Ok(Statistics {
            alloc: self.alloc,
            files: self.files.clone()?,
            delegations: shared(&self.delegations)?,
        })
    }
}

// The index once more, shared.
fn shared(made: &Option<Arc<Delegations>>) -> Result<Option<Arc<Delegations>>, Memory>
    ensures { IfOk result (λ same. option_map arc_value same ≡ option_map arc_value made.now) }
{
    match made {
        Some(made) => {
            let made = Arc::try_clone(made)?;
            Ok(Some(made))
        }
        None => Ok(None),
    }
}
