//! The overrides in force.
ghost use Rattle.std.specs.Prelude.{◌≡◌, IfOk};
ghost use Rattle.std.specs.Arc.{arc_value};
ghost use Rattle.geo_terms.specs.Precedence.{override_cmp};
ghost use Rattle.authority.specs.Kinds.{IsKindIndex};

use crate::aliases::note_overrides;
use crate::notes::push_notes;
use authority::KindIndex;
use geo_addr::{Addr, Memory};
use geo_terms::{Note, Origin, Override, Overrides};
use std::alloc::Global;
use std::marker::Model;
use std::mem;
use std::sync::Arc;

// The overrides, and the index of their rows.
#[derive(Debug, Drop)]
struct Held {
    overrides: Arc<Overrides>,
    index: Arc<KindIndex>,
}

/// The overrides in force, if there are any, with the index of their rows.
#[derive(Debug, Drop)]
pub struct Overriding {
    held: Option<Held>,
}

impl Model for Overriding {
    ghost use Rattle.std.specs.Prelude.{Option, option_map};
    ghost use Rattle.geo_terms.specs.SourceForm.{OverridesParts};
    ghost use Rattle.precedence.specs.Rows.{AreHeld, overrides_of};

    ghost Value = { Option OverridesParts };

    ghost view = { λ s. option_map overrides_of s.held };

    ghost invariant = { λ s. AreHeld s.held };
}

impl Overriding {
    ghost use Rattle.std.specs.Prelude.{◌≡◌, ◌++◌, flat_map, map, option_map, IfOk, IsOk, OnOk};
    ghost use Rattle.std.specs.Prelude.{OnErr, Some, None};
    ghost use Rattle.std.specs.Arc.{arc_value};
    ghost use Rattle.std.specs.Option.{option_copied};
    ghost use Rattle.geo_terms.specs.First.{first_at};
    ghost use Rattle.geo_terms.specs.Precedence.{override_before};
    ghost use Rattle.geo_terms.specs.Report.{alias_note, notes_in};
    ghost use Rattle.geo_terms.specs.Sources.{rows_in};
    ghost use Rattle.geo_terms.specs.declared.note.Origin.{Origin};
    ghost use Rattle.source_changes.specs.CutPoints.{AreCutsOf};

    /// No overrides.
    pub fn new() -> Overriding
        ensures { result ≡ None }
    {
        Overriding { held: None }
    }

    /// Sets overrides; those in force are handed back.
    pub fn set(
        &mut self,
        alloc: Global,
        overrides: Overrides,
    ) -> Result<Option<Arc<Overrides>>, Memory>
        ensures new { OnOk result (self.new ≡ Some overrides) }
        ensures old { IfOk result (λ old. option_map arc_value old ≡ self.old) }
        ensures err { OnErr result (self.new ≡ self.old) }
    {
        let new = indexed(alloc, overrides)?;
        let old = mem::replace(&mut self.held, Some(new));
        match old {
            Some(old) => Ok(Some(old.overrides)),
            None => Ok(None),
        }
    }

    /// Takes the overrides out of force, and hands them back.
    pub fn remove(&mut self) -> Option<Arc<Overrides>>
        ensures new { self.new ≡ None }
        ensures old { option_map arc_value result ≡ self.old }
    {
        let old = self.held.take()?;
        Some(old.overrides)
    }

    /// The overrides in force.
    pub fn overrides(&self) -> Option<&Arc<Overrides>>
        ensures { option_map arc_value (option_copied result) ≡ self.now }
    {
        let held = self.held.as_ref()?;
        Some(&held.overrides)
    }

    /// The first override that holds an address. It is looked for first where `near` says, which is
    /// then where it was found; any number serves.
    pub fn first_near(&self, at: Addr, near: &mut usize) -> Option<&Override>
        ensures { option_copied result
            ≡ first_at override_before (λ o. o.range) (rows_in self.now) at.0 }
    {
        let held = self.held.as_ref()?;
        let index = held.index.firsts.index_near(at, near)?;
        held.overrides.rows.as_slice().get(index)
    }

    /// Appends the notes.
    pub fn push_notes(&self, notes: &mut Vec<Note>) -> Result<(), Memory>
        ensures { OnOk result (notes.new.items ≡ notes.old.items ++ notes_in self.now) }
    {
        if let Some(held) = &self.held {
            push_notes(notes, &Origin::Overrides, held.overrides.notes.as_slice())?;
        }
        Ok(())
    }

    /// Appends the notes on rows that speak nowhere.
    pub fn push_alias_notes(&self, notes: &mut Vec<Note>) -> Result<(), Memory>
        ensures { OnOk result (notes.new.items ≡ notes.old.items
            ++ flat_map (λ o. alias_note Origin.Overrides o.range o.line) (rows_in self.now)) }
    {
        if let Some(held) = &self.held {
            note_overrides(notes, held.overrides.rows.as_slice())?;
        }
        Ok(())
    }

    /// The same overrides once more, shared.
    pub fn snapshot(&self) -> Result<Overriding, Memory>
        ensures { IfOk result (λ same. same ≡ self.now) }
    {
        let Some(held) = &self.held else {
            return Ok(Overriding { held: None });
        };
        let overrides = Arc::try_clone(&held.overrides)?;
        let index = Arc::try_clone(&held.index)?;
        let held = Held { overrides, index };
        Ok(Overriding { held: Some(held) })
    }

    /// The cut points of all rows.
    pub fn cuts(&self) -> &[u128]
        ensures { AreCutsOf (map (λ o. o.range) (rows_in self.now)) result.now }
    {
        match &self.held {
            Some(held) => held.index.cuts(),
            None => &[],
        }
    }
}

// Overrides with the index of their rows.
fn indexed(alloc: Global, overrides: Overrides) -> Result<Held, Memory>
    ensures overrides { IfOk result (λ held. arc_value held.overrides ≡ overrides) }
    ensures index { IfOk result
        (λ held. IsKindIndex override_cmp (λ o. o.range) overrides.rows (arc_value held.index)) }
{
    let index = KindIndex::of(alloc, overrides.rows.as_slice())?;
    let index = Arc::new(alloc, index)?;
    let overrides = Arc::new(alloc, overrides)?;
    Ok(Held { overrides, index })
}
