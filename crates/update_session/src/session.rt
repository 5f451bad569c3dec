//! A session over sources.

use crate::build::repaint;
use crate::fault::EmitFault;
use crate::grounds::Grounds;
use crate::marks::Mark;
use crate::write::{means_records, write};
use fan_work::Forks;
use geo_addr::{Addr, Memory};
use geo_outside::{Gate, Steps};
use geo_terms::{Note, Places};
use mmdb_file::{Emitted, Meta};
use precedence::{Sources, Why};
use source_changes::GroundList;
use std::alloc::Global;
use std::marker::{Model, Sync};
use std::sync::ledger::Ledger;
use std::thread::Threads;
use trie_core::{Root, Store};

/// Sources in force, what the metadata of their files tells, the tree of the last emit with what
/// was touched since, and the marks to which it can go back.
///
/// After any refusal the session stands for the same sources as before the call.
#[derive(Drop)]
pub struct Session {
    pub(crate) alloc: Global,
    meta: Meta,
    pub(crate) sources: Sources,
    pub(crate) store: Store,
    pub(crate) places: Places,
    pub(crate) root: Root,
    pub(crate) touched: GroundList,
    // The touched grounds in the list of the last mark, if they have not changed since.
    pub(crate) noted: Option<Grounds>,
    pub(crate) marks: Vec<Mark>,
}

impl Model for Session {
    ghost use Rattle.std.specs.Prelude.{◌≤◌, length};
    ghost use Rattle.update_session.specs.Kept.{Held, IsNoted, IsSession};

    ghost Value = { Held };

    ghost view = { λ s. record {
      state = record { sources = s.sources; epoch = s.meta.epoch; name = s.meta.name };
      store = s.store;
      places = s.places;
      root = s.root;
      touched = s.touched;
      marks = s.marks.items;
    } };

    ghost invariant = { λ s. ((length s.meta.name ≤ 64) × IsNoted s.noted s.touched)
        × IsSession s.sources s.store s.places s.root s.touched s.marks.items };
}

impl Session {
    ghost use Rattle.std.specs.Prelude.{◌≡◌, ◌⊎◌, ◌≤◌, ◌<◌, ◌+◌, ◌^◌, ℕ, List, Option, [], length};
    ghost use Rattle.std.specs.Prelude.{IfOk, OnOk, OnErr, IsTrue, Some, Ok, Err, option_map};
    ghost use Rattle.fan_work.specs.declared.forks.TheConstants.{MOST_PIECES};
    ghost use Rattle.geo_addr.specs.Bits.{bits_of};
    ghost use Rattle.geo_terms.specs.PlaceForm.{PlaceParts};
    ghost use Rattle.geo_terms.specs.Precedence.{reasons_at, record_at};
    ghost use Rattle.geo_terms.specs.Report.{report};
    ghost use Rattle.geo_terms.specs.Sources.{InForce};
    ghost use Rattle.least_nodes.specs.NodeList.{Member};
    ghost use Rattle.least_nodes.specs.Laws.{Finds};
    ghost use Rattle.mmdb_file.specs.FileImage.{record_tree};
    ghost use Rattle.mmdb_file.specs.PlaceValue.{place_value};
    ghost use Rattle.mmdb_file.specs.Walk.{nodes_told, walk};
    ghost use Rattle.mmdb_file.specs.Writing.{place_tree};
    ghost use Rattle.precedence.specs.Why.{reasons_of};
    ghost use Rattle.trie_core.specs.Store.{IsRootOf};
    ghost use Rattle.update_session.specs.Calls.{HasEmitted, HasGrown, IsAsBefore, IsNew, IsSpent};
    ghost use Rattle.update_session.specs.Kept.{RootMeans};
    ghost use Rattle.update_session.specs.State.{file_of, value_of, is_too_large};
    ghost use Rattle.update_session.specs.Touch.{bound};

    /// A session without sources. The name is the database type of its files.
    pub fn new(alloc: Global, meta: Meta) -> Result<Session, Memory>
        requires { length meta.name ≤ 64 }
        ensures { IfOk result (IsNew meta.epoch meta.name) }
    {
        let store = Store::new(alloc);
        let root = store.empty();
        Ok(Session {
            alloc,
            meta,
            sources: Sources::new(alloc),
            store,
            places: Places::new(alloc),
            root,
            touched: GroundList::new(alloc),
            noted: None,
            marks: Vec::new(alloc),
        })
    }

    /// The sources in force.
    pub fn sources(&self) -> &Sources
        ensures { result.now ≡ self.now.state.sources }
    {
        &self.sources
    }

    /// The notes of all sources, in the order of a report.
    pub fn report(&self) -> Result<Vec<Note>, Memory>
        ensures { IfOk result (λ notes. notes.items ≡ report self.now.state.sources) }
    {
        self.sources.report()
    }

    /// Why an address has its record. It takes no memory.
    pub fn why_at(&self, at: Addr) -> Why<'_>
        ensures { reasons_of result ≡ reasons_at self.now.state.sources at.0 }
    {
        self.sources.why_at(at)
    }

    /// The file of a fresh build of the sources in force.
    ///
    /// What was touched since the last emit is painted into its tree, so the work of an emit
    /// follows what changed. What is said of the segments is looked up by so many pieces side by
    /// side, each of which enters the gate.
    /// Nodes and places that a refused emit made stay.
    #[tactic(auto, unfolding(crate::specs::Touch::bound))]
    pub fn emit<R: Threads + Sync, G: Gate, L: Ledger>(
        &mut self,
        rt: &R,
        gate: &G,
        pieces: u32,
        steps: &mut Steps<L>,
    ) -> Result<Emitted, EmitFault>
        requires some { 0 < pieces }
        requires few { pieces ≤ MOST_PIECES }
        ensures file { IfOk result (λ file. file_of self.old.state ≡ Some (value_of file)) }

        // Whoever follows the public standard through the bytes comes to the
        // value of the address's record.
        ensures walked { IfOk result (λ file. (a : ℕ) → a < 2 ^ 128
            → walk file.bytes.items (bits_of 128 a)
            ≡ Ok (option_map place_value (record_at self.old.state.sources a))) }

        // No list of nodes that answers the record at every address is shorter.
        ensures fewest { IfOk result
            (λ file. (nodes : List (Member (Option PlaceParts) × Member (Option PlaceParts)))
            → Finds 128 nodes (record_at self.old.state.sources) → file.nodes ≤ length nodes) }

        // The count is the one that whoever opens the bytes reads in them.
        ensures told { IfOk result (λ file. nodes_told file.bytes.items ≡ Some file.nodes) }
        ensures too_large { result ≡ Err EmitFault.TooLarge
            → IsTrue (is_too_large self.old.state) ⊎ IsSpent self.old }
        ensures ticks { steps.old ≤ steps.new }
        ensures few_ticks { steps.new ≤ steps.old + bound self.old.touched self.old.state.sources }
        ensures grown { HasGrown self.old self.new }
        ensures ok { OnOk result (HasEmitted self.old self.new) }
        ensures err { OnErr result (IsAsBefore self.old self.new) }

        // With nothing touched no step is taken and nothing is made.
        ensures idle { self.old.touched ≡ [] → (self.new ≡ self.old) × (steps.new ≡ steps.old) }
    {
        let alloc = self.alloc;
        let forks = Forks {
            rt,
            alloc,
            gate,
            pieces,
        };
        let root = repaint(
            &forks,
            &mut self.sources,
            &self.touched,
            &mut self.store,
            &mut self.places,
            self.root,
            steps,
        )?;
        let file = write(self.alloc, &self.store, &self.places, root, &self.meta)?;
        self.root = root;
        self.touched.clear();
        self.noted = None;
        Ok(file)
    }

    /// Does an emit without its file: the root of the tree of the sources in force.
    #[tactic(auto, unfolding(crate::specs::Touch::bound))]
    pub fn build_tree<R: Threads + Sync, G: Gate, L: Ledger>(
        &mut self,
        rt: &R,
        gate: &G,
        pieces: u32,
        steps: &mut Steps<L>,
    ) -> Result<Root, EmitFault>
        requires some { 0 < pieces }
        requires few { pieces ≤ MOST_PIECES }
        ensures root { IfOk result (λ root. self.new.root ≡ root) }
        ensures too_large { result ≡ Err EmitFault.TooLarge → IsSpent self.old }
        ensures ticks { steps.old ≤ steps.new }
        ensures few_ticks { steps.new ≤ steps.old + bound self.old.touched self.old.state.sources }
        ensures grown { HasGrown self.old self.new }
        ensures ok { OnOk result (HasEmitted self.old self.new) }
        ensures err { OnErr result (IsAsBefore self.old self.new) }
        ensures idle { self.old.touched ≡ [] → (self.new ≡ self.old) × (steps.new ≡ steps.old) }
    {
        let alloc = self.alloc;
        let forks = Forks {
            rt,
            alloc,
            gate,
            pieces,
        };
        let root = repaint(
            &forks,
            &mut self.sources,
            &self.touched,
            &mut self.store,
            &mut self.places,
            self.root,
            steps,
        )?;
        self.root = root;
        self.touched.clear();
        self.noted = None;
        Ok(root)
    }

    /// The nodes of all emits.
    pub fn store(&self) -> &Store
        ensures { result.now ≡ self.now.store }
    {
        &self.store
    }

    /// The places of all emits, whose numbers are the leaves of the nodes.
    pub fn places(&self) -> &Places
        ensures { result.now ≡ self.now.places }
    {
        &self.places
    }

    /// The root of the last emit that was not refused, and that of no sources before there is one.
    pub fn root(&self) -> Root
        ensures same { result ≡ self.now.root }
        ensures of { IsRootOf self.now.store result }

        // Its tree, with the places that the leaves number, is that of those sources.
        ensures tree { (s : InForce) → RootMeans self.now s
            → place_tree self.now.places self.now.store result ≡ record_tree s }
    {
        means_records(&self.store, self.root, &self.places);
        self.root
    }

    /// The grounds of the statements that came or went since, in any order: each ground as often as
    /// there is such a statement.
    pub fn touched(&self) -> &GroundList
        ensures { result.now ≡ self.now.touched }
    {
        &self.touched
    }
}
