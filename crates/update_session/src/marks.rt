//! States of a session that were marked, to go back to.
ghost use Rattle.std.specs.Prelude.{◌≡◌, ◌∷◌, length, map, IfOk, OnOk, OnErr};
ghost use Rattle.std.specs.Option.{option_copied};
ghost use Rattle.geo_terms.specs.SlotOrder.{AreInOrder, placed};
ghost use Rattle.source_changes.specs.Changes.{named};
ghost use Rattle.update_session.specs.Marks.{with_roots};

use crate::grounds::Grounds;
use geo_addr::{Memory, Text};
use precedence::Sources;
use source_changes::shelf;
use source_changes::shelf::Named;
use std::alloc::Global;
use std::marker::Model;
use std::sync::Arc;
use trie_core::Root;

/// The sources, the root and the touched grounds of a session when it was marked.
#[derive(Drop)]
pub(crate) struct Mark {
    pub(crate) name: Text,
    pub(crate) sources: MarkedSources,
    pub(crate) root: Root,
    pub(crate) touched: Grounds,
}

impl Named for Mark {
    ghost name = { λ m. m.name };

    fn name(&self) -> &str {
        self.name.as_str()
    }
}

/// Sources that were marked. They stand apart, so that marks are moved cheaply on their shelf.
#[derive(Drop)]
pub(crate) struct MarkedSources {
    sources: Arc<Sources>,
}

impl Model for MarkedSources {
    ghost use Rattle.std.specs.Arc.{arc_value};
    ghost use Rattle.geo_terms.specs.Sources.{InForce};

    ghost Value = { InForce };

    ghost view = { λ m. arc_value m.sources };
}

impl MarkedSources {
    ghost use Rattle.std.specs.Prelude.{◌≡◌, IfOk};

    // These sources, shared.
    fn of(alloc: Global, sources: &Sources) -> Result<MarkedSources, Memory>
        ensures { IfOk result (λ marked. marked ≡ sources.now) }
    {
        let sources = sources.snapshot()?;
        let sources = Arc::new(alloc, sources)?;
        Ok(MarkedSources { sources })
    }

    /// The same sources once more, shared.
    pub(crate) fn snapshot(&self) -> Result<Sources, Memory>
        ensures { IfOk result (λ same. same ≡ self.now) }
    {
        let same = self.sources.snapshot()?;
        Ok(same)
    }
}

/// A mark of this name. The sources and the grounds are shared.
pub(crate) fn make_mark(
    alloc: Global,
    name: &str,
    sources: &Sources,
    root: Root,
    touched: Grounds,
) -> Result<Mark, Memory>
    ensures { IfOk result (λ mark. mark
        ≡ record { name = name.now; sources = sources.now; root = root; touched = touched }) }
{
    let name = Text::of(alloc, name)?;
    let sources = MarkedSources::of(alloc, sources)?;
    Ok(Mark {
        name,
        sources,
        root,
        touched,
    })
}

/// The mark of a name, by halving.
pub(crate) fn find_mark<'a>(marks: &'a [Mark], name: &str) -> Option<&'a Mark>
    requires { AreInOrder (λ m. m.name) marks.now }
    ensures { option_copied result ≡ named (λ m. m.name) name.now marks.entry.now }
{
    let mark = shelf::get(marks, name)?;
    Some(mark)
}

/// Puts a mark over the one with its name, or where it belongs in the order of names.
pub(crate) fn put_mark(marks: &mut Vec<Mark>, mark: Mark) -> Result<(), Memory>
    requires { AreInOrder (λ m. m.name) marks.old.items }
    ensures ok { OnOk result (marks.new.items ≡ placed (λ m. m.name) mark marks.old.items) }
    ensures order { AreInOrder (λ m. m.name) marks.new.items }
    ensures err { OnErr result (marks.new.items ≡ marks.old.items) }
{
    let _ = shelf::put(marks, mark)?;
    Ok(())
}

/// The roots of the marks, behind this one.
pub(crate) fn all_roots(alloc: Global, root: Root, marks: &[Mark]) -> Result<Vec<Root>, Memory>
    ensures { IfOk result (λ roots. roots.items ≡ root ∷ map (λ m. m.root) marks.now) }
{
    let mut roots = Vec::with_capacity(alloc, marks.len().saturating_add(1))?;
    roots.push(root)?;
    for mark in marks {
        roots.push(mark.root)?;
    }
    Ok(roots)
}

/// Gives each mark the root that stands at its index.
pub(crate) fn give_roots(marks: &mut Vec<Mark>, roots: &[Root])
    requires { length marks.old.items ≡ length roots.now }
    ensures { marks.new.items ≡ with_roots marks.old.items roots.now }
{
    set_roots(marks.as_mut_slice(), roots);
}

fn set_roots(marks: &mut [Mark], roots: &[Root])
    requires { length marks.old ≡ length roots.now }
    ensures { marks.new ≡ with_roots marks.old roots.now }
{
    for (at, mark) in marks.iter_mut().enumerate() {
        mark.root = roots[at];
    }
}
