//! What the sources say of each segment, cut and looked up by pieces side by side.
ghost use Rattle.std.specs.Prelude.{◌≡◌, ◌++◌, ◌∷◌, ◌||◌, [], filter, is_some, not, IfOk, IsTrue};
ghost use Rattle.std.specs.Prelude.{List, OnOk, Option};
ghost use Rattle.std.specs.Option.{option_copied};
ghost use Rattle.geo_terms.specs.PlaceForm.{PlaceParts};
ghost use Rattle.update_session.specs.Build.{AreChosen, IsAllTouched, IsChosen, StandFor};
ghost use Rattle.update_session.specs.Build.{is_wanted};
ghost use Rattle.update_session.specs.Kept.{GrowsBy};

use crate::numbering::leaf_of;
use fan_work::{Forks, Work, map_pieces};
use geo_addr::{Memory, Range};
use geo_outside::Gate;
use geo_terms::{Place, Places};
use precedence::{Near, Sources};
use source_changes::GroundList;
use std::alloc::Global;
use std::marker::Sync;
use std::thread::Threads;

/// What is said in a chunk of the address space: its segments, the places that are said of them,
/// and for each segment the number of its own among them, or 0 where nothing is said of it.
#[derive(Drop)]
pub(crate) struct Chosen {
    pub(crate) segments: Vec<Range>,
    pub(crate) places: Places,
    pub(crate) leaves: Vec<u32>,
}

/// Work that cuts what is touched of a chunk, and asks what the sources say of its segments.
///
/// Where nothing was said before, all that is said is touched: then the chunk is cut at all cut
/// points, with no look at the touched grounds, and what nothing is said of is left out.
#[derive(Drop)]
struct Choosing<'a, 'b> {
    alloc: Global,
    sources: &'a Sources,
    touched: &'b GroundList,
    blank: bool,
}

impl<'a, 'b> Work<Range, Chosen> for Choosing<'a, 'b> {
    ghost use Rattle.std.specs.Prelude.{IsTrue};
    ghost use Rattle.update_session.specs.Build.{IsAllTouched, IsChosenIn};

    ghost related = { λ work chunk chosen.
        (IsTrue work.blank → IsAllTouched work.sources.now work.touched.now)
        → IsChosenIn work.sources.now work.touched.now work.blank chunk chosen };

    fn done(&self, item: &Range) -> Result<Chosen, Memory> {
        let segments = if self.blank {
            self.sources.pieces_in(*item)?
        } else {
            self.sources.segments_in(self.touched, *item)?
        };
        let chosen = chosen_in(self.alloc, self.sources, segments, self.blank)?;
        Ok(chosen)
    }
}

/// What the sources say in the touched grounds, chunk by chunk, cut and looked up by pieces that
/// enter the gate. It is `blank` where nothing was said before.
pub(crate) fn choose<R: Threads + Sync, G: Gate>(
    forks: &Forks<R, G>,
    sources: &Sources,
    touched: &GroundList,
    blank: bool,
) -> Result<Vec<Chosen>, Memory>
    requires { IsTrue blank → IsAllTouched sources.now touched.now }
    ensures { IfOk result
        (λ chosen. AreChosen sources.entry.now touched.entry.now blank chosen.items) }
{
    let chunks = sources.chunks(touched, forks.pieces)?;
    let work = Choosing {
        alloc: forks.alloc,
        sources,
        touched,
        blank,
    };
    let chosen = map_pieces(
        forks.rt,
        forks.alloc,
        forks.gate,
        forks.pieces,
        chunks.as_slice(),
        &work,
    )?;
    Ok(chosen)
}

// What the sources say of those of these segments that are wanted, which stay in the room of all.
fn chosen_in(
    alloc: Global,
    sources: &Sources,
    segments: Vec<Range>,
    blank: bool,
) -> Result<Chosen, Memory>
    ensures segments { IfOk result (λ chosen.
        chosen.segments.items ≡ filter (is_wanted sources.now blank) segments.items) }
    ensures chosen { IfOk result (IsChosen sources.now) }
{
    let mut segments = segments;
    let mut places = Places::new(alloc);
    let mut leaves = Vec::with_capacity(alloc, segments.len())?;
    let mut near = Near::default();
    let mut kept = 0;
    for at in 0..segments.len() {
        let segment = segments[at];
        let said = sources.choice_near(segment, &mut near);
        if is_wanted(blank, said) {
            note(&mut places, &mut leaves, said)?;
            segments[kept] = segment;
            kept += 1;
        }
    }
    segments.truncate(kept);
    Ok(Chosen {
        segments,
        places,
        leaves,
    })
}

// Whether a segment is wanted of which this is said.
fn is_wanted(blank: bool, said: Option<&Place>) -> bool
    ensures { result ≡ (not blank || is_some (option_copied said.entry)) }
{
    !blank || said.is_some()
}

// Puts the number of what is said of one segment more behind the others.
fn note(places: &mut Places, leaves: &mut Vec<u32>, said: Option<&Place>) -> Result<(), Memory>
    ensures stands { OnOk result ((before : List (Option PlaceParts))
        → StandFor places.old leaves.old.items before
        → StandFor places.new leaves.new.items (before ++ option_copied said.entry ∷ [])) }
    ensures places { OnOk result (GrowsBy places.old places.new 1) }
{
    // A table of a chunk is full only where no memory holds the chunk's segments.
    let Ok(leaf) = leaf_of(places, said) else {
        return Err(Memory);
    };
    leaves.push(leaf)?;
    Ok(())
}
