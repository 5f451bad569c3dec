//! The first of several ranges that holds an address, by halving.
ghost use Rattle.std.specs.Prelude.{◌≡◌, ◌++◌, IfOk, OnOk, All, slice_get, []};
ghost use Rattle.geo_addr.specs.Ranges.{IsRange};
ghost use Rattle.first_index.specs.Boundaries.{AreBoundaries};
ghost use Rattle.first_index.specs.Edges.{edges_of, edges_from, after_edge, sweep};
ghost use Rattle.first_index.specs.Nested.{StandAtEdges};

use geo_addr::{Memory, Range};
use std::alloc::Global;
use std::collections::BTreeSet;

// From this address on, up to the next boundary, `first` is the index in the list of the first
// range that holds.
#[derive(Clone, Copy, Debug)]
pub struct Boundary {
    pub at: u128,
    pub first: Option<usize>,
}

// A ground begins at this address, or has ended.
#[derive(Clone, Copy)]
struct Edge {
    at: u128,
    rank: usize,
    opens: bool,
}

// The boundaries of ranges of which an earlier one goes before a later one.
pub fn boundaries_of(alloc: Global, ranges: &[Range]) -> Result<Vec<Boundary>, Memory>
    ensures tell { IfOk result (λ boundaries. AreBoundaries ranges.now boundaries.items) }
    ensures stand { IfOk result (λ boundaries. StandAtEdges ranges.now boundaries.items) }
{
    let mut edges = edges_of(alloc, ranges)?;
    edges.sort_unstable_by_key(|edge| edge.at);
    let boundaries = sweep(alloc, edges.as_slice())?;
    Ok(boundaries)
}

fn edges_of(alloc: Global, ranges: &[Range]) -> Result<Vec<Edge>, Memory>
    ensures edges { IfOk result (λ edges. edges.items ≡ edges_from 0 ranges.now) }
    ensures ranges { OnOk result (All IsRange ranges.now) }
{
    let mut edges = Vec::with_capacity(alloc, ranges.len().saturating_mul(2))?;
    for (rank, range) in ranges.iter().enumerate() {
        push_edges(&mut edges, rank, *range)?;
    }
    Ok(edges)
}

fn push_edges(edges: &mut Vec<Edge>, rank: usize, range: Range) -> Result<(), Memory>
    ensures edges { OnOk result (edges.new.items ≡ edges.old.items ++ edges_of rank range) }
    ensures range { OnOk result (IsRange range) }
{
    edges.push(Edge {
        at: range.ground_first(),
        rank,
        opens: true,
    })?;
    if range.last < u128::MAX {
        edges.push(Edge {
            at: range.last + 1,
            rank,
            opens: false,
        })?;
    }
    Ok(())
}

// One pass over the edges in order, with the ranks of the ranges that hold.
fn sweep(alloc: Global, edges: &[Edge]) -> Result<Vec<Boundary>, Memory>
    ensures { IfOk result (λ boundaries. boundaries.items ≡ sweep [] edges.now) }
{
    let mut boundaries = Vec::with_capacity(alloc, edges.len())?;
    let mut ranks = BTreeSet::new(alloc);
    for edge in edges {
        pass(&mut ranks, *edge)?;
        boundaries.push(Boundary {
            at: edge.at,
            first: least(&ranks),
        })?;
    }
    Ok(boundaries)
}

fn pass(ranks: &mut BTreeSet<usize>, edge: Edge) -> Result<(), Memory>
    ensures { OnOk result (ranks.new.keys ≡ after_edge ranks.old.keys edge) }
{
    if edge.opens {
        ranks.insert(edge.rank)?;
    } else {
        ranks.remove(&edge.rank);
    }
    Ok(())
}

fn least(ranks: &BTreeSet<usize>) -> Option<usize>
    ensures { result ≡ slice_get ranks.now.keys 0 }
{
    ranks.first().copied()
}
