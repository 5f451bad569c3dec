//! The pairs of a store's nodes, each found by the later of its two children.
ghost use Rattle.std.specs.Prelude.{◌≡◌, ◌+◌, ◌-◌, ◌^◌, ◌<◌, ◌≤◌, ◌++◌, ◌∷◌, [], ◌↔◌};
ghost use Rattle.std.specs.Prelude.{length, replicate, slice_get, Some, Contains, MatchOption};
ghost use Rattle.std.specs.Prelude.{IfOk, OnOk, OnErr, IsErrOf};
ghost use Rattle.trie_core.specs.Pairs.{number_or_zero, later, AreFound};
ghost use Rattle.trie_core.specs.Store.{IsAdded};

use crate::fault::StoreFault;
use crate::node::{Pair, Rec};
use crate::others::{Others, Told, at_slot};
use geo_addr::Memory;
use std::alloc::Global;
use std::marker::Model;

/// The most nodes that a store holds: one less than there are node numbers.
const MOST_NODES: usize = 0xffff_ffff;

/// The most slots that are made before a node needs them.
const MOST_SPARE_SLOTS: usize = 4096;

/// The pairs of a store in the order in which they came, each once.
///
/// Most nodes become a child of one other node alone, right after they were made, or of one on each
/// side. So the first pair that has a node as its later child on one side is found at a slot that
/// follows from that node's number, with no hash; only the other pairs are in a table.
#[derive(Drop)]
pub(crate) struct Pairs {
    pairs: Vec<Pair>,
    // At the slot of its later child one more than the number of the first pair with that slot, and
    // 0 where there is none. A node has two slots, for where it is a left and where a right child.
    firsts: Vec<u32>,
    // The numbers of the pairs that are no first ones.
    others: Others,
}

impl Model for Pairs {
    ghost use Rattle.std.specs.Prelude.{List};
    ghost use Rattle.trie_core.specs.declared.node.Pair.{Pair};
    ghost use Rattle.trie_core.specs.Pairs.{AreFound};

    ghost Value = { List Pair };

    ghost view = { λ s. s.pairs.items };

    ghost invariant = { λ s. AreFound s.pairs.items s.firsts.items s.others.slots.items
        s.others.crowded };
}

impl Pairs {
    /// No pairs; it takes no memory.
    pub(crate) fn new(alloc: Global) -> Pairs
        ensures { result ≡ [] }
    {
        Pairs {
            pairs: Vec::new(alloc),
            firsts: Vec::new(alloc),
            others: Others::new(alloc),
        }
    }

    /// The number of pairs.
    pub(crate) fn len(&self) -> usize
        ensures len { result ≡ length self.now }
        ensures few { length self.now < 2 ^ 32 }
    {
        self.pairs.len()
    }

    /// The pair with this number.
    pub(crate) fn at(&self, number: u32) -> Pair
        requires { number < length self.now }
        ensures { slice_get self.now number ≡ Some result }
    {
        self.pairs[number as usize]
    }

    /// The number of the pair, which goes last where it is not yet there.
    #[inline(always)]
    pub(crate) fn add(&mut self, pair: Pair) -> Result<u32, StoreFault>
        ensures at { IfOk result (λ k. slice_get self.new k ≡ Some pair) }
        ensures ok { IfOk result (λ k. IsAdded self.old self.new pair) }
        ensures err { OnErr result (self.new ≡ self.old) }
        ensures refused { OnErr result (Contains self.old pair → ⊥) }
        ensures full { IsErrOf result StoreFault.Full
            ↔ ((length self.old + 1 ≡ 2 ^ 32) × (Contains self.old pair → ⊥)) }
        ensures few { length self.new < 2 ^ 32 }
    {
        if let Some(number) = self.find(pair) {
            return Ok(number);
        }
        if self.len() == MOST_NODES {
            return Err(StoreFault::Full);
        }
        match self.push(pair) {
            Ok(number) => Ok(number),
            Err(_) => Err(StoreFault::Memory),
        }
    }

    // The number of the pair, if it is there.
    #[inline(always)]
    fn find(&self, pair: Pair) -> Option<u32>
        ensures found { MatchOption result (Contains self.now pair → ⊥)
            (λ k. slice_get self.now k ≡ Some pair) }
        ensures few { length self.now < 2 ^ 32 }
    {
        let (pairs, firsts) = (self.pairs.as_slice(), self.firsts.as_slice());
        match at_slot(pairs, firsts, later(pair), pair) {
            Told::Held(number) => Some(number),
            Told::Missing => None,
            Told::Unknown => self.others.find(pairs, firsts, pair),
        }
    }

    // Puts a new pair last, and gives its number.
    #[inline(always)]
    fn push(&mut self, pair: Pair) -> Result<u32, Memory>
        requires few { length self.old + 1 < 2 ^ 32 }
        requires new { Contains self.old pair → ⊥ }
        ensures number { IfOk result (λ k. k ≡ length self.old) }
        ensures pushed { OnOk result (self.new ≡ self.old ++ pair ∷ []) }
        ensures err { OnErr result (self.new ≡ self.old) }
    {
        let number = self.pairs.len() as u32;
        self.pairs.reserve(1)?;
        let pairs = self.pairs.as_slice();
        note_number(&mut self.firsts, &mut self.others, pairs, pair, number)?;
        self.pairs.push_reserved(pair);
        Ok(number)
    }
}

// Puts the number of a new pair at the slot of its later child, or among the others.
#[inline(always)]
fn note_number(
    firsts: &mut Vec<u32>,
    others: &mut Others,
    pairs: &[Pair],
    pair: Pair,
    number: u32,
) -> Result<(), Memory>
    requires number { number ≡ length pairs.now }
    requires few { number + 1 < 2 ^ 32 }
    requires found { AreFound pairs.now firsts.old.items others.old.slots.items
        others.old.crowded }
    requires new { Contains pairs.now pair → ⊥ }
    ensures noted { OnOk result (AreFound (pairs.now ++ pair ∷ []) firsts.new.items
        others.new.slots.items others.new.crowded) }
    ensures err { OnErr result (AreFound pairs.now firsts.new.items others.new.slots.items
        others.new.crowded) }
{
    let at = later(pair);
    make_room(firsts, at)?;
    if firsts[at] == 0 {
        firsts[at] = number + 1;
        return Ok(());
    }
    others.put(pairs, firsts.as_slice(), pair, number)
}

// Puts zeros behind the list until it has this index.
fn make_room(list: &mut Vec<u32>, index: usize) -> Result<(), Memory>
    requires { index < 2 ^ 33 }
    ensures zeros { list.new.items
        ≡ list.old.items ++ replicate (length list.new.items - length list.old.items) 0 }
    ensures within { OnOk result (index < length list.new.items) }
    ensures err { OnErr result (list.new.items ≡ list.old.items) }
{
    if index < list.len() {
        return Ok(());
    }
    lengthen(list, index)
}

// Puts zeros behind the list, and some spare ones, so that most new nodes find their slot there.
#[inline(never)]
fn lengthen(list: &mut Vec<u32>, index: usize) -> Result<(), Memory>
    requires small { index < 2 ^ 33 }
    requires beyond { length list.old.items ≤ index }
    ensures zeros { list.new.items
        ≡ list.old.items ++ replicate (length list.new.items - length list.old.items) 0 }
    ensures within { OnOk result (index < length list.new.items) }
    ensures err { OnErr result (list.new.items ≡ list.old.items) }
{
    let spare = (index / 4).min(MOST_SPARE_SLOTS);
    list.resize(index + 1 + spare, 0)?;
    Ok(())
}

// The slot of the later child of a pair. Pairs of two leaves have the right slot of node 0.
pub(crate) fn later(pair: Pair) -> usize
    ensures slot { result ≡ later pair }
    ensures few { result < 2 ^ 33 }
{
    let left = number_or_zero(pair.left) as usize;
    let right = number_or_zero(pair.right) as usize;
    (2 * left).max(2 * right + 1)
}

// The number of a node, and 0 of a leaf.
fn number_or_zero(rec: Rec) -> u32
    ensures { result ≡ number_or_zero rec }
{
    match rec {
        Rec::Leaf(_) => 0,
        Rec::Node(id) => id.0,
    }
}
