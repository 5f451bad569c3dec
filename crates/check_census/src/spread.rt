//! Addresses on their way from the nodes of a store to its leaves.
ghost use Rattle.std.specs.Prelude.{◌≡◌, ℕ, ◌+◌, ◌-◌, ◌^◌, ◌<◌, ◌≤◌, Bool, false, true, length};
ghost use Rattle.std.specs.Prelude.{slice_index, IfOk};
ghost use Rattle.trie_core.specs.Graft.{half};
ghost use Rattle.trie_core.specs.Tree.{height};
ghost use Rattle.trie_core.specs.Store.{meaning, IsBelow, IsOf};
ghost use Rattle.check_census.specs.Tally.{tally, IsEven, low_part, tally_beyond};
ghost use Rattle.check_census.specs.Spread.{AreWeights, GainsTally, IsPlain, ended_at, every};
ghost use Rattle.check_census.specs.Spread.{node_at, sum_of};

use geo_addr::Memory;
use std::alloc::Global;
use trie_core::{Rec, Store};

/// How many addresses wait at each node, by its number, and how many have ended at each leaf, by
/// its number. Slot 0 has those that end at leaf 0, and at leaves beyond the last slot.
#[derive(Drop)]
pub(crate) struct Weights {
    pub(crate) waiting: Vec<u128>,
    pub(crate) ended: Vec<u128>,
}

impl Weights {
    /// No addresses anywhere.
    pub(crate) fn new(alloc: Global, store: &Store, slots: usize) -> Result<Weights, Memory>
        requires { 0 < slots }
        ensures weights { IfOk result (AreWeights store.now slots) }
        ensures none { IfOk result (λ w. (test : ℕ → Bool) → sum_of test store.now w ≡ 0) }
    {
        let waiting = zeros(alloc, store.len() as usize)?;
        let ended = zeros(alloc, slots)?;
        Ok(Weights { waiting, ended })
    }

    /// Lets addresses come to a record: they wait at a node, and end at a leaf.
    pub(crate) fn put(&mut self, store: &Store, rec: Rec, weight: u128)
        requires of { IsOf store.now rec }
        requires even { IsEven (height (meaning store.now rec)) weight }
        requires weights { AreWeights store.now (length self.old.ended.items) self.old }
        requires room { sum_of every store.now self.old + weight < 2 ^ 128 }
        ensures weights { AreWeights store.now (length self.old.ended.items) self.new }
        ensures gains { GainsTally store.now (length self.old.ended.items) self.old self.new
            (λ test. tally test weight (meaning store.now rec)) }
        ensures total { sum_of every store.now self.new
            ≡ sum_of every store.now self.old + weight }
        ensures above { (n : ℕ) → IsBelow n rec → (k : ℕ) → n ≤ k
            → slice_index self.new.waiting.items k ≡ slice_index self.old.waiting.items k }
    {
        match rec {
            Rec::Leaf(leaf) => {
                let slot = slot_of(leaf, self.ended.len());
                self.ended[slot] += weight;
            }
            Rec::Node(id) => {
                let number = id.number() as usize;
                self.waiting[number] += weight;
            }
        }
    }

    /// Lets all addresses go on to the leaves at which they end.
    pub(crate) fn spread(&mut self, store: &Store)
        requires { AreWeights store.now (length self.old.ended.items) self.old }
        ensures slots { length self.new.ended.items ≡ length self.old.ended.items }
        ensures ended { (test : ℕ → Bool) → IsPlain (length self.old.ended.items) test
            → ended_at test self.new.ended.items (length self.new.ended.items)
            ≡ sum_of test store.now self.old }
        ensures few { ended_at every self.new.ended.items (length self.new.ended.items)
            ≡ sum_of every store.now self.old }
    {
        let mut number = store.len();
        while number > 0 {
            number -= 1;
            self.pass(store, number);
        }
    }

    // Lets the addresses that wait at a node go on to its children.
    fn pass(&mut self, store: &Store, number: u32)
        requires number { number < length store.now }
        requires weights { AreWeights store.now (length self.old.ended.items) self.old }
        ensures weights { AreWeights store.now (length self.old.ended.items) self.new }
        ensures same { (test : ℕ → Bool) → IsPlain (length self.old.ended.items) test
            → sum_of test store.now self.new ≡ sum_of test store.now self.old }
        ensures gone { slice_index self.new.waiting.items number ≡ 0 }
        ensures above { (k : ℕ) → number < k
            → slice_index self.new.waiting.items k ≡ slice_index self.old.waiting.items k }
    {
        let weight = self.take(store, number);
        let (left, right) = store.children(store.node(number));
        self.put(store, left, weight / 2);
        self.put(store, right, weight / 2);
    }

    // Takes away the addresses that wait at a node.
    fn take(&mut self, store: &Store, number: u32) -> u128
        requires number { number < length store.now }
        requires weights { AreWeights store.now (length self.old.ended.items) self.old }
        ensures weights { AreWeights store.now (length self.old.ended.items) self.new }
        ensures slots { length self.new.ended.items ≡ length self.old.ended.items }
        ensures even { IsEven (height (node_at store.now number)) result }
        ensures loses { (test : ℕ → Bool) → sum_of test store.now self.old
            ≡ sum_of test store.now self.new + tally test result (node_at store.now number) }
        ensures total { sum_of every store.now self.old
            ≡ sum_of every store.now self.new + result }
        ensures gone { slice_index self.new.waiting.items number ≡ 0 }
        ensures above { (k : ℕ) → number < k
            → slice_index self.new.waiting.items k ≡ slice_index self.old.waiting.items k }
    {
        let _nodes = store.len();
        let weight = self.waiting[number as usize];
        self.waiting[number as usize] = 0;
        weight
    }

    /// Lets the addresses that do not begin with 96 zeros come to a root's tree, and gives the
    /// record of those that do, which are the IPv4 addresses.
    pub(crate) fn put_beyond(&mut self, store: &Store, rec: Rec) -> Rec
        requires of { IsOf store.now rec }
        requires weights { AreWeights store.now (length self.old.ended.items) self.old }
        requires none { (test : ℕ → Bool) → sum_of test store.now self.old ≡ 0 }
        ensures weights { AreWeights store.now (length self.old.ended.items) self.new }
        ensures beyond { (test : ℕ → Bool) → IsPlain (length self.old.ended.items) test
            → sum_of test store.now self.new ≡ tally_beyond test 32 96 (meaning store.now rec) }
        ensures few { sum_of every store.now self.new < 2 ^ 128 }
        ensures of { IsOf store.now result }
        ensures low { meaning store.now result ≡ low_part 96 (meaning store.now rec) }
    {
        let _nodes = store.len();
        let mut rec = rec;
        for depth in 0..96u32 {
            let (low, high) = halves(store, rec);
            self.put(store, high, 1 << (127 - depth));
            rec = low;
        }
        rec
    }
}

// The records to which a 0 and a 1 lead: a leaf is its own halves.
fn halves(store: &Store, rec: Rec) -> (Rec, Rec)
    requires { IsOf store.now rec }
    ensures low_of { IsOf store.now result.0 }
    ensures high_of { IsOf store.now result.1 }
    ensures low { meaning store.now result.0 ≡ half false (meaning store.now rec) }
    ensures high { meaning store.now result.1 ≡ half true (meaning store.now rec) }
{
    match rec {
        Rec::Leaf(_) => (rec, rec),
        Rec::Node(id) => store.children(id),
    }
}

// The slot of a leaf.
fn slot_of(leaf: u32, slots: usize) -> usize
    requires { 0 < slots }
    ensures within { result < slots }
    ensures same { (test : ℕ → Bool) → IsPlain slots test → test result ≡ test leaf }
{
    let leaf = leaf as usize;
    if leaf < slots { leaf } else { 0 }
}

// So many zeros.
fn zeros(alloc: Global, count: usize) -> Result<Vec<u128>, Memory>
    ensures long { IfOk result (λ v. length v.items ≡ count) }
    ensures zero { IfOk result (λ v. (k : ℕ) → slice_index v.items k ≡ 0) }
{
    let zeros = vec![in alloc; 0u128; count]?;
    Ok(zeros)
}
