//! By what work runs side by side.
ghost use Rattle.std.specs.Prelude.{◌<◌, ◌≤◌};
ghost use Rattle.fan_work.specs.declared.forks.TheConstants.{MOST_PIECES};

use std::alloc::Global;

/// The most pieces that a list of items is cut into.
pub const MOST_PIECES: u32 = 64;

/// What work that is done by pieces side by side runs with, as callers pass it along: the threads,
/// the memory, the gate that each piece enters, and how many pieces there are.
#[derive(Drop)]
pub struct Forks<'a, R, G> {
    pub rt: &'a R,
    pub alloc: Global,
    pub gate: &'a G,
    pub pieces: u32,
    ghost some: { 0 < pieces },
    ghost few: { pieces ≤ MOST_PIECES },
}
