//! The calls of a fake that are to fail, by their numbers.
ghost use Rattle.std.specs.Prelude.{◌≡◌, ◌+◌, if◌then◌else◌};
ghost use Rattle.geo_outside.specs.Script.{fails_next, faults_of, one_more};

use std::marker::Model;

/// The calls of one kind: the numbers, from 1, of those that are to fail, and how many were made.
#[derive(Debug, Drop)]
pub(crate) struct Calls {
    listed: Vec<u64>,
    made: u64,
}

impl Model for Calls {
    ghost use Rattle.geo_outside.specs.Script.{Script};

    ghost Value = { Script };

    ghost view = { λ c. record { listed = c.listed.items; made = c.made } };
}

impl Calls {
    pub(crate) fn new(listed: Vec<u64>) -> Calls
        ensures { result ≡ record { listed = listed.items; made = 0 } }
    {
        Calls { listed, made: 0 }
    }

    #[tactic(auto, using(crate::proofs::Listed::listed_more))]
    /// Counts a call, and says whether it is to fail.
    pub(crate) fn next_fails(&mut self) -> bool
        ensures fails { result ≡ fails_next self.old }
        ensures counted { self.new ≡ one_more self.old }
        ensures faults { faults_of self.new ≡ faults_of self.old + (if result then 1 else 0) }
    {
        let Some(number) = self.made.checked_add(1) else {
            return false;
        };
        self.made = number;
        self.listed.contains(&number)
    }
}
