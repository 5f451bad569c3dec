//! Statements of one or several lists, each with its place among all.
ghost use Rattle.std.specs.Prelude.{◌≡◌, ◌+◌, ◌++◌, ◌≤◌, [], length, map, OnErr, OnOk};
ghost use Rattle.std.specs.Prelude.{vec_capacity, vec_len};
ghost use Rattle.std.specs.List.{enumerate_from};

use geo_addr::Memory;
use std::alloc::Global;
use std::marker::Model;

/// Statements that lie in one or several lists, borrowed, each with its place among all.
///
/// Contracts see the list of the statements.
#[derive(Drop)]
pub struct Numbered<'a, S> {
    ranked: Vec<(usize, &'a S)>,
}

impl<'a, S> Model for Numbered<'a, S> {
    ghost use Rattle.std.specs.Prelude.{◌≡◌, List, map};
    ghost use Rattle.std.specs.List.{enumerate_from};

    ghost Value = { List S };

    ghost view = { λ n. map (λ x. x.1.now) n.ranked.items };

    ghost invariant = { λ n. map (λ x. (x.0, x.1.now)) n.ranked.items
        ≡ enumerate_from 0 (map (λ x. x.1.now) n.ranked.items) };
}

impl<'a, S> Numbered<'a, S> {
    /// No statements; it takes no memory.
    pub fn new(alloc: Global) -> Numbered<'a, S>
        ensures { result ≡ [] }
    {
        Numbered {
            ranked: Vec::new(alloc),
        }
    }

    /// Puts the statements of a list behind those that there are.
    pub fn push_all(&mut self, statements: &'a [S]) -> Result<(), Memory>
        ensures ok { OnOk result (self.new ≡ self.old ++ statements.entry.now) }
        ensures err { OnErr result (self.new ≡ self.old) }
    {
        self.ranked.reserve(statements.len())?;
        push_numbered(&mut self.ranked, statements);
        Ok(())
    }

    /// How many statements there are.
    pub fn len(&self) -> usize
        ensures { result ≡ length self.now }
    {
        self.ranked.len()
    }

    // The statements with their places.
    pub(crate) fn into_vec(self) -> Vec<(usize, &'a S)>
        ensures { map (λ x. (x.0, x.1.now)) result.items ≡ enumerate_from 0 self.entry }
    {
        self.ranked
    }
}

// Puts statements behind those that there are, where there is room for them.
fn push_numbered<'a, S>(ranked: &mut Vec<(usize, &'a S)>, statements: &'a [S])
    requires { vec_len ranked.old + length statements.now ≤ vec_capacity ranked.old }
    ensures { map (λ x. (x.0, x.1.now)) ranked.new.items
        ≡ map (λ x. (x.0, x.1.now)) ranked.old.items
        ++ enumerate_from (length ranked.old.items) statements.entry.now }
{
    for statement in statements {
        let place = ranked.len();
        ranked.push_reserved((place, statement));
    }
}
