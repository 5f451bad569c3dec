//! A gate that each piece of a parallel map passes.
use std::marker::Sync;

/// What a piece of work enters before its first item. A test's gate looks at how pieces run;
/// no result depends on it.
///
/// In contracts `entered` says that a piece entered. Of a gate that is not known,
/// only a call of `enter` shows it.
pub trait Gate: Sync {
    ghost use Rattle.std.specs.Prelude.{ℕ};

    ghost entered: { Self → ℕ → Type 0 } = { λ _ _. Unit {0} };

    fn enter(&self, piece: u32)
        ensures { entered self.now piece };
}

/// The gate that does nothing.
#[derive(Clone, Copy, Debug, PartialEq, Eq)]
pub struct OpenGate;

impl Gate for OpenGate {
    fn enter(&self, _piece: u32) {}
}
