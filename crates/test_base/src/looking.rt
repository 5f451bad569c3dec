//! The gate of all tests: it looks at which pieces enter.
use geo_outside::Gate;
use std::sync::atomic::{AtomicU64, Ordering};
use std::thread;

// How often a piece looks for the other one before it goes on alone.
const PATIENCE: u32 = 1_000_000;

/// A gate that notes which pieces enter and how often one does. At some the pieces 0 and 1 wait for
/// one another, though not without end.
#[derive(Drop)]
pub struct Looking {
    came: AtomicU64,
    calls: AtomicU64,
    met: AtomicU64,
    patience: u32,
}

impl Looking {
    fn with(patience: u32) -> Looking {
        Looking {
            came: AtomicU64::new(0),
            calls: AtomicU64::new(0),
            met: AtomicU64::new(0),
            patience,
        }
    }

    /// A gate at which no piece waits.
    pub fn new() -> Looking {
        Looking::with(0)
    }

    /// A gate at which the pieces 0 and 1 wait for one another.
    pub fn waiting() -> Looking {
        Looking::with(PATIENCE)
    }

    /// Whether this piece came.
    pub fn has_come(&self, piece: u32) -> bool {
        let came = self.came.load(Ordering::SeqCst);
        came.wrapping_shr(piece) & 1 == 1
    }

    /// How many different pieces came.
    pub fn pieces(&self) -> u32 {
        self.came.load(Ordering::SeqCst).count_ones()
    }

    /// How often a piece came.
    pub fn calls(&self) -> u64 {
        self.calls.load(Ordering::SeqCst)
    }

    /// How many pieces that waited met the other one.
    pub fn met(&self) -> u64 {
        self.met.load(Ordering::SeqCst)
    }
}

impl Gate for Looking {
    fn enter(&self, piece: u32) {
        self.came
            .fetch_or(1u64.wrapping_shl(piece), Ordering::SeqCst);
        self.calls.fetch_add(1, Ordering::SeqCst);
        let other = if piece == 0 { 1 } else { 0 };
        for _ in 0..self.patience {
            if self.has_come(other) {
                self.met.fetch_add(1, Ordering::SeqCst);
                return;
            }
            thread::yield_now();
        }
    }
}
