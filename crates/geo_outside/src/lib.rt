//! What the program meets outside of itself: files by name, something to write to,
//! a gate for pieces of work, and a counter of steps.
#![tactic(auto)]

mod calls;
mod folder;
mod gate;
mod mem_folder;
mod mem_sink;
mod put;
mod sink;
mod steps;
mod whole;

pub use folder::{Folder, FolderErr, OutErr};
pub use gate::{Gate, OpenGate};
pub use mem_folder::MemFolder;
pub use mem_sink::MemSink;
pub use put::Put;
pub use sink::Sink;
pub use steps::Steps;
pub use whole::{PIECE, WholeErr, read_whole};
