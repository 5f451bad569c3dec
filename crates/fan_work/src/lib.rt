//! A map over a list whose pieces run side by side, with results that do not
//! tell how many pieces there were.
#![tactic(auto)]

mod forks;
mod map;
mod stretch;
mod work;

pub use forks::{Forks, MOST_PIECES};
pub use map::map_pieces;
pub use work::Work;
