//! Cut points and the segments between them: what is touched, cut where a choice may change.
#![tactic(auto)]

mod hints;
mod inside;
mod joined;
mod points;
mod segments;

pub use inside::{part_inside, push_inside};
pub use joined::grounds_in;
pub use points::{cut_points, whole};
pub use segments::{segments_between, segments_of};
