//! How the steps of a job are done, one after another, over a session, a folder and a sink.
#![tactic(auto)]

mod acts;
mod course;
mod dropping;
mod dumps;
mod emitting;
mod feeds;
mod journal;
mod marking;
mod notices;
mod printing;
mod reading;
mod reporting;
mod scope;
mod setting;
mod statistics;
mod stop;

pub use acts::name_of;
pub use course::{StepStop, do_steps};
pub use emitting::{emit, put};
pub use journal::{ActKind, Journal, NotDone};
pub use notices::{LATE, MOST_NOTICES, Notice, NoticeKind, Notices};
pub use printing::print;
pub use reading::read_file;
pub use scope::Scope;
pub use stop::{Cause, Stop};
