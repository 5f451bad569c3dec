//! What a job says: the settings and the steps of its lines, read whole; the command that words
//! are; and why a line or words are refused.
#![tactic(auto)]

mod act;
mod acts;
mod draft;
mod drops;
mod fault;
mod form;
mod job;
mod kept;
pub mod laws;
mod line_fault;
mod names;
mod numbers;
mod operands;
mod reason;
mod spoken;
mod word_fault;
mod words;

pub use act::Act;
pub use fault::JobFault;
pub use geo_terms::Origin as Gone;
pub use job::{Job, LONGEST_JOB, Step, job_or_reason, read_job};
pub use line_fault::LineFault;
pub use names::{is_name, is_slot, name_fault};
pub use operands::{feed_key, url_at};
pub use reason::{Excerpt, JobRefusal, Reason};
pub use spoken::{Spoken, command_in, command_or_reason};
pub use word_fault::{Shape, WordFault};
