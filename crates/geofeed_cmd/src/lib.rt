//! What the program does: its commands, and `run`.
#![tactic(auto)]

mod command;
mod commands;
mod job_file;
mod last;
pub mod laws;
mod sourced;
mod status;
mod stop;
mod whole;

pub use command::{run, run_told};
pub use generated::gen_feed;
pub use job_lines::{Act, Gone, Job, JobFault, Step, read_job};
pub use json_values::json_text;
pub use laws::lookup_ends_by_cases;
pub use status::Status;
pub use stop::stop_line;
