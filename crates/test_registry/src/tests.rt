//! The readers of statistics and dumps, the index of references, and what objects and dumps say of
//! feeds.
mod dumps;
mod indexes;
mod objects;
mod references;
mod statistics;

use std::mem::drop;

/// What was made, unless what was done to it since failed. What goes here is of any type, so that
/// no proof takes it apart, as it does where a reader or a list goes by itself at each way out.
fn if_done<T: Drop, E>(made: T, done: Result<(), E>) -> Result<T, E> {
    match done {
        Ok(()) => Ok(made),
        Err(fault) => {
            drop(made);
            Err(fault)
        }
    }
}
