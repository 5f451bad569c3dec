//! Sessions: what is done to them act by act, and what comes of it; and which pieces enter while
//! they emit.
//!
//! Each test but those of gates is a table of acts, and one function does them all (`acts`).
mod acts;
mod emits;
mod gates;
mod given;
mod kinds;
mod lines;
mod marks;
mod orders;
