//! Places and statements, objects and feeds together, and sources that are read from texts, set and
//! dropped, with what they say of addresses. A helper answers `None` where memory runs out or a
//! text is not read, which no test expects.
mod acts;
mod given;
mod orders;
mod plain;
mod realistic;
mod rows;
mod scripts;
mod shapes;
mod speakers;
mod terms;
mod told;
