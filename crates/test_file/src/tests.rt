//! Values of the data section, trees of nodes, and the file, each by its own calls.
mod compacts;
mod files;
mod orders;
mod records;
mod trees;
mod values;
