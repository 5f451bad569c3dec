//! The values of a data section.
use geo_addr::{Bytes, Text};

/// A value of the data section (MaxMind DB 2.0, "Output Data Section").
///
/// Contracts see the tree that it stands for, with lists instead of the vectors. The pairs of a
/// map keep their order, and keys may repeat. Doubles and floats are kept as their bytes, the
/// highest first.
#[derive(Debug, Drop, PartialEq, Eq)]
pub enum Value {
    Map(Vec<(Text, Value)>),
    List(Vec<Value>),
    Text(Text),
    Bytes(Bytes),
    U16(u16),
    U32(u32),
    I32(i32),
    U64(u64),
    U128(u128),
    Bool(bool),
    /// A double.
    Raw8([u8; 8]),
    /// A float.
    Raw4([u8; 4]),
}
