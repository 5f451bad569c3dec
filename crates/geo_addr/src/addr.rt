//! Addresses as numbers.

/// An IP address as a number: IPv4 addresses are the numbers below 2^32.
#[derive(Clone, Copy, Debug, PartialEq, Eq, PartialOrd, Ord, Hash)]
pub struct Addr(pub u128);
