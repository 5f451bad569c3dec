//! A law: an address is its 128 bits.
ghost use Rattle.std.specs.Prelude.{ℕ};
ghost use Rattle.geo_addr.specs.Bits.{OneListOfBits};

/// The law that each address has exactly one list of 128 bits, and each list of 128 bits is that of
/// exactly one address. It is stated for every width, and calling it does nothing.
pub fn one_list_of_bits()
    ensures { (n : ℕ) → OneListOfBits n }
{}
