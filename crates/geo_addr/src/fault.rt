//! What is wrong with the text of an address, a block or a range.
use thiserror::Error;

/// What is wrong with the text of an address; where several things are, the first of this list.
#[derive(Clone, Copy, Debug, PartialEq, Eq, Error)]
pub enum AddrFault {
    /// The text has not the form of an address.
    #[error("not in the form of an address")]
    Form,
    /// A number between dots is above 255, or has a zero in front.
    #[error("a number between dots is above 255 or has a zero in front")]
    Octet,
    /// The groups are not eight, or are more than seven beside `::`.
    #[error("not eight groups, or more than seven beside `::`")]
    Groups,
}

/// What is wrong with the text of a block or of a range.
///
/// Where several things are, it is the first that is found in the order of
/// `parse_block` or `parse_span`.
#[derive(Clone, Copy, Debug, PartialEq, Eq, Error)]
pub enum BlockFault {
    /// Where an address should stand is none, or two addresses are of different families.
    #[error("not an address, or two of different families")]
    Address,
    /// The length is not one to three digits, or is above that of an address.
    #[error("not a length of a prefix")]
    Length,
    /// A bit of the address below the length is set.
    #[error("a bit below the length is set")]
    HostBits,
    /// An IPv6 text that lies wholly in the IPv4 space.
    #[error("an IPv6 text in the IPv4 space")]
    InV4Space,
    /// The first address of a range is above its last one.
    #[error("the first address is above the last one")]
    Reversed,
}
