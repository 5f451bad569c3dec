//! What is wrong with a word, and what it has to be.
use geo_addr::{AddrFault, BlockFault};
use thiserror::Error;

/// What one word of a job or of the command line has to be.
#[derive(Clone, Copy, Debug, PartialEq, Eq)]
pub enum Shape {
    Epoch,
    TypeName,
    Pieces,
    Slot,
    File,
    Url,
    Address,
    Block,
    Count,
}

/// What is wrong with a word, as a person reads it behind the word.
#[derive(Clone, Copy, Debug, PartialEq, Eq, Error)]
pub enum WordFault {
    #[error("is empty")]
    Empty,
    #[error("has more than 255 bytes")]
    LongName,
    #[error("has more than 64 bytes")]
    LongWord,
    #[error("is not UTF-8")]
    Utf8,
    #[error("has a blank or a line end in it")]
    Blank,
    #[error("is absolute; names are at or below the current folder: run geofeed there, or link it")]
    Absolute,
    #[error("has an empty part; write single slashes, and none at the end")]
    EmptyPart,
    #[error("has the part \".\"; leave it out")]
    DotPart,
    #[error("has the part \"..\"; names are at or below the current folder")]
    UpPart,
    #[error("has a character that is no ASCII letter, digit, \"-\", \"_\" or \".\"")]
    SlotByte,
    #[error("has a character that is not one of \"!\" to \"~\"")]
    TypeByte,
    #[error("is not 1 to 20 decimal digits; it is in seconds, as date +%s prints them")]
    EpochDigits,
    #[error("is 2^64 or more")]
    EpochLarge,
    #[error("is not a number from 1 to 64 without leading zeros")]
    Pieces,
    #[error("is not a number from 1 to 1,000,000 without leading zeros")]
    Count,
    #[error("is not a URL")]
    Url,
    #[error("is not a URL that begins with https://")]
    Scheme,
    #[error("is not an address: {0}")]
    Address(AddrFault),
    #[error("is not a prefix: {0}")]
    Block(BlockFault),
    #[error("reaches from the IPv4 addresses into the IPv6 addresses")]
    LowBlock,
}
