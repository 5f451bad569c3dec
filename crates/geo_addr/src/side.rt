//! The groups on one side of `::` in an IPv6 text.
ghost use Rattle.std.specs.Prelude.{◌≡◌, ◌+◌, ◌*◌, ◌^◌, ◌<◌, ◌≤◌, true, false, [], ◌∷◌, length};
ghost use Rattle.std.specs.Prelude.{MatchOption, IfOk};
ghost use Rattle.std.specs.Str.Parse.{digits_value};
ghost use Rattle.geo_addr.specs.Ipv6Texts.{is_group};
ghost use Rattle.geo_addr.specs.Sides.{Adds, IsSmall, ReadsMembers, ReadsSide, no_groups};

use crate::fault::AddrFault;
use crate::line::cut_near;
use crate::v4::read_v4;

/// The groups of a list as they are read: how many, counted up to nine,
/// and the number that they make.
#[derive(Clone, Copy)]
pub(crate) struct Side {
    pub groups: u32,
    pub number: u128,
}

impl Side {
    /// No group.
    pub fn new() -> Side
        ensures { result ≡ no_groups }
    {
        Side {
            groups: 0,
            number: 0,
        }
    }

    /// Takes one more group.
    pub fn push(&mut self, group: u128)
        requires fits { group < 65536 }
        requires small { IsSmall self.old }
        ensures adds { Adds self.old (group ∷ []) self.new }
        ensures small { IsSmall self.new }
    {
        if self.groups < 8 {
            self.number = self.number * 65536 + group;
            self.groups += 1;
        } else {
            self.groups = 9;
        }
    }
}

/// The number that a group spells: one to four hexadecimal digits.
#[tactic(auto, unfolding(crate::specs::Ipv6Texts::is_group))]
fn group(text: &[u8]) -> Option<u128>
    ensures { MatchOption result
        (is_group text.now ≡ false)
        (λ value. (is_group text.now ≡ true) × (value ≡ digits_value 16 text.now)
        × (value < 65536)) }
{
    if text.is_empty() {
        return None;
    }
    if text.len() > 4 {
        return None;
    }
    let mut value = 0;
    for byte in text {
        value = value * 16 + u128::from(char::from(*byte).to_digit(16)?);
    }
    Some(value)
}

/// Reads a list: groups with colons between them, of which the last may
/// be a dotted part where `dots`.
pub(crate) fn read_side(text: &[u8], dots: bool) -> Result<Side, AddrFault>
    ensures reads { ReadsSide dots text.now result }
    ensures small { IfOk result IsSmall }
{
    let mut side = Side::new();
    if text.is_empty() {
        return Ok(side);
    }
    let mut rest = text;
    'members: loop {
        let (part, after) = cut_near(rest, b':');
        let Some(next) = after else {
            return read_last(side, part, dots);
        };
        let Some(value) = group(part) else {
            return Err(AddrFault::Form);
        };
        side.push(value);
        rest = next;
    }
}

/// Reads the last member of a list, behind the groups of `side`.
fn read_last(mut side: Side, part: &[u8], dots: bool) -> Result<Side, AddrFault>
    requires small { IsSmall side }
    ensures reads { ReadsMembers dots side (part.now ∷ []) result }
    ensures small { IfOk result IsSmall }
{
    if let Some(value) = group(part) {
        side.push(value);
        return Ok(side);
    }
    if !dots {
        return Err(AddrFault::Form);
    }
    match read_v4(part) {
        Ok(octets) => {
            side.push(octets / 65536);
            side.push(octets % 65536);
            Ok(side)
        }
        Err(fault) => Err(fault),
    }
}
