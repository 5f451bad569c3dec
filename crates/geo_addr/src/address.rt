//! Address texts of either family, read.
ghost use Rattle.std.specs.Prelude.{◌≡◌};
ghost use Rattle.geo_addr.specs.AddressTexts.{address_in, is_six, number_in};

use crate::addr::Addr;
use crate::fault::AddrFault;
use crate::front::front_address;
use crate::v4::read_v4;
use crate::v6::read_v6;

/// Whether a text is read as IPv6: it has a colon in it.
pub fn is_six(text: &[u8]) -> bool
    ensures { result ≡ is_six text.now }
{
    text.contains(&b':')
}

/// Whether a text is read as IPv6, and the number of the address that it spells.
///
/// IPv4 is tried first, since what spells such an address is read in one pass.
pub(crate) fn read_number(text: &[u8]) -> (bool, Result<u128, AddrFault>)
    ensures family { result.0 ≡ is_six text.now }
    ensures number { result.1 ≡ number_in (is_six text.now) text.now }
{
    match front_address(text) {
        Some((number, [])) => (false, Ok(u128::from(number))),
        _ => read_either(text),
    }
}

/// The same of a text that is not plainly IPv4: a colon is looked for first.
pub(crate) fn read_either(text: &[u8]) -> (bool, Result<u128, AddrFault>)
    ensures family { result.0 ≡ is_six text.now }
    ensures number { result.1 ≡ number_in (is_six text.now) text.now }
{
    if is_six(text) {
        (true, read_v6(text))
    } else {
        (false, read_v4(text))
    }
}

/// The address that a text spells (RFC 4291, section 2.2).
///
/// A text with a colon in it is read as IPv6, any other as IPv4, so that `::1` and `0.0.0.1` are
/// one address.
pub fn parse_addr(text: &[u8]) -> Result<Addr, AddrFault>
    ensures { result ≡ address_in text.now }
{
    match read_number(text).1 {
        Ok(number) => Ok(Addr(number)),
        Err(fault) => Err(fault),
    }
}
