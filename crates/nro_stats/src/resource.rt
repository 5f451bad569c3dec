//! What the type and the status of a record say.
ghost use Rattle.std.specs.Prelude.{◌≡◌};
ghost use Rattle.nro_stats.specs.Words.{holding_in, kind_in};

/// The types of resources that a record's third field names.
#[derive(Clone, Copy, Debug)]
pub(crate) enum Kind {
    /// Numbers of autonomous systems, `asn`.
    Systems,
    /// IPv4 addresses, `ipv4`.
    V4,
    /// IPv6 addresses, `ipv6`.
    V6,
}

/// Whether anybody holds a resource, by a record's seventh field.
#[derive(Clone, Copy, Debug)]
pub(crate) enum Holding {
    /// `allocated` or `assigned`.
    Held,
    /// `available` or `reserved`.
    Free,
}

/// The type that a text names, or `None` where it names none.
#[tactic(auto, unfolding(crate::specs::Words::kind_in))]
pub(crate) fn kind_of(kind: &[u8]) -> Option<Kind>
    ensures { result ≡ kind_in kind.now }
{
    match kind {
        b"ipv4" => Some(Kind::V4),
        b"ipv6" => Some(Kind::V6),
        b"asn" => Some(Kind::Systems),
        _ => None,
    }
}

/// What a status says of a resource, or `None` where it is none.
#[tactic(auto, unfolding(crate::specs::Words::holding_in))]
pub(crate) fn holding_of(status: &[u8]) -> Option<Holding>
    ensures { result ≡ holding_in status.now }
{
    match status {
        b"allocated" | b"assigned" => Some(Holding::Held),
        b"available" | b"reserved" => Some(Holding::Free),
        _ => None,
    }
}
