//! The types of values, by name.

ghost use Rattle.std.specs.Prelude.{◌≡◌, ◌<◌, ◌&&◌, nat_lt, is_some, IfSome};
ghost use Rattle.mmdb_data.specs.Kinds.{kind_code};

/// The type of a value, with its number (MaxMind DB 2.0, "Output Data Section").
#[derive(Clone, Copy)]
pub(crate) enum Kind {
    Pointer = 1,
    Text = 2,
    Double = 3,
    Bytes = 4,
    U16 = 5,
    U32 = 6,
    Map = 7,
    I32 = 8,
    U64 = 9,
    U128 = 10,
    List = 11,
    /// A data cache container, which stands in no section.
    Container = 12,
    /// It ends a file, and stands in no section.
    EndMarker = 13,
    Bool = 14,
    Float = 15,
}

impl Kind {
    pub(crate) fn code(self) -> u8
        ensures code { result ≡ kind_code self }
        ensures known { result < 16 }
    {
        self as u8
    }

    /// The type with this number, if there is one.
    pub(crate) fn of(code: u16) -> Option<Kind>
        ensures known { IfSome result (λ kind. code ≡ kind_code kind) }
        ensures some { is_some result ≡ (nat_lt 0 code && nat_lt code 16) }
    {
        match code {
            1 => Some(Kind::Pointer),
            2 => Some(Kind::Text),
            3 => Some(Kind::Double),
            4 => Some(Kind::Bytes),
            5 => Some(Kind::U16),
            6 => Some(Kind::U32),
            7 => Some(Kind::Map),
            8 => Some(Kind::I32),
            9 => Some(Kind::U64),
            10 => Some(Kind::U128),
            11 => Some(Kind::List),
            12 => Some(Kind::Container),
            13 => Some(Kind::EndMarker),
            14 => Some(Kind::Bool),
            15 => Some(Kind::Float),
            _ => None,
        }
    }
}
