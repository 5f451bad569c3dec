//! Notes on lines of sources: their rules, their order in a report, and their text.
ghost use Rattle.std.specs.Prelude.{◌≡◌, IfOk};
ghost use Rattle.geo_terms.specs.NoteText.{code_of, kind_of, kind_rank, name_of, note_cmp};
ghost use Rattle.geo_terms.specs.NoteText.{note_line};

use geo_addr::{Memory, Text};
use std::alloc::Global;
use std::cmp::Ordering;

/// Which source it is: one that a note is about, or one that is removed.
#[derive(Debug, Drop, PartialEq, Eq)]
pub enum Origin {
    /// The dump in this slot.
    Rpsl(Text),
    /// The feed of this URL.
    Feed(Text),
    /// The statistics file in this slot.
    Stats(Text),
    Overrides,
}

/// A rule that a line or an object breaks; each is printed by its name.
#[derive(Clone, Copy, Debug, PartialEq, Eq)]
pub enum Rule {
    /// An object of too many bytes.
    P01,
    /// A line of an object that is neither an attribute nor a continuation.
    P02,
    /// An `inetnum` or `inet6num` value that is not read.
    P03,
    /// One of several references of the used kind in one object.
    P04,
    /// A reference whose URL is not read.
    P05,
    /// A reference whose URL has another scheme than https.
    P06,
    /// The first `last-modified` of an object with a reference is not read.
    P07,
    /// A reference behind another one of the same range.
    P08,
    /// A reference to a feed that is not among the sources.
    P09,
    /// A reference in a remark, beside a `geofeed` attribute.
    P10,
    /// A feed line that is not UTF-8.
    F01,
    /// A feed line with a misplaced quote or a carriage return.
    F02,
    /// A feed line whose first field is empty.
    F03,
    /// A feed line whose first field is no prefix.
    F04,
    /// A feed line whose country is out of form.
    F05,
    /// A feed line whose region is out of form.
    F06,
    /// A feed line that repeats a prefix and says the same.
    F07,
    /// One of the feed lines of one prefix that differ.
    F08,
    /// A feed line that no reference to its feed covers.
    F09,
    /// A feed line whose city or postal code is too long.
    F10,
    /// A feed line with an IPv6 prefix inside `::/96`.
    F11,
    /// A statistics line of fewer than seven fields.
    S01,
    /// A statistics line of another type than `asn`, `ipv4` and `ipv6`.
    S02,
    /// A statistics line of another status than the four of the format.
    S03,
    /// A statistics line whose start is no address of its type.
    S04,
    /// A statistics line that passes the end of IPv4.
    S05,
    /// A statistics line whose country is not two letters, or is `ZZ`.
    S06,
    /// A statistics line whose value is not read.
    S07,
    /// An override line that is not UTF-8.
    O01,
    /// An override line with a misplaced quote or a carriage return.
    O02,
    /// An override line whose first field is no span.
    O03,
    /// An override line whose second field is neither `set` nor `void`.
    O04,
    /// An override line with a place that is out of form.
    O05,
    /// An override line that sets a place that says nothing.
    O06,
    /// An override line that repeats a range and says the same.
    O07,
    /// One of the override lines of one range that differ.
    O08,
    /// A statement whose ground lies within a block of IPv6 addresses that carry IPv4 addresses.
    A01,
}

/// A line to which a rule applies, as its source keeps it, which says itself what source it is.
#[derive(Clone, Copy, Debug, PartialEq, Eq)]
pub struct LineNote {
    pub line: u64,
    pub rule: Rule,
}

/// A line of a source to which a rule applies, with the source named.
#[derive(Debug, Drop, PartialEq, Eq)]
pub struct Note {
    pub origin: Origin,
    pub line: u64,
    pub rule: Rule,
}

impl Rule {
    /// The code that a report prints.
    #[tactic(auto, unfolding(crate::specs::NoteText::code_of))]
    pub fn code(self) -> &'static str
        ensures { result.now ≡ code_of self }
    {
        match self {
            Rule::P01 => "P01",
            Rule::P02 => "P02",
            Rule::P03 => "P03",
            Rule::P04 => "P04",
            Rule::P05 => "P05",
            Rule::P06 => "P06",
            Rule::P07 => "P07",
            Rule::P08 => "P08",
            Rule::P09 => "P09",
            Rule::P10 => "P10",
            Rule::F01 => "F01",
            Rule::F02 => "F02",
            Rule::F03 => "F03",
            Rule::F04 => "F04",
            Rule::F05 => "F05",
            Rule::F06 => "F06",
            Rule::F07 => "F07",
            Rule::F08 => "F08",
            Rule::F09 => "F09",
            Rule::F10 => "F10",
            Rule::F11 => "F11",
            Rule::S01 => "S01",
            Rule::S02 => "S02",
            Rule::S03 => "S03",
            Rule::S04 => "S04",
            Rule::S05 => "S05",
            Rule::S06 => "S06",
            Rule::S07 => "S07",
            Rule::O01 => "O01",
            Rule::O02 => "O02",
            Rule::O03 => "O03",
            Rule::O04 => "O04",
            Rule::O05 => "O05",
            Rule::O06 => "O06",
            Rule::O07 => "O07",
            Rule::O08 => "O08",
            Rule::A01 => "A01",
        }
    }
}

impl Origin {
    /// The word that a report begins a line of this source with.
    #[tactic(auto, unfolding(crate::specs::NoteText::kind_of))]
    pub fn kind(&self) -> &'static str
        ensures { result.now ≡ kind_of self.now }
    {
        match self {
            Origin::Rpsl(_) => "rpsl",
            Origin::Feed(_) => "feed",
            Origin::Stats(_) => "stats",
            Origin::Overrides => "overrides",
        }
    }

    // Where the kind stands in a report.
    fn rank(&self) -> u8
        ensures { result ≡ kind_rank self.now }
    {
        match self {
            Origin::Rpsl(_) => 0,
            Origin::Feed(_) => 1,
            Origin::Stats(_) => 2,
            Origin::Overrides => 3,
        }
    }

    /// The slot or the URL of the source, and `-` for the overrides.
    #[tactic(auto, unfolding(crate::specs::NoteText::name_of))]
    pub fn name(&self) -> &str
        ensures { result.now ≡ name_of self.now }
    {
        match self {
            Origin::Rpsl(slot) | Origin::Stats(slot) => slot.as_str(),
            Origin::Feed(url) => url.as_str(),
            Origin::Overrides => "-",
        }
    }
}

impl Note {
    /// How the note stands to another one in a report: by kind of source, by
    /// slot or URL, by line, by code.
    #[tactic(auto, unfolding(crate::specs::NoteText::note_cmp))]
    pub fn order(&self, other: &Note) -> Ordering
        ensures { result ≡ note_cmp self.now other.now }
    {
        (self.origin.rank().cmp(&other.origin.rank()))
            .then_with(|| self.origin.name().cmp(other.origin.name()))
            .then(self.line.cmp(&other.line))
            .then_with(|| self.rule.code().cmp(other.rule.code()))
    }
}

/// The line of a note in a report: `rpsl SLOT LINE CODE`, `feed URL LINE CODE`,
/// `stats SLOT LINE CODE` or `overrides - LINE CODE`, and a line feed.
#[tactic(auto, unfolding(crate::specs::NoteText::note_line))]
pub fn note_text(alloc: Global, note: &Note) -> Result<Text, Memory>
    ensures { IfOk result (λ text. text ≡ note_line note.now) }
{
    let kind = note.origin.kind();
    let name = note.origin.name();
    let line = note.line;
    let code = note.rule.code();
    let text = format!(in alloc; "{kind} {name} {line} {code}\n")?;
    Text::from_string(text)
}
