//! Laws over the definitions.

ghost use Rattle.std.specs.Prelude.{◌≡◌, ◌≤◌, ◌++◌, ℕ, List, length, Ok};
ghost use Rattle.mmdb_data.specs.ValueTree.{ValueTree, CanBeSpelled, IsTyped, IsWithinLimits};
ghost use Rattle.mmdb_data.specs.Spelling.{spelling};
ghost use Rattle.mmdb_data.specs.Reading.{reads};
ghost use Rattle.mmdb_data.specs.Laws.{PackedReadsBack, PackedReadsEach, NewValueIsNoted};
ghost use Rattle.mmdb_data.specs.Laws.{NotesStay, SpellingsTellApart, PointersReadBack};
ghost use Rattle.mmdb_data.specs.Laws.{KeysAreTexts};

/// What is written of a value is read again, whatever stands before and after it in the section.
pub fn reads_back()
    ensures { (value : ValueTree) (before after : List ℕ) → CanBeSpelled value → IsTyped value
        → IsWithinLimits value
        → reads (before ++ (spelling value ++ after)) (length before) ≡ Ok value }
{}

/// The law that reading where a value was packed gives that value, whatever is appended later.
/// Calling it does nothing.
pub fn packed_reads_back()
    ensures last { PackedReadsBack }
    ensures each { PackedReadsEach }
{}

/// The law that a pointer leads to the least offset at which an equal value stands in full: values
/// are noted by their spellings, which tell them apart, where they first stand. Calling it does
/// nothing.
pub fn packed_at_the_least_offset()
    ensures noted { NewValueIsNoted }
    ensures stay { NotesStay }
    ensures apart { SpellingsTellApart }
{}

/// The law that each pointer that is written is read back: one of two bytes to an offset below
/// 2,048, of three below 526,336, of four below 134,744,064, and of five below 2^32. Calling it
/// does nothing.
pub fn pointers_read_back()
    ensures { PointersReadBack }
{}

/// The law that what is read as a key is a text. Calling it does nothing.
pub fn keys_are_texts()
    ensures { KeysAreTexts }
{}
