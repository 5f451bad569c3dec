//! Laws over the definitions alone, which the readers above rest on.
ghost use Rattle.feed_refs.specs.Laws.{EndFault, FaultStays, NotesInOrder, WholeByLines};

/// A dump that has too many references or is too long so far stays so, whatever follows.
pub fn fault_stays()
    ensures { FaultStays }
{}

/// And it is so where it ends.
pub fn end_fault()
    ensures { EndFault }
{}

/// The references that count while more may follow are those of the objects that a blank line ends
/// within the bytes that count.
pub fn whole_by_lines()
    ensures { WholeByLines }
{}

/// The notes of a dump in line order are the same notes, each as often, on lines that do not fall.
pub fn notes_in_order()
    ensures { NotesInOrder }
{}
