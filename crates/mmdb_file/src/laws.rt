//! Laws of the whole file: its last marker is the writer's, and its walk gives the tree's answers.
ghost use Rattle.std.specs.Prelude.{ℕ};
ghost use Rattle.mmdb_file.specs.Laws.{LastMarkerIsTheWriters, NumbersStandForPlaces};
ghost use Rattle.mmdb_file.specs.Laws.{WrittenFileIsWalked, WrittenSectionHolds};

use mmdb_tree::tree_reads_back;

/// The law that the last marker of a written file is the one that the writer wrote: no metadata
/// holds the marker, whatever the epoch, the node count and the name. Calling it does nothing.
pub fn last_marker_is_the_writers()
    ensures { LastMarkerIsTheWriters }
{}

/// The law that the walk of a file image gives what the tree answers: whoever follows the public
/// standard through the bytes comes, along every list of at least one bit on which the tree ends,
/// to the value of the tree's place, or to none where the tree has none. It stands over any data
/// section that holds the values of the places; `written_section_holds` says that the writer's is
/// one. Calling it does nothing.
pub fn written_file_is_walked()
    ensures { WrittenFileIsWalked }
{
    tree_reads_back();
}

/// The law that the data section that is written holds its values: each is read where it begins.
/// Calling it does nothing.
pub fn written_section_holds()
    ensures { WrittenSectionHolds }
{}

/// The law that numbers stand for places: the file of a tree whose leaves are numbers of a table of
/// distinct places is the file of the tree of those places. Calling it does nothing.
pub fn numbers_stand_for_places()
    ensures { NumbersStandForPlaces }
{}
