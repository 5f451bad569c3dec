//! The laws of published feeds, as functions that do nothing: what each ensures is the law.
ghost use Rattle.published.specs.CleanSources.{CleanSourcesMakeCleanRecords};
ghost use Rattle.published.specs.PlaceLines.{NumbersDoNotMatter};
ghost use Rattle.published.specs.Reread.{FeedsReadBack};
ghost use Rattle.published.specs.Shortest.{PublishedIsShortest};

/// A feed that was written of lines of different blocks reads as one entry a line, in this order,
/// with no note.
pub fn feeds_read_back()
    ensures { FeedsReadBack }
{}

/// Which numbers the places have changes nothing in a feed.
pub fn numbers_do_not_matter()
    ensures { NumbersDoNotMatter }
{}

/// Where each statement of the sources names a place that a feed can say, so does the record of
/// each address.
pub fn clean_sources_make_clean_records()
    ensures { CleanSourcesMakeCleanRecords }
{}

/// What is published of sources says of each address of the block what they say of it, and no list
/// of lines inside the block that says this is shorter.
pub fn published_is_shortest()
    ensures { PublishedIsShortest }
{}
