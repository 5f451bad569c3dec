//! Laws over the definitions alone.
ghost use Rattle.csv_lines.specs.Clean.{FieldsAreTexts, PlacesAreClean};
ghost use Rattle.csv_lines.specs.FieldsLaw.{FieldsAreUnique};

/// The fields of a text are the only list of plain and quoted fields that, joined with commas,
/// is the text.
pub fn fields_are_unique()
    ensures { FieldsAreUnique }
{}

/// Each field of a line that has fields is UTF-8, and has neither a `#` nor a line end, nor a blank
/// at its ends.
pub fn fields_are_texts()
    ensures { FieldsAreTexts }
{}

/// Nor has any text of the place that such fields make.
pub fn places_are_clean()
    ensures { PlacesAreClean }
{}
