//! Laws over the definition of a job alone, as functions that do nothing:
//! what each ensures is the law.
ghost use Rattle.job_lines.specs.Laws.{AcceptedJobIsInOrder, AcceptedJobIsWithinLimits};
ghost use Rattle.job_lines.specs.Laws.{AcceptedJobSaysItsLines, OnlyPassedLinesHaveNoEpoch};
ghost use Rattle.job_lines.specs.Laws.{RefusedLineIsFirst};

/// Every accepted job says what the lines of its text say: one of them gives the epoch, one at most
/// the database type, one at most the number of pieces, and the others, in order, the steps.
pub fn accepted_job_says_its_lines()
    ensures { AcceptedJobSaysItsLines }
{}

/// The database type of every accepted job has at most 64 bytes,
/// and its number of pieces is from 1 to 64.
pub fn accepted_job_is_within_limits()
    ensures { AcceptedJobIsWithinLimits }
{}

/// The lines of every accepted job say, in order, the epoch, the settings and the steps: so the
/// first line that says something gives the epoch, no other does,
/// and the type and the number of pieces stand before every step.
pub fn accepted_job_is_in_order()
    ensures { AcceptedJobIsInOrder }
{}

/// A refused line is the first that fits no form or stands where it may not.
pub fn refused_line_is_first()
    ensures { RefusedLineIsFirst }
{}

/// A text has no epoch exactly where it is no longer than a job may be, is UTF-8, and has only
/// lines that are passed over.
pub fn only_passed_lines_have_no_epoch()
    ensures { OnlyPassedLinesHaveNoEpoch }
{}
