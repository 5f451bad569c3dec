//! Laws over the definitions of commands alone, as functions that do nothing:
//! what each ensures is the law.
ghost use Rattle.geofeed_cmd.specs.Run.CleanWorlds.{SourcesAreClean};
ghost use Rattle.geofeed_cmd.specs.Run.Generated.{RunsFreely};
ghost use Rattle.geofeed_cmd.specs.Run.LookupEnds.{LookupEndsByCases};
ghost use Rattle.geofeed_cmd.specs.Run.Pieces.{PiecesChangeNothing};

use job_lines::laws::accepted_job_says_its_lines;

/// How a lookup comes out: by whether the file is held and within its limit,
/// and by what the walk through it gives.
pub fn lookup_ends_by_cases()
    ensures { LookupEndsByCases }
{}

/// Two jobs whose texts say the same beside the number of pieces: where all is done of one, all is
/// done of the other, and the same files, puts and text are there then.
pub fn pieces_change_nothing()
    ensures { PiecesChangeNothing }
{
    accepted_job_says_its_lines();
}

/// In each world that a command reaches the sources are clean: each place that they name can stand
/// in a feed.
pub fn sources_are_clean()
    ensures { SourcesAreClean }
{}

/// No move of a generated job is blocked, and there are numbers for all nodes and places that its
/// emits make.
pub fn generated_job_runs_freely()
    ensures { RunsFreely }
{}
