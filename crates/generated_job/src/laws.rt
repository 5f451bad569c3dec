//! Laws over the definition of the generated job alone, as functions that do nothing:
//! what each ensures is the law.
ghost use Rattle.generated_job.specs.Laws.{EmitsFreely};

/// What a generated job writes is never too large, and there are numbers for all nodes and places
/// that its emits make: no tree of so many statements has more nodes, and no data section of so
/// many places more bytes.
pub fn generated_job_emits_freely()
    ensures { EmitsFreely }
{}
