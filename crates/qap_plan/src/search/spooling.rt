//! The spool of a run: what its search leaves of a proof.

ghost use Rattle.std.specs.Prelude.{IfErr};
ghost use Rattle.plan_files.specs.Outputs.{IsFailure};

use plan_files::Sink;
use plan_search::Hooks;
use proof_spool::{SharedSpool, Spool};
use qap_io::Status;
use std::alloc::Global;
use std::fs::File;

/// What accompanies the search of a run.
pub type RunHooks<'a, T, K> = Hooks<'a, K, SharedSpool<'a, T, File>>;

/// A spool for the proof that is written to the file of a name, if one is requested.
pub fn spool_for<S: Sink>(
    alloc: Global,
    sink: &S,
    name: Option<&str>,
) -> Result<Option<Spool<File>>, Status>
    ensures { IfErr result IsFailure }
{
    match name {
        Some(name) => Ok(Some(Spool::new(alloc, sink.scratch(name)?))),
        None => Ok(None),
    }
}
