//! Reads an instance from a file that has nothing else.

ghost use Rattle.std.specs.Prelude.{MatchResult};
ghost use Rattle.qap_text.specs.Input.{input_of};
ghost use Rattle.plan_files.specs.Reading.{LacksInstance, HasOneInstance};

use crate::error::PlannerError;
use qap_cost::Instance;
use qap_io::Counted;
use qap_text::{MAX_INPUT, read_all, read_instance, skip_separators};
use std::alloc::Global;
use std::io::Read;

/// The instance with which the input begins. A word after it is an error, unless what follows is to be ignored.
pub fn read_problem<R: Read>(
    alloc: Global,
    reader: &mut Counted<R>,
    passes: bool,
) -> Result<Instance, PlannerError>
    ensures { let i = input_of R.remaining reader.old reader.new in
        MatchResult result (HasOneInstance i passes) (LacksInstance i) }
{
    let text = read_all(alloc, reader, MAX_INPUT)?;
    let (instance, rest) = read_instance(alloc, &text)?;
    let more = skip_separators(rest);
    if more.is_empty() || passes {
        Ok(instance)
    } else {
        Err(PlannerError::Rest(text.len().saturating_sub(more.len())))
    }
}
