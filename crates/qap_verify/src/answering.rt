//! A run, from the devices to the exit status.

ghost use Rattle.std.specs.Prelude.{◌≡◌, ◌↔◌, IsTrue};
ghost use Rattle.qap_proof.specs.Acceptance.{IsLimitedVerdict};
ghost use Rattle.qap_verify.specs.Answering.{HasRun, HasTold, shown_by, suffices, verdict_status as status_by};
ghost use Rattle.qap_verify.specs.Refusal.{status_of};
ghost use Rattle.qap_verify.specs.Texts.{inputs_of};

use crate::refusal::{VerifyError, fault_line, status};
use crate::verifying::verify_stream;
use qap_io::{Counted, Status};
use qap_proof::Verdict;
use std::alloc::Global;
use std::io::{Read, Write};

/// Verifies a proof, writes what it establishes on the output, and returns the exit status: that of the verdict, if a
/// bound is wanted, or else a least cost. If it establishes nothing, the line of the refusal goes to the other writer;
/// failing to write it does not change the status.
pub fn answered<R: Read, S: Read, W: Write, E: Write>(
    alloc: Global,
    instance: &mut Counted<R>,
    proof: &mut Counted<S>,
    wanted: Option<i128>,
    output: &mut Counted<W>,
    errors: &mut Counted<E>,
) -> u8
    ensures { let i = inputs_of R.remaining instance.old instance.new S.remaining proof.old proof.new in
        HasRun i wanted W.contents output.old output.new E.contents errors.old errors.new result }
{
    match verify_stream(alloc, instance, proof, output) {
        Ok(verdict) => verdict_status(wanted, verdict),
        Err(error) => refused(error, errors),
    }
}

/// The exit status of a verdict: 0 if it is at least the bound that was wanted, or a least cost if none was, else 5.
pub fn verdict_status(wanted: Option<i128>, verdict: Verdict) -> u8
    ensures { result ≡ status_by wanted verdict }
{
    let status = if is_enough(wanted, verdict) {
        Status::Done
    } else {
        Status::Stopped
    };
    status.code()
}

/// Whether a verdict is what was wanted: at least this bound; without one, a least cost.
fn is_enough(wanted: Option<i128>, verdict: Verdict) -> bool
    ensures { result ≡ suffices wanted verdict }
{
    match (wanted, verdict) {
        (None, Verdict::Optimal(_)) => true,
        (None, _) => false,
        (Some(wanted), Verdict::Optimal(shown) | Verdict::Gap(shown, _) | Verdict::Part(shown)) => {
            wanted <= shown
        }
    }
}

/// Tells a refusal, and its exit status.
pub fn refused<E: Write>(error: VerifyError, errors: &mut Counted<E>) -> u8
    ensures status { result ≡ status_of error }
    ensures told { HasTold E.contents errors.old errors.new error }
{
    let _written = fault_line(&error, errors);
    status(&error)
}
