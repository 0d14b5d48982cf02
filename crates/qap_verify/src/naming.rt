//! Runs on named files: on a proof alone, and on the proof of a whole with those of parts beside it.

ghost use Rattle.std.specs.Prelude.{◌≡◌, ◌⊎◌, MatchResult, map};
ghost use Rattle.qap_text.specs.Input.{input_of};
ghost use Rattle.qap_verify.specs.Naming.{AddsEach, AddsFile, AddsFirst, Covers, HasNoFile, HasNotCovered, HasNotJoined, JoinsParts, RefusesFile, RunsOnFile};
ghost use Rattle.qap_verify.specs.Texts.{inputs_of};

use crate::answering::{answered, refused, verdict_status};
use crate::command_line::Files;
use crate::leaves::short_leaves;
use crate::refusal::VerifyError;
use crate::sources::Sources;
use crate::verifying::{cover_stream, part_stream, verdict_stream};
use qap_io::Counted;
use qap_proof::Cover;
use std::alloc::Global;
use std::io::{Read, Write};

/// Takes what a run says beside its answer and its refusal.
pub trait Remarks {
    /// Says something on standard error.
    fn say(&self, words: &str);
}

/// Verifies the proof in the named file, and returns the exit status. The file is opened before the instance is read.
pub fn verified<R, F, D, W, E>(
    alloc: Global,
    sources: &D,
    files: &Files<'_>,
    instance: &mut Counted<R>,
    output: &mut Counted<W>,
    errors: &mut Counted<E>,
) -> u8
where
    R: Read,
    F: Read + Drop,
    D: Sources<F>,
    W: Write,
    E: Write,
    ensures { RunsOnFile (D.holds sources.now) F.remaining files.now.proof.now (input_of R.remaining instance.old instance.new) files.now.wanted
        W.contents output.old output.new E.contents errors.old errors.new result
        ⊎ HasNoFile output.old output.new E.contents errors.old errors.new result }
{
    match sources.open(files.proof) {
        Ok(file) => {
            let mut proof = Counted::new(file);
            answered(alloc, instance, &mut proof, files.wanted, output, errors)
        }
        Err(error) => refused(error, errors),
    }
}

/// Verifies the proof of the whole in the named file, and those of the parts beside it, as `joined` does.
pub fn covered<R, F, D, W, M>(
    alloc: Global,
    sources: &D,
    files: &Files<'_>,
    instance: &mut Counted<R>,
    output: &mut Counted<W>,
    remarks: &M,
) -> Result<u8, VerifyError>
where
    R: Read,
    F: Read + Drop,
    D: Sources<F>,
    W: Write,
    M: Remarks,
    ensures { let parts = map (λ name. name.now) files.now.parts.items in
        let i = input_of R.remaining instance.old instance.new in MatchResult result
        (Covers (D.holds sources.now) F.remaining files.now.proof.now parts i files.now.wanted W.contents output.old output.new)
        (HasNotCovered (D.holds sources.now) F.remaining files.now.proof.now parts i W.contents output.old output.new) }
{
    let mut proof = Counted::new(sources.open(files.proof)?);
    joined(alloc, sources, files, instance, &mut proof, output, remarks)
}

/// Verifies the proof of the whole that a reader has, and those of the parts in the named files in turn, and writes what
/// they show together. Which leaves of the whole show less than the least cost is said as a remark, and so is the name of
/// a part that is refused.
pub fn joined<R, S, F, D, W, M>(
    alloc: Global,
    sources: &D,
    files: &Files<'_>,
    instance: &mut Counted<R>,
    proof: &mut Counted<S>,
    output: &mut Counted<W>,
    remarks: &M,
) -> Result<u8, VerifyError>
where
    R: Read,
    S: Read,
    F: Read + Drop,
    D: Sources<F>,
    W: Write,
    M: Remarks,
    ensures { let parts = map (λ name. name.now) files.now.parts.items in
        let i = inputs_of R.remaining instance.old instance.new S.remaining proof.old proof.new in MatchResult result
        (JoinsParts (D.holds sources.now) F.remaining parts i files.now.wanted W.contents output.old output.new)
        (HasNotJoined (D.holds sources.now) F.remaining parts i W.contents output.old output.new) }
{
    let mut cover = cover_stream(alloc, instance, proof)?;
    add_parts(alloc, sources, &files.parts, &mut cover, remarks)?;
    let lines = short_leaves(alloc, &cover)?;
    remarks.say(&lines);
    let verdict = verdict_stream(alloc, &cover, output)?;
    Ok(verdict_status(files.wanted, verdict))
}

/// Adds the proofs of the parts in the named files.
fn add_parts<F, D, M>(
    alloc: Global,
    sources: &D,
    names: &[&str],
    cover: &mut Cover,
    remarks: &M,
) -> Result<(), VerifyError>
where
    F: Read + Drop,
    D: Sources<F>,
    M: Remarks,
    ensures { let parts = map (λ name. name.now) names.now in MatchResult result
        (λ done. AddsEach (D.holds sources.now) F.remaining parts cover.old cover.new)
        (AddsFirst (D.holds sources.now) F.remaining parts cover.old cover.new) }
{
    for i in 0..names.len() {
        if let Err(error) = add_part(alloc, sources, names[i], cover) {
            remarks.say(names[i]);
            remarks.say(": ");
            return Err(error);
        }
    }
    Ok(())
}

/// Adds the proof of a part in the named file.
fn add_part<F, D>(
    alloc: Global,
    sources: &D,
    name: &str,
    cover: &mut Cover,
) -> Result<(), VerifyError>
where
    F: Read + Drop,
    D: Sources<F>,
    ensures { MatchResult result
        (λ done. AddsFile (D.holds sources.now) F.remaining name.now cover.old cover.new)
        (λ e. RefusesFile (D.holds sources.now) F.remaining name.now cover.old.instance e × (cover.new ≡ cover.old)) }
{
    let mut proof = Counted::new(sources.open(name)?);
    part_stream(alloc, cover, &mut proof)?;
    Ok(())
}
