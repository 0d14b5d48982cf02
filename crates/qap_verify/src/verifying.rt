//! Verifies a proof, from bytes to bytes.

ghost use Rattle.std.specs.Prelude.{◌≡◌, ◌⊎◌, IfOk, MatchResult, string_bytes};
ghost use Rattle.std.specs.Io.KnownBytes.{prepend_known};
ghost use Rattle.qap_proof.specs.Acceptance.{IsLimitedVerdict};
ghost use Rattle.qap_text.specs.Input.{input_of};
ghost use Rattle.proof_versions.specs.Opening.{EitherOpens};
ghost use Rattle.proof_versions.specs.Streams.{StreamAdds, StreamOpens, StreamShows};
ghost use Rattle.qap_verify.specs.Answering.{HasAnswered, HasNotAnswered, Proves, answer_line};
ghost use Rattle.qap_verify.specs.Parts.{HasAdded, HasNotAdded, HasNotShown, HasShown};
ghost use Rattle.qap_verify.specs.Refusal.{HasNoTexts, IsNoProof, RefusesStream};
ghost use Rattle.qap_verify.specs.Texts.{HasFront, Yields, inputs_of};

use crate::refusal::VerifyError;
use proof_versions::{
    VERSION_LENGTH, accept, accept_stream, add_part, add_part_stream, open_cover,
    open_cover_stream, states_version_two,
};
use qap_cost::Instance;
use qap_io::{Counted, send};
use qap_proof::{Cover, Verdict};
use qap_text::{MAX_INPUT, gap_line, read_all, read_behind, read_front, read_instance};
use std::alloc::{AllocError, Global};
use std::io::{BufReader, Read, Write};

/// An instance, and the first bytes of a proof's text, which state its version.
#[derive(Drop)]
struct Beginning {
    instance: Instance,
    front: Vec<u8>,
}

/// Reads an instance and a proof in either version, and writes one line with what the proof establishes: the least
/// cost, a bound and the cost above it, or a lower bound on the permutations that complete the proof's root.
///
/// The first reader begins with the instance, and what follows it is ignored; the proof is all that the second one has.
/// The instance is checked before the proof is read. A proof of version 1 has at most 1 GiB; one of version 2 is checked
/// as it is read, whatever its length. If either is refused, nothing is written; if the writer fails, a prefix of the
/// right line has been written.
pub fn verify_stream<R: Read, S: Read, W: Write>(
    alloc: Global,
    instance: &mut Counted<R>,
    proof: &mut Counted<S>,
    writer: &mut Counted<W>,
) -> Result<Verdict, VerifyError>
    ensures { let i = inputs_of R.remaining instance.old instance.new S.remaining proof.old proof.new in MatchResult result
        (HasAnswered i W.contents writer.old writer.new)
        (HasNotAnswered i W.contents writer.old writer.new) }
{
    let verdict = shown(alloc, instance, proof)?;
    let line = line(alloc, verdict)?;
    send(writer, line.as_bytes())?;
    Ok(verdict)
}

/// Reads an instance and the proof of a whole in either version, beside which proofs of parts may come. The readers are
/// asked, and a proof of version 2 is checked as it is read, as by `verify_stream`.
pub fn cover_stream<R: Read, S: Read>(
    alloc: Global,
    instance: &mut Counted<R>,
    proof: &mut Counted<S>,
) -> Result<Cover, VerifyError>
    ensures { let i = inputs_of R.remaining instance.old instance.new S.remaining proof.old proof.new in MatchResult result
        (Yields i EitherOpens)
        (λ e. HasNoTexts i e ⊎ Yields i IsNoProof e) }
{
    let begun = read_beginning(alloc, instance, proof)?;
    if states_version_two(&begun.front) {
        return opened(alloc, &begun.instance, &begun.front, proof);
    }
    let Beginning { instance, front } = begun;
    let text = read_behind(front, proof, MAX_INPUT)?;
    Ok(open_cover(alloc, &instance, text.as_slice())?)
}

/// Reads the proof of a part in either version, which is all that the reader has, and adds it to the others. Where it is
/// refused, nothing is added.
pub fn part_stream<S: Read>(
    alloc: Global,
    cover: &mut Cover,
    proof: &mut Counted<S>,
) -> Result<(), VerifyError>
    ensures { let i = input_of S.remaining proof.old proof.new in MatchResult result
        (λ done. HasAdded i cover.old cover.new)
        (λ e. HasNotAdded i cover.old.instance e × (cover.new ≡ cover.old)) }
{
    let front = read_front(alloc, proof, VERSION_LENGTH)?;
    if states_version_two(&front) {
        return part_streamed(alloc, cover, &front, proof);
    }
    let text = read_behind(front, proof, MAX_INPUT)?;
    add_part(alloc, cover, text.as_slice())?;
    Ok(())
}

/// Writes one line with what all proofs establish. If the writer fails, a prefix of the line has been written.
pub fn verdict_stream<W: Write>(
    alloc: Global,
    cover: &Cover,
    writer: &mut Counted<W>,
) -> Result<Verdict, VerifyError>
    ensures { MatchResult result
        (HasShown cover.now W.contents writer.old writer.new)
        (HasNotShown cover.now W.contents writer.old writer.new) }
{
    let verdict = cover.verdict();
    let text = line(alloc, verdict)?;
    send(writer, text.as_bytes())?;
    Ok(verdict)
}

/// What a proof shows of an instance.
fn shown<R: Read, S: Read>(
    alloc: Global,
    instance: &mut Counted<R>,
    proof: &mut Counted<S>,
) -> Result<Verdict, VerifyError>
    ensures bounded { IfOk result IsLimitedVerdict }
    ensures verdict { let i = inputs_of R.remaining instance.old instance.new S.remaining proof.old proof.new in MatchResult result
        (Yields i Proves)
        (λ e. HasNoTexts i e ⊎ Yields i IsNoProof e) }
{
    let begun = read_beginning(alloc, instance, proof)?;
    if states_version_two(&begun.front) {
        return streamed(alloc, &begun.instance, &begun.front, proof);
    }
    let Beginning { instance, front } = begun;
    let text = read_behind(front, proof, MAX_INPUT)?;
    Ok(accept(alloc, &instance, text.as_slice())?)
}

/// What a text of version 2 shows whose front has been read; the rest is checked as it is read.
fn streamed<S: Read>(
    alloc: Global,
    instance: &Instance,
    front: &[u8],
    proof: &mut Counted<S>,
) -> Result<Verdict, VerifyError>
    ensures shown { MatchResult result
        (StreamShows instance.now (prepend_known front.now (S.remaining proof.old.inner)))
        (RefusesStream instance.now (prepend_known front.now (S.remaining proof.old.inner))) }
    ensures bounded { IfOk result IsLimitedVerdict }
{
    let Ok(rest) = BufReader::new(alloc, proof) else {
        return Err(VerifyError::OutOfMemory);
    };
    let mut text = front.chain(rest);
    Ok(accept_stream(alloc, instance, &mut text)?)
}

/// The proof of a whole of version 2 whose front has been read; the rest is checked as it is read.
fn opened<S: Read>(
    alloc: Global,
    instance: &Instance,
    front: &[u8],
    proof: &mut Counted<S>,
) -> Result<Cover, VerifyError>
    ensures { MatchResult result
        (StreamOpens instance.now (prepend_known front.now (S.remaining proof.old.inner)))
        (RefusesStream instance.now (prepend_known front.now (S.remaining proof.old.inner))) }
{
    let Ok(rest) = BufReader::new(alloc, proof) else {
        return Err(VerifyError::OutOfMemory);
    };
    let mut text = front.chain(rest);
    Ok(open_cover_stream(alloc, instance, &mut text)?)
}

/// Adds the proof of a part of version 2 whose front has been read; the rest is checked as it is read.
fn part_streamed<S: Read>(
    alloc: Global,
    cover: &mut Cover,
    front: &[u8],
    proof: &mut Counted<S>,
) -> Result<(), VerifyError>
    ensures { MatchResult result
        (λ done. StreamAdds (prepend_known front.now (S.remaining proof.old.inner)) cover.old cover.new)
        (λ e. RefusesStream cover.old.instance (prepend_known front.now (S.remaining proof.old.inner)) e × (cover.new ≡ cover.old)) }
{
    let Ok(rest) = BufReader::new(alloc, proof) else {
        return Err(VerifyError::OutOfMemory);
    };
    let mut text = front.chain(rest);
    add_part_stream(alloc, cover, &mut text)?;
    Ok(())
}

/// Reads an instance, and then the bytes of a proof's text that state its version.
fn read_beginning<R: Read, S: Read>(
    alloc: Global,
    instance: &mut Counted<R>,
    proof: &mut Counted<S>,
) -> Result<Beginning, VerifyError>
    ensures { let i = inputs_of R.remaining instance.old instance.new S.remaining proof.old proof.new in MatchResult result
        (λ b. HasFront i b.instance b.front.items)
        (HasNoTexts i) }
{
    let text = read_all(alloc, instance, MAX_INPUT)?;
    let (instance, _) = read_instance(alloc, &text)?;
    let front = read_front(alloc, proof, VERSION_LENGTH)?;
    Ok(Beginning { instance, front })
}

/// The line of a verdict.
fn line(alloc: Global, verdict: Verdict) -> Result<String, AllocError>
    requires { IsLimitedVerdict verdict }
    ensures { IfOk result (λ text. string_bytes text ≡ answer_line verdict) }
{
    match verdict {
        Verdict::Optimal(cost) => format!(in alloc; "optimal {cost}\n"),
        Verdict::Gap(bound, cost) => gap_line(alloc, bound, cost),
        Verdict::Part(bound) => format!(in alloc; "part {bound}\n"),
    }
}
