//! Checks a claimed optimum, from bytes to bytes.

ghost use Rattle.std.specs.Prelude.{◌≡◌, ◌⊎◌, IfOk, MatchResult, string_bytes};
ghost use Rattle.qap_io.specs.Writing.{Sends, BreaksOff};
ghost use Rattle.qap_cert.specs.Acceptance.{IsLimitedVerdict};
ghost use Rattle.qap_cert.specs.declared.acceptance.Verdict.{Verdict};
ghost use Rattle.qap_check.specs.Optimal.{Proves, answer_line};
ghost use Rattle.qap_check.specs.Refusal.{HasNoTexts, IsNoProof};
ghost use Rattle.qap_check.specs.Source.{ComeTo, source_of};

use crate::reading::read_texts;
use crate::refusal::CheckError;
use crate::source::Separators;
use qap_cert::{Verdict, accept};
use qap_io::{Counted, send};
use qap_text::gap_line;
use std::alloc::{AllocError, Global};
use std::io::{Read, Write};

/// Reads an instance and a certificate for it, and writes one line with what the certificate establishes: the least
/// cost, or a bound and the cost above it.
///
/// Without a second reader both texts come from the first one, in sequence, and white space and commas between them are
/// skipped; otherwise the certificate is all that the second reader has. The instance is checked before the second
/// reader is read. If the input is refused, nothing is written; if the writer fails, a prefix of the right line has
/// been written.
pub fn optimal_stream<R: Read, S: Read, W: Write>(
    alloc: Global,
    reader: &mut Counted<R>,
    second: &mut Option<Counted<S>>,
    writer: &mut Counted<W>,
) -> Result<(), CheckError>
    ensures { let s = source_of R.remaining reader.old reader.new S.remaining second.old second.new in MatchResult result
        (λ _. (v : Verdict) × ComeTo s Separators.PassedOver Proves v × Sends W.contents writer.old writer.new (answer_line v))
        (λ e. ((HasNoTexts s e ⊎ ComeTo s Separators.PassedOver IsNoProof e) × (writer.new ≡ writer.old))
        ⊎ ((e ≡ CheckError.Device) × (v : Verdict) × ComeTo s Separators.PassedOver Proves v
        × BreaksOff W.contents writer.old writer.new (answer_line v))) }
{
    let verdict = shown(alloc, reader, second)?;
    let line = line(alloc, verdict)?;
    send(writer, line.as_bytes())?;
    Ok(())
}

/// What a certificate shows.
fn shown<R: Read, S: Read>(
    alloc: Global,
    reader: &mut Counted<R>,
    second: &mut Option<Counted<S>>,
) -> Result<Verdict, CheckError>
    ensures bounded { IfOk result IsLimitedVerdict }
    ensures verdict { let s = source_of R.remaining reader.old reader.new S.remaining second.old second.new in MatchResult result (ComeTo s Separators.PassedOver Proves) (λ e. HasNoTexts s e ⊎ ComeTo s Separators.PassedOver IsNoProof e) }
{
    let texts = read_texts(alloc, reader, second, Separators::PassedOver)?;
    Ok(accept(alloc, &texts.instance, texts.other.as_slice())?)
}

/// The line of a verdict.
fn line(alloc: Global, verdict: Verdict) -> Result<String, AllocError>
    requires { IsLimitedVerdict verdict }
    ensures { IfOk result (λ text. string_bytes text ≡ answer_line verdict) }
{
    match verdict {
        Verdict::Optimal(cost) => format!(in alloc; "optimal {cost}\n"),
        Verdict::Gap(bound, cost) => gap_line(alloc, bound, cost),
    }
}
