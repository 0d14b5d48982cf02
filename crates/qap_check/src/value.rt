//! Checks a claimed cost, from bytes to bytes.

ghost use Rattle.std.specs.Prelude.{◌≡◌, ◌⊎◌, IfOk, IfErr, MatchResult};
ghost use Rattle.qap_io.specs.Writing.{Sends, BreaksOff};
ghost use Rattle.qap_check.specs.Refusal.{HasNoTexts, IsNoSolution};
ghost use Rattle.qap_check.specs.Source.{ComeTo, source_of};
ghost use Rattle.qap_check.specs.Valuation.{AnswersSolution, lines_of};

use crate::reading::read_texts;
use crate::refusal::CheckError;
use crate::source::Separators;
use crate::valuation::{Match, Valuation};
use qap_cost::Instance;
use qap_io::{Counted, send};
use qap_text::read_solution;
use std::alloc::Global;
use std::io::{Read, Write};

/// Reads an instance and a solution of it, and writes what they yield as four lines: the permutation's cost, that of
/// its inverse, the value that the solution states, and which of the two costs that is.
///
/// Without a second reader both texts come from the first one, in sequence; otherwise the solution's is all that the
/// second reader has. The instance is checked before the second reader is read. If the input is refused, nothing is
/// written; if the writer fails, a prefix of the right lines has been written.
pub fn value_stream<R: Read, S: Read, W: Write>(
    alloc: Global,
    reader: &mut Counted<R>,
    second: &mut Option<Counted<S>>,
    writer: &mut Counted<W>,
) -> Result<Match, CheckError>
    ensures { let s = source_of R.remaining reader.old reader.new S.remaining second.old second.new in MatchResult result
        (λ found. (v : Valuation) × (v.found ≡ found) × ComeTo s Separators.Kept AnswersSolution v
        × Sends W.contents writer.old writer.new (lines_of v))
        (λ e. ((HasNoTexts s e ⊎ ComeTo s Separators.Kept IsNoSolution e) × (writer.new ≡ writer.old))
        ⊎ ((e ≡ CheckError.Device) × (v : Valuation) × ComeTo s Separators.Kept AnswersSolution v
        × BreaksOff W.contents writer.old writer.new (lines_of v))) }
{
    let valuation = judged(alloc, reader, second)?;
    let lines = valuation.lines(alloc)?;
    send(writer, lines.as_bytes())?;
    Ok(valuation.found)
}

/// What an instance and a solution yield.
fn judged<R: Read, S: Read>(
    alloc: Global,
    reader: &mut Counted<R>,
    second: &mut Option<Counted<S>>,
) -> Result<Valuation, CheckError>
    ensures { let s = source_of R.remaining reader.old reader.new S.remaining second.old second.new in MatchResult result (ComeTo s Separators.Kept AnswersSolution) (λ e. HasNoTexts s e ⊎ ComeTo s Separators.Kept IsNoSolution e) }
{
    let texts = read_texts(alloc, reader, second, Separators::Kept)?;
    answer(alloc, &texts.instance, texts.other.as_slice())
}

/// What an instance and a solution's text yield.
fn answer(alloc: Global, instance: &Instance, text: &[u8]) -> Result<Valuation, CheckError>
    ensures { MatchResult result
        (AnswersSolution instance.now text.now)
        (λ e. (e ≡ CheckError.OutOfMemory) ⊎ IsNoSolution instance.now text.now e) }
{
    let (stated, permutation) = read_solution(alloc, instance.size(), text)?;
    Ok(Valuation::new(instance, &permutation, stated)?)
}
