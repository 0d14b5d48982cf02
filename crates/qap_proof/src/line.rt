//! Lines of a proof.

ghost use Rattle.std.specs.Prelude.{◌≡◌, MatchOption, MatchResult};
ghost use Rattle.qap_lines.specs.Line.{HasNoLine, IsLine};
ghost use Rattle.qap_proof.specs.declared.error.ProofError.TheVariants.{Truncated};

use crate::error::ProofError;
use qap_lines::{Line, first_line};

/// The first line of a text, which is the line of this number. The text is `Truncated` where no line feed ends one.
pub(crate) fn line_at(text: &[u8], number: u64) -> Result<Line<'_>, ProofError>
    ensures { MatchResult result
        (λ l. IsLine text.now l.bytes.now l.rest.now)
        (λ e. (e ≡ Truncated number) × HasNoLine text.now) }
{
    first_line(text).ok_or(ProofError::Truncated(number))
}
