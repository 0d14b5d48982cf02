//! Lines of a certificate.

ghost use Rattle.std.specs.Prelude.{◌≡◌, MatchOption, MatchResult};
ghost use Rattle.qap_lines.specs.Line.{HasNoLine, IsLine};
ghost use Rattle.qap_cert.specs.declared.error.CertError.TheVariants.{Truncated};

use crate::CertError;
use qap_lines::{Line, first_line};

/// The first line of a text, which is the line of this number. The text is `Truncated` where no line feed ends one.
pub(crate) fn line_at(text: &[u8], number: u64) -> Result<Line<'_>, CertError>
    ensures { MatchResult result
        (λ l. IsLine text.now l.bytes.now l.rest.now)
        (λ e. (e ≡ Truncated number) × HasNoLine text.now) }
{
    first_line(text).ok_or(CertError::Truncated(number))
}
