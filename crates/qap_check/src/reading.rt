//! Reads the two texts of a request.

ghost use Rattle.std.specs.Prelude.{◌≡◌, MatchResult};
ghost use Rattle.qap_check.specs.Refusal.{HasNoTexts, IsSecondFault, of_text};
ghost use Rattle.qap_check.specs.Source.{HasTexts, IsOtherText, between, source_of};
ghost use Rattle.qap_text.specs.declared.error.TextError.{TextError};

use crate::refusal::CheckError;
use crate::source::{OtherText, Separators, Texts};
use qap_io::Counted;
use qap_text::{MAX_INPUT, read_all, read_instance, skip_separators};
use std::alloc::Global;
use std::io::Read;

/// Reads an instance, and its second text.
///
/// Without a second reader both come from the first one, in sequence; otherwise the second text is all that the second
/// reader has. The instance is checked before the second reader is read.
pub fn read_texts<R: Read, S: Read>(
    alloc: Global,
    reader: &mut Counted<R>,
    second: &mut Option<Counted<S>>,
    separators: Separators,
) -> Result<Texts, CheckError>
    ensures { let s = source_of R.remaining reader.old reader.new S.remaining second.old second.new in MatchResult result (λ t. HasTexts s separators t.instance t.other) (HasNoTexts s) }
{
    let text = read_all(alloc, reader, MAX_INPUT)?;
    let (instance, rest) = read_instance(alloc, &text)?;
    let start = text.len() - behind_instance(rest, separators).len();
    let other = read_other(alloc, second, OtherText::behind(text, start))?;
    Ok(Texts { instance, other })
}

/// What follows an instance, from its first byte or from the first one that is not a separator.
fn behind_instance(rest: &[u8], separators: Separators) -> &[u8]
    ensures { result.now ≡ between separators rest.now }
{
    match separators {
        Separators::Kept => rest,
        Separators::PassedOver => skip_separators(rest),
    }
}

/// All that the second reader has, if there is one; otherwise what follows the instance.
fn read_other<S: Read>(
    alloc: Global,
    second: &mut Option<Counted<S>>,
    behind: OtherText,
) -> Result<OtherText, CheckError>
    ensures { MatchResult result
        (IsOtherText S.remaining second.old second.new behind)
        (λ e. (fault : TextError) × (e ≡ of_text fault) × IsSecondFault S.remaining second.old second.new fault) }
{
    match second {
        Some(reader) => Ok(OtherText::whole(read_all(alloc, reader, MAX_INPUT)?)),
        None => Ok(behind),
    }
}
