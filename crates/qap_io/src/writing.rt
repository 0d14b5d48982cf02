// Writing a whole text.
ghost use Rattle.std.specs.Prelude.{◌≡◌, is_err, map, true, OnOk, OnErr, MatchResult};
ghost use Rattle.std.specs.List.{concat};
ghost use Rattle.std.specs.Io.KnownBytes.{Appends, Keeps};
ghost use Rattle.qap_io.specs.Counting.{CountsCall, FailedBetween};
ghost use Rattle.qap_io.specs.Writing.{AppendsBeginning, Sends, BreaksOff};

use crate::{Counted, Device};
use std::io::Write;

/// Writes the whole text. It stops at the first write that fails, and repeats no write: a prefix of the text has then
/// been written.
pub fn put<W: Write>(writer: &mut Counted<W>, text: &[u8]) -> Result<(), Device>
    ensures whole { OnOk result (Appends (W.contents writer.old.inner) (W.contents writer.new.inner) text.now) }
    ensures beginning { OnErr result (AppendsBeginning (W.contents writer.old.inner) (W.contents writer.new.inner) text.now) }

    // No call has failed where the answer is `Ok`, and one where it is `Err`.
    ensures count { CountsCall (is_err result) writer.old writer.new }
    ensures failed { OnErr result (FailedBetween writer.old writer.new) }
{
    let mut written = 0;
    while written < text.len() {
        match writer.write(&text[written..]) {
            Ok(0) | Err(_) => return Err(Device),
            Ok(taken) => written += taken,
        }
    }
    Ok(())
}

/// Writes texts, in sequence. It stops at the first write that fails: a prefix of what the texts are together has been
/// written then.
pub(crate) fn put_all<W: Write>(writer: &mut Counted<W>, texts: &[&[u8]]) -> Result<(), Device>
    ensures whole { OnOk result (Appends (W.contents writer.old.inner) (W.contents writer.new.inner) (concat (map (λ t. t.now) texts.now))) }
    ensures kept { OnOk result (writer.new.failures ≡ writer.old.failures) }

    ensures beginning { OnErr result (AppendsBeginning (W.contents writer.old.inner) (W.contents writer.new.inner) (concat (map (λ t. t.now) texts.now))) }
    ensures failed { OnErr result (FailedBetween writer.old writer.new) }
{
    for i in 0..texts.len() {
        put(writer, texts[i])?;
    }
    Ok(())
}

/// Flushes the writer, once. Where that succeeds, all that was written is flushed.
pub fn finish<W: Write>(writer: &mut Counted<W>) -> Result<(), Device>
    ensures bytes { Keeps (W.contents writer.old.inner) (W.contents writer.new.inner) }
    ensures flushed { OnOk result (writer.new.flushed ≡ true) }
    ensures count { CountsCall (is_err result) writer.old writer.new }
    ensures failed { OnErr result (FailedBetween writer.old writer.new) }
{
    writer.flush().map_err(|_| Device)
}

/// Writes the whole text, and flushes the writer. If that fails, a prefix of the text has been written.
pub fn send<W: Write>(writer: &mut Counted<W>, text: &[u8]) -> Result<(), Device>
    ensures { MatchResult result
        (λ _. Sends W.contents writer.old writer.new text.now)
        (λ _. BreaksOff W.contents writer.old writer.new text.now) }
{
    put(writer, text)?;
    finish(writer)
}
