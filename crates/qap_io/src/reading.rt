// Reading some of the bytes.
ghost use Rattle.std.specs.Prelude.{◌≡◌, ◌≤◌, ◌<◌, length, take, is_err, IfOk, OnErr};
ghost use Rattle.std.specs.Io.KnownBytes.{Consumes, IsAtEnd, Keeps};
ghost use Rattle.qap_io.specs.Counting.{CountsCall, FailedBetween};

use crate::{Counted, Device};
use std::io::Read;

/// Reads once, to the beginning of the buffer, and returns how many bytes came: 0 only at the end of the input, or with
/// an empty buffer. A read that fails is not repeated.
pub fn read_some<R: Read>(reader: &mut Counted<R>, buffer: &mut [u8]) -> Result<usize, Device>
    ensures bound { IfOk result (λ n. n ≤ length buffer.new) }
    ensures bytes { IfOk result (λ n. Consumes (R.remaining reader.old.inner) (R.remaining reader.new.inner) (take n buffer.new)) }
    ensures end { IfOk result (λ n. n ≡ 0 → 0 < length buffer.new → IsAtEnd (R.remaining reader.new.inner)) }
    ensures none_lost { OnErr result (Keeps (R.remaining reader.old.inner) (R.remaining reader.new.inner)) }

    ensures count { CountsCall (is_err result) reader.old reader.new }
    ensures failed { OnErr result (FailedBetween reader.old reader.new) }
{
    reader.read(buffer).map_err(|_| Device)
}
