// Refusals as programs report them.
ghost use Rattle.std.specs.Prelude.{◌≡◌, ◌++◌, OnOk, OnErr, MatchResult, codes, map};
ghost use Rattle.std.specs.List.{concat};
ghost use Rattle.std.specs.Io.KnownBytes.{Appends};
ghost use Rattle.qap_io.specs.Counting.{FailedBetween};
ghost use Rattle.qap_io.specs.Refusal.{refused, refused_at, refusal_line, memory_refusal, device_refusal};
ghost use Rattle.qap_io.specs.Writing.{AppendsBeginning, Sends, BreaksOff};

use crate::writing::put_all;
use crate::{Counted, Device, finish};
use itoa::Buffer;
use std::io::Write;
use std::marker::Model;

/// A refusal's number, its name, and the place, the line or the count that it carries.
#[derive(Debug, Drop)]
pub struct Refusal {
    pub number: u16,
    pub name: &'static str,
    pub at: Option<u64>,
}

impl Model for Refusal {
    ghost use Rattle.qap_io.specs.Refusal.{RefusalText};

    ghost Value = { RefusalText };

    ghost view = { λ r. record { number = r.number; name = r.name.now; at = r.at } };
}

impl Refusal {
    /// A refusal of this number and name, which carries nothing.
    pub fn new(number: u16, name: &'static str) -> Refusal
        ensures { result ≡ refused number name.now }
    {
        Refusal {
            number,
            name,
            at: None,
        }
    }

    /// A refusal of this number and name, which carries a place, a line or a count.
    pub fn at(number: u16, name: &'static str, at: u64) -> Refusal
        ensures { result ≡ refused_at number name.now at }
    {
        Refusal {
            number,
            name,
            at: Some(at),
        }
    }

    /// Want of memory.
    pub fn out_of_memory() -> Refusal
        ensures { result ≡ memory_refusal }
    {
        Refusal::new(50, "OutOfMemory")
    }

    /// A failed device.
    pub fn device() -> Refusal
        ensures { result ≡ device_refusal }
    {
        Refusal::new(51, "Device")
    }

    /// Writes the line of the refusal: `refused`, its number and its name, and `at` with what it carries; and flushes
    /// the writer. If that fails, a prefix of the line has been written.
    pub fn send<W: Write>(&self, writer: &mut Counted<W>) -> Result<(), Device>
        ensures { MatchResult result
            (λ _. Sends W.contents writer.old writer.new (refusal_line self.now))
            (λ _. BreaksOff W.contents writer.old writer.new (refusal_line self.now)) }
    {
        self.put(writer)?;
        finish(writer)
    }

    /// Writes the line of the refusal.
    fn put<W: Write>(&self, writer: &mut Counted<W>) -> Result<(), Device>
        ensures whole { OnOk result (Appends (W.contents writer.old.inner) (W.contents writer.new.inner) (refusal_line self.now)) }
        ensures kept { OnOk result (writer.new.failures ≡ writer.old.failures) }

        ensures beginning { OnErr result (AppendsBeginning (W.contents writer.old.inner) (W.contents writer.new.inner) (refusal_line self.now)) }
        ensures failed { OnErr result (FailedBetween writer.old writer.new) }
    {
        let mut buffer = Buffer::new();
        let number = buffer.format(self.number);
        match self.at {
            Some(k) => put_line(writer, number, self.name, " at ", Buffer::new().format(k)),
            None => put_line(writer, number, self.name, "", ""),
        }
    }
}

/// Writes the line of a refusal, of these texts.
fn put_line<W: Write>(
    writer: &mut Counted<W>,
    number: &str,
    name: &str,
    at: &str,
    count: &str,
) -> Result<(), Device>
    ensures whole { OnOk result (Appends (W.contents writer.old.inner) (W.contents writer.new.inner) (codes "refused " ++ number.now ++ codes " " ++ name.now ++ at.now ++ count.now ++ codes "\n")) }
    ensures kept { OnOk result (writer.new.failures ≡ writer.old.failures) }

    ensures beginning { OnErr result (AppendsBeginning (W.contents writer.old.inner) (W.contents writer.new.inner) (codes "refused " ++ number.now ++ codes " " ++ name.now ++ at.now ++ count.now ++ codes "\n")) }
    ensures failed { OnErr result (FailedBetween writer.old writer.new) }
{
    let texts = line_texts(
        number.as_bytes(),
        name.as_bytes(),
        at.as_bytes(),
        count.as_bytes(),
    );
    put_all(writer, &texts)
}

/// What the line of a refusal is made of.
fn line_texts<'a>(number: &'a [u8], name: &'a [u8], at: &'a [u8], count: &'a [u8]) -> [&'a [u8]; 7]
    ensures { concat (map (λ t. t.now) result) ≡ codes "refused " ++ number.now ++ codes " " ++ name.now ++ at.now ++ count.now ++ codes "\n" }
{
    [b"refused ", number, b" ", name, at, count, b"\n"]
}
