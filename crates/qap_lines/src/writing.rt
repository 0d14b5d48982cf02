//! Lines of a name and numbers, built in memory and written.

ghost use Rattle.std.specs.Prelude.{◌≡◌, ◌+◌, ◌++◌, ◌∷◌, [], pos, length, codes, OnOk};
ghost use Rattle.std.specs.Fmt.{signed_decimal};
ghost use Rattle.number_list.specs.Numbers.{numbers_in};
ghost use Rattle.qap_io.specs.Number.{from_one as counted_from_one};
ghost use Rattle.qap_lines.specs.LineText.{numbers_text, line_text, head_text};
ghost use Rattle.qap_lines.specs.Writing.{Writes};

use itoa::{Buffer, Integer};
use number_list::Numbers;
use qap_cost::Perm;
use qap_io::{Counted, Device, put};
use std::alloc::AllocError;
use std::io::Write;
use thiserror::Error;

/// Why a text has not been written.
#[derive(Clone, Copy, Debug, PartialEq, Eq, Error)]
pub enum WriteError {
    /// Memory ran out for a line.
    #[error("out of memory")]
    OutOfMemory,
    /// The writer failed.
    #[error("the writer failed")]
    Device,
}

impl From<AllocError> for WriteError {
    ghost use Rattle.std.specs.Prelude.{◌≡◌};
    ghost use Rattle.qap_lines.specs.declared.writing.WriteError.TheVariants.{OutOfMemory};

    ghost from_gives = { λ _ f. f ≡ OutOfMemory };

    fn from(_error: AllocError) -> WriteError {
        WriteError::OutOfMemory
    }
}

impl From<Device> for WriteError {
    ghost use Rattle.std.specs.Prelude.{◌≡◌};
    ghost use Rattle.qap_lines.specs.declared.writing.WriteError.TheVariants.{Device as FailedDevice};

    ghost from_gives = { λ _ f. f ≡ FailedDevice };

    fn from(_error: Device) -> WriteError {
        WriteError::Device
    }
}

/// Begins a line by a name, in place of what it was.
pub fn begin_line(line: &mut Vec<u8>, name: &[u8]) -> Result<(), AllocError>
    ensures { OnOk result (line.new.items ≡ name.now) }
{
    line.clear();
    line.extend_from_slice(name)
}

/// Appends a number to a line, after a space.
pub fn push_number(line: &mut Vec<u8>, number: i128) -> Result<(), AllocError>
    ensures { OnOk result (line.new.items ≡ line.old.items ++ 32 ∷ signed_decimal number) }
{
    line.push(b' ')?;
    line.extend_from_slice(Buffer::new().format(number).as_bytes())?;
    Ok(())
}

/// Appends numbers to a line.
pub fn push_numbers(line: &mut Vec<u8>, numbers: &Numbers<'_>) -> Result<(), AllocError>
    ensures { OnOk result (line.new.items ≡ line.old.items ++ numbers_text (numbers_in numbers.now)) }
{
    for place in 0..numbers.len() {
        push_number(line, numbers.at(place))?;
    }
    Ok(())
}

/// A facility, a location or a child, counted from 1.
pub fn number_from_one(index: u16) -> i128
    ensures { result ≡ pos (index + 1) }
{
    i128::from(index) + 1
}

/// Appends numbers to a line, counted from 1.
pub fn push_from_one(line: &mut Vec<u8>, numbers: &[u16]) -> Result<(), AllocError>
    ensures { OnOk result (line.new.items ≡ line.old.items ++ numbers_text (counted_from_one numbers.now)) }
{
    for number in numbers {
        push_number(line, number_from_one(*number))?;
    }
    Ok(())
}

/// The line of a name and one number.
fn make_one(line: &mut Vec<u8>, name: &[u8], number: i128) -> Result<(), AllocError>
    ensures { OnOk result (line.new.items ≡ line_text name.now (number ∷ [])) }
{
    begin_line(line, name)?;
    push_number(line, number)?;
    line.push(b'\n')?;
    Ok(())
}

/// The line of a name and of numbers counted from 1.
fn make_from_one(line: &mut Vec<u8>, name: &[u8], numbers: &[u16]) -> Result<(), AllocError>
    ensures { OnOk result (line.new.items ≡ line_text name.now (counted_from_one numbers.now)) }
{
    begin_line(line, name)?;
    push_from_one(line, numbers)?;
    line.push(b'\n')?;
    Ok(())
}

/// The line of a name and the numbers of two lists.
fn make_both(
    line: &mut Vec<u8>,
    name: &[u8],
    u: &Numbers<'_>,
    v: &Numbers<'_>,
) -> Result<(), AllocError>
    ensures { OnOk result (line.new.items ≡ line_text name.now (numbers_in u.now ++ numbers_in v.now)) }
{
    begin_line(line, name)?;
    push_numbers(line, u)?;
    push_numbers(line, v)?;
    line.push(b'\n')?;
    Ok(())
}

/// Writes a text.
pub fn write_text<W: Write>(writer: &mut Counted<W>, text: &[u8]) -> Result<(), WriteError>
    ensures { Writes W.contents writer.old writer.new text.now result }
{
    put(writer, text)?;
    Ok(())
}

/// Writes the line of a name and one number. Such a line is made in `line`, in place of what that was.
pub fn write_one<W: Write>(
    writer: &mut Counted<W>,
    line: &mut Vec<u8>,
    name: &[u8],
    number: i128,
) -> Result<(), WriteError>
    ensures { Writes W.contents writer.old writer.new (line_text name.now (number ∷ [])) result }
{
    make_one(line, name, number)?;
    write_text(writer, line)
}

/// Writes the line of a name and of numbers that the line counts from 1.
pub fn write_from_one<W: Write>(
    writer: &mut Counted<W>,
    line: &mut Vec<u8>,
    name: &[u8],
    numbers: &[u16],
) -> Result<(), WriteError>
    ensures { Writes W.contents writer.old writer.new (line_text name.now (counted_from_one numbers.now)) result }
{
    make_from_one(line, name, numbers)?;
    write_text(writer, line)
}

/// Writes the line of a name and the numbers of two lists.
pub fn write_both<W: Write>(
    writer: &mut Counted<W>,
    line: &mut Vec<u8>,
    name: &[u8],
    u: &Numbers<'_>,
    v: &Numbers<'_>,
) -> Result<(), WriteError>
    ensures { Writes W.contents writer.old writer.new (line_text name.now (numbers_in u.now ++ numbers_in v.now)) result }
{
    make_both(line, name, u, v)?;
    write_text(writer, line)
}

/// Writes the line of a format and its version.
fn write_version<W: Write>(
    writer: &mut Counted<W>,
    line: &mut Vec<u8>,
    name: &[u8],
    version: u16,
) -> Result<(), WriteError>
    ensures { Writes W.contents writer.old writer.new (line_text name.now (pos version ∷ [])) result }
{
    write_one(writer, line, name, i128::from(version))
}

/// Writes the line of a permutation's size.
fn write_size<W: Write>(
    writer: &mut Counted<W>,
    line: &mut Vec<u8>,
    perm: &Perm,
) -> Result<(), WriteError>
    ensures { Writes W.contents writer.old writer.new (line_text (codes "n") (pos (length perm.now) ∷ [])) result }
{
    write_one(writer, line, b"n", perm.len() as i128)
}

/// Writes the line of a cost.
fn write_cost<W: Write>(
    writer: &mut Counted<W>,
    line: &mut Vec<u8>,
    cost: i128,
) -> Result<(), WriteError>
    ensures { Writes W.contents writer.old writer.new (line_text (codes "cost") (cost ∷ [])) result }
{
    write_one(writer, line, b"cost", cost)
}

/// Writes the line of a permutation.
fn write_permutation<W: Write>(
    writer: &mut Counted<W>,
    line: &mut Vec<u8>,
    perm: &Perm,
) -> Result<(), WriteError>
    ensures { Writes W.contents writer.old writer.new (line_text (codes "perm") (counted_from_one perm.now)) result }
{
    write_from_one(writer, line, b"perm", perm.locations())
}

/// Writes the lines that certificates and proofs begin with: the format and its version, the size, the cost, and the
/// permutation.
pub fn write_head<W: Write>(
    writer: &mut Counted<W>,
    line: &mut Vec<u8>,
    name: &[u8],
    version: u16,
    cost: i128,
    perm: &Perm,
) -> Result<(), WriteError>
    ensures { Writes W.contents writer.old writer.new (head_text name.now version cost perm.now) result }
{
    write_version(writer, line, name, version)?;
    write_size(writer, line, perm)?;
    write_cost(writer, line, cost)?;
    write_permutation(writer, line, perm)
}
