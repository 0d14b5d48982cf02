//! The replies of a script.

ghost use Rattle.std.specs.Prelude.{◌≡◌, ◌++◌, ◌∷◌, List, ℤ, OnOk, IfOk, codes};
ghost use Rattle.std.specs.Fmt.{decimal, signed_decimal};
ghost use Rattle.tuple_match.specs.Field.{field_value, fields_value};
ghost use Rattle.tuple_match.specs.FieldValue.{numbers};
ghost use Rattle.space_script.specs.Reply.{behind_commas, between_commas, field_text, fields_text, reply_text};

use itoa::Buffer;
use std::alloc::{AllocError, Global};
use tuple_match::{Field, Tuple};

/// What a command of a script is answered.
#[derive(Debug, Drop)]
pub enum Reply {
    /// It was executed.
    Done,
    /// The number of the transaction that was begun.
    Begun(u64),
    /// The tuple that was taken or read.
    Got(Tuple),
    /// No tuple is available.
    Nothing,
    /// The number of the refusal.
    Refused(u16),
}

/// The line of a reply, with the line feed that ends it.
pub fn reply_line(alloc: Global, reply: &Reply) -> Result<Vec<u8>, AllocError>
    ensures { IfOk result (λ line. line.items ≡ reply_text reply.now) }
{
    match reply {
        Reply::Done => Vec::from_slice(alloc, b"ok\n"),
        Reply::Begun(transaction) => counted_line(alloc, b"txn ", *transaction),
        Reply::Got(tuple) => got_line(alloc, tuple),
        Reply::Nothing => Vec::from_slice(alloc, b"none\n"),
        Reply::Refused(refusal) => counted_line(alloc, b"refused ", u64::from(*refusal)),
    }
}

/// The line of a name and a number.
fn counted_line(alloc: Global, name: &[u8], number: u64) -> Result<Vec<u8>, AllocError>
    ensures { IfOk result (λ line. line.items ≡ name.now ++ decimal number ++ codes "\n") }
{
    let mut line = Vec::from_slice(alloc, name)?;
    line.extend_from_slice(Buffer::new().format(number).as_bytes())?;
    line.push(b'\n')?;
    Ok(line)
}

/// The line of a tuple that was got.
fn got_line(alloc: Global, tuple: &Tuple) -> Result<Vec<u8>, AllocError>
    ensures { IfOk result (λ line. line.items ≡ codes "got" ++ fields_text tuple.now ++ codes "\n") }
{
    let mut line = Vec::from_slice(alloc, b"got")?;
    push_fields(&mut line, tuple.fields())?;
    line.push(b'\n')?;
    Ok(line)
}

/// Appends fields to a line, each after a space.
fn push_fields(line: &mut Vec<u8>, fields: &[Field]) -> Result<(), AllocError>
    ensures { OnOk result (line.new.items ≡ line.old.items ++ fields_text (fields_value fields.now)) }
{
    for field in fields {
        push_field(line, field)?;
    }
    Ok(())
}

/// Appends a field to a line, after a space.
fn push_field(line: &mut Vec<u8>, field: &Field) -> Result<(), AllocError>
    ensures { OnOk result (line.new.items ≡ line.old.items ++ 32 ∷ field_text (field_value field.now)) }
{
    line.push(b' ')?;
    match field {
        Field::Int(number) => push_number(line, *number),
        Field::Word(word) => line.extend_from_slice(word.as_bytes()),
        Field::ShortWord(word) => line.extend_from_slice(word.as_bytes()),
        Field::List(numbers) => push_list(line, numbers),
        Field::Bytes(_) => push_lean_list(line, field),
        Field::Shorts(_) => push_lean_list(line, field),
        Field::Narrow(_) => push_lean_list(line, field),
    }
}

/// Appends the list that a field is to a line.
#[tactic(auto, using(crate::proofs::Replies::numbers_from, crate::proofs::Replies::no_numbers))]
fn push_lean_list(line: &mut Vec<u8>, field: &Field) -> Result<(), AllocError>
    requires { (ns : List ℤ) × (field_value field.now ≡ numbers ns) }
    ensures { OnOk result (line.new.items ≡ line.old.items ++ field_text (field_value field.now)) }
{
    let Some(numbers) = field.as_list() else {
        unreachable!()
    };
    let numbers = numbers.to_vec(*line.allocator())?;
    push_list(line, &numbers)
}

/// Appends a list of numbers to a line, in brackets.
fn push_list(line: &mut Vec<u8>, numbers: &[i128]) -> Result<(), AllocError>
    ensures { OnOk result (line.new.items ≡ line.old.items ++ codes "[" ++ between_commas numbers.now ++ codes "]") }
{
    line.push(b'[')?;
    if let Some((first, rest)) = numbers.split_first() {
        push_number(line, *first)?;
        push_more(line, rest)?;
    }
    line.push(b']')?;
    Ok(())
}

/// Appends numbers to a line, each after a comma.
fn push_more(line: &mut Vec<u8>, numbers: &[i128]) -> Result<(), AllocError>
    ensures { OnOk result (line.new.items ≡ line.old.items ++ behind_commas numbers.now) }
{
    for number in numbers {
        line.push(b',')?;
        push_number(line, *number)?;
    }
    Ok(())
}

/// Appends a number to a line.
fn push_number(line: &mut Vec<u8>, number: i128) -> Result<(), AllocError>
    ensures { OnOk result (line.new.items ≡ line.old.items ++ signed_decimal number) }
{
    line.extend_from_slice(Buffer::new().format(number).as_bytes())
}
