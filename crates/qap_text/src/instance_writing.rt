//! Instances as texts.

ghost use Rattle.std.specs.Prelude.{◌≡◌, ◌≤◌, ◌∷◌, ◌++◌, [], IfOk, OnOk, if◌then◌else◌, length, pos};
ghost use Rattle.std.specs.Fmt.{signed_decimal};
ghost use Rattle.qap_cost.specs.Limits.{max_size};
ghost use Rattle.qap_text.specs.InstanceText.{IsInstanceText};
ghost use Rattle.qap_text.specs.Spelling.{Spells};

use itoa::Buffer;
use qap_cost::Instance;
use std::alloc::{AllocError, Global};

/// The text of an instance, as the library QAPLIB (Burkard, Karisch and Rendl 1997) writes it: its size, the rows of A
/// and the rows of B, each on its own line. Reading it yields the instance.
pub fn text_of_instance(alloc: Global, instance: &Instance) -> Result<Vec<u8>, AllocError>
    ensures { IfOk result (λ text. IsInstanceText text.items instance.now (10 ∷ [])) }
{
    let mut text = size_text(alloc, instance.size())?;
    push_flows(&mut text, instance)?;
    push_distances(&mut text, instance)?;
    text.push(b'\n')?;
    Ok(text)
}

/// The text of a size.
fn size_text(alloc: Global, size: usize) -> Result<Vec<u8>, AllocError>
    requires { size ≤ max_size }
    ensures { IfOk result (λ text. Spells text.items 0 (pos size ∷ []) (length text.items)) }
{
    Vec::from_slice(alloc, Buffer::new().format(size).as_bytes())
}

/// Appends the entries of A to the text, row by row.
fn push_flows(text: &mut Vec<u8>, instance: &Instance) -> Result<(), AllocError>
    requires { Spells text.old.items 0 (pos instance.now.size ∷ []) (length text.old.items) }
    ensures { OnOk result (Spells text.new.items 0 (pos instance.now.size ∷ instance.now.a) (length text.new.items)) }
{
    let size = instance.size();
    for k in 0..size * size {
        push_entry(text, instance.a(k / size, k % size), k % size == 0)?;
    }
    Ok(())
}

/// Appends the entries of B to the text, row by row.
fn push_distances(text: &mut Vec<u8>, instance: &Instance) -> Result<(), AllocError>
    requires { Spells text.old.items 0 (pos instance.now.size ∷ instance.now.a) (length text.old.items) }
    ensures { OnOk result (Spells text.new.items 0 (pos instance.now.size ∷ instance.now.a ++ instance.now.b) (length text.new.items)) }
{
    let size = instance.size();
    for k in 0..size * size {
        push_entry(text, instance.b(k / size, k % size), k % size == 0)?;
    }
    Ok(())
}

/// Appends an entry to the text, on a line of its own where it begins a row.
fn push_entry(text: &mut Vec<u8>, entry: i64, begins_row: bool) -> Result<(), AllocError>
    ensures { OnOk result (text.new.items ≡ text.old.items ++ (if begins_row then 10 else 32) ∷ signed_decimal entry) }
{
    text.push(if begins_row { b'\n' } else { b' ' })?;
    text.extend_from_slice(Buffer::new().format(entry).as_bytes())
}
