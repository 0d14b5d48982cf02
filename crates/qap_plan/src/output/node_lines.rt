//! The list of parts.

ghost use Rattle.std.specs.Prelude.{IfOk, ◌++◌, ◌≡◌};
ghost use Rattle.qap_plan.specs.NodeLines.{node_lines as lines_of};

use qap_proof::{MissingPart, text_of_node};
use std::alloc::{AllocError, Global};

/// A line for each part with its node: facilities and locations alternately, counted from 1.
pub fn lines_of_parts(alloc: Global, parts: &[MissingPart]) -> Result<Vec<u8>, AllocError>
    ensures { IfOk result (λ text. text.items ≡ lines_of parts.now) }
{
    let mut text = Vec::new(alloc);
    for part in parts {
        text.extend_from_slice(&text_of_node(alloc, &part.node)?)?;
        text.push(b'\n')?;
    }
    Ok(text)
}
