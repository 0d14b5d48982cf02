//! The lines of a proof before its tree.

use crate::writing::Claim;
use qap_cost::Partial;
use qap_io::Counted;
use qap_lines::{WriteError, begin_line, write_head, write_one, write_text};
use qap_proof::text_of_node;
use std::alloc::{AllocError, Global};

/// The lines before the tree of a proof with pair duals that states this.
pub(crate) fn front_text(alloc: Global, claim: &Claim<'_>) -> Result<Vec<u8>, AllocError> {
    let mut text = Counted::new(Vec::new(alloc));
    match write_front(alloc, &mut text, claim) {
        Ok(()) => Ok(text.into_inner()),
        // Nothing but want of memory keeps a text from a vector.
        Err(_) => Err(AllocError),
    }
}

fn write_front(
    alloc: Global,
    text: &mut Counted<Vec<u8>>,
    claim: &Claim<'_>,
) -> Result<(), WriteError> {
    let mut line = Vec::new(alloc);
    write_head(
        text,
        &mut line,
        b"qapproof",
        2,
        claim.cost,
        claim.permutation,
    )?;
    if claim.root.depth() > 0 {
        make_root(alloc, &mut line, claim.root)?;
        write_text(text, &line)?;
    }
    if claim.bound < claim.cost {
        write_one(text, &mut line, b"bound", claim.bound)?;
    }
    Ok(())
}

/// Makes a line that of a root that isn't empty.
fn make_root(alloc: Global, line: &mut Vec<u8>, root: &Partial) -> Result<(), AllocError> {
    let text = text_of_node(alloc, root)?;
    begin_line(line, b"node ")?;
    line.extend_from_slice(&text)?;
    line.push(b'\n')?;
    Ok(())
}
