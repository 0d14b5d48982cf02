//! The whole text of a proof, from its pieces.

use crate::tree::Tree;
use std::alloc::Global;
use std::io::{self, BufReader, Chain, Cursor, Read, Seek};

/// How many bytes are read at once.
const CAPACITY: usize = 1 << 18;

/// The last line of a proof.
const END: &[u8] = b"end\n";

/// Yields the lines before the tree of a proof, its tree, and its last line.
pub(crate) type Assembly<F> = BufReader<Chain<Chain<Cursor<Vec<u8>>, Tree<F>>, &'static [u8]>>;

/// The text of a proof with these lines before its tree.
pub(crate) fn assembly<F: Read + Seek + Drop>(
    alloc: Global,
    front: Vec<u8>,
    tree: Tree<F>,
) -> io::Result<Assembly<F>> {
    BufReader::with_capacity(alloc, CAPACITY, Cursor::new(front).chain(tree).chain(END))
}
