//! The text of a tree, from its pieces.

use crate::piece::{Piece, lesser};
use std::alloc::{AllocError, Global};
use std::io::{self, Read, Seek, SeekFrom};

/// A piece that is being read: its number, how many of its gaps were passed, and how many of its bytes were read or replaced.
#[derive(Clone, Copy, Debug)]
struct Frame {
    piece: usize,
    gap: usize,
    position: u64,
}

/// Some bytes of the file.
#[derive(Clone, Copy, Debug)]
struct Part {
    offset: u64,
    length: u64,
}

/// What is next in a piece.
#[derive(Clone, Copy, Debug)]
enum Next {
    /// These bytes.
    Bytes(Part),
    /// The piece of this number, which replaces what ends at this byte.
    Piece(usize, u64),
    /// A gap that no piece fills: its line stays.
    Line,
    /// Nothing more.
    End,
}

/// The text of the tree that the pieces of a spool make up: that of a piece, in which the text of the piece over an open child stands
/// in place of the child's leaf, where there is one.
#[derive(Drop)]
pub struct Tree<F> {
    file: F,
    pieces: Vec<Piece>,
    /// The pieces that have begun and are not at their end, each over an open child of the one before.
    frames: Vec<Frame>,
}

impl<F> Tree<F> {
    /// The tree of the piece of this number.
    pub(crate) fn new(
        alloc: Global,
        file: F,
        pieces: Vec<Piece>,
        number: usize,
    ) -> Result<Tree<F>, AllocError>
    where
        F: Drop,
    {
        let mut frames = Vec::new(alloc);
        frames.push(Frame {
            piece: number,
            gap: 0,
            position: 0,
        })?;
        Ok(Tree {
            file,
            pieces,
            frames,
        })
    }

    /// The least bound that a leaf reaches which no piece replaces; `None` if there is no such leaf.
    pub fn least_open(&self) -> Option<i128> {
        let mut least = None;
        for piece in &self.pieces {
            least = lesser(least, piece.least_open());
        }
        least
    }

    /// Goes on to the next bytes of the text; `None` at its end.
    fn next_part(&mut self) -> Result<Option<Part>, AllocError> {
        for _ in 0..u64::MAX {
            let Some(frame) = self.frames.pop() else {
                return Ok(None);
            };
            match next_of(&self.pieces, frame) {
                Next::Bytes(part) => {
                    self.frames.push(frame)?;
                    return Ok(Some(part));
                }
                Next::Piece(piece, end) => self.enter(frame, piece, end)?,
                Next::Line => self.frames.push(past(frame, frame.position))?,
                Next::End => {}
            }
        }
        Ok(None)
    }

    /// Begins a piece that replaces what ends at this byte of another.
    fn enter(&mut self, frame: Frame, piece: usize, end: u64) -> Result<(), AllocError> {
        self.frames.push(past(frame, end))?;
        self.frames.push(Frame {
            piece,
            gap: 0,
            position: 0,
        })?;
        Ok(())
    }

    /// Goes on by this many bytes.
    fn pass(&mut self, count: usize) {
        if let Some(frame) = self.frames.last_mut() {
            frame.position = frame.position.saturating_add(count as u64);
        }
    }
}

impl<F: Read + Seek> Read for Tree<F> {
    fn read(&mut self, buf: &mut [u8]) -> io::Result<usize> {
        let Some(part) = self.next_part()? else {
            return Ok(0);
        };
        let length = usize::try_from(part.length).unwrap_or(usize::MAX);
        let room = buf.len().min(length);
        self.file.seek(SeekFrom::Start(part.offset))?;
        let count = self.file.read(&mut buf[..room])?;
        self.pass(count);
        Ok(count)
    }
}

/// The same piece past one more gap, and at this byte.
fn past(frame: Frame, position: u64) -> Frame {
    Frame {
        piece: frame.piece,
        gap: frame.gap.saturating_add(1),
        position,
    }
}

/// What is next in a piece.
fn next_of(pieces: &[Piece], frame: Frame) -> Next {
    let Some(piece) = pieces.get(frame.piece) else {
        return Next::End;
    };
    let Some(gap) = piece.gaps.get(frame.gap) else {
        return next_until(piece, frame.position, piece.length, Next::End);
    };
    let there = match gap.piece {
        Some(number) => Next::Piece(number, gap.ends),
        None => Next::Line,
    };
    next_until(piece, frame.position, gap.begins, there)
}

/// The bytes of a piece up to a place, or if there are none, what is there.
fn next_until(piece: &Piece, position: u64, end: u64, there: Next) -> Next {
    if position < end {
        Next::Bytes(Part {
            offset: piece.offset.saturating_add(position),
            length: end - position,
        })
    } else {
        there
    }
}
