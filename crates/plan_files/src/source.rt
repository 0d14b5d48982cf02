//! A text that is made while it is written.

ghost use Rattle.std.specs.Prelude.{ℕ, List, OnOk};
ghost use Rattle.std.specs.Io.KnownBytes.{Appends};

use crate::error::PlannerError;
use std::alloc::Global;
use std::io::Write;

/// A text that is made while it is written.
pub trait Source {
    /// What the text tells.
    ghost tells: { Self → List ℕ → Type 0 };

    /// Writes the text to a writer, which is returned in any case.
    fn write_to<W: Write + Drop>(self, alloc: Global, writer: W) -> (W, Result<(), PlannerError>)
        ensures { OnOk result.1 ((text : List ℕ) × tells self text × Appends (W.contents writer) (W.contents result.0) text) };
}
