//! Where the texts of a run go.

ghost use Rattle.std.specs.Prelude.{◌≡◌, ℕ, Bool, IfErr, List, OnOk};
ghost use Rattle.plan_files.specs.Outputs.{EndsWith, IsFailure};

use crate::error::PlannerError;
use crate::source::Source;
use qap_io::Status;
use std::alloc::Global;
use std::fs::File;
use std::io;

/// Where the texts of a run go: files by name, standard output, and standard error for what is refused.
pub trait Sink {
    /// From a sink, by a text that the file of a name then contains, to a sink.
    ghost writes: { Self → List ℕ → List ℕ → Self → Type 0 };

    /// From a sink, by a text on standard output, to a sink.
    ghost prints: { Self → List ℕ → Self → Type 0 };

    /// Whether a name is that of something other than a regular file, such as a device.
    ghost holds_device: { Self → List ℕ → Bool → Type 0 };

    /// Checks, before the work that produces their texts, that these files can be written. None of them may be an input of
    /// the run, and no two the same file, except devices. Why one cannot be written is reported on standard error.
    fn open(&mut self, alloc: Global, names: &[Option<&str>], inputs: &[&str]) -> Result<(), Status>
        ensures opened { OnOk result (self.new ≡ self.old) }
        ensures refused { IfErr result IsFailure };

    /// Makes a folder of this name, if there is none. Why it cannot be made is reported on standard error.
    fn make_folder(&self, name: &str) -> Result<(), Status>
        ensures { IfErr result IsFailure };

    /// Writes a text to the file of a name; the reason of a failure is reported on standard error.
    fn put(&mut self, alloc: Global, name: &str, text: &[u8]) -> Status
        ensures { EndsWith result (writes self.old name.now text.now self.new) };

    /// Writes a text to the file of a name while it is made; the reason of a failure is reported on standard error, and
    /// what was in the place of a regular file stays there.
    fn put_from<X: Source + Drop>(&mut self, alloc: Global, name: &str, source: X) -> Status
        ensures { EndsWith result ((text : List ℕ) × X.tells source text × writes self.old name.now text self.new) };

    /// A file for what is needed until the file of a name is written, which no name refers to. Why there is none is reported
    /// on standard error.
    fn scratch(&self, name: &str) -> Result<File, Status>
        ensures { IfErr result IsFailure };

    /// Prints a text on standard output. A closed pipe is not an error: its reader needed no more.
    fn print(&mut self, alloc: Global, text: &[u8]) -> Status
        ensures { EndsWith result (prints self.old text.now self.new) };

    /// Whether something of this name is there that is not a regular file.
    fn is_device(&self, name: &str) -> bool
        ensures { holds_device self.now name.now result };

    /// Reports on standard error what a file is refused for, and returns how the run ends.
    fn refuse(&self, file: &str, error: PlannerError) -> Status
        ensures { IsFailure result };

    /// Reports on standard error what the system refuses a file for, and returns how the run ends.
    fn fail(&self, file: &str, error: &io::Error) -> Status
        ensures { IsFailure result };

    /// Reports something on standard error.
    fn note(&self, line: &str);
}
