//! The files that a run writes, and what it prints. Each is written independently of the others; the most serious
//! status wins.

ghost use Rattle.std.specs.Prelude.{◌≡◌, ◌≤◌, ◌⊎◌, ℕ, IfErr, IfOk, List};
ghost use Rattle.plan_files.specs.Outputs.{IsFailure, severity};

use crate::error::PlannerError;
use crate::noting::Noting;
use crate::refusal::refuse_with;
use crate::sink::Sink;
use crate::source::Source;
use output_file::{Output, Place, file_id, open_output, reason};
use qap_io::Status;
use std::alloc::{AllocError, Global};
use std::fs::{self, File};
use std::io::{self, BufWriter, Write};
use std::marker::Model;

/// How many bytes of a text that is made while it is written are written at once.
const CAPACITY: usize = 1 << 16;

/// A file that a run was asked to write, under the name that it was given.
#[derive(Drop)]
struct NamedOutput {
    name: String,
    output: Output<File>,
}

/// The files of the system, of which some were found to be writable, and its standard streams. No contract says what they
/// contain.
#[derive(Drop)]
pub struct Outputs<'a> {
    rt: &'a HostRuntime,
    files: Vec<NamedOutput>,
}

impl<'a> Model for Outputs<'a> {
    ghost Value = { Unit {0} };

    ghost view = { λ _. tt };
}

impl<'a> Outputs<'a> {
    /// With no file found to be writable yet. Allocates nothing.
    pub fn new(rt: &'a HostRuntime) -> Outputs<'a> {
        Outputs {
            rt,
            files: Vec::new(rt.alloc()),
        }
    }

    /// Opens one more file.
    fn open_one(&mut self, alloc: Global, name: &str, inputs: &[&str]) -> Result<(), Status>
        ensures refused { IfErr result IsFailure }
    {
        let output = match open_output(self.rt, name) {
            Ok(output) => output,
            Err(error) => return Err(refuse_io(self.rt, name, &error)),
        };
        if let Some(clash) = self.clash_of(&output, inputs) {
            let _ = self.rt.eprintln(format_args!("error: {name}: {clash}"));
            return Err(Status::Usage);
        }
        match self.keep(alloc, name, output) {
            Ok(()) => Ok(()),
            Err(_) => Err(refuse_with(self.rt, name, PlannerError::OutOfMemory)),
        }
    }

    /// Keeps an output until its text is known.
    fn keep(&mut self, alloc: Global, name: &str, output: Output<File>) -> Result<(), AllocError> {
        let name = String::from_str(alloc, name)?;
        self.files.push(NamedOutput { name, output })?;
        Ok(())
    }

    /// Why the output may not be written, if it may not.
    fn clash_of(&self, output: &Output<File>, inputs: &[&str]) -> Option<&'static str> {
        for &input in inputs {
            if let Some(id) = file_id(self.rt, input) {
                if output.replaces(id) {
                    return Some("the run reads this file: write to another one");
                }
            }
        }
        for other in &self.files {
            if other.output.is_same(output) {
                return Some("another output goes to this file: write to another one");
            }
        }
        None
    }

    /// A scratch file of the output of this name.
    fn scratch_of(&self, name: &str) -> io::Result<File> {
        for file in &self.files {
            if file.name.as_str() == name {
                return file.output.scratch(self.rt);
            }
        }
        Err(io::Error::from(io::ErrorKind::NotFound))
    }

    /// The first file of this name that has not been written yet; one that was not opened is opened now.
    fn take(&mut self, name: &str) -> io::Result<Output<File>> {
        let mut at: usize = 0;
        for file in &self.files {
            if file.name.as_str() == name {
                break;
            }
            at = at.saturating_add(1);
        }
        if at < self.files.len() {
            Ok(self.files.remove(at).output)
        } else {
            open_output(self.rt, name)
        }
    }
}

impl Sink for Outputs<'_> {
    ghost writes = { λ _ _ _ _. Unit {0} };

    ghost prints = { λ _ _ _. Unit {0} };

    ghost holds_device = { λ _ _ _. Unit {0} };

    fn open(
        &mut self,
        alloc: Global,
        names: &[Option<&str>],
        inputs: &[&str],
    ) -> Result<(), Status> {
        for &name in names {
            if let Some(name) = name {
                self.open_one(alloc, name, inputs)?;
            }
        }
        Ok(())
    }

    fn make_folder(&self, name: &str) -> Result<(), Status> {
        match fs::create_dir_all(self.rt, name) {
            Ok(()) => Ok(()),
            Err(error) => Err(refuse_io(self.rt, name, &error)),
        }
    }

    fn put(&mut self, _alloc: Global, name: &str, text: &[u8]) -> Status {
        let output = match self.take(name) {
            Ok(output) => output,
            Err(error) => return refuse_io(self.rt, name, &error),
        };
        match output.put(self.rt, text) {
            Ok(()) => Status::Done,
            Err(error) => refuse_io(self.rt, name, &error),
        }
    }

    fn put_from<X: Source + Drop>(&mut self, alloc: Global, name: &str, source: X) -> Status {
        let begun = match self.take(name) {
            Ok(output) => output.begin(self.rt),
            Err(error) => return refuse_io(self.rt, name, &error),
        };
        let (file, place) = match begun {
            Ok(begun) => begun,
            Err(error) => return refuse_io(self.rt, name, &error),
        };
        match fill(alloc, file, source) {
            Ok(file) => match place.settle(self.rt, file) {
                Ok(()) => Status::Done,
                Err(error) => refuse_io(self.rt, name, &error),
            },
            Err(fault) => {
                place.cancel(self.rt);
                refuse_fault(self.rt, name, &fault)
            }
        }
    }

    fn scratch(&self, name: &str) -> Result<File, Status> {
        match self.scratch_of(name) {
            Ok(file) => Ok(file),
            Err(error) => Err(refuse_io(self.rt, name, &error)),
        }
    }

    fn print(&mut self, _alloc: Global, text: &[u8]) -> Status {
        match write_all(&mut self.rt.stdout(), text) {
            Ok(()) => Status::Done,
            Err(error) if error.kind() == io::ErrorKind::BrokenPipe => Status::Done,
            Err(error) => refuse_io(self.rt, "standard output", &error),
        }
    }

    fn is_device(&self, name: &str) -> bool {
        match fs::metadata(self.rt, name) {
            Ok(found) => !found.is_file(),
            Err(_) => false,
        }
    }

    fn refuse(&self, file: &str, error: PlannerError) -> Status {
        refuse_with(self.rt, file, error)
    }

    fn fail(&self, file: &str, error: &io::Error) -> Status {
        refuse_io(self.rt, file, error)
    }

    fn note(&self, line: &str) {
        let _ = self.rt.eprintln(line);
    }
}

/// Why a text that is made while it is written could not be written: its writer failed, or it could not be made.
#[derive(Drop)]
enum Fault {
    Writer(io::Error),
    Source(PlannerError),
}

/// Writes a text to a file while it is made.
fn fill<X: Source + Drop>(alloc: Global, file: File, source: X) -> Result<File, Fault>
    ensures { IfOk result (λ _. (text : List ℕ) × X.tells source text) }
{
    let writer = match BufWriter::with_capacity(alloc, CAPACITY, Noting::new(file)) {
        Ok(writer) => writer,
        Err(error) => return Err(Fault::Writer(error)),
    };
    let (mut writer, made) = source.write_to(alloc, writer);
    let flushed = writer.flush();
    let (file, failure) = writer.into_parts().0.into_parts();
    match (made, flushed) {
        (Ok(()), Ok(())) => Ok(file),
        (Ok(()), Err(error)) => Err(Fault::Writer(failure.unwrap_or(error))),
        (Err(error), _) => match failure {
            Some(failure) => Err(Fault::Writer(failure)),
            None => Err(Fault::Source(error)),
        },
    }
}

/// Reports on standard error why such a text was not written.
fn refuse_fault(rt: &HostRuntime, name: &str, fault: &Fault) -> Status
    ensures { IsFailure result }
{
    match fault {
        Fault::Writer(error) => refuse_io(rt, name, error),
        Fault::Source(error) => refuse_with(rt, name, *error),
    }
}

/// Writes the whole text, and flushes.
fn write_all<W: Write>(writer: &mut W, text: &[u8]) -> io::Result<()> {
    writer.write_all(text)?;
    writer.flush()
}

/// Prints on standard error why a file can't be written, in the system's own words.
fn refuse_io(rt: &HostRuntime, name: &str, error: &io::Error) -> Status
    ensures { IsFailure result }
{
    if error.kind() == io::ErrorKind::OutOfMemory {
        return refuse_with(rt, name, PlannerError::OutOfMemory);
    }
    match reason(rt.alloc(), error) {
        Ok(words) => {
            let _ = rt.eprintln(format_args!("error: {name}: {words}"));
            Status::Refused
        }
        Err(_) => refuse_with(rt, name, PlannerError::OutOfMemory),
    }
}

/// The graver of two statuses.
pub fn worse(left: Status, right: Status) -> Status
    ensures one { (result ≡ left) ⊎ (result ≡ right) }
    ensures left { severity left ≤ severity result }
    ensures right { severity right ≤ severity result }
{
    if severity(left) < severity(right) {
        right
    } else {
        left
    }
}

/// How grave a status is.
fn severity(status: Status) -> u8
    ensures { result ≡ severity status }
{
    match status {
        Status::Done => 0,
        Status::Stopped => 1,
        Status::Unfinished => 2,
        Status::Refused => 3,
        Status::Usage => 4,
        Status::OutOfMemory => 5,
    }
}
