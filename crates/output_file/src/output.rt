//! A file to be written.

ghost use Rattle.std.specs.Prelude.{◌≡◌, ◌↔◌, true, Some, IsTrue, OnOk};
ghost use Rattle.std.specs.Io.KnownBytes.{Appends};
ghost use Rattle.output_file.specs.Output.{IsSameFile, IsSamePlace};

use crate::opening::create_fresh;
use std::env::{self, Env};
use std::fs::{self, Files, OpenFile, Permissions};
use std::io::{self, Write};
use std::marker::Model;
use std::os::unix::fs::MetadataExt;

/// What the name of a file in the folder for temporary files begins with.
const SCRATCH: &str = "scratch";

/// The identity of a file, regardless of its name.
#[derive(Clone, Copy, Debug, PartialEq, Eq)]
pub struct FileId {
    pub device: u64,
    pub inode: u64,
}

/// The regular file with a name, following links; `None` if there is none.
pub fn file_id<R: Files>(rt: &R, name: &str) -> Option<FileId> {
    match fs::metadata(rt, name) {
        Ok(found) if found.is_file() => Some(FileId {
            device: found.dev(),
            inode: found.ino(),
        }),
        _ => None,
    }
}

/// A file to be written, checked to be writable before a program's work, and written once its text is known.
///
/// What is not a regular file, such as a device, is written directly. Anything else is written beside its target, to a
/// file with a new name and the same permissions, synced, and then renamed, so that a reader finds the old file or the
/// new one, and never a part of either. Before that nothing exists beside the target.
#[derive(Drop)]
pub struct Output<F: Write + OpenFile + Drop> {
    pub(crate) target: String,
    /// What is not a regular file, opened.
    pub(crate) device: Option<F>,
    /// The permissions of the file that is replaced, if there is one.
    pub(crate) permissions: Option<Permissions>,
    /// What was in the place when the output was opened.
    pub(crate) earlier: Option<FileId>,
}

impl<F: Write + OpenFile + Drop> Model for Output<F> {
    ghost use Rattle.std.specs.Prelude.{is_none, string_bytes};
    ghost use Rattle.output_file.specs.Output.{Place};

    ghost Value = { Place };

    ghost view = { λ o. record { name = string_bytes o.target; regular = is_none o.device; earlier = o.earlier } };
}

impl<F: Write + OpenFile + Drop> Output<F> {
    /// Whether two outputs are the same regular file, regardless of their names. Devices may be written twice.
    pub fn is_same(&self, other: &Output<F>) -> bool
        ensures { IsTrue result ↔ IsSamePlace self.now other.now }
    {
        self.device.is_none()
            && other.device.is_none()
            && (were_same(self.earlier, other.earlier)
                || self.target.as_str() == other.target.as_str())
    }

    /// Whether the output is this regular file.
    pub fn replaces(&self, file: FileId) -> bool
        ensures { IsTrue result ↔ ((self.now.regular ≡ true) × (self.now.earlier ≡ Some file)) }
    {
        self.device.is_none() && self.earlier == Some(file)
    }

    /// Writes the text and puts the file in its place. At an error the place is unchanged.
    pub fn put<R: Files<File = F> + AllocGlobal>(self, rt: &R, text: &[u8]) -> io::Result<()> {
        let (mut file, place) = self.begin(rt)?;
        match fill(&mut file, text) {
            Ok(()) => place.settle(rt, file),
            Err(error) => {
                place.cancel(rt);
                Err(error)
            }
        }
    }

    /// Opens the file to write its text to, which is then put in its place or dropped.
    pub fn begin<R: Files<File = F> + AllocGlobal>(self, rt: &R) -> io::Result<(F, Place)> {
        let Output {
            target,
            device,
            permissions,
            earlier: _,
        } = self;
        if let Some(device) = device {
            return Ok((device, Place { target, part: None }));
        }
        let (file, part) = create_fresh(rt, target.as_str(), false)?;
        let place = Place {
            target,
            part: Some(part),
        };
        match permit(&file, permissions) {
            Ok(()) => Ok((file, place)),
            Err(error) => {
                place.cancel(rt);
                Err(error)
            }
        }
    }

    /// A file for what is needed until the output is written, which no name refers to: beside the place of a regular file.
    pub fn scratch<R: Files<File = F> + AllocGlobal + Env>(&self, rt: &R) -> io::Result<F> {
        if self.device.is_none() {
            return nameless(rt, self.target.as_str());
        }
        let folder = env::temp_dir(rt)?;
        nameless(rt, folder.join(rt.alloc(), SCRATCH)?.as_str())
    }
}

/// Where the text of a file goes once it is written: over the target if it was written beside it, nowhere if it is a device.
#[derive(Drop)]
pub struct Place {
    target: String,
    /// The name of the file beside the target.
    part: Option<String>,
}

impl Place {
    /// Has the system store the file, whose text is written, and puts it in its place. At an error the place is unchanged.
    pub fn settle<R: Files + AllocGlobal>(self, rt: &R, mut file: R::File) -> io::Result<()> {
        let Some(part) = &self.part else {
            return file.flush();
        };
        let placed = match store(file) {
            Ok(()) => fs::rename(rt, part.as_str(), self.target.as_str()),
            Err(error) => Err(error),
        };
        if placed.is_err() {
            self.cancel(rt);
        }
        placed
    }

    /// Removes what was written, except to a device.
    pub fn cancel<R: Files>(self, rt: &R) {
        if let Some(part) = &self.part {
            let _ = fs::remove_file(rt, part.as_str());
        }
    }
}

/// A new file beside a target, that is read and written, without a name.
fn nameless<R: Files + AllocGlobal>(rt: &R, target: &str) -> io::Result<R::File> {
    let (file, part) = create_fresh(rt, target, true)?;
    fs::remove_file(rt, part.as_str())?;
    Ok(file)
}

/// Whether the same file was in both places.
fn were_same(left: Option<FileId>, right: Option<FileId>) -> bool
    ensures { IsTrue result ↔ IsSameFile left right }
{
    match (left, right) {
        (Some(left), Some(right)) => left == right,
        _ => false,
    }
}

/// Writes the whole text, and flushes.
fn fill<F: Write>(file: &mut F, text: &[u8]) -> io::Result<()>
    ensures { OnOk result (Appends (F.contents file.old) (F.contents file.new) text.now) }
{
    file.write_all(text)?;
    file.flush()
}

/// Gives a file these permissions, if any.
fn permit<F: OpenFile>(file: &F, permissions: Option<Permissions>) -> io::Result<()> {
    match permissions {
        Some(permissions) => file.set_permissions(permissions),
        None => Ok(()),
    }
}

/// Has the system store what was written to a file.
fn store<F: Write + OpenFile + Drop>(mut file: F) -> io::Result<()> {
    file.flush()?;
    file.sync_all()
}
