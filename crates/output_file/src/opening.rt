//! Checks that a file can be written.

use crate::output::{Output, file_id};
use std::alloc::{AllocError, Global};
use std::fs::{self, Files, Metadata, OpenOptions, Permissions};
use std::io;
use std::path::Path;

/// How many names are tried beside a file.
const TRIES: u32 = 10_000;

/// Checks that a file can be written, before the work that produces its text. An error is the system's own.
///
/// The target of a link will be replaced. An existing file must be writable, and keeps its permissions.
pub fn open_output<R: Files + AllocGlobal>(rt: &R, name: &str) -> io::Result<Output<R::File>> {
    match fs::metadata(rt, name) {
        Ok(found) => open_over(rt, name, &found),
        Err(error) if error.kind() == io::ErrorKind::NotFound && !is_link(rt, name) => {
            let target = full_name(rt, name)?;
            open_beside(rt, target, None)
        }
        Err(error) => Err(error),
    }
}

/// Whether a link has this name.
fn is_link<R: Files>(rt: &R, name: &str) -> bool {
    match fs::symlink_metadata(rt, name) {
        Ok(found) => found.is_symlink(),
        Err(_) => false,
    }
}

/// The name of a file that isn't there yet, from the root of the file system on.
fn full_name<R: Files + AllocGlobal>(rt: &R, name: &str) -> io::Result<String> {
    let path = Path::new(name);
    let Some(last) = path.file_name() else {
        return Err(io::Error::from(io::ErrorKind::IsADirectory));
    };
    let folder = match path.parent() {
        Some(folder) if !folder.as_str().is_empty() => fs::canonicalize(rt, folder.as_str())?,
        _ => fs::canonicalize(rt, ".")?,
    };
    Ok(folder.join(rt.alloc(), last)?.into_string())
}

/// The output over something that is there.
fn open_over<R: Files + AllocGlobal>(
    rt: &R,
    name: &str,
    found: &Metadata,
) -> io::Result<Output<R::File>> {
    // A file that must not be written is not replaced either, and a folder can't be opened so.
    let device = OpenOptions::new().write(true).open(rt, name)?;
    if found.is_file() {
        let target = fs::canonicalize(rt, name)?.into_string();
        return open_beside(rt, target, Some(found.permissions()));
    }
    Ok(Output {
        target: String::from_str(rt.alloc(), name)?,
        device: Some(device),
        permissions: None,
        earlier: None,
    })
}

/// The output in a file beside its place, where one can be made there.
fn open_beside<R: Files + AllocGlobal>(
    rt: &R,
    target: String,
    permissions: Option<Permissions>,
) -> io::Result<Output<R::File>> {
    let (_file, part) = create_fresh(rt, target.as_str(), false)?;
    fs::remove_file(rt, part.as_str())?;
    let earlier = file_id(rt, target.as_str());
    Ok(Output {
        target,
        device: None,
        permissions,
        earlier,
    })
}

/// A new file beside the target, which may be read too, and its name: the first that nothing has yet.
pub(crate) fn create_fresh<R: Files + AllocGlobal>(
    rt: &R,
    target: &str,
    is_read: bool,
) -> io::Result<(R::File, String)> {
    for number in 1..=TRIES {
        let name = fresh_name(rt.alloc(), target, number)?;
        match OpenOptions::new()
            .read(is_read)
            .write(true)
            .create_new(true)
            .open(rt, name.as_str())
        {
            Ok(file) => return Ok((file, name)),
            Err(error) if error.kind() == io::ErrorKind::AlreadyExists => {}
            Err(error) => return Err(error),
        }
    }
    Err(io::Error::from(io::ErrorKind::AlreadyExists))
}

/// The name of this number beside the target.
fn fresh_name(alloc: Global, target: &str, number: u32) -> Result<String, AllocError> {
    format!(in alloc; "{target}.{number}.part")
}
