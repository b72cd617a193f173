//! Real files as the program's targets.

use crate::names::carries_bytes;
use crate::same_file::is_same_file;
use lx_tool::{TargetFault, Targets};
use std::alloc::AllocError;
use std::fs::{File, OpenOptions, Permissions};
use std::io::{Error, ErrorKind, Write};
use std::random::RandomSource;
use std::rt::Files;
use std::{fs, io};

// The system's error number for bytes that aren't text. This program gives no new file such a name.
const NO_TEXT: i32 = 84;

/// A file that wasn't made, and the system's reason as its number.
#[derive(Drop)]
struct FailedTarget {
    name: String,
    reason: i32,
}

/// The files of the system, by their paths. A file is replaced atomically: by a temporary file in the same directory that is renamed to it.
#[derive(Drop)]
pub struct FileTargets<'a, R> {
    rt: &'a R,
    // Last file that wasn't made, if it is known.
    fault: Option<FailedTarget>,
}

impl<'a, R> FileTargets<'a, R> {
    /// Returns the files that the runtime reaches.
    pub fn new(rt: &'a R) -> FileTargets<'a, R> {
        FileTargets { rt, fault: None }
    }
}

impl<R: AllocGlobal + Files + RandomSource> Targets for FileTargets<'_, R> {
    ghost use Rattle.std.specs.Prelude.{⊤};

    // no claim about what the system does with a file, and about the names of files
    ghost places = { λ _ _ _ _. ⊤ };

    ghost same = { λ _ _ _ _. ⊤ };

    fn place(&mut self, name: &str, bytes: &[u8]) -> Result<(), TargetFault> {
        match put(self.rt, name, bytes) {
            Ok(()) => Ok(()),
            Err(error) => {
                self.fault = fault_at(self.rt, name, &error);
                Err(fault_of(&error))
            }
        }
    }

    fn is_same_file(&self, name: &str, other: &str) -> Result<bool, AllocError> {
        is_same_file(self.rt, name, other)
    }

    fn print_fault<E: Write>(&self, err: &mut E) {
        if let Some(fault) = &self.fault {
            let reason = Error::from_raw_os_error(fault.reason);
            let _ = writeln!(err, "lx: {}: {reason}", fault.name.as_str());
        }
    }
}

// Returns a fault with its reason, if the system gave one and no allocation fails.
fn fault_at<R: AllocGlobal>(rt: &R, name: &str, error: &Error) -> Option<FailedTarget> {
    let reason = error.raw_os_error()?;
    let name = String::from_str(rt.alloc(), name).ok()?;
    Some(FailedTarget { name, reason })
}

fn fault_of(error: &Error) -> TargetFault {
    match error.kind() {
        ErrorKind::OutOfMemory => TargetFault::Memory,
        _ => TargetFault::NotWritten,
    }
}

// Writes the bytes to the file with this name, like `>` of a shell. Follows a symbolic link, even to a file that doesn't exist. Never writes to a
// file without write permission. Replaces a regular file, and writes to any other existing one.
fn put<R: AllocGlobal + Files + RandomSource>(rt: &R, name: &str, bytes: &[u8]) -> io::Result<()> {
    if carries_bytes(name) {
        return Err(Error::from_raw_os_error(NO_TEXT));
    }
    match fs::metadata(rt, name) {
        Ok(old) if old.is_file() => {
            OpenOptions::new().write(true).open(rt, name)?;
            replace_behind_links(rt, name, bytes, Some(old.permissions()))
        }
        Ok(_) => write_to(&mut OpenOptions::new().write(true).open(rt, name)?, bytes),
        Err(error) if error.kind() == ErrorKind::NotFound && !is_there(rt, name) => {
            replace(rt, name, bytes, None)
        }
        Err(error) if error.kind() == ErrorKind::NotFound => put_behind_link(rt, name, bytes),
        Err(error) => Err(error),
    }
}

// Returns true if this name exists, even as a dangling link.
fn is_there<R: Files>(rt: &R, name: &str) -> bool {
    fs::symlink_metadata(rt, name).is_ok()
}

// Replaces the file with this name, or the file to which this link leads.
fn replace_behind_links<R: AllocGlobal + Files + RandomSource>(
    rt: &R,
    name: &str,
    bytes: &[u8],
    permissions: Option<Permissions>,
) -> io::Result<()> {
    let path = fs::canonicalize(rt, name)?;
    replace(rt, path.as_str(), bytes, permissions)
}

// Makes the missing file to which a link leads. Makes it empty first, so that its path is known, and removes it after a fault.
fn put_behind_link<R: AllocGlobal + Files + RandomSource>(
    rt: &R,
    name: &str,
    bytes: &[u8],
) -> io::Result<()> {
    OpenOptions::new().write(true).create(true).open(rt, name)?;
    let path = fs::canonicalize(rt, name)?;
    let done = replace(rt, path.as_str(), bytes, None);
    if done.is_err() {
        let _ = fs::remove_file(rt, path.as_str());
    }
    done
}

// Writes the bytes to a temporary file next to the one with this path, and renames it to that path. Removes it after a fault.
fn replace<R: AllocGlobal + Files + RandomSource>(
    rt: &R,
    path: &str,
    bytes: &[u8],
    permissions: Option<Permissions>,
) -> io::Result<()> {
    let new = temporary_name(rt, path)?;
    let new = new.as_str();
    let mut file = File::create_new(rt, new)?;
    let done = match fill(rt, &mut file, new, bytes, permissions) {
        Ok(()) => fs::rename(rt, new, path),
        Err(error) => Err(error),
    };
    if done.is_err() {
        let _ = fs::remove_file(rt, new);
    }
    done
}

// Returns a name in the same directory that can't be guessed.
fn temporary_name<R: AllocGlobal + RandomSource>(rt: &R, path: &str) -> io::Result<String> {
    let mut bytes = [0; 8];
    rt.fill_bytes(&mut bytes)?;
    let mut name = String::from_str(rt.alloc(), path)?;
    name.push('.')?;
    for byte in bytes {
        name.push(char::from(b'a' + byte / 16))?;
        name.push(char::from(b'a' + byte % 16))?;
    }
    Ok(name)
}

fn fill<R: Files, F: Write>(
    rt: &R,
    file: &mut F,
    path: &str,
    bytes: &[u8],
    permissions: Option<Permissions>,
) -> io::Result<()> {
    if let Some(permissions) = permissions {
        fs::set_permissions(rt, path, permissions)?;
    }
    write_to(file, bytes)
}

fn write_to<F: Write>(file: &mut F, bytes: &[u8]) -> io::Result<()> {
    file.write_all(bytes)?;
    file.flush()
}
