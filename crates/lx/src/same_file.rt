//! Recognizes names of one file, through links or by other paths.

use lx_tool::STANDARD_INPUT;
use std::alloc::AllocError;
use std::fs;
use std::fs::Metadata;
use std::io::{self, ErrorKind};
use std::os::unix::fs::MetadataExt;
use std::path::{Path, PathBuf};
use std::rt::Files;

// The path of standard input.
const INPUT_PATH: &str = "/dev/stdin";

// Greatest number of links in a chain. The system doesn't follow more either.
const MOST_LINKS: usize = 40;

/// Returns true if two names are those of one regular file, or of a file that doesn't exist yet.
pub fn is_same_file<R: AllocGlobal + Files>(
    rt: &R,
    name: &str,
    other: &str,
) -> Result<bool, AllocError> {
    let (path, other_path) = (path_of(name), path_of(other));
    match (fs::metadata(rt, path), fs::metadata(rt, other_path)) {
        (Ok(one), Ok(two)) => Ok(one.is_file() && is_same_node(&one, &two)),
        (Err(_), Err(_)) => match is_same_place(rt, path, other_path) {
            Ok(is_same) => Ok(is_same),
            Err(error) if error.kind() == ErrorKind::OutOfMemory => Err(AllocError),
            Err(_) => Ok(path == other_path),
        },
        _ => Ok(false),
    }
}

fn path_of(name: &str) -> &str {
    if name == STANDARD_INPUT {
        INPUT_PATH
    } else {
        name
    }
}

fn is_same_node(one: &Metadata, other: &Metadata) -> bool {
    one.dev() == other.dev() && one.ino() == other.ino()
}

// Returns true if two files would be made in the same directory and with the same name.
fn is_same_place<R: AllocGlobal + Files>(rt: &R, path: &str, other: &str) -> io::Result<bool> {
    let path = path_of_links(rt, path)?;
    let other = path_of_links(rt, other)?;
    if path.file_name() != other.file_name() {
        return Ok(false);
    }
    let folder = fs::metadata(rt, folder_of(path.as_path()))?;
    Ok(is_same_node(&folder, &fs::metadata(rt, folder_of(other.as_path()))?))
}

// Returns the directory of a path.
fn folder_of(path: Path<'_>) -> &str {
    match path.parent() {
        Some(folder) if !folder.as_str().is_empty() => folder.as_str(),
        _ => ".",
    }
}

// Returns the path to which a chain of links leads.
fn path_of_links<R: AllocGlobal + Files>(rt: &R, path: &str) -> io::Result<PathBuf> {
    let mut path = PathBuf::from_str(rt.alloc(), path)?;
    for _ in 0..MOST_LINKS {
        let Ok(next) = fs::read_link(rt, path.as_path()) else {
            break;
        };
        let folder = Path::new(folder_of(path.as_path()));
        let joined = folder.join(rt.alloc(), next.as_path())?;
        path = joined;
    }
    Ok(path)
}
