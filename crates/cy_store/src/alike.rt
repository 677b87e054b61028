// Which paths of the machine name one file.
use std::alloc::AllocGlobal;
use std::fs::{self, Files};
use std::io::{self, ErrorKind};
use std::os::unix::fs::MetadataExt;
use std::path::{Path, PathBuf};

// How many links are followed, one to the next, as the system does.
const MOST_LINKS: u32 = 40;

// A file or a folder, by the number of its device and its own number on it.
#[derive(Clone, Copy, PartialEq, Eq)]
struct Node {
    device: u64,
    number: u64,
}

// What a path names.
#[derive(Drop)]
enum Named {
    // A file of bytes.
    File(Node),
    // Nothing yet.
    Nothing,
    // Something that is no file of bytes, or that can't be looked at.
    Other,
}

fn named_by<R: Files>(rt: &R, path: &str) -> Named {
    match fs::metadata(rt, path) {
        Ok(found) if found.is_file() => Named::File(Node {
            device: found.dev(),
            number: found.ino(),
        }),
        Ok(_) => Named::Other,
        Err(e) if e.kind() == ErrorKind::NotFound => Named::Nothing,
        Err(_) => Named::Other,
    }
}

/// Whether two paths name one file, which may be through links; or would, where neither is there
/// yet. Devices and streams are no files here: each write to one is its own.
pub(crate) fn is_one_file<R: Files + AllocGlobal>(rt: &R, path: &str, other: &str) -> bool {
    match (named_by(rt, path), named_by(rt, other)) {
        (Named::File(one), Named::File(two)) => one == two,
        (Named::Nothing, Named::Nothing) => is_one_place(rt, path, other).unwrap_or(path == other),
        _ => false,
    }
}

// Whether two paths, at which nothing is, would make one file: their links lead to one name in one
// folder.
fn is_one_place<R: Files + AllocGlobal>(rt: &R, path: &str, other: &str) -> io::Result<bool> {
    let (one, two) = (end_of_links(rt, path)?, end_of_links(rt, other)?);
    Ok(one.file_name() == two.file_name() && folder_of(rt, &one)? == folder_of(rt, &two)?)
}

// Where a path leads to that names nothing, behind the links on the way.
fn end_of_links<R: Files + AllocGlobal>(rt: &R, path: &str) -> io::Result<PathBuf> {
    let mut at = PathBuf::from_str(rt.alloc(), path)?;
    for _ in 0..MOST_LINKS {
        match fs::symlink_metadata(rt, at.as_str()) {
            Ok(found) if found.is_symlink() => {
                let link = fs::read_link(rt, at.as_str())?;
                at = folder_path(&at).join(rt.alloc(), link.as_str())?;
            }
            _ => break,
        }
    }
    Ok(at)
}

// The folder that a path is in: the working folder, where it names none.
fn folder_path(path: &PathBuf) -> Path<'_> {
    match path.parent() {
        Some(folder) if !folder.as_str().is_empty() => folder,
        _ => Path::new("."),
    }
}

fn folder_of<R: Files>(rt: &R, path: &PathBuf) -> io::Result<Node> {
    let found = fs::metadata(rt, folder_path(path))?;
    Ok(Node {
        device: found.dev(),
        number: found.ino(),
    })
}
