//! The names of folders, which are on the disk once the folder above is synced.

use crate::retried::{is_there, make_folder};
use std::fs::{self, Files, OpenFile};
use std::io::{self, ErrorKind};

/// Makes the folder at this path and those above it, where they are missing, and syncs the name of each.
pub(crate) fn make_named<R: Files>(rt: &R, path: &str) -> io::Result<()> {
    let mut above = 0;
    for before in 0..path.len() {
        let end = before + 1;
        if is_end_of_name(path, end) {
            make_in(rt, folder_to(path, above), front(path, end))?;
            above = end;
        }
    }
    Ok(())
}

/// Whether a folder's path ends at this place of the path.
fn is_end_of_name(path: &str, end: usize) -> bool {
    match path.split_at_checked(end) {
        Some((_, rest)) => rest.is_empty() || rest.starts_with('/'),
        None => false,
    }
}

/// The path up to this place.
fn front(path: &str, end: usize) -> &str {
    match path.split_at_checked(end) {
        Some((front, _)) => front,
        None => path,
    }
}

/// The folder that the path leads to up to this place, at 0 the one in which it begins.
fn folder_to(path: &str, end: usize) -> &str {
    if end > 0 {
        front(path, end)
    } else if path.starts_with('/') {
        "/"
    } else {
        "."
    }
}

/// Makes the folder `name` where it is missing, and syncs the folder `above` it. A folder that was there keeps the name
/// that it has where the one above may not be read or has no sync: then none was made in it.
pub(crate) fn make_in<R: Files>(rt: &R, above: &str, name: &str) -> io::Result<()> {
    let holder = match fs::open(rt, above) {
        Ok(holder) => holder,
        Err(error) if error.kind() == ErrorKind::PermissionDenied && is_there(rt, name) => {
            return Ok(());
        }
        Err(error) => return Err(error),
    };
    let is_new = make_folder(rt, name)?;
    match holder.sync_all() {
        Err(error) if error.kind() == ErrorKind::InvalidInput && !is_new => Ok(()),
        outcome => outcome,
    }
}
