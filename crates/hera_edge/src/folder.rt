ghost use Rattle.std.specs.Prelude.{◌≤◌, length, IfOk};

use crate::names::{make_in, make_named};
use crate::retried::length_of;
use crate::unsynced::{Unsynced, read_from, write_from};
use hera_volume::FileId;
use std::alloc::{AllocError, Global};
use std::fs::{self, Files, OpenFile, OpenOptions};
use std::io::{self, ErrorKind};

/// The paths of a folder, of the folder above it and of its files.
#[derive(Drop)]
pub struct Paths {
    folder: String,
    above: String,
    select: String,
    left: String,
    right: String,
}

impl Paths {
    /// The paths of this folder. An empty path is that of the present one. `AllocError` comes where there is no memory for
    /// them.
    pub fn new(alloc: Global, folder: &str) -> Result<Paths, AllocError> {
        let here = if folder.is_empty() { "." } else { "" };
        Ok(Paths {
            folder: format!(in alloc; "{here}{folder}")?,
            above: format!(in alloc; "{here}{folder}/..")?,
            select: format!(in alloc; "{here}{folder}/select")?,
            left: format!(in alloc; "{here}{folder}/left")?,
            right: format!(in alloc; "{here}{folder}/right")?,
        })
    }

    fn of(&self, file: FileId) -> &str {
        match file {
            FileId::Select => &self.select,
            FileId::Left => &self.left,
            FileId::Right => &self.right,
        }
    }
}

/// One value for each of the three files.
#[derive(Drop)]
struct Each<T: Drop> {
    select: T,
    left: T,
    right: T,
}

impl<T: Drop> Each<T> {
    fn of(&mut self, file: FileId) -> &mut T {
        match file {
            FileId::Select => &mut self.select,
            FileId::Left => &mut self.left,
            FileId::Right => &mut self.right,
        }
    }
}

/// A folder with the files `select`, `left` and `right`, each opened at the first call on it. The folder, those above it
/// that are missing, and a missing file are made at the first write. Where there is no folder at all, each call fails.
///
/// A file's name is synced before its first byte is written, with the names of the folders on the way to it, whoever
/// made them: an earlier process may have made them and come to its end before the sync.
///
/// Where a sync of a file fails, the system may take what it could not write for written. So all that was written to the
/// file since its last sync that went well is then written again, as a read gives it, and the next sync of any process
/// writes it or fails too.
#[derive(Drop)]
pub(crate) struct Folder<'a, R: Files> {
    rt: &'a R,
    paths: Option<Paths>,
    opened: Each<Option<R::File>>,
    unsynced: Each<Unsynced>,
    /// Whether the file's name is synced.
    named: Each<bool>,
}

impl<'a, R: Files> Folder<'a, R> {
    /// The folder with these paths, of which no file is opened yet.
    pub(crate) fn new(rt: &'a R, paths: Option<Paths>) -> Folder<'a, R> {
        Folder {
            rt,
            paths,
            opened: Each {
                select: None,
                left: None,
                right: None,
            },
            unsynced: Each {
                select: Unsynced::all(),
                left: Unsynced::all(),
                right: Unsynced::all(),
            },
            named: Each {
                select: false,
                left: false,
                right: false,
            },
        }
    }

    /// The file, or `None` where it is missing.
    fn find(&mut self, file: FileId) -> io::Result<Option<R::File>> {
        if let Some(opened) = self.opened.of(file).take() {
            return Ok(Some(opened));
        }
        let Some(paths) = &self.paths else {
            return Err(io::Error::from(ErrorKind::Unsupported));
        };
        let mut how = OpenOptions::new();
        how.read(true).write(true);
        match how.open(self.rt, paths.of(file)) {
            Ok(opened) => Ok(Some(opened)),
            Err(error) if error.kind() == ErrorKind::NotFound => Ok(None),
            Err(error) => Err(error),
        }
    }

    /// The file, which is made where it is missing. Its name is synced then.
    fn find_named(&mut self, file: FileId) -> io::Result<R::File> {
        if let Some(opened) = self.find(file)? {
            if *self.named.of(file) || length_of(&opened)? > 0 {
                *self.named.of(file) = true;
                return Ok(opened);
            }
        }
        let opened = self.make_named_file(file)?;
        *self.named.of(file) = true;
        Ok(opened)
    }

    /// The file, which is made where it is missing, with its folder. The names of both are synced.
    fn make_named_file(&self, file: FileId) -> io::Result<R::File> {
        let Some(paths) = &self.paths else {
            return Err(io::Error::from(ErrorKind::Unsupported));
        };
        make_named(self.rt, paths.folder.as_str())?;
        make_in(self.rt, paths.above.as_str(), paths.folder.as_str())?;
        let folder = fs::open(self.rt, paths.folder.as_str())?;
        let mut how = OpenOptions::new();
        how.read(true).write(true).create(true);
        let opened = how.open(self.rt, paths.of(file))?;
        folder.sync_all()?;
        Ok(opened)
    }

    /// The file's length, 0 where it is missing.
    pub(crate) fn len(&mut self, file: FileId) -> io::Result<u64> {
        match self.find(file)? {
            Some(opened) => {
                let outcome = length_of(&opened);
                *self.opened.of(file) = Some(opened);
                outcome
            }
            None => Ok(0),
        }
    }

    /// Puts the bytes from `at` on to the front of `buf`, as many as there are and it has room for, and gives their number.
    pub(crate) fn read(&mut self, file: FileId, at: u64, buf: &mut [u8]) -> io::Result<usize>
        ensures { IfOk result (λ n. n ≤ length buf.old) }
    {
        match self.find(file)? {
            Some(mut opened) => {
                let outcome = read_from(&mut opened, at, buf);
                *self.opened.of(file) = Some(opened);
                outcome
            }
            None => Ok(0),
        }
    }

    /// Puts the bytes over what stands at `at`.
    pub(crate) fn write_at(&mut self, file: FileId, at: u64, bytes: &[u8]) -> io::Result<()> {
        let mut opened = self.find_named(file)?;
        let unsynced = self.unsynced.of(file);
        *unsynced = unsynced.with(at, bytes.len());
        let outcome = write_from(&mut opened, at, bytes);
        *self.opened.of(file) = Some(opened);
        outcome
    }

    /// Shortens the file to this length.
    pub(crate) fn cut(&mut self, file: FileId, len: u64) -> io::Result<()> {
        match self.find(file)? {
            Some(opened) => {
                let outcome = self.shorten(file, &opened, len);
                *self.opened.of(file) = Some(opened);
                outcome
            }
            None if len == 0 => Ok(()),
            None => Err(io::Error::from(ErrorKind::NotFound)),
        }
    }

    /// Shortens an open file. One that has bytes has a name that is synced.
    fn shorten(&mut self, file: FileId, opened: &R::File, len: u64) -> io::Result<()> {
        if length_of(opened)? > 0 {
            *self.named.of(file) = true;
        }
        opened.set_len(len)
    }

    /// Syncs the file, where it is not missing.
    pub(crate) fn sync(&mut self, file: FileId) -> io::Result<()> {
        match self.find(file)? {
            Some(mut opened) => {
                let outcome = self.sync_or_write_again(file, &mut opened);
                *self.opened.of(file) = Some(opened);
                outcome
            }
            None => Ok(()),
        }
    }

    /// Syncs an open file. Where that fails, what was unsynced is written again.
    fn sync_or_write_again(&mut self, file: FileId, opened: &mut R::File) -> io::Result<()> {
        let unsynced = self.unsynced.of(file);
        match opened.sync_all() {
            Ok(()) => {
                *unsynced = Unsynced::none();
                Ok(())
            }
            Err(error) => {
                let _outcome = unsynced.write_again(opened);
                Err(error)
            }
        }
    }
}
