//! Calls that a signal may interrupt: each is made again until it comes through.
ghost use Rattle.std.specs.Prelude.{◌≤◌, length, IfOk};
ghost use Rattle.std.specs.Io.{ReadsAtMost};

use std::fs::{Files, Metadata, OpenFile};
use std::io::{self, ErrorKind, Read, Seek, SeekFrom};

/// One read, which gives the number of bytes that it put on to the front of `buf`.
pub(crate) fn read_some<F: Read>(file: &mut F, buf: &mut [u8]) -> io::Result<usize>
    ensures bound { ReadsAtMost result buf.new }
{
    for _ in 0..u64::MAX {
        match file.read(buf) {
            Err(error) if error.kind() == ErrorKind::Interrupted => {}
            outcome => return outcome,
        }
    }
    Err(io::Error::from(ErrorKind::Interrupted))
}

/// Goes to a place of the file.
pub(crate) fn seek_to<F: Seek>(file: &mut F, at: u64) -> io::Result<()> {
    for _ in 0..u64::MAX {
        match file.seek(SeekFrom::Start(at)) {
            Ok(_) => return Ok(()),
            Err(error) if error.kind() == ErrorKind::Interrupted => {}
            Err(error) => return Err(error),
        }
    }
    Err(io::Error::from(ErrorKind::Interrupted))
}

/// The length of an open file.
pub(crate) fn length_of<F: OpenFile>(file: &F) -> io::Result<u64> {
    for _ in 0..u64::MAX {
        match file.metadata() {
            Ok(metadata) => return Ok(metadata.len()),
            Err(error) if error.kind() == ErrorKind::Interrupted => {}
            Err(error) => return Err(error),
        }
    }
    Err(io::Error::from(ErrorKind::Interrupted))
}

/// What is said of a path.
fn metadata_at<R: Files>(rt: &R, path: &str) -> io::Result<Metadata> {
    for _ in 0..u64::MAX {
        match rt.metadata(path) {
            Err(error) if error.kind() == ErrorKind::Interrupted => {}
            outcome => return outcome,
        }
    }
    Err(io::Error::from(ErrorKind::Interrupted))
}

/// Makes a folder, and tells whether it was missing.
pub(crate) fn make_folder<R: Files>(rt: &R, path: &str) -> io::Result<bool> {
    for _ in 0..u64::MAX {
        match rt.create_dir(path) {
            Ok(()) => return Ok(true),
            Err(error) if error.kind() == ErrorKind::Interrupted => {}
            Err(error) => {
                return match metadata_at(rt, path) {
                    Ok(found) if found.is_dir() => Ok(false),
                    _ => Err(error),
                };
            }
        }
    }
    Err(io::Error::from(ErrorKind::Interrupted))
}

/// Whether something stands at the path.
pub(crate) fn is_there<R: Files>(rt: &R, path: &str) -> bool {
    metadata_at(rt, path).is_ok()
}

/// One write to standard output, which gives the number of bytes that it took.
pub(crate) fn print_some<P: Print>(rt: &P, bytes: &[u8]) -> io::Result<usize>
    ensures bound { IfOk result (λ n. n ≤ length bytes.now) }
{
    for _ in 0..u64::MAX {
        match rt.write_some(bytes) {
            Err(error) if error.kind() == ErrorKind::Interrupted => {}
            outcome => return outcome,
        }
    }
    Err(io::Error::from(ErrorKind::Interrupted))
}
