//! What of a file the next sync has to bring to the disk.
ghost use Rattle.std.specs.Prelude.{◌≡◌, ◌-◌, ◌+◌, ◌≤◌, ◌<◌, ◌^◌, length, IfOk};

use crate::retried::{length_of, read_some, seek_to};
use std::fs::OpenFile;
use std::io::{self, Read, Seek, Write};

/// As many bytes are read and written again at a time.
const PAGE: u64 = 4096;

/// The places of a file from `from` up to `to`, with `to` itself left out. All that was written to it since its last
/// sync that went well lies there.
#[derive(Clone, Copy)]
pub(crate) struct Unsynced {
    from: u64,
    to: u64,
}

impl Unsynced {
    /// All places: nothing is known of what was written before.
    pub(crate) fn all() -> Unsynced
        ensures from { result.from ≡ 0 }
        ensures to { result.to ≡ 2 ^ 64 - 1 }
    {
        Unsynced {
            from: 0,
            to: u64::MAX,
        }
    }

    /// No place: the file was just synced.
    pub(crate) fn none() -> Unsynced
        ensures { result.to ≤ result.from }
    {
        Unsynced {
            from: u64::MAX,
            to: 0,
        }
    }

    /// These and those of a write of so many bytes at `at`.
    pub(crate) fn with(self, at: u64, len: usize) -> Unsynced
        ensures before { result.from ≤ self.from }
        ensures behind { self.to ≤ result.to }
        ensures from { result.from ≤ at }
        ensures to { at + len < 2 ^ 64 → at + len ≤ result.to }
    {
        Unsynced {
            from: self.from.min(at),
            to: self.to.max(at.saturating_add(len as u64)),
        }
    }

    /// Writes what stands at these places again, and sets the file's length again, so that the system takes both for
    /// unsynced once more. A page that can't be read or written stays as it is.
    pub(crate) fn write_again<F: Read + Write + Seek + OpenFile>(
        self,
        opened: &mut F,
    ) -> io::Result<()> {
        let len = length_of(opened)?;
        let end = self.to.min(len);
        for page in self.from / PAGE..end.div_ceil(PAGE) {
            let start = page.saturating_mul(PAGE);
            let from = self.from.max(start);
            let to = end.min(start.saturating_add(PAGE));
            let _outcome = write_page_again(opened, from, to);
        }
        opened.set_len(len)
    }
}

/// Reads the places from `from` up to `to`, a page at most, and writes them again.
fn write_page_again<F: Read + Write + Seek>(opened: &mut F, from: u64, to: u64) -> io::Result<()> {
    let mut page = [0u8; 4096];
    let wanted = page.len().min(to.saturating_sub(from) as usize);
    let count = read_from(opened, from, &mut page[..wanted])?;
    write_from(opened, from, &page[..count])
}

/// Reads from `at` on until `buf` is full or the file ends.
pub(crate) fn read_from<F: Read + Seek>(
    opened: &mut F,
    at: u64,
    buf: &mut [u8],
) -> io::Result<usize>
    ensures { IfOk result (λ n. n ≤ length buf.old) }
{
    seek_to(opened, at)?;
    let mut count = 0;
    while count < buf.len() {
        let more = read_some(opened, &mut buf[count..])?;
        if more == 0 {
            return Ok(count);
        }
        count += more;
    }
    Ok(count)
}

/// Writes all the bytes from `at` on.
pub(crate) fn write_from<F: Write + Seek>(opened: &mut F, at: u64, bytes: &[u8]) -> io::Result<()> {
    seek_to(opened, at)?;
    opened.write_all(bytes)
}

#[cfg(test)]
mod tests {
    use super::*;
    use std::alloc::Global;
    use std::cell::Cell;
    use std::fs::{self, Metadata};
    use std::io::SeekFrom;
    use std::test::Fail;

    /// A file that takes down each write, with its place and its length, and the last length that was set.
    #[derive(Drop)]
    struct Noted<F> {
        file: F,
        at: u64,
        writes: Vec<(u64, usize)>,
        len: Cell<u64>,
    }

    impl<F> Noted<F> {
        fn new(alloc: Global, file: F) -> Noted<F> {
            Noted {
                file,
                at: 0,
                writes: Vec::new(alloc),
                len: Cell::new(0),
            }
        }
    }

    impl<F: Read> Read for Noted<F> {
        fn read(&mut self, buf: &mut [u8]) -> io::Result<usize> {
            self.file.read(buf)
        }
    }

    impl<F: Write> Write for Noted<F> {
        fn write(&mut self, buf: &[u8]) -> io::Result<usize> {
            self.writes.push((self.at, buf.len()))?;
            self.file.write(buf)
        }

        fn flush(&mut self) -> io::Result<()> {
            self.file.flush()
        }
    }

    impl<F: Seek> Seek for Noted<F> {
        fn seek(&mut self, to: SeekFrom) -> io::Result<u64> {
            self.at = self.file.seek(to)?;
            Ok(self.at)
        }
    }

    impl<F: OpenFile> OpenFile for Noted<F> {
        fn metadata(&self) -> io::Result<Metadata> {
            self.file.metadata()
        }

        fn set_len(&self, size: u64) -> io::Result<()> {
            self.len.set(size);
            self.file.set_len(size)
        }

        fn sync_all(&self) -> io::Result<()> {
            self.file.sync_all()
        }

        fn sync_data(&self) -> io::Result<()> {
            self.file.sync_data()
        }
    }

    #[test]
    fn what_is_written_again_is_what_a_read_gives(rt: HostRuntime) -> Result<(), Fail> {
        let mut bytes = vec![in rt.alloc(); 7u8; 5000]?;
        bytes[4999] = 8;
        fs::write(&rt, "again", bytes.as_slice())?;
        let all: &[(u64, usize)] = &[(0, 4096), (4096, 904)];
        let within: &[(u64, usize)] = &[(4090, 6), (4096, 14)];
        let end: &[(u64, usize)] = &[(4998, 2)];
        for (unsynced, writes) in [
            (Unsynced::all(), all),
            (Unsynced::none().with(4090, 20), within),
            (Unsynced::none().with(4998, 20), end),
            (Unsynced::none(), &[]),
        ] {
            let mut how = fs::OpenOptions::new();
            how.read(true).write(true);
            let mut opened = Noted::new(rt.alloc(), how.open(&rt, "again")?);
            unsynced.write_again(&mut opened)?;
            assert!(rt; opened.writes.as_slice() == writes);
            assert_eq!(rt; opened.len.get(), 5000);
            let after = fs::read(&rt, "again")?;
            assert!(rt; after.as_slice() == bytes.as_slice());
        }
        fs::remove_file(&rt, "again")?;
        Ok(())
    }
}
