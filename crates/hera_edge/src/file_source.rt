ghost use Rattle.std.specs.Prelude.{◌≡◌, None, IfOk, length};
ghost use Rattle.std.specs.Io.{ReadsAtMost};

use crate::retried::read_some;
use hera_causes::{Failed, Source};
use std::alloc::{AllocError, Global};
use std::fs::{self, Files};
use std::io;
use std::marker::Model;

/// The bytes of a file, which is opened at the first read. It tells nothing of them: clauses see its count of faults.
/// That rises by one with each opening and each read that fails, and stays at the last value of a `u64`.
#[derive(Drop)]
pub struct FileSource<'a, R: Files> {
    rt: &'a R,
    path: &'a str,
    file: Option<R::File>,
    faults: u64,
}

impl<'a, R: Files> Model for FileSource<'a, R> {
    ghost use Rattle.std.specs.Prelude.{ℕ};

    ghost Value = { ℕ };

    ghost view = { λ source. source.faults };
}

impl<'a, R: Files> FileSource<'a, R> {
    /// The source of the file at this path, which is not opened yet.
    pub fn new(rt: &'a R, path: &'a str) -> FileSource<'a, R>
        ensures { result ≡ 0 }
    {
        FileSource {
            rt,
            path,
            file: None,
            faults: 0,
        }
    }

    /// A source for each of these paths. None is opened yet.
    pub fn all(
        alloc: Global,
        rt: &'a R,
        paths: &'a [String],
    ) -> Result<Vec<FileSource<'a, R>>, AllocError>
        ensures { IfOk result (λ sources. length sources.items ≡ length paths.now) }
    {
        let mut sources = Vec::new(alloc);
        for path in paths {
            sources.push(FileSource::new(rt, path.as_str()))?;
        }
        Ok(sources)
    }

    /// One read of the file, which is opened where it is not open.
    fn read_file(&mut self, buf: &mut [u8]) -> io::Result<usize>
        ensures bound { ReadsAtMost result buf.new }
        ensures faults { self.new ≡ self.old }
    {
        let mut file = match self.file.take() {
            Some(file) => file,
            None => fs::open(self.rt, self.path)?,
        };
        let outcome = read_some(&mut file, buf);
        self.file = Some(file);
        outcome
    }
}

impl<'a, R: Files> Source for FileSource<'a, R> {
    ghost left = { λ _. None };

    ghost faults = { λ faults. faults };

    fn read(&mut self, buf: &mut [u8]) -> Result<usize, Failed> {
        match self.read_file(buf) {
            Ok(n) => Ok(n),
            Err(_) => {
                self.faults = self.faults.saturating_add(1);
                Err(Failed)
            }
        }
    }
}

#[cfg(test)]
mod tests {
    use super::*;
    use std::test::Fail;

    #[test]
    fn a_file_is_opened_at_its_first_read(rt: HostRuntime) -> Result<(), Fail> {
        let alloc = rt.alloc();
        let paths = vec![in alloc;
            String::from_str(alloc, "no such file")?,
            String::from_str(alloc, "/proc/self/exe")?,
        ]?;
        let mut sources = FileSource::all(alloc, &rt, &paths)?;
        let mut front = [0u8; 4];
        assert_eq!(rt; sources[0].faults, 0);
        assert!(rt; sources[0].read(&mut front).is_err());
        assert_eq!(rt; sources[0].faults, 1);
        assert_eq!(rt; sources[1].read(&mut front)?, 4);
        assert_eq!(rt; front.as_slice(), b"\x7fELF".as_slice());
        assert_eq!(rt; sources[1].faults, 0);
        Ok(())
    }
}
