use hera_causes::Piece;
use hera_volume::{FileId, MemOutside, rewrite_and_sync};
use std::alloc::{AllocError, Global};
use std::io::{self, ErrorKind};

/// What goes wrong in a trial. Calls on files, and emissions, are numbered from 0.
#[derive(Clone, Copy)]
enum Fault {
    /// The call on a file with this number fails alone.
    Fail,
    /// From the call on a file with this number on all fails. If it changes a file, it takes effect without a sync.
    Stop,
    /// An emission takes one byte, and that with this number fails alone.
    Emit,
}

impl Fault {
    /// The fault with this name.
    fn named(name: &str) -> Option<Fault> {
        match name {
            "fail" => Some(Fault::Fail),
            "stop" => Some(Fault::Stop),
            "emit" => Some(Fault::Emit),
            _ => None,
        }
    }

    /// Empty files, of which the call `number`, or the emission, goes wrong, behind so many calls that go well.
    fn plan(self, alloc: Global, behind: u64, number: u64) -> Result<MemOutside, AllocError> {
        let mut fails = Vec::new(alloc);
        let mut stop = None;
        let mut pieces = Vec::new(alloc);
        let call = behind.saturating_add(number);
        match self {
            Fault::Fail => fails.push(call)?,
            Fault::Stop => stop = Some(call),
            Fault::Emit => {
                pieces.resize(number as usize, Piece::Take(1))?;
                pieces.push(Piece::Fail)?;
            }
        }
        Ok(MemOutside::new(alloc, fails, stop, pieces))
    }
}

/// A case is run once for each of these numbers, and then the files are looked at that a crash leaves, with `fill` where
/// any byte may stand.
#[derive(Clone, Copy)]
pub(crate) struct Trials {
    fault: Fault,
    pub(crate) first: u64,
    pub(crate) last: u64,
    pub(crate) fill: u8,
}

impl Trials {
    /// Those of a line `FAULT FIRST..LAST FILL`.
    pub(crate) fn read(line: &str) -> Option<Trials> {
        let mut words = line.split(' ');
        let fault = Fault::named(words.next()?)?;
        let (first, last) = words.next()?.split_once("..")?;
        Some(Trials {
            fault,
            first: first.parse().ok()?,
            last: last.parse().ok()?,
            fill: words.next()?.parse().ok()?,
        })
    }

    /// An outside with the files of another, of which the call or emission with this number goes wrong.
    pub(crate) fn copy_of(
        &self,
        alloc: Global,
        files: &MemOutside,
        number: u64,
    ) -> io::Result<MemOutside> {
        let mut outside = self.fault.plan(alloc, COPYING, number)?;
        for file in [FileId::Select, FileId::Left, FileId::Right] {
            write_file(&mut outside, file, files.file(file))?;
        }
        Ok(outside)
    }
}

/// How many calls it takes to copy three files.
const COPYING: u64 = 9;

/// Gives the file these bytes, by three calls.
pub(crate) fn write_file(outside: &mut MemOutside, file: FileId, bytes: &[u8]) -> io::Result<()> {
    match rewrite_and_sync(outside, file, bytes) {
        Ok(()) => Ok(()),
        Err(_) => Err(io::Error::from(ErrorKind::OutOfMemory)),
    }
}
