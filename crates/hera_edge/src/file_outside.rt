ghost use Rattle.std.specs.Prelude.{◌≡◌, ◌≤◌};
ghost use Rattle.hera_causes.specs.Causes.{Rose};

use crate::folder::{Folder, Paths};
use crate::standard_output::StandardOutput;
use hera_causes::{Failed, Output};
use hera_volume::{FileId, Outside};
use std::fs::Files;
use std::marker::Model;

/// The files `select`, `left` and `right` of a folder, and standard output. It tells nothing of them: clauses see its
/// counts of faults. That of the device rises by one with each call on a file that fails, and stays at the last value of
/// a `u64`. A missing file has the length 0; it and its folder are made at the first write, and until then a sync of it,
/// and a cut of it to 0, do nothing. Without a folder each call on a file fails, and nothing is asked of the device.
#[derive(Drop)]
pub struct FileOutside<'a, R: Files + Print> {
    folder: Folder<'a, R>,
    output: StandardOutput<'a, R>,
    device_faults: u64,
}

impl<'a, R: Files + Print> Model for FileOutside<'a, R> {
    ghost use Rattle.hera_edge.specs.Faults.{Faults};

    ghost Value = { Faults };

    ghost view = { λ outside. record { device = outside.device_faults; output = outside.output } };
}

impl<'a, R: Files + Print> FileOutside<'a, R> {
    /// The folder with these paths, and standard output. No call has failed yet. Without paths there is no folder.
    pub fn new(rt: &'a R, paths: Option<Paths>) -> FileOutside<'a, R>
        ensures device { result.device ≡ 0 }
        ensures output { result.output ≡ 0 }
    {
        FileOutside {
            folder: Folder::new(rt, paths),
            output: StandardOutput::new(rt),
            device_faults: 0,
        }
    }
}

/// Counts a failure.
fn failed(count: &mut u64) -> Failed
    ensures rose { Rose count.old count.new }
    ensures later { count.old ≤ count.new }
{
    *count = count.saturating_add(1);
    Failed
}

impl<'a, R: Files + Print> Output for FileOutside<'a, R> {
    ghost use Rattle.hera_volume.specs.Silent.{untold_bytes, EmitsSilent, EmitsSilent-none, EmitsSilent-on};

    ghost emitted = { untold_bytes };

    ghost output_faults = { λ faults. faults.output };

    ghost passed = { EmitsSilent (λ faults. faults.device) (λ faults. faults.output) };

    ghost passed_none = { EmitsSilent-none (λ faults. faults.device) (λ faults. faults.output) };

    ghost passed_on = { EmitsSilent-on (λ faults. faults.device) (λ faults. faults.output) };

    fn emit(&mut self, bytes: &[u8]) -> Result<usize, Failed> {
        self.output.emit(bytes)
    }
}

impl<'a, R: Files + Print> Outside for FileOutside<'a, R> {
    ghost use Rattle.hera_volume.specs.Silent.{untold_disk, untold_moment, untold_left, untold_syncs};

    ghost told = { ⊥ };

    ghost disk = { untold_disk };

    ghost moment = { untold_moment };

    ghost left_since = { untold_left };

    ghost synced_at = { untold_syncs };

    ghost device_faults = { λ faults. faults.device };

    ghost as_read = { λ a f told. absurd told };

    ghost only_now = { λ a c told. absurd told };

    ghost counts_now = { λ a t c told. absurd told };

    ghost emits_only = { λ a b piece n passed. passed };

    fn len(&mut self, file: FileId) -> Result<u64, Failed> {
        match self.folder.len(file) {
            Ok(len) => Ok(len),
            Err(_) => Err(failed(&mut self.device_faults)),
        }
    }

    fn read(&mut self, file: FileId, at: u64, buf: &mut [u8]) -> Result<usize, Failed> {
        match self.folder.read(file, at, buf) {
            Ok(n) => Ok(n),
            Err(_) => Err(failed(&mut self.device_faults)),
        }
    }

    fn write_at(&mut self, file: FileId, at: u64, bytes: &[u8]) -> Result<(), Failed> {
        match self.folder.write_at(file, at, bytes) {
            Ok(()) => Ok(()),
            Err(_) => Err(failed(&mut self.device_faults)),
        }
    }

    fn cut(&mut self, file: FileId, len: u64) -> Result<(), Failed> {
        match self.folder.cut(file, len) {
            Ok(()) => Ok(()),
            Err(_) => Err(failed(&mut self.device_faults)),
        }
    }

    fn sync(&mut self, file: FileId) -> Result<(), Failed> {
        match self.folder.sync(file) {
            Ok(()) => Ok(()),
            Err(_) => Err(failed(&mut self.device_faults)),
        }
    }
}

#[cfg(test)]
mod tests {
    use super::*;
    use hera_volume::{rewrite_and_sync, say, sync_all, write_and_sync};
    use std::fs;
    use std::test::Fail;

    /// What is asked of a folder that is missing, and then of its files.
    fn walk<W: Outside>(outside: &mut W, front: &mut [u8]) -> Result<usize, Failed> {
        sync_all(outside)?;
        outside.cut(FileId::Left, 0)?;
        outside.len(FileId::Select)?;
        write_and_sync(outside, FileId::Right, 0, b"hello")?;
        rewrite_and_sync(outside, FileId::Right, b"jello!")?;
        say(outside, b"")?;
        outside.read(FileId::Right, 1, front)
    }

    #[test]
    fn the_files_are_those_of_the_folder(rt: HostRuntime) -> Result<(), Fail> {
        let paths = Paths::new(rt.alloc(), "above/folder")?;
        let mut outside = FileOutside::new(&rt, Some(paths));
        let mut front = [0u8; 8];
        assert_eq!(rt; walk(&mut outside, &mut front), Ok(5));
        assert_eq!(rt; front.as_slice(), b"ello!\0\0\0".as_slice());
        assert_eq!(rt;
            fs::read(&rt, "above/folder/right")?.as_slice(),
            b"jello!".as_slice()
        );
        assert!(rt; fs::metadata(&rt, "above/folder/left").is_err());
        assert_eq!(rt; outside.device_faults, 0);
        fs::remove_dir_all(&rt, "above")?;
        let file = Paths::new(rt.alloc(), "/proc/self/exe")?;
        assert_eq!(rt;
            FileOutside::new(&rt, Some(file)).len(FileId::Select),
            Err(Failed)
        );
        assert_eq!(rt;
            FileOutside::new(&rt, None).sync(FileId::Select),
            Err(Failed)
        );
        Ok(())
    }
}
