ghost use Rattle.hera_causes.specs.Causes.{Rose};
ghost use Rattle.std.specs.Prelude.{◌≡◌, ◌-◌, ◌≤◌, min, length, ◌∷◌, ◌++◌, [], take, drop, OnOk, OnErr};

use crate::mem_disk::MemDisk;
use crate::mem_files::{MemFiles, Past};
use crate::plan::{Fate, Plan};
use crate::syncs::Syncs;
use crate::{FileId, Outside};
use hera_causes::{Failed, Output, Piece, Pieces, allowed};
use std::alloc::{AllocError, Global};

/// Three files and an output in memory, whose calls fail by a plan. It keeps what was before each change,
/// and when each file was last synced.
///
/// Calls on files are numbered from 0. A call whose number stands in the plan's list fails and changes nothing. From the
/// number `stop` on each call on a file fails, and so does each emission behind that call. Where the call `stop` itself
/// is a write or a cut, it takes effect all the same, without a sync. Where the outside finds no memory for its own
/// growth, the call fails and changes nothing, and `starved`, a count beside those of all failures, rises too. Each count
/// stays at the last value of its type.
#[derive(Drop)]
pub struct MemOutside {
    alloc: Global,
    files: MemFiles,
    bytes: Vec<u8>,
    past: Vec<Past>,
    syncs: Syncs,
    pieces: Pieces,
    plan: Plan,
    device_faults: u64,
    output_faults: u64,
    starved: u64,
}

/// Counts a failure.
fn failed(count: &mut u64) -> Failed
    ensures rose { Rose count.old count.new }
    ensures later { count.old ≤ count.new }
{
    *count = count.saturating_add(1);
    Failed
}

impl MemOutside {
    ghost use Rattle.std.specs.Prelude.{◌≡◌, ◌≤◌, length, [], OnOk, OnErr, None};
    ghost use Rattle.hera_causes.specs.Causes.{HasCause, Rose};
    ghost use Rattle.hera_volume.specs.Disk.{IsFilled, IsSettled, IsSound, after_write, after_cut, after_sync};
    ghost use Rattle.hera_volume.specs.Files.{disk_in};
    ghost use Rattle.hera_volume.specs.MemOutside.{mem_disk, mem_bytes, mem_emitted, mem_calls, mem_fails, mem_stop, mem_pieces, mem_device_faults, mem_output_faults, mem_starved, image_now};
    ghost use Rattle.hera_volume.specs.Time.{IsImageOf};
    ghost use Rattle.hera_volume.specs.declared.file_id.FileId.{FileId};
    ghost use Rattle.hera_volume.specs.MemChange.{IsChanged, IsKept, IsAsSynced, IsNoted, IsBeside};

    /// An outside with three empty files and no byte emitted, with this plan. Its emissions follow the pieces, each
    /// the next, and behind them each takes all.
    pub fn new(alloc: Global, fails: Vec<u64>, stop: Option<u64>, pieces: Vec<Piece>) -> Self
        ensures bytes { mem_bytes result ≡ [] }
        ensures empty { (f : FileId) → IsSettled (mem_disk result f) × ((mem_disk result f).bytes ≡ []) }
        ensures calls { mem_calls result ≡ 0 }
        ensures fails { mem_fails result ≡ fails.items }
        ensures stop { mem_stop result ≡ stop }
        ensures pieces { mem_pieces result ≡ pieces.items }
        ensures faults { (mem_device_faults result ≡ 0) × (mem_output_faults result ≡ 0) × (mem_starved result ≡ 0) }
    {
        MemOutside {
            alloc,
            files: MemFiles {
                select: MemDisk::new(alloc, Vec::new(alloc)),
                left: MemDisk::new(alloc, Vec::new(alloc)),
                right: MemDisk::new(alloc, Vec::new(alloc)),
            },
            bytes: Vec::new(alloc),
            past: Vec::new(alloc),
            syncs: Syncs::none(),
            pieces: Pieces::new(pieces),
            plan: Plan {
                calls: 0,
                fails,
                stop,
            },
            device_faults: 0,
            output_faults: 0,
            starved: 0,
        }
    }

    /// What a crash leaves, in which each file is as long as it may be and each byte that may be any is `fill`. The new
    /// outside has no failing calls, no stop and no pieces, and its record is empty. It takes no memory.
    pub fn crash(self, fill: u8) -> MemOutside
        ensures image { IsImageOf (mem_disk self) (mem_emitted self) (image_now result) }
        ensures settled { (f : FileId) → IsSettled (mem_disk result f) }
        ensures longest { (f : FileId) → length (mem_disk result f).bytes ≡ (mem_disk self f).ceiling }
        ensures filled { (f : FileId) → IsFilled (mem_disk self f) fill (mem_disk result f).bytes }
        ensures calls { mem_calls result ≡ 0 }
        ensures fails { mem_fails result ≡ [] }
        ensures stop { mem_stop result ≡ None }
        ensures pieces { mem_pieces result ≡ [] }
        ensures faults { (mem_device_faults result ≡ mem_device_faults self) × (mem_output_faults result ≡ mem_output_faults self) × (mem_starved result ≡ mem_starved self) }
    {
        let mut after = self;
        after.files.select.crash(fill);
        after.files.left.crash(fill);
        after.files.right.crash(fill);
        after.past.clear();
        after.syncs = Syncs::none();
        after.pieces = Pieces::new(Vec::new(after.alloc));
        after.plan = Plan {
            calls: 0,
            fails: Vec::new(after.alloc),
            stop: None,
        };
        after
    }

    /// A file as a read gives it.
    pub fn file(&self, file: FileId) -> &[u8]
        ensures { result.now ≡ (mem_disk self.now file).bytes }
    {
        self.files.bytes(file)
    }

    /// The number of calls on files so far.
    pub fn calls(&self) -> usize
        ensures { result ≡ mem_calls self.now }
    {
        self.plan.calls
    }

    /// The bytes emitted so far, in order.
    pub fn bytes(&self) -> &[u8]
        ensures { result.now ≡ mem_bytes self.now }
    {
        &self.bytes
    }

    // There was no memory for its own growth.
    fn starve(&mut self) -> Failed
        ensures same { IsKept self.old self.new }
        ensures syncs { IsAsSynced self.old self.new }
        ensures beside { IsBeside self.old self.new }
        ensures rose { Rose self.old.device_faults self.new.device_faults }
        ensures later { self.old.device_faults ≤ self.new.device_faults }
        ensures starved { Rose self.old.starved self.new.starved }
        ensures starving { self.old.starved ≤ self.new.starved }
    {
        self.starved = self.starved.saturating_add(1);
        failed(&mut self.device_faults)
    }

    fn write_now(&mut self, file: FileId, at: usize, bytes: &[u8]) -> Result<(), Failed>
        requires { at ≤ length (disk_in self.old.files file).bytes }
        ensures ok { OnOk result (IsChanged self.old self.new file (after_write (disk_in self.old.files file) at bytes.now)) }
        ensures err { OnErr result (IsKept self.old self.new) }
        ensures syncs { IsAsSynced self.old self.new }
        ensures starved { HasCause self.old.starved self.new.starved result }
        ensures beside { IsBeside self.old self.new }
        ensures cause { HasCause self.old.device_faults self.new.device_faults result }
    {
        match self
            .files
            .write(self.alloc, &mut self.past, file, at, bytes)
        {
            Ok(()) => Ok(()),
            Err(_) => Err(self.starve()),
        }
    }

    fn cut_now(&mut self, file: FileId, len: usize) -> Result<(), Failed>
        requires { len ≤ length (disk_in self.old.files file).bytes }
        ensures ok { OnOk result (IsChanged self.old self.new file (after_cut (disk_in self.old.files file) len)) }
        ensures err { OnErr result (IsKept self.old self.new) }
        ensures syncs { IsAsSynced self.old self.new }
        ensures starved { HasCause self.old.starved self.new.starved result }
        ensures beside { IsBeside self.old self.new }
        ensures cause { HasCause self.old.device_faults self.new.device_faults result }
    {
        match self.files.cut(self.alloc, &mut self.past, file, len) {
            Ok(()) => Ok(()),
            Err(_) => Err(self.starve()),
        }
    }

    fn sync_now(&mut self, file: FileId) -> Result<(), Failed>
        ensures sound { IsSound (disk_in self.old.files file) }
        ensures ok { OnOk result (IsChanged self.old self.new file (after_sync (disk_in self.old.files file))) }
        ensures err { OnErr result (IsKept self.old self.new) }
        ensures noted { OnOk result (IsNoted self.old self.new file) }
        ensures not_noted { OnErr result (IsAsSynced self.old self.new) }
        ensures starved { HasCause self.old.starved self.new.starved result }
        ensures beside { IsBeside self.old self.new }
        ensures cause { HasCause self.old.device_faults self.new.device_faults result }
    {
        match self.files.sync(self.alloc, &mut self.past, file) {
            Ok(()) => {
                self.syncs.note(file, self.past.len());
                Ok(())
            }
            Err(_) => Err(self.starve()),
        }
    }
}

// Takes note of a piece that is handed in, and keeps its first bytes.
fn keep(
    alloc: Global,
    bytes: &mut Vec<u8>,
    past: &mut Vec<Past>,
    piece: &[u8],
    n: usize,
) -> Result<(), AllocError>
    requires { n ≤ length piece.now }
    ensures ok { OnOk result (bytes.new.items ≡ bytes.old.items ++ take n piece.now) }
    ensures err { OnErr result (bytes.new.items ≡ bytes.old.items) }
    ensures past { OnOk result ((v : _) × (v.items ≡ piece.now) × (past.new.items ≡ past.old.items ++ Past.Emitted (length bytes.old.items) v ∷ [])) }
    ensures past_err { OnErr result (past.new.items ≡ past.old.items) }
{
    let whole = piece.to_vec(alloc)?;
    past.reserve(1)?;
    let count = bytes.len();
    bytes.extend_from_slice(&piece[..n])?;
    past.push(Past::Emitted(count, whole)).unwrap();
    Ok(())
}

impl Output for MemOutside {
    ghost use Rattle.std.specs.Prelude.{◌≡◌, ◌≤◌, ◌⊎◌, ℕ, Ok, IsErr, OnOk, MatchOption, MatchResult, length};
    ghost use Rattle.std.specs.Io.KnownBytes.{WriteAppends};
    ghost use Rattle.hera_causes.specs.Causes.{HasCause, TakesSome, Rose};
    ghost use Rattle.hera_causes.specs.Pieces.{next_piece, later_pieces, allowed_of};
    ghost use Rattle.hera_volume.specs.Plan.{HasStopped};
    ghost use Rattle.hera_volume.specs.Time.{Image, IsImageAmid};
    ghost use Rattle.hera_volume.specs.MemOutside.{mem_emitted, mem_output_faults, mem_calls, mem_fails, mem_stop, mem_pieces, mem_starved, mem_disk, mem_moment, mem_left_since, mem_passed, mem_passed-none, mem_passed-on};

    ghost emitted = { mem_emitted };

    ghost output_faults = { mem_output_faults };

    ghost passed = { mem_passed };

    ghost passed_none = { mem_passed-none };

    ghost passed_on = { mem_passed-on };

    fn emit(&mut self, bytes: &[u8]) -> Result<usize, Failed>
        ensures bound { TakesSome result bytes.now }
        ensures bytes { WriteAppends (mem_emitted self.old) (mem_emitted self.new) result bytes.now }
        ensures moments { MatchResult result (λ n. mem_passed self.old self.new bytes.now n) (λ _. mem_passed self.old self.new bytes.now 0) }
        ensures cause { HasCause (mem_output_faults self.old) (mem_output_faults self.new) result }

        // Behind the stop it fails. Before it, it follows its piece, or finds no memory. A crash inside it might have left
        // each part of the piece.
        ensures stopped { HasStopped (mem_calls self.old) (mem_stop self.old) → IsErr result }
        ensures follows { ¬ HasStopped (mem_calls self.old) (mem_stop self.old)
            → MatchOption (allowed_of (next_piece (mem_pieces self.old)) (length bytes.now))
            (IsErr result) (λ n. (result ≡ Ok n) ⊎ (IsErr result × Rose (mem_starved self.old) (mem_starved self.new))) }
        ensures amid { OnOk result ((t : ℕ) (c : Image) → t ≤ mem_moment self.old → IsImageAmid (mem_disk self.old) (mem_emitted self.old) bytes.now c → mem_left_since self.new t c) }
        ensures pieces { mem_pieces self.new ≡ later_pieces (mem_pieces self.old) }
        ensures starved { mem_starved self.old ≤ mem_starved self.new }
        ensures plan { (mem_calls self.new ≡ mem_calls self.old) × (mem_fails self.new ≡ mem_fails self.old) × (mem_stop self.new ≡ mem_stop self.old) }
    {
        let piece = self.pieces.take_next();
        if self.plan.has_stopped() {
            return Err(failed(&mut self.output_faults));
        }
        match allowed(piece, bytes.len()) {
            Some(n) => match keep(self.alloc, &mut self.bytes, &mut self.past, bytes, n) {
                Ok(()) => Ok(n),
                Err(_) => {
                    self.starved = self.starved.saturating_add(1);
                    Err(failed(&mut self.output_faults))
                }
            },
            None => Err(failed(&mut self.output_faults)),
        }
    }
}

impl Outside for MemOutside {
    ghost use Rattle.hera_volume.specs.MemOutside.{mem_disk, mem_moment, mem_left_since, mem_synced_at, mem_device_faults, mem_as_read, mem_only_now, mem_counts_now, mem_went_by, mem_failed_by};

    ghost told = { Unit {0} };

    ghost disk = { mem_disk };

    ghost moment = { mem_moment };

    ghost left_since = { mem_left_since };

    ghost synced_at = { mem_synced_at };

    ghost device_faults = { mem_device_faults };

    ghost as_read = { mem_as_read };

    ghost only_now = { mem_only_now };

    ghost counts_now = { mem_counts_now };

    ghost emits_only = { λ a b piece n passed. passed };

    ghost went_by = { mem_went_by };

    ghost failed_by = { mem_failed_by };

    fn len(&mut self, file: FileId) -> Result<u64, Failed> {
        match self.plan.next_fate() {
            Fate::Goes => Ok(self.files.bytes(file).len() as u64),
            _ => Err(failed(&mut self.device_faults)),
        }
    }

    fn read(&mut self, file: FileId, at: u64, buf: &mut [u8]) -> Result<usize, Failed> {
        match self.plan.next_fate() {
            Fate::Goes => Ok(copy_from(self.files.bytes(file), at as usize, buf)),
            _ => Err(failed(&mut self.device_faults)),
        }
    }

    fn write_at(&mut self, file: FileId, at: u64, bytes: &[u8]) -> Result<(), Failed> {
        let _ = self.files.bytes(file);
        match self.plan.next_fate() {
            Fate::Goes => self.write_now(file, at as usize, bytes),
            Fate::Fails => Err(failed(&mut self.device_faults)),
            Fate::Stops => {
                let _ = self.write_now(file, at as usize, bytes);
                Err(failed(&mut self.device_faults))
            }
        }
    }

    fn cut(&mut self, file: FileId, len: u64) -> Result<(), Failed> {
        let _ = self.files.bytes(file);
        match self.plan.next_fate() {
            Fate::Goes => self.cut_now(file, len as usize),
            Fate::Fails => Err(failed(&mut self.device_faults)),
            Fate::Stops => {
                let _ = self.cut_now(file, len as usize);
                Err(failed(&mut self.device_faults))
            }
        }
    }

    fn sync(&mut self, file: FileId) -> Result<(), Failed> {
        match self.plan.next_fate() {
            Fate::Goes => self.sync_now(file),
            _ => Err(failed(&mut self.device_faults)),
        }
    }
}

/// Copies the bytes from `at` on, as many as there are and `buf` has room for.
fn copy_from(bytes: &[u8], at: usize, buf: &mut [u8]) -> usize
    ensures count { result ≡ min (length buf.old) (length bytes.now - at) }
    ensures same { take result buf.new ≡ take result (drop at bytes.now) }
{
    if at >= bytes.len() {
        return 0;
    }
    let n = buf.len().min(bytes.len() - at);
    buf[..n].copy_from_slice(&bytes[at..at + n]);
    n
}
