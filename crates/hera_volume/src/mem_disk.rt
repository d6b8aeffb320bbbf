ghost use Rattle.std.specs.Prelude.{◌≡◌, ◌⊎◌, ◌+◌, ◌<◌, ◌≤◌, ℕ, false, true, length, reverse, slice_index, OnOk, OnErr};
ghost use Rattle.hera_volume.specs.Disk.{splice, IsOutside};

use std::alloc::{AllocError, Global};
use std::marker::Model;

/// A file in memory, between two syncs. Contracts see it as a `Disk`.
#[derive(Drop)]
pub(crate) struct MemDisk {
    // up to the greatest length that it had since the last sync
    bytes: Vec<u8>,
    len: usize,
    floor: usize,
    // the last of them first written
    written: Vec<(usize, usize)>,
}

impl Model for MemDisk {
    ghost use Rattle.std.specs.Prelude.{◌≤◌, length, take, reverse};
    ghost use Rattle.hera_volume.specs.Disk.{Disk};

    ghost Value = { Disk };

    ghost view = { λ m. record { bytes = take m.len m.bytes.items; floor = m.floor; ceiling = length m.bytes.items; written = reverse m.written.items } };

    ghost invariant = { λ m. (m.floor ≤ m.len) × (m.len ≤ length m.bytes.items) };
}

impl MemDisk {
    ghost use Rattle.hera_volume.specs.Disk.{IsSettled};
    ghost use Rattle.std.specs.Prelude.{◌≡◌, ◌⊎◌, ◌<◌, ◌≤◌, ℕ, length, slice_index, OnOk, OnErr, IfOk};
    ghost use Rattle.hera_volume.specs.Disk.{after_write, after_cut, after_sync, bounded, IsSound, IsImage, IsFilled};

    pub(crate) fn new(alloc: Global, bytes: Vec<u8>) -> Self
        ensures bytes { result.bytes ≡ bytes.items }
        ensures settled { IsSettled (bounded result) }
    {
        let len = bytes.len();
        MemDisk {
            bytes,
            len,
            floor: len,
            written: Vec::new(alloc),
        }
    }

    pub(crate) fn copy(&self, alloc: Global) -> Result<MemDisk, AllocError>
        ensures { IfOk result (λ copy. copy ≡ self.now) }
    {
        Ok(MemDisk {
            bytes: self.bytes.to_vec(alloc)?,
            len: self.len,
            floor: self.floor,
            written: self.written.to_vec(alloc)?,
        })
    }

    pub(crate) fn bytes(&self) -> &[u8]
        ensures is { result.now ≡ self.now.bytes }
        ensures sound { IsSound self.now }
    {
        &self.bytes[..self.len]
    }

    /// Writes over what is there, and past the end. After an `Err` nothing is said of the file.
    pub(crate) fn write(&mut self, at: usize, piece: &[u8]) -> Result<(), AllocError>
        requires { at ≤ length self.old.bytes }
        ensures { OnOk result (self.new ≡ after_write self.old at piece.now) }
    {
        put_over(&mut self.bytes, at, piece)?;
        self.len = self.len.max(at + piece.len());
        self.written.push((at, piece.len()))?;
        Ok(())
    }

    /// The longest image of the file, with `fill` wherever a crash may leave any byte.
    pub(crate) fn crash(&mut self, fill: u8)
        ensures image { IsImage (bounded self.old) self.new.bytes }
        ensures settled { IsSettled (bounded self.new) }
        ensures longest { length self.new.bytes ≡ (bounded self.old).ceiling }
        ensures filled { IsFilled (bounded self.old) fill self.new.bytes }
    {
        fill_free(&mut self.bytes, self.floor, &self.written, fill);
        self.len = self.bytes.len();
        self.floor = self.len;
        self.written.clear();
    }

    pub(crate) fn cut(&mut self, len: usize)
        requires { len ≤ length self.old.bytes }
        ensures { self.new ≡ after_cut self.old len }
    {
        self.len = len;
        self.floor = self.floor.min(len);
    }

    pub(crate) fn sync(&mut self)
        ensures { self.new ≡ after_sync self.old }
    {
        self.bytes.truncate(self.len);
        self.floor = self.len;
        self.written.clear();
    }
}

/// Whether the place lies in one of the ranges.
fn is_written(ranges: &[(usize, usize)], place: usize) -> bool
    ensures out { result ≡ false → IsOutside place (reverse ranges.now) }
    ensures within { result ≡ true → ¬ IsOutside place (reverse ranges.now) }
{
    for range in ranges {
        if range.0 <= place && place - range.0 < range.1 {
            return true;
        }
    }
    false
}

/// Puts `fill` wherever a crash may leave any byte.
fn fill_free(bytes: &mut [u8], floor: usize, ranges: &[(usize, usize)], fill: u8)
    ensures filled { (k : ℕ) → k < length bytes.new → (slice_index bytes.new k ≡ fill) ⊎ ((k < floor) × IsOutside k (reverse ranges.now)) }
    ensures kept { (k : ℕ) → k < floor → IsOutside k (reverse ranges.now) → slice_index bytes.new k ≡ slice_index bytes.old k }
{
    for i in 0..bytes.len() {
        if i >= floor || is_written(ranges, i) {
            bytes[i] = fill;
        }
    }
}

/// Puts a piece over what is there, and past the end.
fn put_over(bytes: &mut Vec<u8>, at: usize, piece: &[u8]) -> Result<(), AllocError>
    requires { at ≤ length bytes.old.items }
    ensures done { OnOk result (bytes.new.items ≡ splice bytes.old.items at piece.now) }
    ensures holds { OnOk result (at + length piece.now ≤ length bytes.new.items) }
    ensures err { OnErr result (bytes.new.items ≡ bytes.old.items) }
{
    let room = bytes.len() - at;
    if piece.len() <= room {
        bytes[at..at + piece.len()].copy_from_slice(piece);
    } else {
        bytes.extend_from_slice(&piece[room..])?;
        bytes[at..at + room].copy_from_slice(&piece[..room]);
    }
    Ok(())
}
