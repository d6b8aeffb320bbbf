ghost use Rattle.std.specs.Prelude.{◌≡◌, ◌≢◌, ℕ, ◌+◌, ◌-◌, ◌≤◌, min, List, length, take, drop, Option, IfOk, OnOk, OnErr, MatchResult};
ghost use Rattle.hera_causes.specs.Causes.{HasCause};
ghost use Rattle.hera_volume.specs.Disk.{Disk, IsImage, IsSound, Within, after_write, after_cut, after_sync};
ghost use Rattle.hera_volume.specs.Time.{Image, IsImageOf, IsImageIn, LeavesOnly, EmitsOnly};
ghost use Rattle.hera_volume.specs.declared.file_id.FileId.{FileId};

use crate::FileId;
use hera_causes::{Failed, Output};

/// Three files and the output under one clock.
///
/// Each call on a file answers `Failed` only where the count of device faults rose in that call (or stands at the last
/// value of a `u64`), and after an `Ok` that count is as it was. None of these calls emits a byte or changes the count
/// of the output's faults, and a call on one file leaves the other two, and what a crash may leave of them, as they are.
///
/// What a crash leaves of a file follows from its `Disk`: the least and the greatest length that it had since the last
/// sync that went well, and the ranges written since. A crash leaves a length between the two, at each place below the
/// least length that no write reached what a read gives, and at every other place any byte. `LeavesOnly` says of a call
/// what a crash inside it, or between it and the next, may leave: that, or what it might have left before.
pub trait Outside: Output {
    /// Whether the files, the moments and what a crash leaves are told. An outside over real files tells nothing.
    ghost told: { Type 0 };

    /// Each file as it stands between two syncs: its bytes as a read gives them, and what a crash may leave of it.
    ghost disk: { Self → FileId → Disk };

    /// The present moment, a number that never falls.
    ghost moment: { Self → ℕ };

    /// What a crash at some moment from that one up to the present might have left, inside a call or between two.
    ghost left_since: { Self → ℕ → Image → Type 0 };

    /// The moment of a file's last sync that went well. No other call and no emission changes it.
    ghost synced_at: { Self → FileId → ℕ };

    /// How often a call on a file has failed, a count that is always told and never falls.
    ghost device_faults: { Self → ℕ };

    /// What an implementation says of its own calls on files that went well.
    ghost went_by: { Self → Self → Type 0 } = { λ _ _. Unit {0} };

    /// What an implementation says of its own calls that failed: the file, and what it was to be changed to.
    ghost failed_by: { Self → Self → FileId → Disk → Type 0 } = { λ _ _ _ _. Unit {0} };

    /// The file's length. A file that was never written has the length 0.
    fn len(&mut self, file: FileId) -> Result<u64, Failed>
        ensures length { told → IfOk result (λ n. n ≡ length (disk self.old file).bytes) }
        ensures files { told → (f : FileId) → disk self.new f ≡ disk self.old f }
        ensures any_moment { told → LeavesOnly moment left_since self.old self.new (IsImageOf (disk self.old) (Self.emitted self.old)) }
        ensures syncs { told → (f : FileId) → synced_at self.new f ≡ synced_at self.old f }
        ensures emitted { Self.emitted self.new ≡ Self.emitted self.old }
        ensures output { Self.output_faults self.new ≡ Self.output_faults self.old }
        ensures cause { HasCause (device_faults self.old) (device_faults self.new) result }
        ensures own { MatchResult result (λ _. went_by self.old self.new) (λ _. failed_by self.old self.new file (disk self.old file)) };

    /// Puts the bytes of the file from `at` on to the front of `buf`, as many as there are and it has room for, and gives
    /// their number.
    fn read(&mut self, file: FileId, at: u64, buf: &mut [u8]) -> Result<usize, Failed>
        ensures fits { IfOk result (λ n. n ≤ length buf.old) }
        ensures bytes { told → IfOk result (λ n. (n ≡ min (length buf.old) (length (disk self.old file).bytes - at))
            × (take n buf.new ≡ take n (drop at (disk self.old file).bytes))) }
        ensures files { told → (f : FileId) → disk self.new f ≡ disk self.old f }
        ensures any_moment { told → LeavesOnly moment left_since self.old self.new (IsImageOf (disk self.old) (Self.emitted self.old)) }
        ensures syncs { told → (f : FileId) → synced_at self.new f ≡ synced_at self.old f }
        ensures emitted { Self.emitted self.new ≡ Self.emitted self.old }
        ensures output { Self.output_faults self.new ≡ Self.output_faults self.old }
        ensures cause { HasCause (device_faults self.old) (device_faults self.new) result }
        ensures own { MatchResult result (λ _. went_by self.old self.new) (λ _. failed_by self.old self.new file (disk self.old file)) };

    /// Puts the bytes over what stands at `at`, and goes on past the end. `at` may not lie past the end, where that is
    /// told. After a `Failed` the file reads as a crash inside the call may leave it.
    fn write_at(&mut self, file: FileId, at: u64, bytes: &[u8]) -> Result<(), Failed>
        requires { told → at ≤ length (disk self.old file).bytes }
        ensures written { told → OnOk result (disk self.new file ≡ after_write (disk self.old file) at bytes.now) }
        ensures failed { told → OnErr result (Within (disk self.new file) (after_write (disk self.old file) at bytes.now)) }
        ensures reads { told → OnErr result (IsImage (after_write (disk self.old file) at bytes.now) (disk self.new file).bytes) }
        ensures others { told → (f : FileId) → f ≢ file → disk self.new f ≡ disk self.old f }
        ensures any_moment { told → LeavesOnly moment left_since self.old self.new
            (IsImageIn (disk self.old) (Self.emitted self.old) file (after_write (disk self.old file) at bytes.now)) }
        ensures syncs { told → (f : FileId) → synced_at self.new f ≡ synced_at self.old f }
        ensures emitted { Self.emitted self.new ≡ Self.emitted self.old }
        ensures output { Self.output_faults self.new ≡ Self.output_faults self.old }
        ensures cause { HasCause (device_faults self.old) (device_faults self.new) result }
        ensures own { MatchResult result (λ _. went_by self.old self.new) (λ _. failed_by self.old self.new file (after_write (disk self.old file) at bytes.now)) };

    /// Shortens the file to this length. It may not be greater than the file's, where that is told. After a `Failed` the
    /// file reads as a crash inside the call may leave it.
    fn cut(&mut self, file: FileId, len: u64) -> Result<(), Failed>
        requires { told → len ≤ length (disk self.old file).bytes }
        ensures cut { told → OnOk result (disk self.new file ≡ after_cut (disk self.old file) len) }
        ensures failed { told → OnErr result (Within (disk self.new file) (after_cut (disk self.old file) len)) }
        ensures reads { told → OnErr result (IsImage (after_cut (disk self.old file) len) (disk self.new file).bytes) }
        ensures others { told → (f : FileId) → f ≢ file → disk self.new f ≡ disk self.old f }
        ensures any_moment { told → LeavesOnly moment left_since self.old self.new
            (IsImageIn (disk self.old) (Self.emitted self.old) file (after_cut (disk self.old file) len)) }
        ensures syncs { told → (f : FileId) → synced_at self.new f ≡ synced_at self.old f }
        ensures emitted { Self.emitted self.new ≡ Self.emitted self.old }
        ensures output { Self.output_faults self.new ≡ Self.output_faults self.old }
        ensures cause { HasCause (device_faults self.old) (device_faults self.new) result }
        ensures own { MatchResult result (λ _. went_by self.old self.new) (λ _. failed_by self.old self.new file (after_cut (disk self.old file) len)) };

    /// Changes nothing that a read gives. After an `Ok` a crash leaves of this file just what a read gives, and the
    /// present moment is that of its last sync.
    fn sync(&mut self, file: FileId) -> Result<(), Failed>
        ensures sound { told → OnOk result (IsSound (disk self.old file)) }
        ensures synced { told → OnOk result (disk self.new file ≡ after_sync (disk self.old file)) }
        ensures failed { told → OnErr result (disk self.new file ≡ disk self.old file) }
        ensures others { told → (f : FileId) → f ≢ file → disk self.new f ≡ disk self.old f }
        ensures any_moment { told → LeavesOnly moment left_since self.old self.new (IsImageOf (disk self.old) (Self.emitted self.old)) }
        ensures synced_now { told → OnOk result (synced_at self.new file ≡ moment self.new) }
        ensures not_synced { told → OnErr result (synced_at self.new file ≡ synced_at self.old file) }
        ensures other_syncs { told → (f : FileId) → f ≢ file → synced_at self.new f ≡ synced_at self.old f }
        ensures emitted { Self.emitted self.new ≡ Self.emitted self.old }
        ensures output { Self.output_faults self.new ≡ Self.output_faults self.old }
        ensures cause { HasCause (device_faults self.old) (device_faults self.new) result }
        ensures own { MatchResult result (λ _. went_by self.old self.new) (λ _. failed_by self.old self.new file (disk self.old file)) };

    /// Each file as it reads is one of its images, at every moment, behind a failed call too.
    ghost as_read: { (a : Self) (f : FileId) → told → IsImage (disk a f) (disk a f).bytes };

    /// What a crash at the present moment might have left, it may leave now.
    ghost only_now: { (a : Self) (c : Image) → told → left_since a (moment a) c → IsImageOf (disk a) (Self.emitted a) c };

    /// The present moment is one of those since an earlier one.
    ghost counts_now: { (a : Self) (t : ℕ) (c : Image) → told → t ≤ moment a → IsImageOf (disk a) (Self.emitted a) c → left_since a t c };

    /// An emission leaves the files, what a crash may leave of them, the moments of their syncs and the count of device
    /// faults as they are. A crash
    /// inside it leaves what was emitted before, followed by some first bytes of the piece. The images since an earlier
    /// moment are then those since it at the first moment, and those from the first to the second.
    ghost emits_only: { (a b : Self) (piece : List ℕ) (n : ℕ) → Self.passed a b piece n
        → EmitsOnly told disk Self.emitted moment left_since synced_at device_faults Self.output_faults a b piece n };
}
