//! The newest one of a stack of walks, which stays where it stands.
ghost use Rattle.std.specs.Prelude.{◌≡◌, ◌≤◌, map, OnOk, OnErr};
ghost use Rattle.std.specs.Option.{option_copied};
ghost use Rattle.when_overlay.specs.Changed.{after_all};
ghost use Rattle.hera_reads.specs.Walking.{on_newest, coming_in, current_in, past_first, with_kept, with_gathered, gone_on, walk_at, walks_reach};

use crate::{Changes, Stack, Walk};
use std::alloc::{AllocError, Global};
use when_overlay::Stored;

impl Stack<Walk> {
    /// The row that the newest walk's last step found, where one was found.
    #[inline]
    #[tactic(auto, using(crate::proofs::Tops::tops))]
    pub fn current(&self) -> Option<&[u8]>
        ensures { option_copied result ≡ current_in self.now }
    {
        let count = self.items.len();
        if count == 0 {
            return None;
        }
        self.items[count - 1].current()
    }

    /// The next row of the newest walk, where that has it: one of its own, or one that it has read ahead.
    #[inline]
    #[tactic(auto, using(crate::proofs::Tops::tops))]
    pub fn coming(&self) -> Option<&[u8]>
        ensures { option_copied result ≡ coming_in self.now }
    {
        let count = self.items.len();
        if count == 0 {
            return None;
        }
        self.items[count - 1].coming()
    }

    /// Moves the newest walk past its next row, where it has it. It takes no memory.
    #[inline]
    #[tactic(auto, using(crate::proofs::Tops::tops))]
    pub fn pass(&mut self)
        ensures past { self.new ≡ on_newest past_first self.old }
        ensures within { walks_reach self.new ≤ walks_reach self.old }
    {
        let count = self.items.len();
        if count == 0 {
            return;
        }
        let _ = self.items[count - 1].pass();
    }

    /// Moves the newest walk on to its next row, or to its end where none is left.
    #[tactic(auto, using(crate::proofs::Tops::tops))]
    pub fn next(
        &mut self,
        alloc: Global,
        changes: &Changes,
        stored: &Stored<'_>,
    ) -> Result<(), AllocError>
        ensures step { let s = stored.now.state in OnOk result (map (walk_at s changes.now.layers) self.new ≡ on_newest gone_on (map (walk_at s changes.now.layers) self.old)) }
        ensures within { walks_reach self.new ≤ walks_reach self.old }
    {
        let count = self.items.len();
        if count == 0 {
            return Ok(());
        }
        self.items[count - 1].next(alloc, changes, stored)
    }

    /// Gathers the current row of the newest walk on it, if there is one. Without memory all is as before.
    #[inline]
    #[tactic(auto, using(crate::proofs::Tops::tops))]
    pub fn keep(&mut self) -> Result<(), AllocError>
        ensures ok { OnOk result (self.new ≡ on_newest with_kept self.old) }
        ensures err { OnErr result (self.new ≡ self.old) }
        ensures within { walks_reach self.new ≤ walks_reach self.old }
    {
        let count = self.items.len();
        if count == 0 {
            return Ok(());
        }
        self.items[count - 1].keep()
    }

    /// Gathers a row on the newest walk. Without memory all is as before.
    #[tactic(auto, using(crate::proofs::Tops::tops))]
    pub fn gather(&mut self, row: &[u8]) -> Result<(), AllocError>
        ensures ok { OnOk result (self.new ≡ on_newest (with_gathered row.now) self.old) }
        ensures err { OnErr result (self.new ≡ self.old) }
        ensures within { walks_reach self.new ≤ walks_reach self.old }
    {
        let count = self.items.len();
        if count == 0 {
            return Ok(());
        }
        self.items[count - 1].gather(row)
    }
}
