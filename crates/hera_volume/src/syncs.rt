//! When each of the three files was last synced.
use crate::FileId;

/// The number of changes that had been made when each file was last synced, and 0 before its first sync.
#[derive(Clone, Copy, Debug)]
pub(crate) struct Syncs {
    pub(crate) select: usize,
    pub(crate) left: usize,
    pub(crate) right: usize,
}

impl Syncs {
    ghost use Rattle.std.specs.Prelude.{◌≡◌};
    ghost use Rattle.hera_volume.specs.Syncs.{sync_in, with_sync};
    ghost use Rattle.hera_volume.specs.declared.file_id.FileId.{FileId};

    /// No file was synced.
    pub(crate) fn none() -> Syncs
        ensures { (f : FileId) → sync_in result f ≡ 0 }
    {
        Syncs {
            select: 0,
            left: 0,
            right: 0,
        }
    }

    /// Takes note of a sync of this file at this moment.
    pub(crate) fn note(&mut self, file: FileId, moment: usize)
        ensures { self.new ≡ with_sync self.old file moment }
    {
        match file {
            FileId::Select => self.select = moment,
            FileId::Left => self.left = moment,
            FileId::Right => self.right = moment,
        }
    }
}
