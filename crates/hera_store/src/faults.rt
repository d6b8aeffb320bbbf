//! Why a call on a database is refused.

use hera_meaning::Name;
use hera_volume::FileId;
use std::fmt;
use thiserror::Error;

/// Why no database is made.
#[derive(Debug, Drop, Error)]
pub enum InitFault {
    /// The file `select` is not empty.
    #[error("there is a database")]
    Exists,
    /// A call on a file failed.
    #[error("the device failed")]
    Device,
    /// No memory for the bytes of a half.
    #[error("out of memory")]
    Memory,
}

/// Why no database is opened.
#[derive(Debug, Drop, Error)]
pub enum OpenFault {
    /// The file `select` is empty.
    #[error("there is no database")]
    NoDatabase,
    /// A file is damaged at this place.
    #[error("a file is damaged")]
    Damaged { file: FileId, at: u64 },
    /// A call on a file failed.
    #[error("the device failed")]
    Device,
    /// No memory for the database.
    #[error("out of memory")]
    Memory,
}

/// Why a commit is refused.
#[derive(Debug, Drop, Error)]
pub enum CommitFault {
    /// The record and the next gate end behind the limit, at `need`.
    #[error("the half is full")]
    Full { need: u128, limit: u64 },
    /// A call on a file failed: the delta is stored or it is not, and the store is closed.
    #[error("the device failed")]
    Device,
    /// No memory for the record.
    #[error("out of memory")]
    Memory,
    /// An earlier commit of the store answered `Device`.
    #[error("the store is closed")]
    Closed,
}

/// Why a checkpoint is refused.
#[derive(Debug, Drop, Error)]
pub enum CheckFault {
    /// The half has more bytes than the limit: `need` where pages were added up to the first past it.
    #[error("the half is full")]
    Full { need: u128, limit: u64 },
    /// A call on a file failed.
    #[error("the device failed")]
    Device,
    /// No memory for the bytes of the half.
    #[error("out of memory")]
    Memory,
    /// An earlier commit of the store answered `Device`.
    #[error("the store is closed")]
    Closed,
}

/// Why a database is not widened. The causes are tested in this order, but for memory, which is wanted at more places.
#[derive(Drop, Error)]
pub enum WidenFault {
    /// An earlier commit of the store answered `Device`.
    #[error("the store is closed")]
    Closed,
    /// The new catalogue has no relation of this name, or its schema does not begin with the old one: the first such
    /// relation of the stored catalogue.
    #[error("a relation is narrowed")]
    Narrows { relation: Name },
    /// The half has more bytes than the limit: `need` where pages were added up to the first past it.
    #[error("the half is full")]
    Full { need: u128, limit: u64 },
    /// No memory for the rows, for the bytes of the half, or for the name of a relation.
    #[error("out of memory")]
    Memory,
    /// A call on a file failed.
    #[error("the device failed")]
    Device,
}

// A name has no `Debug`, so the fault shows its kind alone.
impl fmt::Debug for WidenFault {
    fn fmt<W: fmt::Write>(&self, f: &mut fmt::Formatter<W>) -> fmt::Result {
        match self {
            WidenFault::Closed => f.write_str("Closed"),
            WidenFault::Narrows { relation: _ } => f.write_str("Narrows"),
            WidenFault::Full { need: _, limit: _ } => f.write_str("Full"),
            WidenFault::Memory => f.write_str("Memory"),
            WidenFault::Device => f.write_str("Device"),
        }
    }
}
