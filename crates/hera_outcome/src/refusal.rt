//! Why a command is refused, and the lines that say so.
ghost use Rattle.std.specs.Prelude.{◌≡◌, ◌++◌, codes, IfOk};
ghost use Rattle.hera_outcome.specs.Refusals.{label_of, line_of, status_of_refusal};

use hera_meaning::{Line, Name};
use hera_print::end_line;
use hera_script::Cause;
use hera_volume::FileId;
use std::alloc::{AllocError, Global};

/// Why a command is refused, with a line and a status.
#[derive(Drop)]
pub enum Refusal {
    /// The words are no listed form.
    Usage,
    /// A source failed: that of a script, of guards, or of a file to import or to execute.
    Unread,
    /// The script is refused, at this offset.
    Script { cause: Cause, at: u32 },
    /// There is a database in the folder.
    Exists,
    /// There is no database in the folder.
    NoDatabase,
    /// A file of the folder is damaged at this place.
    Damaged { file: FileId, at: u64 },
    /// The first relation of the program that the database has not with an equal schema.
    Differing { relation: Name },
    /// The first relation of the database that the new catalogue does not keep.
    Narrows { relation: Name },
    /// The database has no relation of the name.
    NoRelation,
    /// The record of this number, from 1, is not good for the relation; or 1 where there is no record.
    Record { number: u64 },
    /// The first field of a code file that breaks its rule begins at this byte; or the first byte behind its last instruction.
    BadCode { at: u64 },
    /// The least address of a code file up to which its code is not typed.
    Rejected { at: u32 },
}

impl Refusal {
    /// The exit status.
    pub fn status(&self) -> u8
        ensures { result ≡ status_of_refusal self.now }
    {
        match self {
            Refusal::Usage => 2,
            Refusal::Script { .. }
            | Refusal::Record { .. }
            | Refusal::BadCode { .. }
            | Refusal::Rejected { .. } => 3,
            Refusal::Exists
            | Refusal::NoDatabase
            | Refusal::Damaged { .. }
            | Refusal::Differing { .. }
            | Refusal::Narrows { .. }
            | Refusal::NoRelation => 5,
            Refusal::Unread => 7,
        }
    }

    /// The line that is printed.
    pub fn line(&self, alloc: Global) -> Result<Line, AllocError>
        ensures { IfOk result (λ line. line ≡ line_of self.now) }
    {
        match self {
            Refusal::Usage => plain(alloc, b"usage\n"),
            Refusal::Unread => plain(alloc, b"script unread\n"),
            Refusal::Script { cause, at } => end_line(alloc, cause.label(), u64::from(*at)),
            Refusal::Exists => plain(alloc, b"database exists\n"),
            Refusal::NoDatabase => plain(alloc, b"no database\n"),
            Refusal::Damaged { file, at } => end_line(alloc, damage_label(*file), *at),
            Refusal::Differing { relation } => named_line(alloc, b"differs ", relation),
            Refusal::Narrows { relation } => named_line(alloc, b"narrows ", relation),
            Refusal::NoRelation => plain(alloc, b"no relation\n"),
            Refusal::Record { number } => end_line(alloc, "refused Record", *number),
            Refusal::BadCode { at } => end_line(alloc, "refused BadCode", *at),
            Refusal::Rejected { at } => end_line(alloc, "refused Rejected", u64::from(*at)),
        }
    }
}

/// A line of these bytes.
fn plain(alloc: Global, bytes: &[u8]) -> Result<Line, AllocError>
    ensures { IfOk result (λ line. line ≡ bytes.now) }
{
    Ok(Line::new(bytes.to_vec(alloc)?))
}

/// The line of a relation that begins so.
fn named_line(alloc: Global, begin: &[u8], relation: &Name) -> Result<Line, AllocError>
    ensures { IfOk result (λ line. line ≡ begin.now ++ relation.now ++ codes "\n") }
{
    let mut bytes = begin.to_vec(alloc)?;
    bytes.extend_from_slice(relation.bytes())?;
    bytes.extend_from_slice(b"\n")?;
    Ok(Line::new(bytes))
}

/// How the line of damage in a file begins.
fn damage_label(file: FileId) -> &'static str
    ensures { result.now ≡ label_of file }
{
    match file {
        FileId::Select => "damaged select",
        FileId::Left => "damaged left",
        FileId::Right => "damaged right",
    }
}
