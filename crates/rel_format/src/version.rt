//! The two formats of a half.
ghost use Rattle.std.specs.Prelude.{◌≡◌, take};
ghost use Rattle.rel_format.specs.Versions.{format_of, version_in, is_old};

use hera_sets::is_same;

/// The bytes of a page in format 1.
pub const PAGE_ONE: usize = 8192;

/// The bytes of a page in format 2.
pub const PAGE_TWO: usize = 32_768;

/// The bytes of a page before its rows.
pub const PAGE_HEAD: usize = 4;

/// The bytes of a magic.
pub const MAGIC_LEN: usize = 8;

/// The most bytes of a half.
pub const HALF_LIMIT: u64 = 268_435_456;

/// A format of a half. Halves of either are read, and halves of the second are written.
#[derive(Clone, Copy, Debug)]
pub enum Version {
    /// `HERA0001`, with pages of 8,192 bytes.
    One,
    /// `HERA0002`, with pages of 32,768 bytes.
    Two,
}

impl Version {
    /// The format of a half's bytes: the second where they begin with its magic, else the first.
    pub fn of(bytes: &[u8]) -> Version
        ensures { result ≡ version_in bytes.now }
    {
        if is_same(front_of(bytes), Version::Two.magic()) {
            Version::Two
        } else {
            Version::One
        }
    }

    /// The bytes with which a half begins.
    pub fn magic(self) -> &'static [u8]
        ensures { result.now ≡ (format_of self).magic }
    {
        match self {
            Version::One => b"HERA0001",
            Version::Two => b"HERA0002",
        }
    }

    /// The bytes of a page.
    pub fn page(self) -> usize
        ensures { result ≡ (format_of self).page }
    {
        match self {
            Version::One => PAGE_ONE,
            Version::Two => PAGE_TWO,
        }
    }

    /// Whether this is the format that is read and never written.
    pub fn is_old(self) -> bool
        ensures { result ≡ is_old self }
    {
        matches!(self, Version::One)
    }
}

/// As many bytes as a magic has, or all where there are fewer.
fn front_of(bytes: &[u8]) -> &[u8]
    ensures { result.now ≡ take MAGIC_LEN bytes.entry.now }
{
    if bytes.len() < MAGIC_LEN {
        bytes
    } else {
        bytes.split_at(MAGIC_LEN).0
    }
}
