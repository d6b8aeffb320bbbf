//! The page that is open.
ghost use Rattle.std.specs.Prelude.{◌≡◌, ◌≤◌, ◌+◌, ◌++◌, [], length, IfOk};
ghost use Rattle.rel_format.specs.declared.version.TheConstants.{HALF_LIMIT, PAGE_TWO};

use std::alloc::{AllocError, Global};

/// The rows of the page that is open, how many they are, and how many pages stand before it.
#[derive(Drop)]
pub(crate) struct OpenPage {
    pub(crate) rows: Vec<u8>,
    pub(crate) count: u16,
    pub(crate) before: u32,
    ghost fits: { 4 + length rows.items ≤ PAGE_TWO },
    ghost few: { count ≤ length rows.items },
}

impl OpenPage {
    /// The page without rows behind so many pages. It takes no memory.
    pub(crate) fn new(alloc: Global, before: u32) -> OpenPage
        ensures rows { result.rows.items ≡ [] }
        ensures count { result.count ≡ 0 }
        ensures before { result.before ≡ before }
    {
        OpenPage {
            rows: Vec::new(alloc),
            count: 0,
            before,
        }
    }

    /// The next page, without rows.
    pub(crate) fn next(self) -> OpenPage
        requires { self.before ≤ HALF_LIMIT }
        ensures rows { result.rows.items ≡ [] }
        ensures count { result.count ≡ 0 }
        ensures before { result.before ≡ self.before + 1 }
    {
        let OpenPage {
            mut rows,
            before,
            ..
        } = self;
        rows.clear();
        OpenPage {
            rows,
            count: 0,
            before: before + 1,
        }
    }

    /// The page with a row more, which fits.
    pub(crate) fn push(self, row: &[u8]) -> Result<OpenPage, AllocError>
        requires some { 1 ≤ length row.now }
        requires fits { 4 + length self.rows.items + length row.now ≤ PAGE_TWO }
        ensures rows { IfOk result (λ page. page.rows.items ≡ self.rows.items ++ row.now) }
        ensures count { IfOk result (λ page. page.count ≡ self.count + 1) }
        ensures before { IfOk result (λ page. page.before ≡ self.before) }
    {
        let OpenPage {
            mut rows,
            count,
            before,
        } = self;
        rows.extend_from_slice(row)?;
        let count = count + 1;
        Ok(OpenPage {
            rows,
            count,
            before,
        })
    }
}
