//! Rows in one buffer.
ghost use Rattle.std.specs.Prelude.{◌≡◌, ◌↔◌, IsTrue, true, false, ◌+◌, ◌^◌, List, [], ◌∷◌, ◌++◌, ℕ, ◌<◌, ◌≤◌, length, not, insert, IfOk, OnOk, OnErr, MatchResult, slice_get, slice_range, Some};
ghost use Rattle.std.specs.List.{find};
ghost use Rattle.hera_sets.specs.Rows.{IsAscending, put, holds, without};
ghost use Rattle.hera_rows.specs.Froms.{passes};
ghost use Rattle.hera_rows.specs.Packed.{IsWithin, cut};
ghost use Rattle.hera_rows.specs.Places.{IsPlace};

use super::bounds::Bound;
use hera_sets::{byte_order, is_same};
use std::alloc::{AllocError, Global};
use std::cmp::Ordering;
use std::marker::Model;

/// How many bytes of no row a set may keep beside half of its buffer.
const SLACK: usize = 256;

/// Where a row lies in the bytes.
#[derive(Clone, Copy)]
struct Span {
    start: u32,
    end: u32,
}

/// A strictly ascending list of rows in one buffer.
///
/// The bytes lie in the order in which the rows came, and the spans in the order of the rows. So an
/// insertion moves spans alone, and a growth that is refused leaves the set as it was. The bytes of
/// a row that was taken out stay, until they pass half of all and 256 more: the next row put in then
/// packs anew.
#[derive(Drop)]
pub(crate) struct Packing {
    bytes: Vec<u8>,
    spans: Vec<Span>,
    /// How many of the bytes are of no row: of rows that were taken out, or refused.
    dead: usize,
}

impl Model for Packing {
    ghost use Rattle.std.specs.Prelude.{List, ℕ};
    ghost use Rattle.hera_rows.specs.Packed.{rows_of, IsKept};

    ghost Value = { List (List ℕ) };

    ghost view = { λ set. rows_of set.bytes.items set.spans.items };

    ghost invariant = { λ set. IsKept set.bytes.items set.spans.items set.dead };
}

/// The bytes of a span.
#[inline]
fn cut(bytes: &[u8], span: Span) -> &[u8]
    requires { IsWithin (length bytes.now) span }
    ensures { result.now ≡ cut bytes.now span }
{
    &bytes[span.start as usize..span.end as usize]
}

/// The span of so many bytes behind so many. There are at most 2^32 - 1 of them.
#[inline]
fn span_behind(count: usize, more: usize) -> Result<Span, AllocError>
    ensures start { IfOk result (λ span. span.start ≡ count) }
    ensures end { IfOk result (λ span. span.end ≡ count + more) }
{
    if count > 0xFFFF_FFFF || more > 0xFFFF_FFFF - count {
        return Err(AllocError);
    }
    Ok(Span {
        start: count as u32,
        end: (count + more) as u32,
    })
}

impl Packing {
    /// No rows. It takes no memory.
    pub(crate) fn new(alloc: Global) -> Packing
        ensures { result ≡ [] }
    {
        Packing {
            bytes: Vec::new(alloc),
            spans: Vec::new(alloc),
            dead: 0,
        }
    }

    /// The set of this one row.
    pub(crate) fn of(alloc: Global, row: &[u8]) -> Result<Packing, AllocError>
        ensures { IfOk result (λ set. set ≡ row.now ∷ []) }
    {
        let mut set = Packing::new(alloc);
        set.append(row)?;
        Ok(set)
    }

    /// How many rows there are.
    #[inline]
    pub(crate) fn len(&self) -> usize
        ensures count { result ≡ length self.now }
        ensures ordered { IsAscending self.now }
    {
        self.spans.len()
    }

    /// The row at place `i`, counted from 0.
    #[inline]
    pub(crate) fn row(&self, i: usize) -> &[u8]
        requires { i < length self.now }
        ensures { slice_get self.now i ≡ Some result.now }
    {
        cut(&self.bytes, self.spans[i])
    }

    /// Takes the row in, and answers whether it is new. Without memory all is as before.
    pub(crate) fn insert(&mut self, row: &[u8]) -> Result<bool, AllocError>
        ensures new { IfOk result (λ new. new ≡ not (holds self.old row.now)) }
        ensures ok { OnOk result (self.new ≡ put row.now self.old) }
        ensures err { OnErr result (self.new ≡ self.old) }
    {
        self.tighten()?;
        match self.search(row) {
            Ok(_) => Ok(false),
            Err(i) => {
                self.put_at(i, row)?;
                Ok(true)
            }
        }
    }

    /// Puts a row behind all others, which is greater than the last. Without memory all is as
    /// before.
    #[inline]
    pub(crate) fn push_last(&mut self, row: &[u8]) -> Result<(), AllocError>
        requires { IsAscending (self.old ++ row.now ∷ []) }
        ensures ok { OnOk result (self.new ≡ self.old ++ row.now ∷ []) }
        ensures err { OnErr result (self.new ≡ self.old) }
    {
        self.tighten()?;
        self.append(row)
    }

    /// Takes the row out, and answers whether it was there. It takes no memory.
    pub(crate) fn remove(&mut self, row: &[u8]) -> bool
        ensures found { result ≡ holds self.old row.now }
        ensures removed { self.new ≡ without row.now self.old }
    {
        match self.search(row) {
            Ok(i) => {
                let span = self.spans.remove(i);
                self.dead += (span.end - span.start) as usize;
                true
            }
            Err(_) => false,
        }
    }

    /// Whether the row is one of them.
    pub(crate) fn has(&self, row: &[u8]) -> bool
        ensures found { result ≡ holds self.now row.now }
    {
        match self.search(row) {
            Ok(_) => true,
            Err(_) => false,
        }
    }

    /// A set of its own with the same rows, packed without gaps.
    pub(crate) fn copy(&self) -> Result<Packing, AllocError>
        ensures { IfOk result (λ copy. copy ≡ self.now) }
    {
        if self.dead > 0 {
            return self.packed();
        }
        let alloc = *self.bytes.allocator();
        Ok(Packing {
            bytes: Vec::from_slice(alloc, &self.bytes)?,
            spans: Vec::from_slice(alloc, &self.spans)?,
            dead: 0,
        })
    }

    /// A set of its own with the same rows, one put behind the other.
    fn packed(&self) -> Result<Packing, AllocError>
        ensures { IfOk result (λ copy. copy ≡ self.now) }
    {
        let alloc = *self.bytes.allocator();
        let mut copy = Packing {
            bytes: Vec::with_capacity(alloc, self.bytes.len() - self.dead)?,
            spans: Vec::with_capacity(alloc, self.spans.len())?,
            dead: 0,
        };
        for i in 0..self.len() {
            copy.append(self.row(i))?;
        }
        Ok(copy)
    }

    /// A set of its own with the rows from one place up to another, one put behind the other.
    pub(crate) fn part(&self, from: usize, to: usize) -> Result<Packing, AllocError>
        requires ordered { from ≤ to }
        requires within { to ≤ length self.now }
        ensures { IfOk result (λ part. part ≡ slice_range self.now from to) }
    {
        // for the proof alone: the rows ascend
        let _ordered = self.len();
        let mut part = Packing::new(*self.bytes.allocator());
        for i in from..to {
            part.append(self.row(i))?;
        }
        Ok(part)
    }

    /// Whether both have the same rows. It takes no memory.
    pub(crate) fn equal(&self, other: &Packing) -> bool
        ensures { IsTrue result ↔ (self.now ≡ other.now) }
    {
        if self.len() != other.len() {
            return false;
        }
        for i in 0..self.len() {
            if !is_same(self.row(i), other.row(i)) {
                return false;
            }
        }
        true
    }

    /// The place of a row that is there, and else the place at which it would be.
    fn search(&self, row: &[u8]) -> Result<usize, usize>
        ensures place { MatchResult result (IsPlace self.now row.now true) (IsPlace self.now row.now false) }
        ensures within { IfOk result (λ i. i + 1 < 2 ^ 64) }
        ensures ordered { IsAscending self.now }
    {
        let mut low = 0;
        let mut high = self.len();
        while low < high {
            let middle = low + (high - low) / 2;
            match byte_order(self.row(middle), row) {
                Ordering::Less => low = middle + 1,
                Ordering::Equal => return Ok(middle),
                Ordering::Greater => high = middle,
            }
        }
        Err(low)
    }

    /// The place of the first row that is looked for, or the number of rows where there is none.
    pub(crate) fn first(&self, bound: Bound<'_>) -> usize
        ensures { slice_get self.now result ≡ find (passes bound.entry) self.now }
    {
        match self.search(bound.low()) {
            Ok(i) => match bound {
                Bound::Past(_) => i + 1,
                Bound::From(_) => i,
            },
            Err(i) => i,
        }
    }

    /// Puts a row at a place at which the rows stay in order.
    fn put_at(&mut self, i: usize, row: &[u8]) -> Result<(), AllocError>
        requires within { i ≤ length self.old }
        requires ordered { IsAscending (insert self.old i row.now) }
        ensures ok { OnOk result (self.new ≡ insert self.old i row.now) }
        ensures err { OnErr result (self.new ≡ self.old) }
    {
        let span = span_behind(self.bytes.len(), row.len())?;
        self.bytes.extend_from_slice(row)?;
        self.dead += row.len();
        self.spans.insert(i, span)?;
        self.dead -= row.len();
        Ok(())
    }

    /// Puts a row behind all others.
    #[inline]
    fn append(&mut self, row: &[u8]) -> Result<(), AllocError>
        requires { IsAscending (self.old ++ row.now ∷ []) }
        ensures ok { OnOk result (self.new ≡ self.old ++ row.now ∷ []) }
        ensures err { OnErr result (self.new ≡ self.old) }
    {
        let span = span_behind(self.bytes.len(), row.len())?;
        self.bytes.extend_from_slice(row)?;
        self.dead += row.len();
        self.spans.push(span)?;
        self.dead -= row.len();
        Ok(())
    }

    /// Packs the rows anew where the bytes of no row pass half of all and 256 more.
    #[inline]
    fn tighten(&mut self) -> Result<(), AllocError>
        ensures { self.new ≡ self.old }
    {
        if self.dead > self.bytes.len() / 2 + SLACK {
            *self = self.packed()?;
        }
        Ok(())
    }
}

#[cfg(test)]
mod tests {
    use super::*;
    use std::test::Fail;

    #[test]
    fn rows_taken_out_give_their_bytes_back(rt: HostRuntime) -> Result<(), Fail> {
        let mut set = Packing::new(rt.alloc());
        for i in 0..2000u16 {
            assert!(rt; set.insert(&i.to_be_bytes())?);
            assert!(rt; i % 40 == 0 || set.remove(&i.to_be_bytes()));
            assert!(rt; set.bytes.len() <= 4 * set.len() + 2 * SLACK + 2);
        }
        let copy = set.copy()?;
        assert!(rt; copy.equal(&set) && copy.len() == 50 && copy.bytes.len() == 100);
        Ok(())
    }
}
