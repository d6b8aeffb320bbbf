//! Rows in the order in which they came, and the set of them.
ghost use Rattle.std.specs.Prelude.{◌≡◌, ◌<◌, [], ◌∷◌, ◌++◌, length, slice_get, Some, All, IfOk, OnOk, OnErr};
ghost use Rattle.std.specs.List.Sorted.{IsPermutation};
ghost use Rattle.hera_sets.specs.Rows.{normal};
ghost use Rattle.hera_csv.specs.Listed.{IsWithin, cut, rows_at};

use hera_rows::RowSet;
use hera_sets::byte_order;
use std::alloc::{AllocError, Global};
use std::cmp::Ordering;
use std::marker::Model;

/// Where a row lies in the bytes, and its first eight bytes, by which rows are compared first.
#[derive(Clone, Copy)]
struct Span {
    front: u64,
    start: usize,
    end: usize,
}

/// Rows in the order in which they came, each as often as it came, in one buffer.
#[derive(Drop)]
pub(crate) struct RowList {
    bytes: Vec<u8>,
    spans: Vec<Span>,
}

impl Model for RowList {
    ghost use Rattle.std.specs.Prelude.{List, ℕ, length, All};
    ghost use Rattle.hera_csv.specs.Listed.{rows_at, IsWithin};

    ghost Value = { List (List ℕ) };

    ghost view = { λ list. rows_at list.bytes.items list.spans.items };

    ghost invariant = { λ list. All (IsWithin (length list.bytes.items)) list.spans.items };
}

impl RowList {
    /// No rows. It takes no memory.
    pub(crate) fn new(alloc: Global) -> RowList
        ensures { result ≡ [] }
    {
        RowList {
            bytes: Vec::new(alloc),
            spans: Vec::new(alloc),
        }
    }

    /// Puts a row behind all others. Without memory all is as before.
    pub(crate) fn push(&mut self, row: &[u8]) -> Result<(), AllocError>
        ensures ok { OnOk result (self.new ≡ self.old ++ row.now ∷ []) }
        ensures err { OnErr result (self.new ≡ self.old) }
    {
        let start = self.bytes.len();
        self.bytes.extend_from_slice(row)?;
        let end = self.bytes.len();
        let front = front_of(row);
        self.spans.push(Span { front, start, end })?;
        Ok(())
    }

    /// The rows as a set. They are sorted first, so that each goes behind those that are in.
    pub(crate) fn into_set(self, alloc: Global) -> Result<RowSet, AllocError>
        ensures { IfOk result (λ set. set ≡ normal self) }
    {
        let RowList { bytes, spans } = self;
        set_of(alloc, &bytes, spans)
    }
}

/// The bytes of a span.
fn cut(bytes: &[u8], span: Span) -> &[u8]
    requires { IsWithin (length bytes.now) span }
    ensures { result.now ≡ cut bytes.now span }
{
    &bytes[span.start..span.end]
}

/// The first eight bytes as a number, zeros in place of those behind the end.
fn front_of(row: &[u8]) -> u64 {
    let mut first = [0_u8; 8];
    for (place, byte) in first.iter_mut().zip(row) {
        *place = *byte;
    }
    u64::from_be_bytes(first)
}

/// The bytes of a span, none where it does not lie within them.
fn cut_within(bytes: &[u8], span: Span) -> &[u8] {
    match bytes.get(span.start..span.end) {
        Some(row) => row,
        None => &[],
    }
}

/// The order of two rows.
fn order(bytes: &[u8], a: Span, b: Span) -> Ordering {
    match a.front.cmp(&b.front) {
        Ordering::Equal => byte_order(cut_within(bytes, a), cut_within(bytes, b)),
        other => other,
    }
}

/// The spans in the order of their rows. It takes no memory.
fn sorted(bytes: &[u8], mut spans: Vec<Span>) -> Vec<Span>
    ensures { IsPermutation spans.items result.items }
{
    spans.sort_unstable_by(|a, b| order(bytes, *a, *b));
    spans
}

/// The set of the rows at these spans.
fn set_of(alloc: Global, bytes: &[u8], spans: Vec<Span>) -> Result<RowSet, AllocError>
    requires { All (IsWithin (length bytes.now)) spans.items }
    ensures { IfOk result (λ set. set ≡ normal (rows_at bytes.now spans.items)) }
{
    let spans = sorted(bytes, spans);
    in_order(alloc, bytes, &spans)
}

/// The same, where rows that stand in order are put in fastest.
fn in_order(alloc: Global, bytes: &[u8], spans: &[Span]) -> Result<RowSet, AllocError>
    requires { All (IsWithin (length bytes.now)) spans.now }
    ensures { IfOk result (λ set. set ≡ normal (rows_at bytes.now spans.now)) }
{
    let mut set = RowSet::new(alloc);
    for i in 0..spans.len() {
        set.insert(row_at(bytes, spans, i))?;
    }
    Ok(set)
}

/// The row at the span of this place, counted from 0.
fn row_at<'b>(bytes: &'b [u8], spans: &[Span], i: usize) -> &'b [u8]
    requires within { All (IsWithin (length bytes.now)) spans.now }
    requires there { i < length spans.now }
    ensures { slice_get (rows_at bytes.entry.now spans.now) i ≡ Some result.now }
{
    cut(bytes, spans[i])
}
