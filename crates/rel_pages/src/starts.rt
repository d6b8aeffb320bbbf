//! Where rows begin in the pages of a relation whose rows differ in length: at every 32nd row of each page, so that a
//! search walks no page from its head.
ghost use Rattle.std.specs.Prelude.{◌≡◌, ◌<◌, ◌≤◌, ◌+◌, ◌++◌, ◌/◌, length, drop, All, IfOk, IfErr, IfSome, OnOk};
ghost use Rattle.rel_pages.specs.Parts.{AreParts, part_bytes};
ghost use Rattle.rel_pages.specs.Rels.{IsPaged};
ghost use Rattle.rel_pages.specs.Starts.{IsStart, IsRead, IsReadAt, IsOneMore, listed, AreStarts, AreStartsOf};

use crate::page_rel::{first_row, row_count};
use crate::parts::RelationPages;
use hera_meaning::{RelId, Schema};
use hera_row::Catalogue;
use rel_format::{PAGE_HEAD, PageFault, rest_at};
use std::alloc::{AllocError, Global};

/// So many rows there are from one beginning that is kept to the next.
const STEP: usize = 32;

/// Where a row begins: the number of its page, its own number on that page, and its place there.
#[derive(Clone, Copy)]
pub(crate) struct RowStart {
    pub(crate) page: u32,
    pub(crate) row: u16,
    pub(crate) at: u16,
}

/// Where a row was read: the number of its relation, the place where the rows of its page begin, how many of these stand
/// before it, and how many bytes they have.
#[derive(Clone, Copy)]
pub(crate) struct ReadStart {
    pub(crate) rel: u16,
    pub(crate) rows: usize,
    pub(crate) row: usize,
    pub(crate) at: usize,
}

/// Notes where a row was read, where that is due.
pub(crate) fn note_start(starts: &mut Vec<ReadStart>, start: ReadStart) -> Result<(), PageFault>
    ensures ok { OnOk result (IsOneMore starts.old.items start starts.new.items) }
    ensures err { IfErr result (λ e. e ≡ PageFault.Memory) }
{
    if start.row % STEP != 0 {
        return Ok(());
    }
    match starts.push(start) {
        Ok(()) => Ok(()),
        Err(_) => Err(PageFault::Memory),
    }
}

/// The beginning with these numbers, where they are small enough.
fn start_of(number: usize, row: usize, at: usize) -> Option<RowStart>
    ensures { IfSome result (λ s. s ≡ record { page = number; row = row; at = at }) }
{
    match (u32::try_from(number), u16::try_from(row), u16::try_from(at)) {
        (Ok(page), Ok(row), Ok(at)) => Some(RowStart { page, row, at }),
        _ => None,
    }
}

/// Keeps a beginning, if one was found.
fn keep_start(starts: &mut Vec<RowStart>, found: Option<RowStart>) -> Result<(), AllocError>
    ensures { OnOk result (starts.new.items ≡ starts.old.items ++ listed found) }
{
    if let Some(start) = found {
        starts.push(start)?;
    }
    Ok(())
}

/// Where a row that was read begins in this part of a relation, if it lies there.
fn start_in(
    schema: &Schema,
    page: usize,
    part: RelationPages,
    bytes: &[u8],
    rel: RelId,
    read: ReadStart,
) -> Option<RowStart>
    requires within { part.at + part.len ≤ length bytes.now }
    requires paged { IsPaged schema.now page (part_bytes bytes.now part) }
    requires read { read.rel ≡ rel.0 → IsReadAt schema.now bytes.now read }
    ensures { IfSome result (IsStart schema.now page (part_bytes bytes.now part)) }
{
    if read.rel != rel.0 {
        return None;
    }
    let pages = rest_at(bytes, part.at).split_at(part.len).0;
    let offset = read.rows.checked_sub(PAGE_HEAD)?.checked_sub(part.at)?;
    let at = read.at.checked_add(PAGE_HEAD)?;
    let number = offset / page;
    if number >= pages.len() / page || number * page != offset {
        return None;
    }
    let one = pages.split_at(number * page).1.split_at(page).0;
    if read.row >= row_count(one) {
        return None;
    }
    start_of(number, read.row, at)
}

/// Where rows begin in this part of a relation, of those that were read.
fn starts_in(
    alloc: Global,
    schema: &Schema,
    page: usize,
    part: RelationPages,
    bytes: &[u8],
    rel: RelId,
    read: &[ReadStart],
) -> Result<Vec<RowStart>, AllocError>
    requires within { part.at + part.len ≤ length bytes.now }
    requires paged { IsPaged schema.now page (part_bytes bytes.now part) }
    requires read { All (λ r. r.rel ≡ rel.0 → IsReadAt schema.now bytes.now r) read.now }
    ensures { IfOk result (λ starts. All (IsStart schema.now page (part_bytes bytes.now part)) starts.items) }
{
    let mut starts = Vec::new(alloc);
    for index in 0..read.len() {
        let found = start_in(schema, page, part, bytes, rel, read[index]);
        keep_start(&mut starts, found)?;
    }
    Ok(starts)
}

/// Where rows of a relation begin, of those that were read.
fn starts_of(
    alloc: Global,
    page: usize,
    catalogue: &Catalogue,
    parts: &[RelationPages],
    bytes: &[u8],
    rel: RelId,
    read: &[ReadStart],
) -> Result<Vec<RowStart>, AllocError>
    requires parts { AreParts page catalogue.now parts.now bytes.now }
    requires there { rel.0 < length catalogue.now }
    requires read { All (IsRead catalogue.now bytes.now) read.now }
    ensures { IfOk result (λ starts. AreStartsOf page catalogue.now parts.now bytes.now rel.0 starts.items) }
{
    match parts.get(rel.0 as usize) {
        Some(part) => {
            let schema = &catalogue.decl(rel).schema;
            starts_in(alloc, schema, page, *part, bytes, rel, read)
        }
        None => Ok(Vec::new(alloc)),
    }
}

/// How many of these, from the first on, are of this relation.
fn count_of(read: &[ReadStart], rel: u16) -> usize
    ensures { result ≤ length read.now }
{
    let mut count = 0;
    while count < read.len() && read[count].rel == rel {
        count += 1;
    }
    count
}

/// Where rows of each relation begin, of those that were read.
pub(crate) fn all_starts(
    alloc: Global,
    page: usize,
    catalogue: &Catalogue,
    parts: &[RelationPages],
    bytes: &[u8],
    read: &[ReadStart],
) -> Result<Vec<Vec<RowStart>>, AllocError>
    requires parts { AreParts page catalogue.now parts.now bytes.now }
    requires read { All (IsRead catalogue.now bytes.now) read.now }
    ensures { IfOk result (λ lists. AreStarts page catalogue.now parts.now bytes.now lists.items) }
{
    let mut lists = Vec::new(alloc);
    let mut rest = read;
    for number in 0..catalogue.len() as u16 {
        let (own, others) = rest.split_at(count_of(rest, number));
        let starts = starts_of(alloc, page, catalogue, parts, bytes, RelId(number), own)?;
        lists.push(starts)?;
        rest = others;
    }
    Ok(lists)
}

/// Where the row of this number begins, walked to from an earlier one of its page; where it is far behind that, or none
/// is there, that one.
pub(crate) fn start_on(
    schema: &Schema,
    pages: &[u8],
    page: usize,
    start: RowStart,
    row: usize,
) -> RowStart
    requires paged { IsPaged schema.now page pages.now }
    requires start { IsStart schema.now page pages.now start }
    ensures { IsStart schema.now page pages.now result }
{
    let number = start.page as usize;
    let one = pages.split_at(number * page).1.split_at(page).0;
    let first = start.row as usize;
    if row < first || row - first > STEP || row >= row_count(one) {
        return start;
    }
    let mut left = one.split_at(start.at as usize).1;
    for _ in first..row {
        left = first_row(schema, left).1;
    }
    match start_of(number, row, one.len() - left.len()) {
        Some(further) => further,
        None => start,
    }
}
