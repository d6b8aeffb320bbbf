//! Halves of few pages: their rows read in place, and the place of their damage.
use crate::samples::{add_int, pad, put_rows, row};
use hera_meaning::RelId;
use hera_row::Catalogue;
use hera_rows::Sorted;
use rel_pages::{Base, IndexedRel, PageFault, PageRel, Place, read_half};
use std::alloc::{AllocError, Global};
use std::process::Abort;
use std::test::Fail;

/// A base with the relation R(a int), which has no rows.
fn empty_base(alloc: Global) -> Result<Base, Fail> {
    let mut catalogue = Catalogue::new(alloc);
    match add_int(alloc, &mut catalogue, b"R") {
        Ok(Some(RelId(0))) => Ok(Base::empty(alloc, catalogue)?),
        Ok(_) => {
            drop(catalogue);
            Err("R has not the number 0".into())
        }
        Err(e) => {
            drop(catalogue);
            Err(e)
        }
    }
}

/// Whether the base is that of R(a int) without rows.
fn is_empty(base: &Base) -> bool {
    let bytes = b"HERA0002\0\x01\x01R\x01\x01a\x01\0\0\0\0\0";
    if base.bytes() != bytes.as_slice() || base.version().is_old() {
        return false;
    }
    if base.catalogue().len() != 1 {
        return false;
    }
    let rows = base.rel(RelId(0));
    rows.above(None).is_none() && !rows.has(b"a")
}

#[test]
fn relations_begin_without_rows(rt: HostRuntime) -> Result<(), Fail> {
    let base = empty_base(rt.alloc())?;
    let is_empty = is_empty(&base);
    drop(base);
    assert!(rt; is_empty);
    Ok(())
}

/// Puts one page, which begins with these bytes and ends with this one, and a closed gate behind the bytes.
fn put_page(bytes: &mut Vec<u8>, head: &[u8], end: u8) -> Result<(), AllocError> {
    bytes.extend_from_slice(head)?;
    pad(bytes, 8211)?;
    bytes.push(end)?;
    bytes.push(0)?;
    Ok(())
}

/// A half of the relation R(a int) with one page, which begins with these bytes and ends with this one.
fn half_with(alloc: Global, head: &[u8], end: u8) -> Result<Vec<u8>, AllocError> {
    let mut bytes = Vec::from_slice(alloc, b"HERA0001\0\x01\x01R\x01\x01a\x01\0\0\0\x01")?;
    put_page(&mut bytes, head, end)?;
    Ok(bytes)
}

/// Where a half is damaged, and `None` where it is read or memory runs out.
fn damage_of(alloc: Global, bytes: Vec<u8>) -> Option<u64> {
    match read_half(alloc, bytes) {
        Err(PageFault::Damaged { at }) => Some(at),
        _ => None,
    }
}

/// Halves, and where each is damaged.
const DAMAGED_HALVES: &[(&[u8], u64)] = &[
    (b"HERA000", 0),
    (b"HERA0001\x01\x01\x01R", 8),
    (
        b"HERA0001\0\x02\x01R\x01\x01a\x04\x01S\x01\x01a\x01\0\0\0\0\0",
        15,
    ),
    (
        b"HERA0001\0\x02\x01R\x01\x01a\x01\x01R\x01\x01a\x01\0\0\0\0\0",
        17,
    ),
    (
        b"HERA0001\0\x02\x01R\x01\x01a\x01\x01S\x01\x01a\x01\0\0\0\x01\x01\0\0",
        26,
    ),
];

#[test]
fn damaged_halves_tell_their_place(rt: HostRuntime) -> Result<(), Fail> {
    for (bytes, place) in DAMAGED_HALVES {
        let bytes = Vec::from_slice(rt.alloc(), *bytes)?;
        assert!(rt; damage_of(rt.alloc(), bytes) == Some(*place));
    }
    Ok(())
}

/// How pages begin and end, and where each is damaged.
const DAMAGED_PAGES: &[(&[u8], u8, u64)] = &[
    (b"\0\x01\0\x01", 0, 20),
    (b"\0\0\0\0", 0, 22),
    (b"\0\0\0\x02\x80\0\0\0\0\0\0\x02\x80\0\0\0\0\0\0\x01", 0, 32),
    (b"\0\0\0\x01\x80\0\0\0\0\0\0\x02", 7, 32),
];

#[test]
fn damaged_pages_tell_their_place(rt: HostRuntime) -> Result<(), Fail> {
    for (head, end, place) in DAMAGED_PAGES {
        let bytes = half_with(rt.alloc(), *head, *end)?;
        assert!(rt; damage_of(rt.alloc(), bytes) == Some(*place));
    }
    Ok(())
}

/// Whether the relation has the rows of 1 and 2, and no others.
fn has_one_and_two(rows: &PageRel<'_>) -> bool {
    let one = row(1);
    let two = row(2);
    rows.len() == 2
        && rows.above(None) == Some(one.as_slice())
        && rows.above(Some(&one)) == Some(two.as_slice())
        && rows.above(Some(&two)).is_none()
        && rows.has(&two)
        && !rows.has(b"")
}

/// Whether the base has R alone with the rows of 1 and 2, and a journal behind one page.
fn is_read(base: &Base) -> bool {
    if base.catalogue().len() != 1 {
        return false;
    }
    base.version().is_old() && base.journal_at() == 8212 && has_one_and_two(&base.rel(RelId(0)))
}

#[test]
fn rows_are_read_in_place(rt: HostRuntime) -> Result<(), Fail> {
    let head = b"\0\0\0\x02\x80\0\0\0\0\0\0\x01\x80\0\0\0\0\0\0\x02";
    let base = read_half(rt.alloc(), half_with(rt.alloc(), head, 0)?)?;
    let is_read = is_read(&base);
    drop(base);
    assert!(rt; is_read);
    Ok(())
}

/// Puts two pages with the ints 1 to 1025 and a closed gate behind the bytes.
fn put_two_pages(bytes: &mut Vec<u8>) -> Result<(), AllocError> {
    bytes.extend_from_slice(b"\0\0\x03\xff")?;
    put_rows(bytes, 1, 1024)?;
    bytes.extend_from_slice(b"\0\0\0\0\0\0\0\x02")?;
    put_rows(bytes, 1024, 1026)?;
    pad(bytes, 16_404)
}

/// A half of format 1 with the relation R(a int), which holds the ints 1 to 1025 on two pages.
fn two_pages(alloc: Global) -> Result<Vec<u8>, AllocError> {
    let mut bytes = Vec::from_slice(alloc, b"HERA0001\0\x01\x01R\x01\x01a\x01\0\0\0\x02")?;
    put_two_pages(&mut bytes)?;
    Ok(bytes)
}

#[test]
fn a_half_that_ends_in_a_row_is_damaged_at_that_row(rt: HostRuntime) -> Result<(), Fail> {
    let mut bytes = two_pages(rt.alloc())?;
    bytes.truncate(8220);
    assert!(rt; damage_of(rt.alloc(), bytes) == Some(8216));
    Ok(())
}

/// Whether a walk finds the ints 1 to 1025, each at its place, and no others.
fn walk_finds_places(rows: &PageRel<'_>) -> bool {
    let mut near = rows.above_near(None, Place::start());
    for n in 0..1025u16 {
        if near.row != Some(row(n + 1).as_slice()) {
            return false;
        }
        if near.place.page != (n / 1023) as usize || near.place.row != (n % 1023) as usize {
            return false;
        }
        near = rows.above_near(near.row, near.place);
    }
    near.row.is_none()
}

#[test]
fn a_walk_finds_each_row_at_its_place(rt: HostRuntime) -> Result<(), Fail> {
    let base = read_half(rt.alloc(), two_pages(rt.alloc())?)?;
    let finds = base.catalogue().len() == 1 && walk_finds_places(&base.rel(RelId(0)));
    drop(base);
    assert!(rt; finds);
    Ok(())
}

/// The row of a text of 200 bytes, of which the last is this one.
fn text(last: u8) -> [u8; 201] {
    let mut row = [b'a'; 201];
    row[199] = last;
    row[200] = 0;
    row
}

/// Puts the rows of these texts behind the bytes, from the one that ends with the first byte up to before the second.
fn put_texts(bytes: &mut Vec<u8>, first: u8, past: u8) -> Result<(), AllocError> {
    for last in first..past {
        bytes.extend_from_slice(&text(last))?;
    }
    Ok(())
}

/// Puts two pages with the texts that end with the bytes 33 to 82 and a closed gate behind the bytes.
fn put_pages_of_texts(bytes: &mut Vec<u8>) -> Result<(), AllocError> {
    bytes.extend_from_slice(b"\0\0\0\x28")?;
    put_texts(bytes, 33, 73)?;
    pad(bytes, 8212)?;
    bytes.extend_from_slice(b"\0\0\0\x0a")?;
    put_texts(bytes, 73, 83)?;
    pad(bytes, 16_405)
}

/// A base with the relation R(a text), which holds texts that end with the bytes 33 to 82 on two pages.
fn two_pages_of_texts(alloc: Global) -> Result<Base, Fail> {
    let mut bytes = Vec::from_slice(alloc, b"HERA0001\0\x01\x01R\x01\x01a\x03\0\0\0\x02")?;
    put_pages_of_texts(&mut bytes)?;
    Ok(read_half(alloc, bytes)?)
}

/// Whether searches from some pages all find this row behind the bound, or none.
fn finds_from_any_page(rows: &PageRel<'_>, bound: &[u8], next: Option<&[u8]>) -> bool {
    for page in [0, 1, 2, usize::MAX] {
        if rows.above_near(Some(bound), Place { page, row: 7 }).row != next {
            return false;
        }
    }
    true
}

/// Whether a walk finds the texts that end with the bytes 33 to 82, from wrong pages too, and no others.
fn walk_finds_texts(rows: &PageRel<'_>) -> bool {
    let mut near = rows.above_near(None, Place::start());
    for last in 33..83 {
        let row = text(last);
        if near.row != Some(row.as_slice()) {
            return false;
        }
        near = rows.above_near(Some(&row), near.place);
        if !finds_from_any_page(rows, &row, near.row) {
            return false;
        }
    }
    near.row.is_none()
}

#[test]
fn a_walk_over_texts_finds_each_row(rt: HostRuntime) -> Result<(), Fail> {
    let base = two_pages_of_texts(rt.alloc())?;
    let finds = base.catalogue().len() == 1 && walk_finds_texts(&base.rel(RelId(0)));
    drop(base);
    assert!(rt; finds);
    Ok(())
}

/// Whether searches from some places all find this row behind the bound, or none.
fn finds_from_any_place(rows: &IndexedRel<'_>, bound: &[u8], next: Option<&[u8]>) -> bool {
    for page in [0, 1, 2, 3, usize::MAX] {
        for number in [0, 31, 32, 40, usize::MAX] {
            let place = Place { page, row: number };
            if rows.above_near(Some(bound), place).row != next {
                return false;
            }
        }
    }
    true
}

/// Whether the rows found by their beginnings are those found without.
fn are_same(rows: &PageRel<'_>, indexed: &IndexedRel<'_>) -> bool {
    for last in 32..84 {
        let row = text(last);
        if indexed.has(&row) != rows.has(&row) {
            return false;
        }
        if indexed.above(Some(&row)) != rows.above(Some(&row)) {
            return false;
        }
    }
    indexed.above(None) == rows.above(None)
}

/// Whether R has 50 rows, which are found by their beginnings as without.
fn is_indexed(base: &Base) -> bool {
    if base.catalogue().len() != 1 {
        return false;
    }
    let indexed = base.indexed(RelId(0)).again();
    indexed.len() == 50 && !indexed.is_empty() && are_same(&base.rel(RelId(0)), &indexed)
}

#[test]
fn rows_with_beginnings_are_those_without(rt: HostRuntime) -> Result<(), Fail> {
    let base = two_pages_of_texts(rt.alloc())?;
    let is_indexed = is_indexed(&base);
    drop(base);
    assert!(rt; is_indexed);
    Ok(())
}

/// Whether a walk by beginnings finds the texts that end with the bytes 33 to 82, from wrong places too, and no others.
fn walk_finds_beginnings(rows: &IndexedRel<'_>) -> bool {
    let mut near = rows.above_near(None, Place::start());
    for last in 33..83 {
        let row = text(last);
        if near.row != Some(row.as_slice()) {
            return false;
        }
        near = rows.above_near(Some(&row), near.place);
        if !finds_from_any_place(rows, &row, near.row) {
            return false;
        }
    }
    near.row.is_none()
}

#[test]
fn rows_are_found_from_where_some_begin(rt: HostRuntime) -> Result<(), Fail> {
    let base = two_pages_of_texts(rt.alloc())?;
    let finds = base.catalogue().len() == 1
        && walk_finds_beginnings(&base.indexed(RelId(0)).again());
    drop(base);
    assert!(rt; finds);
    Ok(())
}

/// Whether a search that begins at the place finds what one without it finds, whatever the bound.
fn finds_all_from(rows: &PageRel<'_>, place: Place) -> bool {
    if rows.above_near(None, place).row != rows.above(None) {
        return false;
    }
    for n in [0, 1, 2, 512, 1022, 1023, 1024, 1025, 1026] {
        let bound = row(n);
        if rows.above_near(Some(&bound), place).row != rows.above(Some(&bound)) {
            return false;
        }
    }
    true
}

/// The page and the row of the first of some places from which a search finds something else than without it.
fn first_wrong_place(rows: &PageRel<'_>) -> Option<(usize, usize)> {
    for page in [0, 1, 2, usize::MAX] {
        for number in [0, 1, 511, 1021, 1022, 1023, usize::MAX] {
            if !finds_all_from(rows, Place { page, row: number }) {
                return Some((page, number));
            }
        }
    }
    None
}

/// No place of R changes what a search finds.
fn places_change_no_row(rt: &impl Abort, base: &Base) {
    assert!(rt; base.catalogue().len() == 1);
    let rows = base.rel(RelId(0));
    assert_eq!(rt; first_wrong_place(&rows), None);
    assert!(rt; rows.above_near(None, Place::nowhere()).row.is_some());
}

#[test]
fn a_wrong_place_changes_no_row(rt: HostRuntime) -> Result<(), Fail> {
    let base = read_half(rt.alloc(), two_pages(rt.alloc())?)?;
    places_change_no_row(&rt, &base);
    drop(base);
    Ok(())
}
