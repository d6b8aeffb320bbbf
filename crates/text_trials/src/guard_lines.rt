//! Lines over R(a int) and T(t text), and rows that their guards let pass or refuse.
ghost use Rattle.std.specs.Prelude.{IfOk, IfSome};
ghost use Rattle.hera_meaning.specs.Commits.{IsCommitOf};
ghost use Rattle.hera_meaning.specs.Deltas.{IsState};
ghost use Rattle.hera_guard.specs.Guards.{AreGuards};

use delta_atoms::Delta;
use hera_guard::{Break, GuardTable, break_line};
use hera_guard_lines::{GuardLines, LineFault, NameFault, guards_of, read_lines};
use hera_host::HostTable;
use hera_lexer::lex;
use hera_meaning::{Line, RelId, Scalar, Sign};
use hera_row::{Catalogue, check_row};
use hera_syntax::SCRIPT_LIMIT;
use program_hosts::{band, bucket, clamp, is_sku, program_hosts};
use rel_pages::{Base, read_half};
use std::alloc::{AllocError, Global};
use std::process::Abort;
use std::test::Fail;
use when_overlay::{Layers, View};

const MINUS_ONE: [u8; 8] = [127, 255, 255, 255, 255, 255, 255, 255];

const FIVE: [u8; 8] = [128, 0, 0, 0, 0, 0, 0, 5];

const SEVEN: [u8; 8] = [128, 0, 0, 0, 0, 0, 0, 7];

const FIVE_HUNDRED: [u8; 8] = [128, 0, 0, 0, 0, 0, 1, 244];

/// Puts a page of R with two ints, the lesser first, one of T with a text, and a closed gate behind the bytes.
fn put_pages(bytes: &mut Vec<u8>, low: &[u8], high: &[u8], text: &[u8]) -> Result<(), AllocError> {
    bytes.extend_from_slice(b"\0\0\0\x02")?;
    bytes.extend_from_slice(low)?;
    bytes.extend_from_slice(high)?;
    bytes.resize(8218, 0)?;
    bytes.extend_from_slice(b"\0\x01\0\x01")?;
    bytes.extend_from_slice(text)?;
    bytes.resize(16_411, 0)
}

/// A base in which R holds two ints, the lesser first, and T one text.
fn base(alloc: Global, low: &[u8], high: &[u8], text: &[u8]) -> Result<Base, Fail> {
    let head = b"HERA0001\0\x02\x01R\x01\x01a\x01\x01T\x01\x01t\x03\0\0\0\x02";
    let mut bytes = Vec::from_slice(alloc, head)?;
    match put_pages(&mut bytes, low, high, text) {
        Ok(()) => Ok(read_half(alloc, bytes)?),
        Err(e) => {
            drop(bytes);
            Err(e.into())
        }
    }
}

/// The guards that lines mean, or what their names are refused for and where.
fn named(
    alloc: Global,
    lines: &GuardLines,
    catalogue: &Catalogue,
    hosts: &HostTable,
) -> Result<GuardTable, (&'static str, u32)>
    ensures { IfOk result (AreGuards catalogue.now hosts.now.names) }
{
    match guards_of(alloc, lines, catalogue, hosts) {
        Ok(table) => Ok(table),
        Err(NameFault::Unknown { at }) => Err(("Unknown", at)),
        Err(NameFault::Mismatch { at }) => Err(("Mismatch", at)),
        Err(NameFault::Memory) => Err(("Memory", 0)),
    }
}

/// The guards that lines mean where they were read, or what they are refused for and where.
fn meant(
    alloc: Global,
    lines: Result<GuardLines, LineFault>,
    catalogue: &Catalogue,
    hosts: &HostTable,
) -> Result<GuardTable, (&'static str, u32)>
    ensures { IfOk result (AreGuards catalogue.now hosts.now.names) }
{
    match lines {
        Ok(lines) => {
            let table = named(alloc, &lines, catalogue, hosts);
            drop(lines);
            table
        }
        Err(LineFault::Syntax { at }) => Err(("Syntax", at)),
        Err(LineFault::Memory) => Err(("Memory", 0)),
    }
}

/// The guards that a text means, or what it is refused for and where.
fn guards(
    alloc: Global,
    text: &[u8],
    catalogue: &Catalogue,
    hosts: &HostTable,
) -> Result<Result<GuardTable, (&'static str, u32)>, Fail>
    ensures { IfOk result (λ read. IfOk read (AreGuards catalogue.now hosts.now.names)) }
{
    if text.len() > SCRIPT_LIMIT {
        return Ok(Err(("TooLong", 0)));
    }
    let tokens = lex(alloc, text)?;
    let lines = read_lines(alloc, &tokens);
    drop(tokens);
    Ok(meant(alloc, lines, catalogue, hosts))
}

/// What a text is refused for and where, or that it is read.
fn refusal_of(
    alloc: Global,
    text: &[u8],
    catalogue: &Catalogue,
    hosts: &HostTable,
) -> Result<(&'static str, u32), Fail> {
    match guards(alloc, text, catalogue, hosts)? {
        Ok(table) => {
            drop(table);
            Ok(("read", 0))
        }
        Err(refusal) => Ok(refusal),
    }
}

/// Texts, and for what and where each is refused.
const REFUSED: &[(&[u8], &str, u32)] = &[
    (b"R a: band;", "Syntax", 2),
    (b"R.a band;", "Syntax", 4),
    (b"R.a: ;", "Syntax", 5),
    (b"R.a: in;", "Syntax", 5),
    (b"R.a: band", "Syntax", 9),
    (b"R.a: band; R", "Syntax", 12),
    (b"R.a: band; ;", "Syntax", 11),
    (b"Q.a: band;", "Unknown", 0),
    (b"R.b: band;", "Unknown", 2),
    (b"R.a: bond;", "Unknown", 5),
    (b"R.a: band; R.b: bond;", "Unknown", 13),
    (b"R.a: bucket;", "Mismatch", 5),
    (b"T.t: band; Q.a: band;", "Mismatch", 5),
    (b"R.a: is_sku;", "Mismatch", 5),
];

/// Each text is refused for this cause, at this offset.
fn lines_are_refused_at_the_first_fault(
    rt: &impl Abort,
    alloc: Global,
    catalogue: &Catalogue,
    hosts: &HostTable,
) -> Result<(), Fail> {
    for (text, cause, at) in REFUSED {
        assert!(rt; refusal_of(alloc, *text, catalogue, hosts)? == (*cause, *at));
    }
    Ok(())
}

/// Whether the row found is that of a relation, and breaks this guard. An empty row stands for none.
fn is_break(found: &Option<Break>, guard: usize, rel: RelId, row: &[u8]) -> bool {
    match found {
        None => row.is_empty(),
        Some(found) => found.guard == guard && found.rel.0 == rel.0 && found.row.bytes() == row,
    }
}

/// The first stored row that breaks one of these guards.
fn stored_break(
    alloc: Global,
    base: &Base,
    table: &GuardTable,
    hosts: &HostTable,
) -> Result<Option<Break>, AllocError>
    requires guards { AreGuards base.now.catalogue hosts.now.names table.now }
    requires state { IsState base.now.catalogue base.now.state }
{
    let layers = Layers::new(alloc);
    let view = View {
        base,
        commits: &[],
        layers: &layers,
        tip: None,
    };
    table.test_all(&view, hosts)
}

/// The first stored row that breaks one of the guards of a text.
fn first_break(
    alloc: Global,
    base: &Base,
    text: &[u8],
    hosts: &HostTable,
) -> Result<Option<Break>, Fail> {
    let catalogue = base.catalogue();
    match guards(alloc, text, catalogue, hosts)? {
        Ok(table) => {
            let found = stored_break(alloc, base, &table, hosts);
            drop(table);
            Ok(found?)
        }
        Err(_) => Err("the guards are refused".into()),
    }
}

/// Under each text this row is found, and none where it is empty.
fn the_first_stored_row_that_breaks_a_guard_is_found(
    rt: &impl Abort,
    alloc: Global,
    hosts: &HostTable,
) -> Result<(), Fail> {
    for (text, row, sku, rel, guard) in [
        (
            b"R.a: band; R.a: band;".as_slice(),
            MINUS_ONE.as_slice(),
            b"x".as_slice(),
            0,
            0,
        ),
        (b"T.t: is_sku; R.a: band;", &MINUS_ONE, b"x", 0, 1),
        (b"T.t: is_sku;", b"x\0", b"x", 1, 0),
        (b"T.t: is_sku;", b"", b"SKU-1", 1, 0),
        (b"", b"", b"x", 0, 0),
    ] {
        let base = base(alloc, &MINUS_ONE, &FIVE, sku)?;
        let found = first_break(alloc, &base, text, hosts);
        drop(base);
        assert!(rt; is_break(&found?, guard, RelId(rel), row));
    }
    Ok(())
}

/// The delta of one atom, if its row is one of its relation.
fn change(
    alloc: Global,
    catalogue: &Catalogue,
    sign: Sign,
    rel: RelId,
    row: &[u8],
) -> Result<Option<Delta>, Fail>
    ensures { IfOk result (λ change. IfSome change (IsCommitOf catalogue.now)) }
{
    if usize::from(rel.0) >= catalogue.len() {
        return Ok(None);
    }
    if !check_row(&catalogue.decl(rel).schema, row) {
        return Ok(None);
    }
    let delta = Delta::atom(alloc, sign, rel, row)?;
    Ok(Some(delta))
}

/// The line for the first row that the change puts in and that breaks one of the guards of `band` and `is_sku`.
fn line_of(
    alloc: Global,
    catalogue: &Catalogue,
    table: &GuardTable,
    delta: &Delta,
    hosts: &HostTable,
) -> Result<Option<Line>, AllocError>
    requires guards { AreGuards catalogue.now hosts.now.names table.now }
    requires change { IsCommitOf catalogue.now delta.now }
{
    let Some(found) = table.test_added(catalogue, delta, hosts)? else {
        return Ok(None);
    };
    let host = match found.guard {
        0 => b"band".as_slice(),
        _ => b"is_sku",
    };
    let line = break_line(alloc, catalogue, host, &found);
    drop(found);
    Ok(Some(line?))
}

/// Whether the line is this one. An empty one stands for none.
fn is_line(found: &Option<Line>, line: &[u8]) -> bool {
    match found {
        None => line.is_empty(),
        Some(found) => found.bytes() == line,
    }
}

/// Each change has this line, and none where it is empty.
fn changes_have_lines(
    rt: &impl Abort,
    alloc: Global,
    catalogue: &Catalogue,
    table: &GuardTable,
    hosts: &HostTable,
) -> Result<(), Fail>
    requires { AreGuards catalogue.now hosts.now.names table.now }
{
    for (sign, rel, row, line) in [
        (
            Sign::Plus,
            0,
            FIVE_HUNDRED.as_slice(),
            b"guard band refused R[500]\n".as_slice(),
        ),
        (Sign::Plus, 0, &SEVEN, b""),
        (Sign::Minus, 0, &FIVE_HUNDRED, b""),
        (
            Sign::Plus,
            1,
            b"S\"\0",
            b"guard is_sku refused T[\"S\\\"\"]\n",
        ),
        (Sign::Plus, 1, b"SKU-\0", b""),
    ] {
        let Some(delta) = change(alloc, catalogue, sign, RelId(rel), row)? else {
            assert!(rt; false);
            return Ok(());
        };
        let found = line_of(alloc, catalogue, table, &delta, hosts);
        drop(delta);
        assert!(rt; is_line(&found?, line));
    }
    Ok(())
}

/// Only rows that are put in are tested.
fn only_rows_that_are_put_in_are_tested(
    rt: &impl Abort,
    alloc: Global,
    hosts: &HostTable,
    base: &Base,
) -> Result<(), Fail> {
    match guards(alloc, b"R.a: band; T.t: is_sku;", base.catalogue(), hosts)? {
        Ok(table) => {
            let tested = changes_have_lines(rt, alloc, base.catalogue(), &table, hosts);
            drop(table);
            tested
        }
        Err(_) => Err("the guards are refused".into()),
    }
}

/// Lines over a base are refused or read, and their guards test the rows that are put in.
fn lines_are_tried(
    rt: &impl Abort,
    alloc: Global,
    hosts: &HostTable,
    base: &Base,
) -> Result<(), Fail> {
    lines_are_refused_at_the_first_fault(rt, alloc, base.catalogue(), hosts)?;
    only_rows_that_are_put_in_are_tested(rt, alloc, hosts, base)
}

/// Guards over these hosts are read, and test rows that are put in and rows that are stored.
fn guards_are_tried(rt: &impl Abort, alloc: Global, hosts: &HostTable) -> Result<(), Fail> {
    let base = base(alloc, &MINUS_ONE, &FIVE, b"x")?;
    let tried = lines_are_tried(rt, alloc, hosts, &base);
    drop(base);
    tried?;
    the_first_stored_row_that_breaks_a_guard_is_found(rt, alloc, hosts)
}

#[test]
fn guards_are_read_and_test_rows(rt: HostRuntime) -> Result<(), Fail> {
    let alloc = rt.alloc();
    let hosts = program_hosts(
        alloc,
        Box::new(alloc, |arg: &Scalar| band(arg))?,
        Box::new(alloc, |arg: &Scalar| bucket(arg))?,
        Box::new(alloc, |arg: &Scalar| is_sku(arg))?,
        Box::new(alloc, |arg: &Scalar| clamp(arg))?,
    )?;
    let tried = guards_are_tried(&rt, alloc, &hosts);
    drop(hosts);
    tried
}
