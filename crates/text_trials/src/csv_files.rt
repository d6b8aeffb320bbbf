//! Files read and written.
use hera_csv::{CsvFault, read_rows, write_rows};
use hera_meaning::writing::put_int;
use hera_meaning::{Attr, Kind, Line, Schema, Text};
use std::alloc::{AllocError, Global};
use std::test::Fail;

const ONE_INT: &[(&[u8], Kind)] = &[(b"a", Kind::Int)];

const ONE_BOOL: &[(&[u8], Kind)] = &[(b"a", Kind::Bool)];

const ONE_TEXT: &[(&[u8], Kind)] = &[(b"t", Kind::Text)];

const TEXT_AND_BOOL: &[(&[u8], Kind)] = &[(b"k", Kind::Text), (b"b", Kind::Bool)];

const TWO_INTS: &[(&[u8], Kind)] = &[(b"a", Kind::Int), (b"b", Kind::Int)];

/// The schema of these names and kinds.
fn schema(alloc: Global, names: &[(&[u8], Kind)]) -> Result<Schema, Fail> {
    let mut attrs = Vec::new(alloc);
    for (name, kind) in names {
        attrs.push(Attr {
            name: Text::new(alloc, name)?,
            kind: *kind,
        })?;
    }
    Ok(Schema::new(attrs)?)
}

/// What is written of the rows of a text under the schema.
fn written(alloc: Global, schema: &Schema, text: &[u8]) -> Result<Line, Fail> {
    let rows = read_rows(alloc, schema, Vec::from_slice(alloc, text)?)?;
    let line = write_rows(alloc, schema, &rows);
    drop(rows);
    Ok(line?)
}

/// Whether these lines are written of the rows of a text.
fn writes(alloc: Global, names: &[(&[u8], Kind)], text: &[u8], lines: &[u8]) -> Result<bool, Fail> {
    let schema = schema(alloc, names)?;
    let written = written(alloc, &schema, text);
    drop(schema);
    let line = written?;
    let is_same = line.bytes() == lines;
    drop(line);
    Ok(is_same)
}

/// Attributes, a text under them, and what is written of its rows.
const WRITTEN: &[(&[(&[u8], Kind)], &[u8], &[u8])] = &[
    (
        ONE_INT,
        b"a\n2\n1\n2\n-9223372036854775808\n",
        b"a\n-9223372036854775808\n1\n2\n",
    ),
    (
        ONE_INT,
        b"\xef\xbb\xbfa\n9223372036854775807",
        b"a\n9223372036854775807\n",
    ),
    (ONE_INT, b"a\r\n007\r\n\"-0\"\r5\n", b"a\n0\n5\n7\n"),
    (ONE_INT, b"\na\n\n\r\n4\n\n", b"a\n4\n"),
    (ONE_INT, b"a", b"a\n"),
    (ONE_TEXT, b"t\n\"\"\n\"a\"b\n\"c", b"t\n\"\"\nab\nc\n"),
    (
        ONE_TEXT,
        b"t\n\xef\xbb\xbf\n'x'\n y \n",
        b"t\n y \n'x'\n\xef\xbb\xbf\n",
    ),
    (
        TEXT_AND_BOOL,
        b"k,b\n\"a,b\",true\n,false\n",
        b"k,b\n,false\n\"a,b\",true\n",
    ),
    (
        TEXT_AND_BOOL,
        b"k,b\n\"say \"\"hi\"\"\",true\n",
        b"k,b\n\"say \"\"hi\"\"\",true\n",
    ),
    (
        TEXT_AND_BOOL,
        b"k,b\n\"a\r\nb\",true\n a\"b,\"false\"\n",
        b"k,b\n\" a\"\"b\",false\n\"a\r\nb\",true\n",
    ),
];

#[test]
fn what_is_read_is_written(rt: HostRuntime) -> Result<(), Fail> {
    for (names, text, lines) in WRITTEN {
        assert!(rt; writes(rt.alloc(), *names, *text, *lines)?);
    }
    Ok(())
}

/// The number of the record for which a text is refused under the schema, and `None` where it is read or memory runs out.
fn refused_under(alloc: Global, schema: &Schema, text: &[u8]) -> Result<Option<u64>, AllocError> {
    match read_rows(alloc, schema, Vec::from_slice(alloc, text)?) {
        Ok(rows) => {
            drop(rows);
            Ok(None)
        }
        Err(CsvFault::Record { number }) => Ok(Some(number)),
        Err(CsvFault::Memory) => Ok(None),
    }
}

/// The number of the record for which a text is refused under the schema of these names and kinds.
fn refused_record(
    alloc: Global,
    names: &[(&[u8], Kind)],
    text: &[u8],
) -> Result<Option<u64>, Fail> {
    let schema = schema(alloc, names)?;
    let refused = refused_under(alloc, &schema, text);
    drop(schema);
    Ok(refused?)
}

/// Attributes, a text that is refused under them, and the number of its first bad record.
const REFUSED: &[(&[(&[u8], Kind)], &[u8], u64)] = &[
    (ONE_INT, b"", 1),
    (ONE_INT, b"\n\r\n", 1),
    (ONE_INT, b"b\n1\n", 1),
    (ONE_INT, b"a,b\n1\n", 1),
    (ONE_INT, b"\xef\xbb\xbf\xef\xbb\xbfa\n1\n", 1),
    (ONE_INT, b"a\n1\nx\n", 3),
    (ONE_INT, b"a\n+5\n", 2),
    (ONE_INT, b"a\n1\n 2\n", 3),
    (ONE_INT, b"a\n1.0\n", 2),
    (ONE_INT, b"a\n1,2\n", 2),
    (ONE_INT, b"a\n9223372036854775808\n", 2),
    (ONE_INT, b"a\n-9223372036854775809\n", 2),
    (ONE_INT, b"a\n-\n", 2),
    (ONE_INT, b"a\n\"\"\n", 2),
    (ONE_INT, b"a\n\n\n4\n4,4\n", 3),
    (ONE_INT, b"a\n1\n\"2\n3\n", 3),
    (ONE_BOOL, b"a\ntrue\nTrue\n", 3),
    (ONE_BOOL, b"a\n1\n", 2),
    (ONE_TEXT, b"t\nx\0y\n", 2),
    (ONE_TEXT, b"t\nx\n\xff\n", 3),
    (TWO_INTS, b"b,a\n1,2\n", 1),
    (TWO_INTS, b"a,b\n1,2\n3\n", 3),
    (TWO_INTS, b"a,b\n1,2\n3,4,\n", 3),
];

#[test]
fn the_first_bad_record_is_told(rt: HostRuntime) -> Result<(), Fail> {
    for (names, text, place) in REFUSED {
        assert_eq!(rt; refused_record(rt.alloc(), *names, *text)?, Some(*place));
    }
    Ok(())
}

#[test]
fn a_text_that_is_too_long_is_refused(rt: HostRuntime) -> Result<(), Fail> {
    let mut text = [b'x'; 1026];
    text[0] = b't';
    text[1] = b'\n';
    assert_eq!(rt; refused_record(rt.alloc(), ONE_TEXT, &text)?, Some(2));
    Ok(())
}

/// A file of so many ints from -500 to 499, each so far behind the one before, and round from the last to the first.
fn ints(alloc: Global, count: i64, step: i64) -> Result<Vec<u8>, Fail> {
    let mut bytes = Vec::from_slice(alloc, b"a\n")?;
    for i in 0..count {
        put_int(&mut bytes, (i.wrapping_mul(step) % 1000).wrapping_sub(500))?;
        bytes.push(b'\n')?;
    }
    Ok(bytes)
}

/// Whether the ints of a file are written in order.
fn are_sorted(alloc: Global, mixed: &[u8]) -> Result<bool, Fail> {
    let sorted = ints(alloc, 1000, 1)?;
    let are_sorted = writes(alloc, ONE_INT, mixed, &sorted);
    drop(sorted);
    are_sorted
}

#[test]
fn rows_in_any_order_are_one_set(rt: HostRuntime) -> Result<(), Fail> {
    let mixed = ints(rt.alloc(), 2000, 791)?;
    let are_sorted = are_sorted(rt.alloc(), &mixed);
    drop(mixed);
    assert!(rt; are_sorted?);
    Ok(())
}
