//! The refusals of texts and schemas, and copies.
use hera_meaning::{Attr, Kind, Schema, SchemaFault, Text, TextFault};
use std::alloc::Global;
use std::test::Fail;

/// As many ints, each named by a byte.
fn attrs(alloc: Global, names: &[u8]) -> Result<Vec<Attr>, Fail> {
    let mut attrs = Vec::new(alloc);
    for name in names {
        attrs.push(Attr {
            name: Text::new(alloc, &[*name])?,
            kind: Kind::Int,
        })?;
    }
    Ok(attrs)
}

/// Whether attributes of these names are a schema, or why they are none; and the place of a name that stands before.
fn told_of(alloc: Global, names: &[u8]) -> Result<(&'static str, usize), Fail> {
    match Schema::new(attrs(alloc, names)?) {
        Ok(schema) => {
            drop(schema);
            Ok(("a schema", 0))
        }
        Err(SchemaFault::Empty) => Ok(("empty", 0)),
        Err(SchemaFault::TooMany) => Ok(("too many", 0)),
        Err(SchemaFault::Repeated { second }) => Ok(("repeated", second)),
    }
}

/// Whether bytes are a text, or why they are none.
fn text_told_of(alloc: Global, bytes: &[u8]) -> &'static str {
    match Text::new(alloc, bytes) {
        Ok(text) => {
            drop(text);
            "a text"
        }
        Err(TextFault::BadUtf8) => "not UTF-8",
        Err(TextFault::HasZero) => "a zero byte",
        Err(TextFault::TooLong) => "too long",
        Err(TextFault::Memory) => "no memory",
    }
}

/// A copy of the text of these bytes.
fn copied(alloc: Global, bytes: &[u8]) -> Result<Text, Fail> {
    let text = Text::new(alloc, bytes)?;
    let copy = text.copy();
    drop(text);
    Ok(copy?)
}

/// Bytes, and why they are no text.
const NO_TEXTS: &[(&[u8], &str)] = &[
    (b"\x00\xff", "not UTF-8"),
    (b"a\x00", "a zero byte"),
    (&[b'a'; 1024], "too long"),
];

#[test]
fn bytes_are_refused_or_a_text(rt: HostRuntime) -> Result<(), Fail> {
    for (bytes, told) in NO_TEXTS {
        assert!(rt; text_told_of(rt.alloc(), *bytes) == *told);
    }
    let text = copied(rt.alloc(), "bolt é".as_bytes())?;
    let is_same = text.bytes() == b"bolt \xc3\xa9".as_slice();
    drop(text);
    assert!(rt; is_same);
    Ok(())
}

/// Names of attributes, and what is told of them.
const SCHEMAS: &[(&[u8], (&str, usize))] = &[
    (b"ab", ("a schema", 0)),
    (b"", ("empty", 0)),
    (b"abcdefghijklmnopq", ("too many", 0)),
    (b"abbaa", ("repeated", 2)),
];

#[test]
fn attributes_are_refused_or_a_schema(rt: HostRuntime) -> Result<(), Fail> {
    for (names, told) in SCHEMAS {
        assert!(rt; told_of(rt.alloc(), *names)? == *told);
    }
    Ok(())
}
