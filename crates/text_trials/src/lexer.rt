//! Tokens of small scripts, refusals with their places, and limits.
use hera_lexer::{LexFault, lex};
use hera_syntax::{SCRIPT_LIMIT, Token, TokenKind, Tokens};
use std::alloc::{AllocError, Global};
use std::process::Abort;
use std::test::Fail;

/// A token as text: what it is, and its offset.
fn spelled(alloc: Global, token: &Token) -> Result<String, AllocError> {
    match &token.kind {
        TokenKind::Ident(name) => format!(in alloc; "i{}@{} ", name.bytes().len(), token.at),
        TokenKind::Int(value) => format!(in alloc; "n{}@{} ", value, token.at),
        TokenKind::Text(text) => format!(in alloc; "t{}@{} ", text.bytes().len(), token.at),
        TokenKind::Key(keyword) => format!(in alloc; "{:?}@{} ", keyword, token.at),
        TokenKind::Punct(mark) => format!(in alloc; "{:?}@{} ", mark, token.at),
    }
}

/// Puts the tokens, each as text.
fn put_tokens(alloc: Global, tokens: &Tokens, text: &mut String) -> Result<(), AllocError> {
    for token in tokens.items() {
        text.push_str(&spelled(alloc, token)?)?;
    }
    Ok(())
}

/// Compares the tokens of a script, each as text.
fn reads(rt: &impl Abort, alloc: Global, script: &[u8], text: &str) -> Result<(), Fail> {
    assert!(rt; script.len() <= SCRIPT_LIMIT);
    let tokens = lex(alloc, script)?;
    let mut all = String::new(alloc);
    let put = put_tokens(alloc, &tokens, &mut all);
    drop(tokens);
    put?;
    assert_eq!(rt; all.as_bytes(), text.as_bytes());
    Ok(())
}

/// Why a script is refused, and where; or that it is read.
fn told_of(alloc: Global, script: &[u8]) -> (&'static str, u32) {
    if script.len() > SCRIPT_LIMIT {
        return ("too long", 0);
    }
    match lex(alloc, script) {
        Ok(tokens) => {
            drop(tokens);
            ("read", 0)
        }
        Err(LexFault::BadUtf8 { at }) => ("BadUtf8", at),
        Err(LexFault::BadToken { at }) => ("BadToken", at),
        Err(LexFault::TooDeep { at }) => ("TooDeep", at),
        Err(LexFault::Memory) => ("no memory", 0),
    }
}

/// As many bytes between the two others.
fn row_of(
    alloc: Global,
    first: &[u8],
    byte: u8,
    n: usize,
    last: &[u8],
) -> Result<Vec<u8>, AllocError> {
    let mut bytes = Vec::from_slice(alloc, first)?;
    for _ in 0..n {
        bytes.push(byte)?;
    }
    bytes.extend_from_slice(last)?;
    Ok(bytes)
}

/// Scripts, and the tokens of each as text.
const SCRIPTS: &[(&[u8], &str)] = &[
    (b"", ""),
    (b" \t\n\r", ""),
    (b"1 // c", "n1@0 "),
    (b"/* a */2/**/", "n2@7 "),
    (
        b"< <= == = =>",
        "Less@0 LessEqual@2 EqualEqual@5 Equals@8 Equals@10 Greater@11 ",
    ),
    (
        b"&&& || != >= ! > &",
        "AndAnd@0 And@2 OrOr@4 NotEqual@7 GreaterEqual@10 Bang@13 Greater@15 And@17 ",
    ),
    (
        b"()[]{},;:.+-*/%",
        "OpenParen@0 CloseParen@1 OpenSquare@2 CloseSquare@3 OpenBrace@4 CloseBrace@5 Comma@6 Semicolon@7 Colon@8 Dot@9 Plus@10 Minus@11 Star@12 Slash@13 Percent@14 ",
    ),
    (b"9223372036854775807 007", "n9223372036854775807@0 n7@20 "),
    (b"\"a\\\"\\\\\\n\\t\"", "t5@0 "),
    (b"_x \xc3\xa9t\xc3\xa9 main1", "i2@0 i5@3 i5@9 "),
    (
        b"relation func proc main int bool text delta rel tuple if else while foreach in print apply commit rollback assert return true false",
        "Relation@0 Func@9 Proc@14 Main@19 Int@24 Bool@28 Text@33 Delta@38 Rel@44 Tuple@48 If@54 Else@57 While@62 Foreach@68 In@76 Print@79 Apply@85 Commit@91 Rollback@98 Assert@107 Return@114 True@121 False@126 ",
    ),
    (
        b"fail when rows select map project rename union minus inter join group by count empty sum min max isfail bulk ins del",
        "Fail@0 When@5 Rows@10 Select@15 Map@22 Project@26 Rename@34 Union@41 Minus@47 Inter@53 Join@59 Group@64 By@70 Count@73 Empty@79 Sum@85 Min@89 Max@93 IsFail@97 Bulk@104 Ins@109 Del@113 ",
    ),
];

#[test]
fn scripts_are_cut_into_tokens(rt: HostRuntime) -> Result<(), Fail> {
    for (script, text) in SCRIPTS {
        reads(&rt, rt.alloc(), *script, *text)?;
    }
    Ok(())
}

/// Scripts, and for what and where each is refused.
const REFUSED: &[(&[u8], &str, u32)] = &[
    (b"/*/", "BadToken", 0),
    (b"1 /* a", "BadToken", 2),
    (b"9223372036854775808", "BadToken", 0),
    (b"\"\\q\"", "BadToken", 0),
    (b"1 \"a", "BadToken", 2),
    (b"\xff", "BadUtf8", 0),
    (b"a\xc3", "BadUtf8", 1),
    (b"1 ?", "BadToken", 2),
];

#[test]
fn scripts_are_refused_at_their_place(rt: HostRuntime) -> Result<(), Fail> {
    for (script, fault, at) in REFUSED {
        assert!(rt; told_of(rt.alloc(), *script) == (*fault, *at));
    }
    Ok(())
}

/// A script of as many bytes between two marks has these tokens.
fn row_reads(
    rt: &impl Abort,
    alloc: Global,
    mark: &[u8],
    byte: u8,
    n: usize,
    text: &str,
) -> Result<(), Fail> {
    let script = row_of(alloc, mark, byte, n, mark)?;
    let read = reads(rt, alloc, &script, text);
    drop(script);
    read
}

/// Scripts of as many bytes between two others, and what is told of each.
const LIMITS: &[(&[u8], u8, usize, &[u8], (&str, u32))] = &[
    (b"\"", b'a', 1024, b"\"", ("BadToken", 0)),
    (b" ", b'a', 256, b"", ("BadToken", 1)),
    (b")", b'(', 65, b"", ("TooDeep", 65)),
    (b"]", b'[', 64, b")]{", ("read", 0)),
];

#[test]
fn limits_are_kept(rt: HostRuntime) -> Result<(), Fail> {
    row_reads(&rt, rt.alloc(), b"\"", b'a', 1023, "t1023@0 ")?;
    row_reads(&rt, rt.alloc(), b"", b'a', 255, "i255@0 ")?;
    for (first, byte, n, last, told) in LIMITS {
        let script = row_of(rt.alloc(), *first, *byte, *n, *last)?;
        let found = told_of(rt.alloc(), &script);
        drop(script);
        assert!(rt; found == *told);
    }
    Ok(())
}
