//! The top call: its words, its sources that fail, and its output that fails.
use hera_causes::{MemSource, Piece};
use hera_host::HostTable;
use hera_top::{files_of, folder_of, hera};
use hera_volume::MemOutside;
use std::alloc::{AllocError, Global};
use std::process::Abort;
use std::test::Fail;

/// The words as the command line gives them.
fn words_in(alloc: Global, line: &[&str]) -> Result<Vec<String>, AllocError> {
    let mut words = Vec::new(alloc);
    for word in line {
        words.push(String::from_str(alloc, *word)?)?;
    }
    Ok(words)
}

/// A source of this script whose first reads follow the pieces.
fn source_of(alloc: Global, script: &[u8], pieces: &[Piece]) -> Result<Vec<MemSource>, AllocError> {
    let mut sources = Vec::new(alloc);
    sources.push(MemSource::new(script.to_vec(alloc)?, pieces.to_vec(alloc)?))?;
    Ok(sources)
}

/// Calls with these words, over empty files and an output whose first emissions follow the pieces, and compares what was
/// emitted and the status.
fn check(
    rt: &impl Abort,
    alloc: Global,
    words: &Vec<String>,
    sources: &mut Vec<MemSource>,
    pieces: Vec<Piece>,
    output: &[u8],
    status: u8,
) {
    let (first, last) = files_of(words);
    assert!(rt; first < 4);
    assert!(rt; sources.len() + first == last);
    let mut outside = MemOutside::new(alloc, Vec::new(alloc), None, pieces);
    let answer = hera(alloc, words, sources, &mut outside, &HostTable::new(alloc));
    assert_eq!(rt; outside.bytes(), output);
    assert_eq!(rt; answer, status);
    assert_eq!(rt; outside.calls(), 0);
}

#[test]
fn bytes_are_refused_before_tokens(rt: HostRuntime) -> Result<(), Fail> {
    let alloc = rt.alloc();
    let words = words_in(alloc, &["check", "f"])?;
    let cases: [(usize, u8, &[u8], u8); 3] = [
        (1, 0xff, b"refused BadUtf8 at 0\n", 3),
        (1_048_577, b' ', b"refused TooLong at 1048576\n", 3),
        (1_048_576, b' ', b"accepted\n", 0),
    ];
    for (count, byte, output, status) in cases {
        let script = vec![in alloc; byte; count]?;
        let mut sources = source_of(alloc, &script, &[])?;
        check(
            &rt,
            alloc,
            &words,
            &mut sources,
            Vec::new(alloc),
            output,
            status,
        );
    }
    Ok(())
}

/// The code file of `main { print 14; print 15; }`.
const CODE: &[u8] =
    b"HERACODE\0\0\0\0\0\x01\0\0\0\0\0\0\0\0\0\0\0\0\0\0\0\0\0\x05\0\0\x80\0\0\0\0\0\0\x0e\x14\0\0\0\x80\0\0\0\0\0\0\x0f\x14\0\x19";

const SCRIPT: &[u8] = b"main { print 14; print 15; }";

#[test]
fn an_output_that_fails_ends_the_call(rt: HostRuntime) -> Result<(), Fail> {
    let alloc = rt.alloc();
    let eval: &[&str] = &["eval", "100", "f"];
    let exec: &[&str] = &["exec", "100", "f"];
    let pack: &[&str] = &["pack", "f"];
    let at_the_second: &[Piece] = &[Piece::Take(3), Piece::Take(1), Piece::Fail];
    let cases: [(&[&str], &[u8], &[Piece], &[u8], u8); 5] = [
        (eval, SCRIPT, &[Piece::Take(1), Piece::Fail], b"1", 8),
        (eval, SCRIPT, at_the_second, b"14\n1", 8),
        (exec, CODE, at_the_second, b"14\n1", 8),
        (pack, SCRIPT, &[Piece::Take(4), Piece::Fail], b"HERA", 8),
        (pack, SCRIPT, &[], CODE, 0),
    ];
    for (line, text, emissions, output, status) in cases {
        let words = words_in(alloc, line)?;
        let mut sources = source_of(alloc, text, &[])?;
        check(
            &rt,
            alloc,
            &words,
            &mut sources,
            emissions.to_vec(alloc)?,
            output,
            status,
        );
    }
    Ok(())
}

#[test]
fn a_source_that_fails_ends_the_call(rt: HostRuntime) -> Result<(), Fail> {
    let alloc = rt.alloc();
    let cases: [(&[&str], &[u8]); 3] = [
        (&["eval", "100", "f"], SCRIPT),
        (&["exec", "100", "f"], CODE),
        (&["pack", "f"], SCRIPT),
    ];
    for (line, text) in cases {
        let words = words_in(alloc, line)?;
        let mut sources = source_of(alloc, text, &[Piece::Fail])?;
        check(
            &rt,
            alloc,
            &words,
            &mut sources,
            Vec::new(alloc),
            b"script unread\n",
            7,
        );
    }
    Ok(())
}

#[test]
fn a_file_is_read_before_all_else(rt: HostRuntime) -> Result<(), Fail> {
    let alloc = rt.alloc();
    let import: &[&str] = &["import", "d", "R", "f"];
    let exec: &[&str] = &["exec", "1", "f"];
    let cases: [(&[&str], usize, &[Piece], &[u8], u8); 5] = [
        (import, 67_108_865, &[], b"refused TooLong at 67108864\n", 3),
        (
            import,
            7,
            &[Piece::Take(1), Piece::Fail],
            b"script unread\n",
            7,
        ),
        (exec, 16_777_217, &[], b"refused TooLong at 16777216\n", 3),
        (exec, 16_777_216, &[], b"refused BadCode at 0\n", 3),
        (
            exec,
            7,
            &[Piece::Take(1), Piece::Fail],
            b"script unread\n",
            7,
        ),
    ];
    for (line, count, reads, output, status) in cases {
        let words = words_in(alloc, line)?;
        let file = vec![in alloc; b'1'; count]?;
        let mut sources = source_of(alloc, &file, reads)?;
        check(
            &rt,
            alloc,
            &words,
            &mut sources,
            Vec::new(alloc),
            output,
            status,
        );
    }
    Ok(())
}

#[test]
fn the_words_of_a_folder_have_a_place(rt: HostRuntime) -> Result<(), Fail> {
    let alloc = rt.alloc();
    let cases: [(&[&str], Option<usize>, (usize, usize)); 8] = [
        (&["run", "d", "1", "f"], Some(1), (3, 4)),
        (&["init", "d", "f"], Some(1), (2, 3)),
        (&["dump", "d"], Some(1), (0, 0)),
        (&["checkpoint", "d"], Some(1), (0, 0)),
        (&["eval", "1", "f"], None, (2, 3)),
        (&["pack", "f"], None, (1, 2)),
        (&["exec", "1", "f"], None, (2, 3)),
        (&["dump", "d", "f"], None, (0, 0)),
    ];
    for (line, folder, files) in cases {
        let words = words_in(alloc, line)?;
        assert_eq!(rt; folder_of(&words), folder);
        assert_eq!(rt; files_of(&words), files);
    }
    Ok(())
}
