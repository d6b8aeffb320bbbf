//! Scripts of guard lines.
use hera_guarded::read_rules;
use hera_script::{Cause, ScriptFault};
use hera_syntax::SCRIPT_LIMIT;
use std::alloc::Global;
use std::test::Fail;

/// How many lines a script has, or why it is refused and where, if that is not for want of memory.
fn read(alloc: Global, script: &[u8]) -> Result<usize, Option<(Cause, u32)>> {
    if script.len() > SCRIPT_LIMIT {
        return Err(Some((Cause::TooLong, SCRIPT_LIMIT as u32)));
    }
    match read_rules(alloc, script) {
        Ok(lines) => Ok(lines.items().len()),
        Err(ScriptFault::Refused { cause, at }) => Err(Some((cause, at))),
        Err(ScriptFault::Memory) => Err(None),
    }
}

#[test]
fn rules_are_lines_or_refused_at_the_first_fault(rt: HostRuntime) -> Result<(), Fail> {
    let alloc = rt.alloc();
    let deep = [b'('; 65];
    for (script, answer) in [
        (b"".as_slice(), Ok(0)),
        (b"// no guard\n", Ok(0)),
        (b"R.a: band; // both\nT.t: is_sku;", Ok(2)),
        (b"R.a: \xFFband;", Err(Some((Cause::BadUtf8, 5)))),
        (b"R.a; #", Err(Some((Cause::BadToken, 5)))),
        (&deep, Err(Some((Cause::TooDeep, 64)))),
        (b"R.a: band; R.a band;", Err(Some((Cause::Syntax, 15)))),
        (b"R.a: band", Err(Some((Cause::Syntax, 9)))),
    ] {
        assert!(rt; read(alloc, script) == answer);
    }
    Ok(())
}
