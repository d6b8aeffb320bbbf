//! The drill: a script made from a number.
ghost use Rattle.std.specs.Prelude.{◌≡◌, ◌≤◌, IfOk, length};
ghost use Rattle.hera_syntax.specs.Tokens.{script_limit};
ghost use Rattle.hera_top.specs.Drill.{drill_text};

use hera_meaning::writing::{put, put_number};
use std::alloc::{AllocError, Global};

/// The most turns of a drill.
pub(crate) const DRILL_TURNS: u64 = 1_000_000;

/// The script of the drill over so many rows.
pub(crate) fn drill_text(alloc: Global, count: u64) -> Result<Vec<u8>, AllocError>
    ensures text { IfOk result (λ text. text.items ≡ drill_text count) }
    ensures short { IfOk result (λ text. length text.items ≤ script_limit) }
{
    let n = u128::from(count);
    let mut text = Vec::new(alloc);
    put(
        &mut text,
        b"relation P(k int, v int);\nmain {\n  int i = 0;\n  while (i < ",
    )?;
    put_number(&mut text, n)?;
    put(
        &mut text,
        b") { apply {+P(i, i * 7 % 11)}; i = i + 1; }\n  commit;\n  delta low = bulk(-P, select(t in P : t.v < 5));\n  delta add = bulk(+P, map(t in P : [k = t.k + ",
    )?;
    put_number(&mut text, n)?;
    put(
        &mut text,
        b", v = t.v]));\n  print count(P);\n  print sum(P, v);\n  print count(P) when low;\n  print count(P) when low ! add;\n  print count(P) when bulk(+P, map(t in P : [k = t.k + ",
    )?;
    put_number(&mut text, n)?;
    put(&mut text, b", v = t.v])) when low;\n}\n")?;
    Ok(text)
}
