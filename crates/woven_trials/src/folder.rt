//! Scripts woven over a folder without rows, in the orders that numbers tell.
ghost use Rattle.std.specs.Prelude.{IfOk};
ghost use Rattle.hera_host.specs.Tables.{specs_of};
ghost use Rattle.hera_meaning.specs.Plain.{program_of};
ghost use Rattle.hera_meaning.specs.Sound.{Sound};

use crate::samples::catalogue_of;
use hera_host::HostTable;
use hera_meaning::{Kind, Program};
use hera_outcome::Ending;
use hera_script::read_program;
use hera_store::init_store;
use hera_volume::MemOutside;
use hera_woven::weave_in_folder;
use std::alloc::Global;
use std::test::Fail;

/// A script's program.
fn program(alloc: Global, script: &str, hosts: &HostTable) -> Result<Program, Fail>
    ensures { IfOk result (λ p. Sound (program_of p) (specs_of hosts.now.names)) }
{
    let bytes = script.as_bytes();
    if bytes.len() > 1_048_576 {
        return Err(Fail::new("a script is too long"));
    }
    Ok(read_program(alloc, bytes, hosts)?)
}

/// A folder with the empty relations R(a int) and S(a int).
fn folder(alloc: Global) -> Result<MemOutside, Fail> {
    let mut outside = MemOutside::new(alloc, Vec::new(alloc), None, Vec::new(alloc));
    let catalogue = catalogue_of(alloc, &[("R", Kind::Int), ("S", Kind::Int)])?;
    match init_store(alloc, &mut outside, &catalogue) {
        Ok(()) => Ok(outside),
        Err(_) => Err(Fail::new("no database was made")),
    }
}

/// What two scripts print that are woven in the order that the number tells.
fn woven(alloc: Global, first: &str, second: &str, order: u64) -> Result<Vec<u8>, Fail> {
    let hosts = HostTable::new(alloc);
    let mut outside = folder(alloc)?;
    let mut programs = Vec::new(alloc);
    programs.push(program(alloc, first, &hosts)?)?;
    programs.push(program(alloc, second, &hosts)?)?;
    match weave_in_folder(alloc, programs, 100, order, &mut outside, &hosts) {
        Ok(Ending::Done) => Ok(outside.bytes().to_vec(alloc)?),
        _ => Err(Fail::new("the weave is not done")),
    }
}

/// Who commits after a relation that it read was touched meets a conflict; else each commits, in the order of the ends.
#[test]
fn sessions_commit_or_meet_a_conflict(rt: HostRuntime) -> Result<(), Fail> {
    let alloc = rt.alloc();
    let adds_one = "relation R(a int); relation S(a int); main { apply {+R(1)}; commit; }";
    let adds_two = "relation R(a int); relation S(a int); main { apply {+R(2)}; commit; }";
    let counts =
        "relation R(a int); relation S(a int); main { int c = count(R); apply {+S(c)}; commit; }";
    let reads = "relation S(a int); relation R(a int); main { print count(R); print count(S); }";
    let both: &[u8] = b"session 0\ncommit 1\nsession 1\ncommit 1\n";
    let swapped: &[u8] = b"session 1\ncommit 1\nsession 0\ncommit 1\n";
    let conflict: &[u8] = b"session 0\ncommit 1\nsession 1\nconflict with commit 1\n";
    let cases: [(&str, &str, u64, &[u8]); 7] = [
        (adds_one, adds_two, 2, both),
        (adds_one, counts, 2, conflict),
        (adds_one, counts, 1, swapped),
        (adds_one, counts, 0, both),
        (
            adds_one,
            reads,
            2,
            b"session 0\ncommit 1\nsession 1\n0\n0\n",
        ),
        (
            adds_one,
            reads,
            0,
            b"session 0\ncommit 1\nsession 1\n1\n0\n",
        ),
        (counts, reads, 0, b"session 0\ncommit 1\nsession 1\n0\n1\n"),
    ];
    for (first, second, order, expected) in cases {
        let text = woven(alloc, first, second, order)?;
        assert_eq!(rt; text.as_slice(), expected);
    }
    Ok(())
}
