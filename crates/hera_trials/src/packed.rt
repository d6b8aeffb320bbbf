//! A script, packed, and its file opened.
ghost use Rattle.std.specs.Prelude.{◌≡◌, ◌≤◌, List, length};
ghost use Rattle.hera_host.specs.Tables.{specs_of};
ghost use Rattle.hera_meaning.specs.Plain.{program_of};
ghost use Rattle.hera_meaning.specs.Sound.{Sound};
ghost use Rattle.hera_rules.specs.Programs.{ElabScript};
ghost use Rattle.hera_rules.specs.ReadActs.{script_of};
ghost use Rattle.hera_syntax.specs.declared.token.Token.{Token};
ghost use Rattle.hera_syntax.specs.Tokens.{HaveValues, script_limit};
ghost use Rattle.hera_syntax.specs.Trees.{IsTextOf};

use crate::code_file::{FILE, spoiled};
use hera_host::HostTable;
use hera_meaning::{Line, Program};
use hera_packed::{OpenFault, open_code, pack_script};
use hera_script::read_script;
use hera_syntax::{SCRIPT_LIMIT, Tree};
use std::alloc::Global;
use std::test::Fail;

/// The code file of an accepted script.
fn packed_tree(
    alloc: Global,
    tree: &Tree,
    hosts: &HostTable,
    program: &Program,
) -> Result<Line, Fail>
    requires text { (tokens : List Token) × IsTextOf tree.now tokens × (length tokens ≤ script_limit) × HaveValues tokens }
    requires typed { ElabScript hosts.now.names (script_of tree.now) (program_of program.now) }
    requires sound { Sound (program_of program.now) (specs_of hosts.now.names) }
{
    Ok(pack_script(alloc, tree, hosts, program)?)
}

/// The code file of a script, none of one that is refused.
fn packed(alloc: Global, script: &[u8], hosts: &HostTable) -> Result<Option<Line>, Fail> {
    if script.len() > SCRIPT_LIMIT {
        return Ok(None);
    }
    match read_script(alloc, script, hosts) {
        Ok((tree, program)) => {
            let line = packed_tree(alloc, &tree, hosts, &program);
            drop(tree);
            drop(program);
            Ok(Some(line?))
        }
        Err(_) => Ok(None),
    }
}

/// What comes of opening the bytes: how many instructions they tell, or the place of the fault.
#[derive(Clone, Copy, PartialEq, Eq, Debug)]
enum Answer {
    Instructions(usize),
    BadCode(u64),
    Rejected(u32),
}

/// Opens the bytes over no hosts.
fn opened(alloc: Global, bytes: &[u8]) -> Result<Answer, Fail> {
    match open_code(alloc, bytes, &HostTable::new(alloc)) {
        Ok(file) => Ok(Answer::Instructions(file.code.instrs.len())),
        Err(OpenFault::BadCode { at }) => Ok(Answer::BadCode(at)),
        Err(OpenFault::Rejected { at }) => Ok(Answer::Rejected(at)),
        Err(OpenFault::Memory) => Err("memory ran out".into()),
    }
}

#[test]
fn a_packed_script_is_opened(rt: HostRuntime) -> Result<(), Fail> {
    let alloc = rt.alloc();
    let Some(line) = packed(alloc, b"main { print 2 + 3 * 4; }", &HostTable::new(alloc))? else {
        return Err("the script is accepted".into());
    };
    assert_eq!(rt; line.bytes(), FILE.as_slice());
    assert_eq!(rt; opened(alloc, line.bytes())?, Answer::Instructions(7));
    let not_in_place_of_mul = spoiled(alloc, 63, 1)?;
    assert_eq!(rt; opened(alloc, &not_in_place_of_mul)?, Answer::Rejected(3));
    let no_operation = spoiled(alloc, 63, 35)?;
    assert_eq!(rt; opened(alloc, &no_operation)?, Answer::BadCode(63));
    Ok(())
}
