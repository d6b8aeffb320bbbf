//! The notes of a script's code.
ghost use Rattle.std.specs.Prelude.{◌≡◌, ◌≤◌, List, length};
ghost use Rattle.hera_meaning.specs.Plain.{program_of};
ghost use Rattle.hera_rules.specs.Programs.{ElabScript};
ghost use Rattle.hera_rules.specs.ReadActs.{script_of};
ghost use Rattle.hera_syntax.specs.declared.token.Token.{Token};
ghost use Rattle.hera_syntax.specs.Tokens.{HaveValues, script_limit};
ghost use Rattle.hera_syntax.specs.Trees.{IsTextOf};

use hera_codegen::generate;
use hera_host::HostTable;
use hera_lexer::lex;
use hera_meaning::{Program, Shape};
use hera_parser::parse;
use hera_shapes::script_notes;
use hera_syntax::{SCRIPT_LIMIT, Tree};
use hera_typed::{BodyNote, Notes, SlotNote};
use hera_types::elaborate;
use std::alloc::Global;
use std::test::Fail;

/// The notes of a program's code.
fn notes_of_program(
    alloc: Global,
    tree: &Tree,
    hosts: &HostTable,
    program: &Program,
) -> Result<Notes, Fail>
    requires text { (tokens : List Token) × IsTextOf tree.now tokens × (length tokens ≤ script_limit) × HaveValues tokens }
    requires typed { ElabScript hosts.now.names (script_of tree.now) (program_of program.now) }
{
    let code = generate(alloc, program)?;
    Ok(script_notes(alloc, tree, hosts, program, &code)?)
}

/// The notes of a tree's code.
fn notes_of_tree(alloc: Global, tree: &Tree, hosts: &HostTable) -> Result<Notes, Fail>
    requires { (tokens : List Token) × IsTextOf tree.now tokens × (length tokens ≤ script_limit) × HaveValues tokens }
{
    let program = elaborate(alloc, tree, hosts)?;
    notes_of_program(alloc, tree, hosts, &program)
}

/// The notes of a script's code, none of a script that is too long.
fn notes_of(alloc: Global, script: &[u8], hosts: &HostTable) -> Result<Option<Notes>, Fail> {
    if script.len() > SCRIPT_LIMIT {
        return Ok(None);
    }
    let tokens = lex(alloc, script)?;
    let tree = parse(alloc, &tokens)?;
    Ok(Some(notes_of_tree(alloc, &tree, hosts)?))
}

/// The note of a slot of a body, by their numbers.
fn slot_of(bodies: &[BodyNote], body: usize, slot: usize) -> Option<&SlotNote> {
    match bodies.get(body) {
        Some(body) => body.slots.as_slice().get(slot),
        None => None,
    }
}

/// Whether the slot is there and holds ints.
fn holds_ints(bodies: &[BodyNote], body: usize, slot: usize) -> bool {
    match slot_of(bodies, body, slot) {
        Some(
            SlotNote {
                shape: Shape::Int,
                ..
            },
        ) => true,
        _ => false,
    }
}

/// Whether the slot is there and a walk into it gathers rows.
fn gathers_rows(bodies: &[BodyNote], body: usize, slot: usize) -> bool {
    match slot_of(bodies, body, slot) {
        Some(slot) => slot.gathers.is_some(),
        None => false,
    }
}

#[test]
fn a_scripts_code_is_noted(rt: HostRuntime) -> Result<(), Fail> {
    let alloc = rt.alloc();
    let script = b"relation R(a int); func int one(int unused) { return 1; } \
main { int n = one(2); foreach (t in R) { n = n + t.a; } print n; }";
    let Some(notes) = notes_of(alloc, script, &HostTable::new(alloc))? else {
        assert!(rt; false);
        return Ok(());
    };
    assert_eq!(rt; notes.bodies.len(), 2);
    assert!(rt; holds_ints(&notes.bodies, 0, 0));
    assert!(rt; gathers_rows(&notes.bodies, 0, 1));
    assert!(rt; holds_ints(&notes.bodies, 1, 0));
    assert!(rt; !holds_ints(&notes.bodies, 1, 1));
    Ok(())
}
