//! Code files of scripts, written.
ghost use Rattle.std.specs.Prelude.{◌≡◌, ◌≤◌, List, length, IfOk};
ghost use Rattle.hera_code.specs.Scheme.{code_of};
ghost use Rattle.hera_code_file.specs.Files.{AreNoted, file_of};
ghost use Rattle.hera_host.specs.Tables.{specs_of};
ghost use Rattle.hera_meaning.specs.Catalogues.{IsCatalogue};
ghost use Rattle.hera_meaning.specs.Plain.{program_of};
ghost use Rattle.hera_meaning.specs.Sound.{Sound};
ghost use Rattle.hera_rules.specs.Programs.{ElabScript};
ghost use Rattle.hera_rules.specs.ReadActs.{script_of};
ghost use Rattle.hera_syntax.specs.declared.token.Token.{Token};
ghost use Rattle.hera_syntax.specs.Tokens.{HaveValues, script_limit};
ghost use Rattle.hera_syntax.specs.Trees.{IsTextOf};
ghost use Rattle.hera_packed.specs.Packed.{IsFileOf, IsPackOf};

use crate::standing::{instrs_stand, notes_stand};
use hera_code::Code;
use hera_code_writer::write_code;
use hera_codegen::generate;
use hera_host::HostTable;
use hera_meaning::{Line, Program, RelDecl};
use hera_shapes::script_notes;
use hera_syntax::Tree;
use hera_typed::Notes;
use std::alloc::{AllocError, Global};

/// The code file of code over these relations, and of its notes.
fn write(
    alloc: Global,
    relations: &[RelDecl],
    code: &Code,
    notes: &Notes,
) -> Result<Line, AllocError>
    requires catalogue { IsCatalogue relations.now }
    requires noted { AreNoted code.now.bodies notes.now.bodies.items }
    ensures { IfOk result (λ line. IsFileOf line (file_of relations.now code.now notes.now)) }
{
    if instrs_stand(&code.instrs) && notes_stand(&notes.bodies) {
        write_code(alloc, relations, code, notes)
    } else {
        Err(AllocError)
    }
}

/// The code file of a script's code, with notes of it.
fn pack(
    alloc: Global,
    tree: &Tree,
    hosts: &HostTable,
    program: &Program,
    code: &Code,
) -> Result<Line, AllocError>
    requires text { (tokens : List Token) × IsTextOf tree.now tokens × (length tokens ≤ script_limit) × HaveValues tokens }
    requires typed { ElabScript hosts.now.names (script_of tree.now) (program_of program.now) }
    requires sound { Sound (program_of program.now) (specs_of hosts.now.names) }
    requires code { code.now ≡ code_of (program_of program.now) }
    ensures { IfOk result (λ line. IsPackOf (specs_of hosts.now.names) (program_of program.now) line) }
{
    let notes = script_notes(alloc, tree, hosts, program, code)?;
    write(alloc, &program.relations, code, &notes)
}

/// A code file of a script that `elaborate` accepts: its relations and its code, with notes with which that is typed code.
pub fn pack_script(
    alloc: Global,
    tree: &Tree,
    hosts: &HostTable,
    program: &Program,
) -> Result<Line, AllocError>
    requires text { (tokens : List Token) × IsTextOf tree.now tokens × (length tokens ≤ script_limit) × HaveValues tokens }
    requires typed { ElabScript hosts.now.names (script_of tree.now) (program_of program.now) }
    requires sound { Sound (program_of program.now) (specs_of hosts.now.names) }
    ensures packed { IfOk result (λ line. IsPackOf (specs_of hosts.now.names) (program_of program.now) line) }
{
    let code = generate(alloc, program)?;
    pack(alloc, tree, hosts, program, &code)
}
