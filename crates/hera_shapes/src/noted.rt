//! The notes of the code of a script.

ghost use Rattle.std.specs.Prelude.{◌≡◌, ◌≤◌, List, length, IfOk};
ghost use Rattle.hera_code.specs.Scheme.{code_of};
ghost use Rattle.hera_host.specs.Tables.{specs_of};
ghost use Rattle.hera_meaning.specs.Plain.{program_of};
ghost use Rattle.hera_rules.specs.Programs.{ElabScript};
ghost use Rattle.hera_rules.specs.ReadActs.{script_of};
ghost use Rattle.hera_syntax.specs.declared.token.Token.{Token};
ghost use Rattle.hera_syntax.specs.Tokens.{HaveValues, script_limit};
ghost use Rattle.hera_syntax.specs.Trees.{IsTextOf};
ghost use Rattle.hera_typed.specs.Notes.{notes_of};
ghost use Rattle.hera_typed.specs.Typed.{IsTyped, NotesFit, Points};

use crate::bodies::shapes;
use hera_code::Code;
use hera_host::HostTable;
use hera_meaning::Program;
use hera_noted::notes;
use hera_syntax::Tree;
use hera_typed::Notes;
use std::alloc::{AllocError, Global};

/// The notes of the code of a script that `elaborate` accepts, with the shapes of its bodies.
///
/// - `fit`: they are as many as the bodies and their slots.
/// - `typed`: with them the code is typed code, over the relations and these hosts. So it is safe, by
///   `typed_code_is_safe`.
pub fn script_notes(
    alloc: Global,
    tree: &Tree,
    hosts: &HostTable,
    program: &Program,
    code: &Code,
) -> Result<Notes, AllocError>
    requires text { (tokens : List Token) × IsTextOf tree.now tokens × (length tokens ≤ script_limit) × HaveValues tokens }
    requires typed { ElabScript hosts.now.names (script_of tree.now) (program_of program.now) }
    requires code { code.now ≡ code_of (program_of program.now) }
    ensures fit { IfOk result (λ notes. NotesFit code.now (notes_of notes)) }
    ensures typed { IfOk result (λ notes. (points : Points) × IsTyped code.now (program_of program.now).relations (specs_of hosts.now.names) (notes_of notes) points) }
{
    let found = shapes(alloc, tree, hosts)?;
    notes(alloc, program, code, &found)
}
