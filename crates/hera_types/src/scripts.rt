//! The four passes over a script.

ghost use Rattle.std.specs.Prelude.{◌≡◌, ◌≤◌, ◌⊎◌, ◌∷◌, List, Err, IfOk, OnOk, length};
ghost use Rattle.hera_host.specs.Tables.{specs_of};
ghost use Rattle.hera_meaning.specs.Plain.{program_of};
ghost use Rattle.hera_meaning.specs.Sound.{Sound};
ghost use Rattle.hera_rules.specs.Agrees.{Gives};
ghost use Rattle.hera_rules.specs.CheckedScripts.{check_script};
ghost use Rattle.hera_rules.specs.Programs.{ElabScript, FirstFault};
ghost use Rattle.hera_rules.specs.ReadActs.{script_of};
ghost use Rattle.hera_rules.specs.declared.fault.TypeFault.{TypeFault};
ghost use Rattle.hera_syntax.specs.Tokens.{HaveValues, script_limit};
ghost use Rattle.hera_syntax.specs.Trees.{IsTextOf};
ghost use Rattle.hera_syntax.specs.declared.token.Token.{Token};

use crate::bodies::{func_bodies, main_body, proc_bodies};
use hera_host::{HostNames, HostTable};
use hera_meaning::{Body, Program};
use hera_rules::TypeFault;
use hera_sound::typed_programs_are_sound;
use hera_syntax::Tree;
use hera_types_globals::globals_of;
use std::alloc::{AllocError, Global};

/// The program of a script, or its first fault in the order of checking.
///
/// The relations are checked first, then the names of funcs and procs, then their signatures, then the bodies
/// with main last, each in the order of the text. `Memory` tells nothing of the script.
pub fn elaborate(alloc: Global, tree: &Tree, hosts: &HostTable) -> Result<Program, TypeFault>
    requires { (tokens : List Token) × IsTextOf tree.now tokens × (length tokens ≤ script_limit) × HaveValues tokens }
    ensures typed { IfOk result (λ p. ElabScript hosts.now.names (script_of tree.now) (program_of p)) }
    ensures sound { IfOk result (λ p. Sound (program_of p) (specs_of hosts.now.names)) }
    ensures fault { (fault : TypeFault) → result ≡ Err fault → (fault ≡ TypeFault.Memory) ⊎ FirstFault hosts.now.names (script_of tree.now) fault }
{
    let _count = hosts.len();
    typed_programs_are_sound();
    checked(alloc, tree, &hosts.names)
}

/// The four passes.
fn checked(alloc: Global, tree: &Tree, hosts: &HostNames) -> Result<Program, TypeFault>
    ensures { Gives program_of result (check_script hosts.now (script_of tree.now)) }
{
    let globals = globals_of(alloc, tree, hosts)?;
    let funcs = func_bodies(alloc, &globals, globals.funcs(), &tree.funcs)?;
    let mut bodies = proc_bodies(alloc, &globals, globals.procs(), funcs, &tree.procs)?;
    let main = main_body(alloc, &globals, &tree.main)?;
    put_first(&mut bodies, main)?;
    let relations = globals.into_relations().into_decls();
    Ok(Program { relations, bodies })
}

/// A body more, in front of these.
fn put_first(bodies: &mut Vec<Body>, body: Body) -> Result<(), AllocError>
    ensures { OnOk result (bodies.new.items ≡ body ∷ bodies.old.items) }
{
    bodies.insert(0, body)?;
    Ok(())
}
