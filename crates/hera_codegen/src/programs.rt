//! The code of a program.

ghost use Rattle.std.specs.Prelude.{◌≡◌, length, IfOk};
ghost use Rattle.hera_meaning.specs.Addresses.{size_of};
ghost use Rattle.hera_meaning.specs.Hosts.{Hosts};
ghost use Rattle.hera_meaning.specs.Plain.{program_of};
ghost use Rattle.hera_meaning.specs.Sound.{Sound};
ghost use Rattle.hera_code.specs.Forward.{Forward};
ghost use Rattle.hera_code.specs.Listing.{IsListable};
ghost use Rattle.hera_code.specs.Scheme.{code_of};
ghost use Rattle.hera_codegen.specs.Roles.{role_is, body_role};

use crate::patches::here;
use crate::statements::{Role, emit_body};
use hera_code::{Bodies, BodyInfo, Code, Instrs};
use hera_meaning::Program;
use std::alloc::{AllocError, Global};

/// The code of a program: main at address 0, then the funcs and procs in their order. Its jumps go forward
/// but for the ways back of loops, and it has as many instructions as the program's phrases say, and of a sound
/// program it can be listed.
pub fn generate(alloc: Global, program: &Program) -> Result<Code, AllocError>
    ensures code { IfOk result (λ code. code ≡ code_of (program_of program.now)) }
    ensures forward { IfOk result (λ code. Forward code) }
    ensures size { IfOk result (λ code. length code.instrs ≡ size_of (program_of program.now)) }
    ensures listable { (hosts : Hosts) → Sound (program_of program.now) hosts → IfOk result (λ code. IsListable code) }
{
    emit_program(alloc, program)
}

fn emit_program(alloc: Global, program: &Program) -> Result<Code, AllocError>
    ensures { IfOk result (λ code. code ≡ code_of (program_of program.now)) }
{
    let mut instrs = Vec::new(alloc);
    let mut bodies = Vec::new(alloc);
    for (k, body) in program.bodies.iter().enumerate() {
        bodies.push(BodyInfo {
            at: here(&instrs)?,
            params: body.params,
            slots: body.slots,
            func: body.func,
        })?;
        emit_body(&mut instrs, role_at(k, body.func), &body.block)?;
    }
    Ok(Code {
        instrs: Instrs::new(instrs),
        bodies: Bodies::new(bodies),
    })
}

/// The role of body k.
fn role_at(k: usize, func: bool) -> Role
    ensures { role_is result ≡ body_role k func }
{
    if k == 0 {
        Role::Main
    } else if func {
        Role::Func
    } else {
        Role::Proc
    }
}
