//! Renumbering of statements.

ghost use Rattle.std.specs.Prelude.{◌≡◌, map};
ghost use Rattle.hera_meaning.specs.Plain.{command_of, block_in, arms_in, return_of, body_of};
ghost use Rattle.hera_rules.specs.Bound.{bound_command, bound_block, bound_arms, bound_body};

use crate::expressions::{bind_expr, bind_exprs};
use hera_meaning::{Arm, Body, Core, RelDecl, Stmt};
use hera_row::Catalogue;

/// Renumbers the relations of the value of a `return`.
fn bind_value(own: &[RelDecl], catalogue: &Catalogue, value: &mut Option<Core>)
    ensures { return_of value.new ≡ bound_command own.now catalogue.now (return_of value.old) }
{
    match value {
        Some(e) => bind_expr(own, catalogue, e),
        None => {}
    }
}

/// Renumbers the relations of a statement.
#[cycle(statement)]
#[tactic(auto, using(hera_meaning::proofs::PlainLaws::plain))]
fn bind_stmt(own: &[RelDecl], catalogue: &Catalogue, stmt: &mut Stmt)
    ensures { command_of stmt.new ≡ bound_command own.now catalogue.now (command_of stmt.old) }
{
    match stmt {
        Stmt::Set(_slot, e) => bind_expr(own, catalogue, e),
        Stmt::If(arms, other) => {
            bind_arms(own, catalogue, arms);
            bind_block(own, catalogue, other);
        }
        Stmt::While(cond, block) => {
            bind_expr(own, catalogue, cond);
            bind_block(own, catalogue, block);
        }
        Stmt::Foreach(_slot, of, block) => {
            bind_expr(own, catalogue, of);
            bind_block(own, catalogue, block);
        }
        Stmt::Print(e, _shape) => bind_expr(own, catalogue, e),
        Stmt::Apply(delta, _at) => bind_expr(own, catalogue, delta),
        Stmt::Commit(_label) => {}
        Stmt::Rollback => {}
        Stmt::Assert(cond, _at) => bind_expr(own, catalogue, cond),
        Stmt::Return(value) => bind_value(own, catalogue, value),
        Stmt::Call(_proc, args) => bind_exprs(own, catalogue, args),
    }
}

/// Renumbers the relations of a block.
#[cycle(statement)]
fn bind_block(own: &[RelDecl], catalogue: &Catalogue, block: &mut Vec<Stmt>)
    ensures { block_in block.new.items ≡ bound_block own.now catalogue.now (block_in block.old.items) }
{
    for i in 0..block.len() {
        bind_stmt(own, catalogue, &mut block[i]);
    }
}

/// Renumbers the relations of the arms of an `if`.
#[cycle(statement)]
fn bind_arms(own: &[RelDecl], catalogue: &Catalogue, arms: &mut Vec<Arm>)
    ensures { arms_in arms.new.items ≡ bound_arms own.now catalogue.now (arms_in arms.old.items) }
{
    for i in 0..arms.len() {
        let arm = &mut arms[i];
        bind_expr(own, catalogue, &mut arm.cond);
        bind_block(own, catalogue, &mut arm.block);
    }
}

/// Renumbers the relations of bodies.
pub fn bind_bodies(own: &[RelDecl], catalogue: &Catalogue, bodies: &mut Vec<Body>)
    ensures { map body_of bodies.new.items ≡ map (bound_body own.now catalogue.now) (map body_of bodies.old.items) }
{
    for i in 0..bodies.len() {
        bind_block(own, catalogue, &mut bodies[i].block);
    }
}
