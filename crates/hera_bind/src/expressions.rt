//! Renumbering of expressions.

ghost use Rattle.std.specs.Prelude.{◌≡◌};
ghost use Rattle.hera_meaning.specs.Plain.{expr_of, exprs_in, links_in, hypos_in};
ghost use Rattle.hera_rules.specs.Bound.{bound_expr, bound_exprs, bound_links, bound_hypos};

use crate::numbers::{bind_op, number_of};
use hera_meaning::{Core, Hypo, Link, RelDecl};
use hera_row::Catalogue;

/// Renumbers the relations of an expression.
#[cycle(expression)]
#[tactic(auto, using(hera_meaning::proofs::PlainLaws::plain))]
pub fn bind_expr(own: &[RelDecl], catalogue: &Catalogue, e: &mut Core)
    ensures { expr_of e.new ≡ bound_expr own.now catalogue.now (expr_of e.old) }
{
    match e {
        Core::Const(_) | Core::Local(_) => {}
        Core::Rel(rel) => *rel = number_of(own, catalogue, *rel),
        Core::Prim(op, args, _at) => {
            bind_op(own, catalogue, op);
            bind_exprs(own, catalogue, args);
        }
        Core::Chain(first, links) => {
            bind_box(own, catalogue, first);
            bind_links(own, catalogue, links);
        }
        Core::And(args) => bind_exprs(own, catalogue, args),
        Core::Or(args) => bind_exprs(own, catalogue, args),
        Core::When(body, hypos) => {
            bind_box(own, catalogue, body);
            bind_hypos(own, catalogue, hypos);
        }
        Core::Select(_slot, of, body) => {
            bind_box(own, catalogue, of);
            bind_box(own, catalogue, body);
        }
        Core::Map(_slot, of, body) => {
            bind_box(own, catalogue, of);
            bind_box(own, catalogue, body);
        }
        Core::Call(_func, args) => bind_exprs(own, catalogue, args),
        Core::Host(_host, args) => bind_exprs(own, catalogue, args),
    }
}

/// Renumbers the relations of an expression in a box.
#[cycle(expression)]
fn bind_box(own: &[RelDecl], catalogue: &Catalogue, e: &mut Box<Core>)
    ensures { expr_of e.new.value ≡ bound_expr own.now catalogue.now (expr_of e.old.value) }
{
    bind_expr(own, catalogue, e);
}

/// Renumbers the relations of expressions.
#[cycle(expression)]
pub fn bind_exprs(own: &[RelDecl], catalogue: &Catalogue, args: &mut Vec<Core>)
    ensures { exprs_in args.new.items ≡ bound_exprs own.now catalogue.now (exprs_in args.old.items) }
{
    for i in 0..args.len() {
        bind_expr(own, catalogue, &mut args[i]);
    }
}

/// Renumbers the relations of the links of a chain.
#[cycle(expression)]
fn bind_links(own: &[RelDecl], catalogue: &Catalogue, links: &mut Vec<Link>)
    ensures { links_in links.new.items ≡ bound_links own.now catalogue.now (links_in links.old.items) }
{
    for i in 0..links.len() {
        let link = &mut links[i];
        bind_op(own, catalogue, &mut link.op);
        bind_expr(own, catalogue, &mut link.arg);
    }
}

/// Renumbers the relations of the deltas of a `when`.
#[cycle(expression)]
fn bind_hypos(own: &[RelDecl], catalogue: &Catalogue, hypos: &mut Vec<Hypo>)
    ensures { hypos_in hypos.new.items ≡ bound_hypos own.now catalogue.now (hypos_in hypos.old.items) }
{
    for i in 0..hypos.len() {
        bind_expr(own, catalogue, &mut hypos[i].delta);
    }
}
