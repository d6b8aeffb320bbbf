//! Two bindings to a catalogue of R and S.
use crate::samples::{add_int, schema_of};
use hera_bind::{BindFault, bind};
use hera_meaning::{Body, Core, Kind, Program, RelDecl, RelId, Shape, Stmt, Text};
use hera_row::Catalogue;
use std::alloc::Global;
use std::test::Fail;

/// `relation NAME(a KIND);`
fn relations_of(alloc: Global, name: &[u8], kind: Kind) -> Result<Vec<RelDecl>, Fail> {
    let schema = schema_of(alloc, &[("a", kind)])?;
    match Text::new(alloc, name) {
        Ok(name) => Ok(vec![in alloc; RelDecl { name, schema }]?),
        Err(e) => {
            drop(schema);
            Err(e.into())
        }
    }
}

/// The bodies of `main { print NAME; }`, where NAME is the first relation and has one attribute.
fn bodies_of(alloc: Global, kind: Kind) -> Result<Vec<Body>, Fail> {
    let shape = Shape::Rel(schema_of(alloc, &[("a", kind)])?);
    let block = vec![in alloc; Stmt::Print(Core::Rel(RelId(0)), shape)]?;
    let body = Body {
        params: 0,
        slots: 0,
        func: false,
        block,
    };
    Ok(vec![in alloc; body]?)
}

/// `relation NAME(a KIND); main { print NAME; }`
fn printing(alloc: Global, name: &[u8], kind: Kind) -> Result<Program, Fail> {
    let relations = relations_of(alloc, name, kind)?;
    match bodies_of(alloc, kind) {
        Ok(bodies) => Ok(Program { relations, bodies }),
        Err(e) => {
            drop(relations);
            Err(e)
        }
    }
}

/// The number of the relation that main prints first.
fn printed(program: &Program) -> Option<RelId> {
    match program.bodies.first()?.block.first()? {
        Stmt::Print(Core::Rel(rel), _) => Some(*rel),
        _ => None,
    }
}

/// The program that prints a relation of this name and kind, bound to the catalogue.
fn bound(
    alloc: Global,
    catalogue: &Catalogue,
    name: &[u8],
    kind: Kind,
) -> Result<Result<Program, BindFault>, Fail> {
    let program = printing(alloc, name, kind)?;
    Ok(bind(alloc, program, catalogue))
}

/// Whether a relation of this name differs.
fn differs_at(bound: &Result<Program, BindFault>, name: &[u8]) -> bool {
    match bound {
        Err(BindFault::Differs { relation }) => relation.bytes() == name,
        _ => false,
    }
}

/// `relation R(a int); relation S(a int);`
fn catalogue_of(alloc: Global) -> Result<Catalogue, Fail> {
    let mut catalogue = Catalogue::new(alloc);
    match add_both(alloc, &mut catalogue) {
        Ok(()) => Ok(catalogue),
        Err(e) => {
            drop(catalogue);
            Err(e)
        }
    }
}

/// Adds R and S to the catalogue.
fn add_both(alloc: Global, catalogue: &mut Catalogue) -> Result<(), Fail> {
    for name in [b"R", b"S"] {
        let _number = add_int(alloc, catalogue, name)?;
    }
    Ok(())
}

#[test]
fn a_relation_gets_its_number_by_name(rt: HostRuntime) -> Result<(), Fail> {
    let catalogue = catalogue_of(rt.alloc())?;
    let bound = bound(rt.alloc(), &catalogue, b"S", Kind::Int);
    drop(catalogue);
    let program = bound??;
    let count = program.relations.len();
    let first = printed(&program);
    drop(program);
    assert!(rt; count == 2 && first == Some(RelId(1)));
    Ok(())
}

#[test]
fn a_relation_of_another_schema_differs(rt: HostRuntime) -> Result<(), Fail> {
    let catalogue = catalogue_of(rt.alloc())?;
    let bound = bound(rt.alloc(), &catalogue, b"R", Kind::Text);
    drop(catalogue);
    let bound = bound?;
    let differs = differs_at(&bound, b"R");
    drop(bound);
    assert!(rt; differs);
    Ok(())
}
