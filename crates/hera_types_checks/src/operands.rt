//! Checks of phrases of one part or two.

ghost use Rattle.hera_meaning.specs.Forms.{kinds_of};
ghost use Rattle.hera_meaning.specs.Plain.{expr_of};
ghost use Rattle.hera_rules.specs.Agrees.{Gives, typing_of};
ghost use Rattle.hera_rules.specs.Environments.{env_of};
ghost use Rattle.hera_rules.specs.Read.{word_of};
ghost use Rattle.hera_rules.specs.declared.words.WalkKind.TheVariants as walks;
ghost use Rattle.hera_rules.specs.Rules.{bulk_row, field_row, fold_row, given, has_kinds, is_bool, is_delta, is_int, is_member, is_text, joint_row, part_op, part_row, prefix_row, test_row, variable_row, walk_row};
ghost use Rattle.hera_sets.specs.Rows.{holds};
ghost use Rattle.hera_types_parts.specs.Operations.{over_one};
ghost use Rattle.std.specs.Prelude.{◌&&◌, ◌||◌, ◌≡◌, IfOk};
ghost use Rattle.hera_rules.specs.declared.fault.TypeFault.TheVariants as fault;

use hera_meaning::{Core, Kind, Op, RelId, Schema, Shape, Sign};
use hera_rules::{Fold, Joint, Local, Prefix, Test, TypeFault, Typed, WalkKind};
use hera_syntax::Token;
use hera_types_parts::{
    GlobalNames, LocalNames, Operation, has_name, into_core, kind_of_place, name_bytes, name_copy,
    on_one, place_of_name, same_kinds, same_schema, same_shape, type_of_kind, unary,
};
use std::alloc::{AllocError, Global};

/// `-` of an int, `!` of a bool.
pub fn check_prefix(alloc: Global, op: Prefix, at: u32, value: Typed) -> Result<Typed, TypeFault>
    ensures { Gives typing_of result (prefix_row op at (typing_of value)) }
{
    match prefixing(op, at, &value) {
        Ok(operation) => on_one(alloc, operation, value, at),
        Err(fault) => {
            drop(value);
            Err(fault)
        }
    }
}

/// The operation of a prefix.
fn prefixing(op: Prefix, at: u32, value: &Typed) -> Result<Operation, TypeFault>
    ensures { Gives (over_one (expr_of value.now.core) at) result (prefix_row op at (typing_of value.now)) }
{
    match (op, &value.shape) {
        (Prefix::Minus, Shape::Int) => Ok(Operation {
            op: Op::Neg,
            shape: Shape::Int,
        }),
        (Prefix::Not, Shape::Bool) => Ok(Operation {
            op: Op::Not,
            shape: Shape::Bool,
        }),
        _ => Err(TypeFault::Mismatch { at }),
    }
}

/// Whether the type is int.
fn int_shape(shape: &Shape) -> bool
    ensures { result ≡ is_int shape.now }
{
    match shape {
        Shape::Int => true,
        _ => false,
    }
}

/// Whether the type is bool.
pub fn bool_shape(shape: &Shape) -> bool
    ensures { result ≡ is_bool shape.now }
{
    match shape {
        Shape::Bool => true,
        _ => false,
    }
}

/// Whether the type is text.
fn text_shape(shape: &Shape) -> bool
    ensures { result ≡ is_text shape.now }
{
    match shape {
        Shape::Text => true,
        _ => false,
    }
}

/// Whether the type is delta.
pub fn delta_shape(shape: &Shape) -> bool
    ensures { result ≡ is_delta shape.now }
{
    match shape {
        Shape::Delta => true,
        _ => false,
    }
}

/// Whether the types are those of a tuple and a rel of equal schemas.
fn member_shapes(left: &Shape, right: &Shape) -> bool
    ensures { result ≡ is_member left.now right.now }
{
    match left {
        Shape::Tuple(tuple) => match right {
            Shape::Rel(rel) => same_schema(tuple, rel),
            _ => false,
        },
        _ => false,
    }
}

/// The type where the test holds, else Mismatch.
fn given_shape(holds: bool, at: u32, shape: Shape) -> Result<Shape, TypeFault>
    ensures { Gives (λ s. s) result (given holds (fault.Mismatch at) shape) }
{
    if holds {
        Ok(shape)
    } else {
        Err(TypeFault::Mismatch { at })
    }
}

/// What joins two operands: the type on the left, the type on the right.
pub fn check_joint(joint: &Joint, at: u32, left: Shape, right: &Shape) -> Result<Shape, TypeFault>
    ensures { Gives (λ s. s) result (joint_row joint.now at left right.now) }
{
    match joint {
        Joint::When => given_shape(delta_shape(right), at, left),
        Joint::And => given_shape(bool_shape(&left) && bool_shape(right), at, Shape::Bool),
        Joint::Or => given_shape(bool_shape(&left) && bool_shape(right), at, Shape::Bool),
        Joint::Arithmetic(_) => given_shape(int_shape(&left) && int_shape(right), at, Shape::Int),
        Joint::Equality(_) => given_shape(same_shape(&left, right), at, Shape::Bool),
        Joint::Order(_) => given_shape(ordered(&left, right), at, Shape::Bool),
        Joint::Member => given_shape(member_shapes(&left, right), at, Shape::Bool),
        Joint::Deltas(_) => given_shape(delta_shape(&left) && delta_shape(right), at, Shape::Delta),
    }
}

/// Whether both types are int, or both text.
fn ordered(left: &Shape, right: &Shape) -> bool
    ensures { result ≡ (is_int left.now && is_int right.now || is_text left.now && is_text right.now) }
{
    (int_shape(left) && int_shape(right)) || (text_shape(left) && text_shape(right))
}

/// `.a`: a tuple that has the attribute.
pub fn check_field(alloc: Global, token: &Token, value: Typed) -> Result<Typed, TypeFault>
    ensures { Gives typing_of result (field_row (word_of token.now) (typing_of value)) }
{
    match field_of_tuple(alloc, token, &value) {
        Ok(operation) => on_one(alloc, operation, value, token.at),
        Err(fault) => {
            drop(value);
            Err(fault)
        }
    }
}

/// The operation of `.a`, and the type of what it gives.
fn field_of_tuple(alloc: Global, token: &Token, value: &Typed) -> Result<Operation, TypeFault>
    ensures { Gives (over_one (expr_of value.now.core) token.now.at) result (field_row (word_of token.now) (typing_of value.now)) }
{
    let Shape::Tuple(schema) = &value.shape else {
        return Err(TypeFault::Mismatch { at: token.at });
    };
    match place_of_name(schema, name_bytes(token)) {
        Some(place) => {
            let kind = kind_of_place(schema, place);
            let own = schema.copy()?;
            Ok(Operation {
                op: Op::Field(own, place),
                shape: type_of_kind(kind),
            })
        }
        None => Err(TypeFault::Unknown { at: token.at }),
    }
}

/// The variable of a walk: not visible yet, over a rel.
pub fn check_variable(
    globals: &GlobalNames,
    scope: &LocalNames,
    alloc: Global,
    var: &Token,
    at: u32,
    slot: u32,
    shape: &Shape,
) -> Result<Local, TypeFault>
    ensures { Gives (λ l. l) result (variable_row (env_of globals.now) scope.now.locals.items (word_of var.now) at slot shape.now) }
{
    if has_name(globals, scope, name_bytes(var)) {
        return Err(TypeFault::Repeated { at: var.at });
    }
    match shape {
        Shape::Rel(schema) => {
            let schema = schema.copy()?;
            let name = name_copy(alloc, var)?;
            Ok(Local {
                name,
                slot,
                shape: Shape::Tuple(schema),
            })
        }
        _ => Err(TypeFault::Mismatch { at }),
    }
}

/// `select`: a bool, the rel's type; `map`: a tuple, a rel of its schema.
pub fn check_walk(
    alloc: Global,
    walk: WalkKind,
    at: u32,
    slot: u32,
    of: Typed,
    body: Typed,
) -> Result<Typed, TypeFault>
    ensures { Gives typing_of result (walk_row walk at slot (typing_of of) (typing_of body)) }
{
    match walk {
        WalkKind::Keeping => check_select(alloc, at, slot, of, body),
        WalkKind::Mapping => check_map(alloc, at, slot, of, body),
    }
}

/// `select`: a bool, the rel's type.
#[tactic(auto, using(hera_meaning::proofs::PlainLaws::plain))]
fn check_select(
    alloc: Global,
    at: u32,
    slot: u32,
    of: Typed,
    body: Typed,
) -> Result<Typed, TypeFault>
    ensures { Gives typing_of result (walk_row walks.Keeping at slot (typing_of of) (typing_of body)) }
{
    if !bool_shape(&body.shape) {
        drop((of, body));
        return Err(TypeFault::Mismatch { at });
    }
    let Typed { shape, core } = of;
    match both_boxed(alloc, core, into_core(body)) {
        Ok((over, inner)) => Ok(Typed {
            shape,
            core: Core::Select(slot, over, inner),
        }),
        Err(_) => {
            drop(shape);
            Err(TypeFault::Memory)
        }
    }
}

/// `map`: a tuple, a rel of its schema.
#[tactic(auto, using(hera_meaning::proofs::PlainLaws::plain))]
fn check_map(alloc: Global, at: u32, slot: u32, of: Typed, body: Typed) -> Result<Typed, TypeFault>
    ensures { Gives typing_of result (walk_row walks.Mapping at slot (typing_of of) (typing_of body)) }
{
    let Typed { shape, core } = body;
    let over = into_core(of);
    match shape {
        Shape::Tuple(schema) => match both_boxed(alloc, over, core) {
            Ok((over, inner)) => Ok(Typed {
                shape: Shape::Rel(schema),
                core: Core::Map(slot, over, inner),
            }),
            Err(_) => Err(TypeFault::Memory),
        },
        other => {
            drop((other, over, core));
            Err(TypeFault::Mismatch { at })
        }
    }
}

/// Both in boxes.
fn both_boxed<T: Drop>(alloc: Global, first: T, second: T) -> Result<(Box<T>, Box<T>), AllocError>
    ensures first { IfOk result (λ both. both.0.value ≡ first) }
    ensures second { IfOk result (λ both. both.1.value ≡ second) }
{
    let left = Box::new(alloc, first)?;
    let right = Box::new(alloc, second)?;
    Ok((left, right))
}

/// `count`, `empty`: a rel; `isfail`: a delta.
pub fn check_test(alloc: Global, test: Test, at: u32, value: Typed) -> Result<Typed, TypeFault>
    ensures { Gives typing_of result (test_row test at (typing_of value)) }
{
    match testing(test, at, &value) {
        Ok(operation) => on_one(alloc, operation, value, at),
        Err(fault) => {
            drop(value);
            Err(fault)
        }
    }
}

/// The operation of `count`, `empty` or `isfail`.
fn testing(test: Test, at: u32, value: &Typed) -> Result<Operation, TypeFault>
    ensures { Gives (over_one (expr_of value.now.core) at) result (test_row test at (typing_of value.now)) }
{
    match (test, &value.shape) {
        (Test::Count, Shape::Rel(_)) => Ok(Operation {
            op: Op::Count,
            shape: Shape::Int,
        }),
        (Test::Empty, Shape::Rel(_)) => Ok(Operation {
            op: Op::Empty,
            shape: Shape::Bool,
        }),
        (Test::IsFail, Shape::Delta) => Ok(Operation {
            op: Op::IsFail,
            shape: Shape::Bool,
        }),
        _ => Err(TypeFault::Mismatch { at }),
    }
}

/// `sum`, `min`, `max`: a rel, an attribute of it, an int for `sum`.
pub fn check_fold(
    alloc: Global,
    fold: Fold,
    at: u32,
    token: &Token,
    value: Typed,
) -> Result<Typed, TypeFault>
    ensures { Gives typing_of result (fold_row fold at (word_of token.now) (typing_of value)) }
{
    match folding(alloc, fold, at, token, &value) {
        Ok(operation) => on_one(alloc, operation, value, at),
        Err(fault) => {
            drop(value);
            Err(fault)
        }
    }
}

/// The operation of `sum`, `min` or `max`.
fn folding(
    alloc: Global,
    fold: Fold,
    at: u32,
    token: &Token,
    value: &Typed,
) -> Result<Operation, TypeFault>
    ensures { Gives (over_one (expr_of value.now.core) at) result (fold_row fold at (word_of token.now) (typing_of value.now)) }
{
    let Shape::Rel(schema) = &value.shape else {
        return Err(TypeFault::Mismatch { at });
    };
    let Some(place) = place_of_name(schema, name_bytes(token)) else {
        return Err(TypeFault::Unknown { at: token.at });
    };
    let kind = kind_of_place(schema, place);
    match fold {
        Fold::Sum => match kind {
            Kind::Int => Ok(Operation {
                op: Op::Sum(schema.copy()?, place),
                shape: Shape::Int,
            }),
            _ => Err(TypeFault::Mismatch { at }),
        },
        Fold::Least => Ok(Operation {
            op: Op::Min(schema.copy()?, place),
            shape: type_of_kind(kind),
        }),
        Fold::Greatest => Ok(Operation {
            op: Op::Max(schema.copy()?, place),
            shape: type_of_kind(kind),
        }),
    }
}

/// `bulk(+R, E)`: a rel of R's kinds in order.
pub fn check_bulk(
    alloc: Global,
    globals: &GlobalNames,
    sign: Sign,
    token: &Token,
    at: u32,
    value: Typed,
) -> Result<Typed, TypeFault>
    ensures { Gives typing_of result (bulk_row (env_of globals.now) sign (word_of token.now) at (typing_of value)) }
{
    let Some(rel) = globals.relation(name_bytes(token)) else {
        drop(value);
        return Err(TypeFault::Unknown { at: token.at });
    };
    if !rel_of_kinds(globals.schema(rel), &value.shape) {
        drop(value);
        return Err(TypeFault::Mismatch { at });
    }
    Ok(Typed {
        shape: Shape::Delta,
        core: unary(alloc, Op::Bulk(sign, rel), into_core(value), at)?,
    })
}

/// Whether the type is a rel of the schema's kinds in order.
fn rel_of_kinds(schema: &Schema, shape: &Shape) -> bool
    ensures { result ≡ has_kinds (kinds_of schema.now) shape.now }
{
    match shape {
        Shape::Rel(own) => same_kinds(schema, own),
        _ => false,
    }
}

/// `ins(R, D)`, `del(R, D)`: R a relation, D a delta.
pub fn check_part(
    alloc: Global,
    globals: &GlobalNames,
    sign: Sign,
    token: &Token,
    at: u32,
    value: Typed,
) -> Result<Typed, TypeFault>
    ensures { Gives typing_of result (part_row (env_of globals.now) sign (word_of token.now) at (typing_of value)) }
{
    match parting(alloc, globals, sign, token, at, &value) {
        Ok(operation) => on_one(alloc, operation, value, at),
        Err(fault) => {
            drop(value);
            Err(fault)
        }
    }
}

/// The operation of `ins` or `del`, and the type of what it gives.
fn parting(
    alloc: Global,
    globals: &GlobalNames,
    sign: Sign,
    token: &Token,
    at: u32,
    value: &Typed,
) -> Result<Operation, TypeFault>
    ensures { Gives (over_one (expr_of value.now.core) at) result (part_row (env_of globals.now) sign (word_of token.now) at (typing_of value.now)) }
{
    let Some(rel) = globals.relation(name_bytes(token)) else {
        return Err(TypeFault::Unknown { at: token.at });
    };
    if !delta_shape(&value.shape) {
        return Err(TypeFault::Mismatch { at });
    }
    let schema = globals.schema(rel).copy()?;
    Ok(Operation {
        op: part_op_of(sign, rel),
        shape: Shape::Rel(schema),
    })
}

/// The operation of `ins` or `del`.
fn part_op_of(sign: Sign, rel: RelId) -> Op
    ensures { result ≡ part_op sign rel }
{
    match sign {
        Sign::Plus => Op::Ins(rel),
        Sign::Minus => Op::Del(rel),
    }
}
