//! What operations make of their operands.
ghost use Rattle.std.specs.Prelude.{◌≡◌, ◌&&◌, ◌∷◌, [], IfOk, List, map, nat_le, nat_lt, length};
ghost use Rattle.hera_meaning.specs.declared.schemas.TheConstants.{ATTRS_LIMIT};
ghost use Rattle.hera_meaning.specs.Schemas.{names_of};
ghost use Rattle.hera_meaning.specs.Forms.{of_scalar, of_tuple, of_table, kinds_of, project_kinds, group_kinds, join_kinds};
ghost use Rattle.hera_typed.specs.Points.{with, when};
ghost use Rattle.hera_typed.specs.Effects.{is_width, is_apart};
ghost use Rattle.hera_stacks.specs.Flat.{flat_form};
ghost use Rattle.hera_effects.specs.Operations.{flat_agrees, flat_alike, flat_one, flat_two, flat_takes, flat_compares, flat_orders, flat_counted, flat_found, flat_combined, flat_gathered, flat_gathers, flat_tuple, flat_table, flat_seen_by, one_of, two_of};

use crate::cuts::{all_agree, all_of, attr_forms, one, two};
use crate::moves::{agrees, is_table};
use hera_meaning::{ATTRS_LIMIT, Agg, Kind, Op, RelDecl, RelId, Schema};
use hera_stacks::{FlatForm, FlatSeen, group_kinds, join_kinds, kind_at, kinds_of, project_kinds};
use std::alloc::{AllocError, Global};

/// One operand of a form.
fn takes_one(args: &[FlatSeen], form: FlatForm, given: FlatForm) -> Option<FlatSeen>
    ensures { result ≡ flat_one form given args.now }
{
    match one(args) {
        Some(seen) => if agrees(seen, form) {
            Some(FlatSeen::Known(given))
        } else {
            None
        },
        None => None,
    }
}

/// Two operands of these forms.
fn takes_two(args: &[FlatSeen], a: FlatForm, b: FlatForm, given: FlatForm) -> Option<FlatSeen>
    ensures { result ≡ flat_two a b given args.now }
{
    match two(args) {
        Some(pair) => if agrees(pair.0, a) && agrees(pair.1, b) {
            Some(FlatSeen::Known(given))
        } else {
            None
        },
        None => None,
    }
}

/// Whether one of them agrees with the other.
fn are_alike(a: FlatSeen, b: FlatSeen) -> bool
    ensures { result ≡ flat_alike a b }
{
    match b {
        FlatSeen::Known(form) => agrees(a, form),
        FlatSeen::NoRows => match a {
            FlatSeen::Known(form) => is_table(form),
            FlatSeen::NoRows => true,
        },
    }
}

/// Two operands of one form.
fn compares(args: &[FlatSeen]) -> Option<FlatSeen>
    ensures { result ≡ flat_compares args.now }
{
    match two(args) {
        Some(pair) => if are_alike(pair.0, pair.1) {
            Some(FlatSeen::Known(FlatForm::Scalar(Kind::Bool)))
        } else {
            None
        },
        None => None,
    }
}

/// Whether both agree with the form.
fn are_both(a: FlatSeen, b: FlatSeen, form: FlatForm) -> bool
    ensures { result ≡ flat_agrees a form && flat_agrees b form }
{
    agrees(a, form) && agrees(b, form)
}

/// Two ints or two texts.
fn orders(args: &[FlatSeen]) -> Option<FlatSeen>
    ensures { result ≡ flat_orders args.now }
{
    match two(args) {
        Some(pair) => if are_both(pair.0, pair.1, FlatForm::Scalar(Kind::Int))
            || are_both(pair.0, pair.1, FlatForm::Scalar(Kind::Text))
        {
            Some(FlatSeen::Known(FlatForm::Scalar(Kind::Bool)))
        } else {
            None
        },
        None => None,
    }
}

/// A tuple and a relation of its kinds.
fn found(a: FlatSeen, b: FlatSeen) -> Option<FlatSeen>
    ensures { result ≡ flat_found a b }
{
    match a {
        FlatSeen::Known(FlatForm::Tuple(kinds)) => if agrees(b, FlatForm::Table(kinds)) {
            Some(FlatSeen::Known(FlatForm::Scalar(Kind::Bool)))
        } else {
            None
        },
        _ => None,
    }
}

/// Whether a relation of its kinds has the tuple: a bool.
fn finds(args: &[FlatSeen]) -> Option<FlatSeen>
    ensures { result ≡ with (two_of args.now) (λ p. flat_found p.0 p.1) }
{
    match two(args) {
        Some(pair) => found(pair.0, pair.1),
        None => None,
    }
}

/// Two relations of the same kinds.
fn combined(a: FlatSeen, b: FlatSeen) -> Option<FlatSeen>
    ensures { result ≡ flat_combined a b }
{
    match a {
        FlatSeen::Known(FlatForm::Table(kinds)) => if agrees(b, FlatForm::Table(kinds)) {
            Some(a)
        } else {
            None
        },
        FlatSeen::NoRows => match b {
            FlatSeen::Known(FlatForm::Table(_)) => Some(b),
            FlatSeen::NoRows => Some(FlatSeen::NoRows),
            _ => None,
        },
        _ => None,
    }
}

/// A relation made of two of the same kinds.
fn combines(args: &[FlatSeen]) -> Option<FlatSeen>
    ensures { result ≡ with (two_of args.now) (λ p. flat_combined p.0 p.1) }
{
    match two(args) {
        Some(pair) => combined(pair.0, pair.1),
        None => None,
    }
}

/// A relation, whichever.
fn counted(seen: FlatSeen, given: FlatForm) -> Option<FlatSeen>
    ensures { result ≡ flat_counted given seen }
{
    match seen {
        FlatSeen::Known(FlatForm::Table(_)) => Some(FlatSeen::Known(given)),
        FlatSeen::NoRows => Some(FlatSeen::Known(given)),
        _ => None,
    }
}

/// What is told of a relation, whichever.
fn counts(args: &[FlatSeen], given: FlatForm) -> Option<FlatSeen>
    ensures { result ≡ with (one_of args.now) (flat_counted given) }
{
    match one(args) {
        Some(seen) => counted(seen, given),
        None => None,
    }
}

/// Tuples of the kinds of the first.
fn gathered(args: &[FlatSeen], first: FlatSeen) -> Option<FlatSeen>
    ensures { result ≡ flat_gathered args.now first }
{
    match first {
        FlatSeen::Known(FlatForm::Tuple(kinds)) => if all_of(args, FlatForm::Tuple(kinds)) {
            Some(FlatSeen::Known(FlatForm::Table(kinds)))
        } else {
            None
        },
        _ => None,
    }
}

/// Tuples of the same kinds; of none of them nobody knows the kinds.
fn gathers(args: &[FlatSeen]) -> Option<FlatSeen>
    ensures { result ≡ flat_gathers args.now }
{
    match args.get(0) {
        Some(first) => gathered(args, *first),
        None => Some(FlatSeen::NoRows),
    }
}

/// A value for each attribute.
fn makes_row(
    alloc: Global,
    args: &[FlatSeen],
    schema: &Schema,
) -> Result<Option<FlatSeen>, AllocError>
    ensures { IfOk result (λ r. r ≡ flat_takes (map flat_form (map of_scalar (kinds_of schema.now))) (flat_form (of_tuple (kinds_of schema.now))) args.now) }
{
    let forms = attr_forms(alloc, schema)?;
    if !all_agree(args, &forms) {
        return Ok(None);
    }
    Ok(Some(FlatSeen::Known(FlatForm::Tuple(kinds_of(schema)?))))
}

/// A relation of the schema.
fn takes_table(
    args: &[FlatSeen],
    schema: &Schema,
    given: FlatForm,
) -> Result<Option<FlatSeen>, AllocError>
    ensures { IfOk result (λ r. r ≡ flat_one (flat_form (of_table (kinds_of schema.now))) given args.now) }
{
    Ok(takes_one(args, FlatForm::Table(kinds_of(schema)?), given))
}

/// A tuple of the schema.
fn takes_tuple(
    args: &[FlatSeen],
    schema: &Schema,
    given: FlatForm,
) -> Result<Option<FlatSeen>, AllocError>
    ensures { IfOk result (λ r. r ≡ flat_one (flat_form (of_tuple (kinds_of schema.now))) given args.now) }
{
    Ok(takes_one(args, FlatForm::Tuple(kinds_of(schema)?), given))
}

/// Whether a relation may have so many attributes.
fn is_width(count: usize) -> bool
    ensures { result ≡ nat_le 1 count && nat_le count ATTRS_LIMIT }
{
    1 <= count && count <= ATTRS_LIMIT
}

/// The fields at these places of each tuple of a relation of the schema.
fn projects(
    args: &[FlatSeen],
    schema: &Schema,
    places: &[usize],
) -> Result<Option<FlatSeen>, AllocError>
    ensures { IfOk result (λ r. r ≡ when (is_width (project_kinds schema.now places.now)) (flat_one (flat_form (of_table (kinds_of schema.now))) (flat_form (of_table (project_kinds schema.now places.now))) args.now)) }
{
    if !is_width(places.len()) {
        return Ok(None);
    }
    takes_table(
        args,
        schema,
        FlatForm::Table(project_kinds(schema, places)?),
    )
}

/// The fields of each key and its aggregates, over a relation of the schema.
fn groups(
    args: &[FlatSeen],
    schema: &Schema,
    by: &[usize],
    aggs: &[Agg],
) -> Result<Option<FlatSeen>, AllocError>
    ensures { IfOk result (λ r. r ≡ when (is_width (group_kinds schema.now by.now aggs.now)) (flat_one (flat_form (of_table (kinds_of schema.now))) (flat_form (of_table (group_kinds schema.now by.now aggs.now))) args.now)) }
{
    if !is_width(by.len() + aggs.len()) {
        return Ok(None);
    }
    takes_table(
        args,
        schema,
        FlatForm::Table(group_kinds(schema, by, aggs)?),
    )
}

/// A relation of each schema, and their join. No two attributes of the right one may have one name.
fn joins(args: &[FlatSeen], left: &Schema, right: &Schema) -> Result<Option<FlatSeen>, AllocError>
    ensures { IfOk result (λ r. r ≡ when (is_apart (names_of right.now)) (flat_two (flat_form (of_table (kinds_of left.now))) (flat_form (of_table (kinds_of right.now))) (flat_form (of_table (join_kinds left.now right.now))) args.now)) }
{
    let _count = right.len();
    let a = kinds_of(left)?;
    let b = kinds_of(right)?;
    let both = join_kinds(left, right)?;
    Ok(takes_two(
        args,
        FlatForm::Table(a),
        FlatForm::Table(b),
        FlatForm::Table(both),
    ))
}

/// A tuple of the relation's, for an atom of it.
fn atom(
    relations: &[RelDecl],
    rel: RelId,
    args: &[FlatSeen],
) -> Result<Option<FlatSeen>, AllocError>
    ensures { IfOk result (λ r. r ≡ when (nat_lt rel.0 (length relations.now)) (flat_one (flat_tuple relations.now rel.0) FlatForm.Delta args.now)) }
{
    match relations.get(rel.0 as usize) {
        Some(decl) => takes_tuple(args, &decl.schema, FlatForm::Delta),
        None => Ok(None),
    }
}

/// Tuples of the relation's, for atoms of it.
fn bulk(
    relations: &[RelDecl],
    rel: RelId,
    args: &[FlatSeen],
) -> Result<Option<FlatSeen>, AllocError>
    ensures { IfOk result (λ r. r ≡ when (nat_lt rel.0 (length relations.now)) (flat_one (flat_table relations.now rel.0) FlatForm.Delta args.now)) }
{
    match relations.get(rel.0 as usize) {
        Some(decl) => takes_table(args, &decl.schema, FlatForm::Delta),
        None => Ok(None),
    }
}

/// What a delta inserts into the relation, or deletes from it.
fn changed(
    relations: &[RelDecl],
    rel: RelId,
    args: &[FlatSeen],
) -> Result<Option<FlatSeen>, AllocError>
    ensures { IfOk result (λ r. r ≡ when (nat_lt rel.0 (length relations.now)) (flat_one FlatForm.Delta (flat_table relations.now rel.0) args.now)) }
{
    match relations.get(rel.0 as usize) {
        Some(decl) => {
            let form = FlatForm::Table(kinds_of(&decl.schema)?);
            Ok(takes_one(args, FlatForm::Delta, form))
        }
        None => Ok(None),
    }
}

const INT: FlatForm = FlatForm::Scalar(Kind::Int);

const BOOL: FlatForm = FlatForm::Scalar(Kind::Bool);

/// What the operation gives for these operands; None where it doesn't take them.
pub(crate) fn seen_by(
    alloc: Global,
    relations: &[RelDecl],
    op: &Op,
    args: &[FlatSeen],
) -> Result<Option<FlatSeen>, AllocError>
    ensures { IfOk result (λ r. r ≡ flat_seen_by relations.now op.now args.now) }
{
    match op {
        Op::Neg => Ok(takes_one(args, INT, INT)),
        Op::Not => Ok(takes_one(args, BOOL, BOOL)),
        Op::Add | Op::Sub | Op::Mul | Op::Div | Op::Rem => Ok(takes_two(args, INT, INT, INT)),
        Op::Eq | Op::Ne => Ok(compares(args)),
        Op::Lt | Op::Le | Op::Gt | Op::Ge => Ok(orders(args)),
        Op::In => Ok(finds(args)),
        Op::Field(schema, i) => takes_tuple(args, schema, FlatForm::Scalar(kind_at(schema, *i))),
        Op::MakeRow(schema) => makes_row(alloc, args, schema),
        Op::MakeRel(_) => Ok(gathers(args)),
        Op::Project(schema, places) => projects(args, schema, places.items()),
        Op::Union | Op::Minus | Op::Inter => Ok(combines(args)),
        Op::Join(left, right) => joins(args, left, right),
        Op::Group(schema, by, aggs) => groups(args, schema, by.items(), aggs.items()),
        Op::Count => Ok(counts(args, INT)),
        Op::Empty => Ok(counts(args, BOOL)),
        Op::Sum(schema, _) => takes_table(args, schema, INT),
        Op::Min(schema, i) => takes_table(args, schema, FlatForm::Scalar(kind_at(schema, *i))),
        Op::Max(schema, i) => takes_table(args, schema, FlatForm::Scalar(kind_at(schema, *i))),
        Op::Atom(_, rel) => atom(relations, *rel, args),
        Op::Bulk(_, rel) => bulk(relations, *rel, args),
        Op::Ins(rel) | Op::Del(rel) => changed(relations, *rel, args),
        Op::IsFail => Ok(takes_one(args, FlatForm::Delta, BOOL)),
        Op::Smash | Op::Merge => Ok(takes_two(
            args,
            FlatForm::Delta,
            FlatForm::Delta,
            FlatForm::Delta,
        )),
    }
}
