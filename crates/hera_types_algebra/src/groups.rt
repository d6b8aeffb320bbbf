//! Group.

ghost use Rattle.hera_meaning.specs.Forms.{agg_kind};
ghost use Rattle.hera_meaning.specs.Plain.{expr_of};
ghost use Rattle.hera_rules.specs.Agrees.{Gives, typing_of};
ghost use Rattle.hera_rules.specs.Rules.{agg_attr, agg_in, agg_words, aggs_in, either, group_attrs, group_row, measured_words, places_in, repeat_in, result_fault, stranger_in, sums_int};
ghost use Rattle.hera_types_parts.specs.Operations.{over_one};
ghost use Rattle.hera_types_algebra.specs.Tests.{group_fault_in};
ghost use Rattle.hera_types_parts.specs.Tests.{Tests};
ghost use Rattle.std.specs.List.{list_all};
ghost use Rattle.std.specs.Prelude.{IfErr, IfOk, OnOk, map, ◌++◌, ◌≡◌};
ghost use Rattle.hera_meaning.specs.declared.trees.Op.TheVariants as ops;
ghost use Rattle.hera_meaning.specs.declared.trees.Shape.TheVariants as shapes;
ghost use Rattle.hera_rules.specs.declared.fault.TypeFault.TheVariants as fault;

use hera_meaning::{ATTRS_LIMIT, Agg, Aggs, Attr, Kind, Op, Schema, Shape};
use hera_rules::{Aggregate, Fold, Measured, TypeFault, Typed, Word};
use hera_types_parts::{
    NameSet, Operation, add_attrs, distinct_names, kind_named, made, measured, on_one,
    place_named_or, place_of_name, places_of, put, same_kind, stranger_of, word,
};
use std::alloc::{AllocError, Global};

/// The fault of the first measured word that is no attribute.
fn stranger_measured(schema: &Schema, aggs: &[Aggregate]) -> Option<TypeFault>
    ensures { result ≡ stranger_in schema.now (measured_words aggs.now) }
{
    for agg in aggs {
        match &agg.of {
            Measured::Count => {}
            Measured::Of(_, word) => {
                if place_of_name(schema, word.name.bytes()).is_none() {
                    return Some(TypeFault::Unknown { at: word.at });
                }
            }
        }
    }
    None
}

/// Nothing, or the fault of the first aggregate whose name stands before, behind these names.
fn distinct_aggs(before: NameSet, aggs: &[Aggregate]) -> Result<(), TypeFault>
    ensures { Tests result (repeat_in before (agg_words aggs.now)) }
{
    let mut names = before;
    for agg in aggs {
        let name = agg.name.name.bytes();
        if names.has(name) {
            return Err(TypeFault::Repeated { at: agg.name.at });
        }
        names.add(name)?;
    }
    Ok(())
}

/// Nothing, or the first fault of a group's results.
fn check_results(alloc: Global, at: u32, by: &[Word], aggs: &[Aggregate]) -> Result<(), TypeFault>
    ensures { Tests result (result_fault at by.now aggs.now) }
{
    let names = distinct_names(alloc, by)?;
    distinct_aggs(names, aggs)?;
    if aggs.len() > ATTRS_LIMIT || by.len() > ATTRS_LIMIT - aggs.len() {
        return Err(TypeFault::TooMany { at });
    }
    Ok(())
}

/// Whether what the aggregate sums is an int.
fn sums_an_int(schema: &Schema, measured: &Measured) -> bool
    ensures { result ≡ sums_int schema.now measured.now }
{
    match measured {
        Measured::Of(Fold::Sum, word) => same_kind(
            kind_named(schema, word.name.bytes()),
            Kind::Int,
        ),
        _ => true,
    }
}

/// Whether each sum is of an int.
fn sum_ints(schema: &Schema, aggs: &[Aggregate]) -> bool
    ensures { result ≡ list_all (λ a. sums_int schema.now a.of) aggs.now }
{
    aggs.iter().all(|agg| sums_an_int(schema, &agg.of))
}

/// What an aggregate computes.
fn agg_of(schema: &Schema, measured: &Measured) -> Agg
    ensures { result ≡ agg_in schema.now measured.now }
{
    match measured {
        Measured::Count => Agg::Count,
        Measured::Of(Fold::Sum, word) => Agg::Sum(place_named_or(schema, word.name.bytes())),
        Measured::Of(Fold::Least, word) => Agg::Min(place_named_or(schema, word.name.bytes())),
        Measured::Of(Fold::Greatest, word) => Agg::Max(place_named_or(schema, word.name.bytes())),
    }
}

/// The kind of an aggregate.
fn kind_of_agg(schema: &Schema, measured: &Measured) -> Kind
    ensures { result ≡ agg_kind schema.now (agg_in schema.now measured.now) }
{
    match measured {
        Measured::Count => Kind::Int,
        Measured::Of(Fold::Sum, _) => Kind::Int,
        Measured::Of(Fold::Least, word) => kind_named(schema, word.name.bytes()),
        Measured::Of(Fold::Greatest, word) => kind_named(schema, word.name.bytes()),
    }
}

/// What the aggregates compute.
fn aggs_of(alloc: Global, schema: &Schema, aggs: &[Aggregate]) -> Result<Aggs, AllocError>
    ensures { IfOk result (λ all. all ≡ aggs_in schema.now aggs.now) }
{
    let mut all = Vec::new(alloc);
    for agg in aggs {
        put(&mut all, agg_of(schema, &agg.of))?;
    }
    Ok(Aggs::new(all))
}

/// The attributes of aggregates, behind others.
fn add_aggs(attrs: &mut Vec<Attr>, schema: &Schema, aggs: &[Aggregate]) -> Result<(), AllocError>
    ensures { OnOk result (attrs.new.items ≡ attrs.old.items ++ map (agg_attr schema.now) aggs.now) }
{
    for agg in aggs {
        let name = agg.name.name.copy()?;
        let kind = kind_of_agg(schema, &agg.of);
        put(attrs, Attr { name, kind })?;
    }
    Ok(())
}

/// `group`: a rel, names in it, distinct results, at most 16, sums of ints.
pub fn check_group(
    alloc: Global,
    at: u32,
    by: Vec<Word>,
    aggs: Vec<Aggregate>,
    value: Typed,
) -> Result<Typed, TypeFault>
    ensures { Gives typing_of result (group_row at by.items aggs.items (typing_of value)) }
{
    match grouping(alloc, at, &by, &aggs, &value) {
        Ok(operation) => on_one(alloc, operation, value, at),
        Err(fault) => {
            drop(value);
            Err(fault)
        }
    }
}

/// The operation of a `group`.
fn grouping(
    alloc: Global,
    at: u32,
    by: &[Word],
    aggs: &[Aggregate],
    value: &Typed,
) -> Result<Operation, TypeFault>
    ensures { Gives (over_one (expr_of value.now.core) at) result (group_row at by.now aggs.now (typing_of value.now)) }
{
    let Shape::Rel(schema) = &value.shape else {
        check_results(alloc, at, by, aggs)?;
        return Err(TypeFault::Mismatch { at });
    };
    check_grouping(alloc, at, schema, by, aggs)?;
    grouped(alloc, by, aggs, schema)
}

/// Nothing, or the first fault of a group over a rel of this schema.
fn check_grouping(
    alloc: Global,
    at: u32,
    schema: &Schema,
    by: &[Word],
    aggs: &[Aggregate],
) -> Result<(), TypeFault>
    ensures { Tests result (group_fault_in at schema.now by.now aggs.now) }
{
    if let Some(fault) = stranger_of(schema, by) {
        return Err(fault);
    }
    if let Some(fault) = stranger_measured(schema, aggs) {
        return Err(fault);
    }
    check_results(alloc, at, by, aggs)?;
    if !sum_ints(schema, aggs) {
        return Err(TypeFault::Mismatch { at });
    }
    Ok(())
}

/// The operation of a group that breaks no rule.
fn grouped(
    alloc: Global,
    by: &[Word],
    aggs: &[Aggregate],
    schema: &Schema,
) -> Result<Operation, TypeFault>
    ensures operation { IfOk result (λ o. o ≡ record { op = ops.Group schema.now (places_in schema.now by.now) (aggs_in schema.now aggs.now); shape = shapes.Rel (group_attrs schema.now by.now aggs.now) }) }
    ensures refused { IfErr result (λ f. f ≡ fault.Memory) }
{
    let places = places_of(alloc, schema, by)?;
    let all = aggs_of(alloc, schema, aggs)?;
    let mut attrs = Vec::new(alloc);
    add_attrs(&mut attrs, schema, by)?;
    add_aggs(&mut attrs, schema, aggs)?;
    let result = made(attrs)?;
    let own = schema.copy()?;
    Ok(Operation {
        op: Op::Group(own, places, all),
        shape: Shape::Rel(result),
    })
}
