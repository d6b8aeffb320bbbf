//! The parts of instructions, read.
ghost use Rattle.std.specs.Prelude.{◌≡◌, ◌<◌, ◌∷◌, [], ℕ, List, Some, IfOk, IfErr, length, true};
ghost use Rattle.std.specs.Option.{option_copied};
ghost use Rattle.hera_meaning.specs.Texts.{is_text};
ghost use Rattle.rel_format.specs.Fields.{kept, piece};
ghost use Rattle.hera_code_file.specs.Reading.{Gives, bare, one, option_at, many, list_at, word_at, schema_at, shape_at, text_len_at, text_piece, text_at, const_at, agg_at, agg_readers, at_place, places_at, aggs_at, int_const, bool_const, text_const, number_at, flag_at};
ghost use Rattle.std.specs.Int.{w64};

use crate::fields::{bad, double_word, flag, small, word};
use crate::schemas::schema;
use crate::stop::Stop;
use hera_meaning::{Agg, Aggs, Const, Places, Scalar, Schema, Shape, TEXT_LIMIT, Text, TextFault};
use hera_row::unshifted;
use rel_format::number16;
use std::alloc::Global;

/// The shape of tuples.
fn tuple_shape(alloc: Global, bytes: &[u8]) -> Result<(Shape, &[u8]), Stop>
    ensures { Gives (λ x. (x.0, x.1.now)) result (one Shape.Tuple schema_at bytes.now) }
{
    let (schema, rest) = schema(alloc, bytes)?;
    Ok((Shape::Tuple(schema), rest))
}

/// The shape of relations.
fn rel_shape(alloc: Global, bytes: &[u8]) -> Result<(Shape, &[u8]), Stop>
    ensures { Gives (λ x. (x.0, x.1.now)) result (one Shape.Rel schema_at bytes.now) }
{
    let (schema, rest) = schema(alloc, bytes)?;
    Ok((Shape::Rel(schema), rest))
}

/// A shape: its number, and for tuples and relations a schema.
#[tactic(auto, unfolding(crate::specs::Reading::shape_at))]
pub(crate) fn shape(alloc: Global, bytes: &[u8]) -> Result<(Shape, &[u8]), Stop>
    ensures { Gives (λ x. (x.0, x.1.now)) result (shape_at bytes.now) }
{
    let (number, rest) = small(bytes, 6)?;
    match number {
        0 => Ok((Shape::Int, rest)),
        1 => Ok((Shape::Bool, rest)),
        2 => Ok((Shape::Text, rest)),
        3 => tuple_shape(alloc, rest),
        4 => rel_shape(alloc, rest),
        _ => Ok((Shape::Delta, rest)),
    }
}

/// What stands behind a 1.
fn some_schema(alloc: Global, bytes: &[u8]) -> Result<(Option<Schema>, &[u8]), Stop>
    ensures { Gives (λ x. (x.0, x.1.now)) result (one Some schema_at bytes.now) }
{
    let (schema, rest) = schema(alloc, bytes)?;
    Ok((Some(schema), rest))
}

/// A schema, where there is one.
pub(crate) fn option_schema(alloc: Global, bytes: &[u8]) -> Result<(Option<Schema>, &[u8]), Stop>
    ensures { Gives (λ x. (x.0, x.1.now)) result (option_at schema_at bytes.now) }
{
    let (number, rest) = small(bytes, 2)?;
    match number {
        0 => Ok((None, rest)),
        _ => some_schema(alloc, rest),
    }
}

/// What stands behind a 1.
fn some_shape(alloc: Global, bytes: &[u8]) -> Result<(Option<Shape>, &[u8]), Stop>
    ensures { Gives (λ x. (x.0, x.1.now)) result (one Some shape_at bytes.now) }
{
    let (shape, rest) = shape(alloc, bytes)?;
    Ok((Some(shape), rest))
}

/// A shape, where there is one.
pub(crate) fn option_shape(alloc: Global, bytes: &[u8]) -> Result<(Option<Shape>, &[u8]), Stop>
    ensures { Gives (λ x. (x.0, x.1.now)) result (option_at shape_at bytes.now) }
{
    let (number, rest) = small(bytes, 2)?;
    match number {
        0 => Ok((None, rest)),
        _ => some_shape(alloc, rest),
    }
}

/// The length of a text.
fn text_len(bytes: &[u8]) -> Result<(u16, &[u8]), Stop>
    ensures { Gives (λ x. (x.0, x.1.now)) result (text_len_at bytes.now) }
{
    match number16(bytes) {
        Some(len) if len as usize <= TEXT_LIMIT => Ok((len, bytes.split_at(2).1)),
        _ => Err(bad(bytes)),
    }
}

/// The text of these bytes. None where they are no text.
fn text_in(alloc: Global, bytes: &[u8]) -> Result<Option<Text>, Stop>
    ensures some { IfOk result (λ text. text ≡ kept is_text (Some bytes.now)) }
    ensures err { IfErr result (λ e. e ≡ Stop.Memory) }
{
    match Text::new(alloc, bytes) {
        Ok(text) => Ok(Some(text)),
        Err(fault) => match fault {
            TextFault::Memory => Err(Stop::Memory),
            _ => Ok(None),
        },
    }
}

/// A text of this length.
fn text_of_len(alloc: Global, bytes: &[u8], len: usize) -> Result<(Text, &[u8]), Stop>
    ensures { Gives (λ x. (x.0, x.1.now)) result (text_piece len bytes.now) }
{
    if bytes.len() < len {
        return Err(bad(bytes));
    }
    let (front, rest) = bytes.split_at(len);
    match text_in(alloc, front)? {
        Some(text) => Ok((text, rest)),
        None => Err(bad(bytes)),
    }
}

/// A text: its length in two bytes, and its bytes.
#[tactic(auto, unfolding(crate::specs::Reading::text_at))]
fn text(alloc: Global, bytes: &[u8]) -> Result<(Text, &[u8]), Stop>
    ensures { Gives (λ x. (x.0, x.1.now)) result (text_at bytes.now) }
{
    let (len, rest) = text_len(bytes)?;
    text_of_len(alloc, rest, len as usize)
}

/// An int.
fn an_int(bytes: &[u8]) -> Result<(Const, &[u8]), Stop>
    ensures { Gives (λ x. (x.0, x.1.now)) result (one int_const (number_at w64) bytes.now) }
{
    let (number, rest) = double_word(bytes)?;
    Ok((Const::Scalar(Scalar::Int(unshifted(number))), rest))
}

/// A bool.
fn a_bool(bytes: &[u8]) -> Result<(Const, &[u8]), Stop>
    ensures { Gives (λ x. (x.0, x.1.now)) result (one bool_const flag_at bytes.now) }
{
    let (value, rest) = flag(bytes)?;
    Ok((Const::Scalar(Scalar::Bool(value)), rest))
}

/// A text.
fn a_text(alloc: Global, bytes: &[u8]) -> Result<(Const, &[u8]), Stop>
    ensures { Gives (λ x. (x.0, x.1.now)) result (one text_const text_at bytes.now) }
{
    let (text, rest) = text(alloc, bytes)?;
    Ok((Const::Scalar(Scalar::Text(text)), rest))
}

/// A constant: an int, a bool, a text, the empty delta or `fail`.
#[tactic(auto, unfolding(crate::specs::Reading::const_at))]
pub(crate) fn constant(alloc: Global, bytes: &[u8]) -> Result<(Const, &[u8]), Stop>
    ensures { Gives (λ x. (x.0, x.1.now)) result (const_at bytes.now) }
{
    let (number, rest) = small(bytes, 5)?;
    match number {
        0 => an_int(rest),
        1 => a_bool(rest),
        2 => a_text(alloc, rest),
        3 => Ok((Const::EmptyDelta, rest)),
        _ => Ok((Const::FailDelta, rest)),
    }
}

/// What an aggregate makes of the place that follows.
fn field_agg(number: u8, bytes: &[u8]) -> Result<(Agg, &[u8]), Stop>
    requires some { 0 < number }
    requires below { number < 4 }
    ensures { Gives (λ x. (x.0, x.1.now)) result (at_place agg_readers number bytes.now) }
{
    let (place, rest) = word(bytes)?;
    let place = place as usize;
    match number {
        1 => Ok((Agg::Sum(place), rest)),
        2 => Ok((Agg::Min(place), rest)),
        _ => Ok((Agg::Max(place), rest)),
    }
}

/// An aggregate: its number, and but for a count the place of a field.
#[tactic(auto, unfolding(crate::specs::Reading::agg_at))]
fn agg(bytes: &[u8]) -> Result<(Agg, &[u8]), Stop>
    ensures { Gives (λ x. (x.0, x.1.now)) result (agg_at bytes.now) }
{
    let (number, rest) = small(bytes, 4)?;
    match number {
        0 => Ok((Agg::Count, rest)),
        _ => field_agg(number, rest),
    }
}

/// So many places.
fn some_places(alloc: Global, bytes: &[u8], count: u32) -> Result<(Vec<usize>, &[u8]), Stop>
    ensures { Gives (λ x. (x.0.items, x.1.now)) result (many (λ before. word_at) count [] bytes.now) }
{
    let mut places = Vec::new(alloc);
    let mut rest = bytes;
    for _ in 0..count {
        let (place, behind) = word(rest)?;
        places.push(place as usize)?;
        rest = behind;
    }
    places.shrink_to_fit();
    Ok((places, rest))
}

/// Places: how many there are, and each.
#[tactic(auto, unfolding(crate::specs::Reading::places_at))]
pub(crate) fn places(alloc: Global, bytes: &[u8]) -> Result<(Places, &[u8]), Stop>
    ensures { Gives (λ x. (x.0, x.1.now)) result (places_at bytes.now) }
{
    let (count, rest) = word(bytes)?;
    let (places, rest) = some_places(alloc, rest, count)?;
    Ok((Places::new(places), rest))
}

/// So many aggregates.
fn some_aggs(alloc: Global, bytes: &[u8], count: u32) -> Result<(Vec<Agg>, &[u8]), Stop>
    ensures { Gives (λ x. (x.0.items, x.1.now)) result (many (λ before. agg_at) count [] bytes.now) }
{
    let mut aggs = Vec::new(alloc);
    let mut rest = bytes;
    for _ in 0..count {
        let (agg, behind) = agg(rest)?;
        aggs.push(agg)?;
        rest = behind;
    }
    aggs.shrink_to_fit();
    Ok((aggs, rest))
}

/// Aggregates: how many there are, and each.
#[tactic(auto, unfolding(crate::specs::Reading::aggs_at))]
pub(crate) fn aggs(alloc: Global, bytes: &[u8]) -> Result<(Aggs, &[u8]), Stop>
    ensures { Gives (λ x. (x.0, x.1.now)) result (aggs_at bytes.now) }
{
    let (count, rest) = word(bytes)?;
    let (aggs, rest) = some_aggs(alloc, rest, count)?;
    Ok((Aggs::new(aggs), rest))
}
