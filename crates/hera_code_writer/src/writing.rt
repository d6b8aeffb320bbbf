//! Code files, written.
ghost use Rattle.std.specs.Prelude.{◌≡◌, ◌∷◌, ◌++◌, [], List, ℕ, length, slice_get, Some, None, OnOk, IfOk, IfSome, IfNone};
ghost use Rattle.hera_code_file.specs.Printing.{word, list_bytes, option_bytes, schema_bytes, shape_bytes, scalar_bytes, const_bytes, sign_bytes, relation_bytes, agg_bytes, op_bytes, instr_bytes, slot_bytes, body_bytes, file_bytes};
ghost use Rattle.hera_code_file.specs.Fitting.{IsWord, IsRelation, Each, IsNamed, AggFits, ShapeFits, ConstFits, OpFits, InstrFits, SlotFits, BodyFits, FileFits};
ghost use Rattle.hera_code_writer.specs.Writable.{AreNames, ShapeStands, OpStands, InstrStands, SlotStands, BodyStands, FileStands};
ghost use Rattle.hera_code_file.specs.Files.{AreNoted, file_body, file_bodies, file_of};

use crate::putting::{
    put_byte, put_double, put_flag, put_half, put_relations, put_schema, put_word,
};
use hera_code::{Bodies, BodyInfo, Code, Instr, Instrs};
use hera_meaning::writing::put;
use hera_meaning::{Agg, Const, Line, Op, RelDecl, RelId, Scalar, Schema, Shape, Sign, Text};
use hera_row::shifted;
use hera_typed::{BodyNote, Notes, SlotNote};
use std::alloc::{AllocError, Global};

/// A shape: its number, and for tuples and relations a schema.
fn put_shape(out: &mut Vec<u8>, shape: &Shape) -> Result<(), AllocError>
    requires { ShapeStands shape.now }
    ensures text { OnOk result (out.new.items ≡ out.old.items ++ shape_bytes shape.now) }
    ensures fits { OnOk result (ShapeFits shape.now) }
{
    match shape {
        Shape::Int => put_byte(out, 0),
        Shape::Bool => put_byte(out, 1),
        Shape::Text => put_byte(out, 2),
        Shape::Tuple(schema) => {
            put_byte(out, 3)?;
            put_schema(out, schema)
        }
        Shape::Rel(schema) => {
            put_byte(out, 4)?;
            put_schema(out, schema)
        }
        Shape::Delta => put_byte(out, 5),
    }
}

/// A text behind its length.
fn put_text(out: &mut Vec<u8>, text: &Text) -> Result<(), AllocError>
    ensures text { OnOk result (out.new.items ≡ out.old.items ++ scalar_bytes (Scalar.Text text.now)) }
    ensures fits { OnOk result (ConstFits (Const.Scalar (Scalar.Text text.now))) }
{
    put_byte(out, 2)?;
    put_half(out, text.bytes().len() as u16)?;
    put(out, text.bytes())?;
    Ok(())
}

/// An int.
fn put_int(out: &mut Vec<u8>, value: i64) -> Result<(), AllocError>
    ensures text { OnOk result (out.new.items ≡ out.old.items ++ scalar_bytes (Scalar.Int value)) }
    ensures fits { OnOk result (ConstFits (Const.Scalar (Scalar.Int value))) }
{
    put_byte(out, 0)?;
    put_double(out, shifted(value))?;
    Ok(())
}

/// A bool.
fn put_bool(out: &mut Vec<u8>, value: bool) -> Result<(), AllocError>
    ensures { OnOk result (out.new.items ≡ out.old.items ++ scalar_bytes (Scalar.Bool value)) }
{
    put_byte(out, 1)?;
    put_flag(out, value)
}

/// A constant.
fn put_const(out: &mut Vec<u8>, constant: &Const) -> Result<(), AllocError>
    ensures text { OnOk result (out.new.items ≡ out.old.items ++ const_bytes constant.now) }
    ensures fits { OnOk result (ConstFits constant.now) }
{
    match constant {
        Const::Scalar(Scalar::Int(value)) => put_int(out, *value),
        Const::Scalar(Scalar::Bool(value)) => put_bool(out, *value),
        Const::Scalar(Scalar::Text(text)) => put_text(out, text),
        Const::EmptyDelta => put_byte(out, 3),
        Const::FailDelta => put_byte(out, 4),
    }
}

/// An atom's sign and the number of its relation.
fn put_atoms(out: &mut Vec<u8>, sign: Sign, rel: RelId) -> Result<(), AllocError>
    ensures text { OnOk result (out.new.items ≡ out.old.items ++ (sign_bytes sign ++ relation_bytes rel)) }
    ensures fits { OnOk result (IsRelation rel) }
{
    match sign {
        Sign::Plus => put_byte(out, 1)?,
        Sign::Minus => put_byte(out, 2)?,
    }
    put_half(out, rel.0)
}

/// The place of a field.
fn put_place(out: &mut Vec<u8>, place: usize) -> Result<(), AllocError>
    requires { IsWord place }
    ensures { OnOk result (out.new.items ≡ out.old.items ++ word place) }
{
    put_word(out, place as u32)
}

/// An aggregate: its number, and but for a count the place of a field.
fn put_agg(out: &mut Vec<u8>, agg: Agg) -> Result<(), AllocError>
    requires { AggFits agg }
    ensures { OnOk result (out.new.items ≡ out.old.items ++ agg_bytes agg) }
{
    match agg {
        Agg::Count => put_byte(out, 0),
        Agg::Sum(place) => put_with(out, 1, place),
        Agg::Min(place) => put_with(out, 2, place),
        Agg::Max(place) => put_with(out, 3, place),
    }
}

/// A byte, and the place of a field.
fn put_with(out: &mut Vec<u8>, n: u8, place: usize) -> Result<(), AllocError>
    requires { IsWord place }
    ensures { OnOk result (out.new.items ≡ out.old.items ++ n ∷ word place) }
{
    put_byte(out, n)?;
    put_place(out, place)
}

/// Places: how many there are, and each.
fn put_places(out: &mut Vec<u8>, places: &[usize]) -> Result<(), AllocError>
    requires { Each IsWord places.now }
    ensures { OnOk result (out.new.items ≡ out.old.items ++ list_bytes word places.now) }
{
    put_place(out, places.len())?;
    for place in places {
        put_place(out, *place)?;
    }
    Ok(())
}

/// Aggregates: how many there are, and each.
fn put_aggs(out: &mut Vec<u8>, aggs: &[Agg]) -> Result<(), AllocError>
    requires { Each AggFits aggs.now }
    ensures { OnOk result (out.new.items ≡ out.old.items ++ list_bytes agg_bytes aggs.now) }
{
    put_place(out, aggs.len())?;
    for agg in aggs {
        put_agg(out, *agg)?;
    }
    Ok(())
}

/// A number, a schema and the place of a field of it.
fn put_field(out: &mut Vec<u8>, n: u8, schema: &Schema, place: usize) -> Result<(), AllocError>
    requires names { AreNames schema.now }
    requires place { IsWord place }
    ensures text { OnOk result (out.new.items ≡ out.old.items ++ n ∷ schema_bytes schema.now ++ word place) }
    ensures fits { OnOk result (IsNamed schema.now × IsWord place) }
{
    put_byte(out, n)?;
    put_schema(out, schema)?;
    put_place(out, place)?;
    Ok(())
}

/// A number, and a relation's.
fn put_relation(out: &mut Vec<u8>, n: u8, rel: RelId) -> Result<(), AllocError>
    ensures text { OnOk result (out.new.items ≡ out.old.items ++ n ∷ relation_bytes rel) }
    ensures fits { OnOk result (IsRelation rel) }
{
    put_byte(out, n)?;
    put_half(out, rel.0)
}

/// A number, and a number of four bytes.
fn put_numbered(out: &mut Vec<u8>, n: u8, value: u32) -> Result<(), AllocError>
    ensures text { OnOk result (out.new.items ≡ out.old.items ++ n ∷ word value) }
    ensures fits { OnOk result (IsWord value) }
{
    put_byte(out, n)?;
    put_word(out, value)
}

/// An operation: its number, and its parts.
fn put_op(out: &mut Vec<u8>, op: &Op) -> Result<(), AllocError>
    requires { OpStands op.now }
    ensures text { OnOk result (out.new.items ≡ out.old.items ++ op_bytes op.now) }
    ensures fits { OnOk result (OpFits op.now) }
{
    match op {
        Op::Neg => put_byte(out, 0),
        Op::Not => put_byte(out, 1),
        Op::Add => put_byte(out, 2),
        Op::Sub => put_byte(out, 3),
        Op::Mul => put_byte(out, 4),
        Op::Div => put_byte(out, 5),
        Op::Rem => put_byte(out, 6),
        Op::Eq => put_byte(out, 7),
        Op::Ne => put_byte(out, 8),
        Op::Lt => put_byte(out, 9),
        Op::Le => put_byte(out, 10),
        Op::Gt => put_byte(out, 11),
        Op::Ge => put_byte(out, 12),
        Op::In => put_byte(out, 13),
        Op::Field(schema, place) => put_field(out, 14, schema, *place),
        Op::MakeRow(schema) => {
            put_byte(out, 15)?;
            put_schema(out, schema)
        }
        Op::MakeRel(n) => put_numbered(out, 16, *n),
        Op::Project(schema, places) => {
            put_byte(out, 17)?;
            put_schema(out, schema)?;
            put_places(out, places.items())?;
            Ok(())
        }
        Op::Union => put_byte(out, 18),
        Op::Minus => put_byte(out, 19),
        Op::Inter => put_byte(out, 20),
        Op::Join(left, right) => {
            put_byte(out, 21)?;
            put_schema(out, left)?;
            put_schema(out, right)?;
            Ok(())
        }
        Op::Group(schema, by, aggs) => {
            put_byte(out, 22)?;
            put_schema(out, schema)?;
            put_places(out, by.items())?;
            put_aggs(out, aggs.items())?;
            Ok(())
        }
        Op::Count => put_byte(out, 23),
        Op::Empty => put_byte(out, 24),
        Op::Sum(schema, place) => put_field(out, 25, schema, *place),
        Op::Min(schema, place) => put_field(out, 26, schema, *place),
        Op::Max(schema, place) => put_field(out, 27, schema, *place),
        Op::Atom(sign, rel) => {
            put_byte(out, 28)?;
            put_atoms(out, *sign, *rel)
        }
        Op::Bulk(sign, rel) => {
            put_byte(out, 29)?;
            put_atoms(out, *sign, *rel)
        }
        Op::Ins(rel) => put_relation(out, 30, *rel),
        Op::Del(rel) => put_relation(out, 31, *rel),
        Op::IsFail => put_byte(out, 32),
        Op::Smash => put_byte(out, 33),
        Op::Merge => put_byte(out, 34),
    }
}

/// An instruction: its number, and its parts.
fn put_instr(out: &mut Vec<u8>, instr: &Instr) -> Result<(), AllocError>
    requires { InstrStands instr.now }
    ensures text { OnOk result (out.new.items ≡ out.old.items ++ instr_bytes instr.now) }
    ensures fits { OnOk result (InstrFits instr.now) }
{
    match instr {
        Instr::Push(constant) => {
            put_byte(out, 0)?;
            put_const(out, constant)
        }
        Instr::Load(slot) => put_numbered(out, 1, *slot),
        Instr::Store(slot) => put_numbered(out, 2, *slot),
        Instr::Rel(rel) => put_relation(out, 3, *rel),
        Instr::Prim(op, at) => {
            put_byte(out, 4)?;
            put_op(out, op)?;
            put_word(out, *at)?;
            Ok(())
        }
        Instr::Host(host) => put_numbered(out, 5, *host),
        Instr::Jump(address) => put_numbered(out, 6, *address),
        Instr::Unless(address) => put_numbered(out, 7, *address),
        Instr::Back(address) => put_numbered(out, 8, *address),
        Instr::Enter(at) => put_numbered(out, 9, *at),
        Instr::Leave => put_byte(out, 10),
        Instr::Walk => put_byte(out, 11),
        Instr::Next(slot, address) => {
            put_numbered(out, 12, *slot)?;
            put_word(out, *address)?;
            Ok(())
        }
        Instr::Keep => put_byte(out, 13),
        Instr::Gather => put_byte(out, 14),
        Instr::Yield => put_byte(out, 15),
        Instr::Drop => put_byte(out, 16),
        Instr::Call(body) => put_numbered(out, 17, *body),
        Instr::Ret => put_byte(out, 18),
        Instr::RetVal => put_byte(out, 19),
        Instr::Print(shape) => {
            put_byte(out, 20)?;
            put_shape(out, shape)
        }
        Instr::Apply(at) => put_numbered(out, 21, *at),
        Instr::Commit => put_byte(out, 22),
        Instr::Rollback => put_byte(out, 23),
        Instr::Assert(at) => put_numbered(out, 24, *at),
        Instr::Halt => put_byte(out, 25),
    }
}

/// Instructions: how many there are, and each.
fn put_instrs(out: &mut Vec<u8>, instrs: &Instrs) -> Result<(), AllocError>
    requires { Each InstrStands instrs.now }
    ensures text { OnOk result (out.new.items ≡ out.old.items ++ list_bytes instr_bytes instrs.now) }
    ensures fits { OnOk result (Each InstrFits instrs.now) }
{
    put_place(out, instrs.len())?;
    for at in 0..instrs.len() {
        put_instr(out, instrs.at(at))?;
    }
    Ok(())
}

/// A schema, where there is one.
fn put_option_schema(out: &mut Vec<u8>, schema: &Option<Schema>) -> Result<(), AllocError>
    requires { IfSome schema.now AreNames }
    ensures text { OnOk result (out.new.items ≡ out.old.items ++ option_bytes schema_bytes schema.now) }
    ensures fits { OnOk result (IfSome schema.now IsNamed) }
{
    match schema {
        Some(schema) => {
            put_byte(out, 1)?;
            put_schema(out, schema)
        }
        None => put_byte(out, 0),
    }
}

/// A shape, where there is one.
fn put_option_shape(out: &mut Vec<u8>, shape: &Option<Shape>) -> Result<(), AllocError>
    requires { IfSome shape.now ShapeStands }
    ensures text { OnOk result (out.new.items ≡ out.old.items ++ option_bytes shape_bytes shape.now) }
    ensures fits { OnOk result (IfSome shape.now ShapeFits) }
{
    match shape {
        Some(shape) => {
            put_byte(out, 1)?;
            put_shape(out, shape)
        }
        None => put_byte(out, 0),
    }
}

/// What is noted of a slot.
fn put_slot(out: &mut Vec<u8>, slot: &SlotNote) -> Result<(), AllocError>
    requires { SlotStands slot.now }
    ensures text { OnOk result (out.new.items ≡ out.old.items ++ slot_bytes slot.now) }
    ensures fits { OnOk result (SlotFits slot.now) }
{
    put_shape(out, &slot.shape)?;
    put_word(out, slot.from)?;
    put_word(out, slot.to)?;
    put_option_schema(out, &slot.gathers)?;
    Ok(())
}

/// Slots: how many there are, and each.
fn put_slots(out: &mut Vec<u8>, slots: &[SlotNote]) -> Result<(), AllocError>
    requires { Each SlotStands slots.now }
    ensures text { OnOk result (out.new.items ≡ out.old.items ++ list_bytes slot_bytes slots.now) }
    ensures fits { OnOk result (Each SlotFits slots.now) }
{
    put_place(out, slots.len())?;
    for slot in slots {
        put_slot(out, slot)?;
    }
    Ok(())
}

/// A body and its note.
fn put_body(out: &mut Vec<u8>, info: BodyInfo, note: &BodyNote) -> Result<(), AllocError>
    requires { BodyStands (file_body info note.now) }
    ensures text { OnOk result (out.new.items ≡ out.old.items ++ body_bytes (file_body info note.now)) }
    ensures fits { OnOk result (BodyFits (file_body info note.now)) }
{
    put_word(out, info.at)?;
    put_word(out, info.params)?;
    put_flag(out, info.func)?;
    put_option_shape(out, &note.result)?;
    put_slots(out, &note.slots)?;
    Ok(())
}

/// The body of a number, and its note.
fn noted_at<'a>(
    bodies: &Bodies,
    notes: &'a [BodyNote],
    k: usize,
) -> Option<(BodyInfo, &'a BodyNote)>
    ensures some { IfSome result (λ x. slice_get (file_bodies bodies.now notes.entry.now) k ≡ Some (file_body x.0 x.1.now)) }
    ensures none { IfNone result (slice_get (file_bodies bodies.now notes.entry.now) k ≡ None) }
{
    match bodies.get(k) {
        None => None,
        Some(info) => match notes.get(k) {
            None => None,
            Some(note) => Some((info, note)),
        },
    }
}

/// Bodies and their notes: how many there are, and each.
fn put_bodies(out: &mut Vec<u8>, bodies: &Bodies, notes: &[BodyNote]) -> Result<(), AllocError>
    requires noted { AreNoted bodies.now notes.now }
    requires stands { Each BodyStands (file_bodies bodies.now notes.now) }
    ensures text { OnOk result (out.new.items ≡ out.old.items ++ list_bytes body_bytes (file_bodies bodies.now notes.now)) }
    ensures fits { OnOk result (Each BodyFits (file_bodies bodies.now notes.now)) }
{
    put_place(out, bodies.len())?;
    for k in 0..bodies.len() {
        let Some(found) = noted_at(bodies, notes, k) else {
            unreachable!();
        };
        let (info, note) = found;
        put_body(out, info, note)?;
    }
    Ok(())
}

/// The code file of code over these relations, and of its notes.
pub fn write_code(
    alloc: Global,
    relations: &[RelDecl],
    code: &Code,
    notes: &Notes,
) -> Result<Line, AllocError>
    // There is a note for each body, with as many slots as the body has.
    requires noted { AreNoted code.now.bodies notes.now.bodies.items }
    // The relations are a catalogue, each name has an identifier's shape, and each place and each length has four bytes.
    requires stands { FileStands (file_of relations.now code.now notes.now) }
    ensures text { IfOk result (λ line. line ≡ file_bytes (file_of relations.now code.now notes.now)) }
    // It is a file that is read back.
    ensures fits { OnOk result (FileFits (file_of relations.now code.now notes.now)) }
{
    let mut out = Vec::from_slice(alloc, b"HERACODE")?;
    put_relations(&mut out, relations)?;
    put_bodies(&mut out, &code.bodies, &notes.bodies)?;
    put_instrs(&mut out, &code.instrs)?;
    Ok(Line::new(out))
}
