//! A small file, verified as it is and spoiled.
ghost use Rattle.std.specs.Prelude.{◌≤◌, IfOk};
ghost use Rattle.hera_code_file.specs.Files.{AreNoted};

use hera_code_file::{CodeFile, read_code};
use hera_host::HostTable;
use hera_verify::{VerifyFault, verify};
use std::alloc::Global;
use std::test::Fail;

/// The file of `main { print 2 + 3 * 4; }`.
const FILE: [u8; 77] = [
    0x48, 0x45, 0x52, 0x41, 0x43, 0x4f, 0x44, 0x45, 0, 0, 0, 0, 0, 1, 0, 0, 0, 0, 0, 0, 0, 0, 0, 0,
    0, 0, 0, 0, 0, 0, 0, 7, 0, 0, 0x80, 0, 0, 0, 0, 0, 0, 2, 0, 0, 0x80, 0, 0, 0, 0, 0, 0, 3, 0, 0,
    0x80, 0, 0, 0, 0, 0, 0, 4, 4, 4, 0, 0, 0, 0x13, 4, 2, 0, 0, 0, 0x0f, 0x14, 0, 0x19,
];

/// The file with another byte at a place, read.
fn spoiled(alloc: Global, place: usize, value: u8) -> Result<CodeFile, Fail>
    ensures { IfOk result (λ file. AreNoted file.code.bodies file.notes.bodies.items) }
{
    let mut bytes = Vec::from_slice(alloc, &FILE)?;
    if let Some(byte) = bytes.get_mut(place) {
        *byte = value;
    }
    match read_code(alloc, &bytes) {
        Ok(file) => Ok(file),
        Err(_) => Err("the bytes are no file".into()),
    }
}

/// Puts numbers of four bytes behind the others.
fn put(bytes: &mut Vec<u8>, numbers: &[u32]) -> Result<(), Fail> {
    for number in numbers {
        bytes.extend_from_slice(&number.to_be_bytes())?;
    }
    Ok(())
}

/// Two bodies, of which the second has so many bools as parameters and begins at an address.
fn put_bodies(bytes: &mut Vec<u8>, params: u32, at: u32) -> Result<(), Fail> {
    bytes.extend_from_slice(b"HERACODE\0\0")?;
    put(bytes, &[2, 0, 0])?;
    bytes.extend_from_slice(&[0, 0])?;
    put(bytes, &[0, at, params])?;
    bytes.extend_from_slice(&[0, 0])?;
    put(bytes, &[params])?;
    for _ in 0..params {
        bytes.extend_from_slice(&[1, 0, 0, 0, 0, 0, 0, 0, 0, 0])?;
    }
    Ok(())
}

/// So many branches, each with one operand more below its call of the second body.
fn put_branches(bytes: &mut Vec<u8>, count: u32) -> Result<(), Fail>
    requires { count ≤ 10000 }
{
    for branch in 0..count {
        bytes.extend_from_slice(&[0, 1, 1, 0, 1, 1, 7])?;
        put(bytes, &[count + 5 * branch + 5])?;
        bytes.extend_from_slice(&[0x11, 0, 0, 0, 1, 0x19])?;
    }
    Ok(())
}

/// A file with so many branches, in which each call looks at as many operands.
fn branched(alloc: Global, count: u32) -> Result<CodeFile, Fail>
    requires { count ≤ 10000 }
    ensures { IfOk result (λ file. AreNoted file.code.bodies file.notes.bodies.items) }
{
    let mut bytes = Vec::new(alloc);
    put_bodies(&mut bytes, count, 6 * count + 1)?;
    put(&mut bytes, &[6 * count + 2])?;
    for _ in 0..count {
        bytes.extend_from_slice(&[0, 1, 1])?;
    }
    put_branches(&mut bytes, count)?;
    bytes.extend_from_slice(&[0x19, 0x12])?;
    match read_code(alloc, &bytes) {
        Ok(file) => Ok(file),
        Err(_) => Err("the bytes are no file".into()),
    }
}

/// Where the file is rejected. None where it is verified.
fn rejected_at(alloc: Global, file: &CodeFile) -> Result<Option<u32>, Fail>
    requires { AreNoted file.now.code.bodies file.now.notes.bodies.items }
{
    if file.code.instrs.len() >= 1 << 32 {
        return Err("the file is too long".into());
    }
    match verify(alloc, file, &HostTable::new(alloc)) {
        Ok(()) => Ok(None),
        Err(VerifyFault::Rejected { at }) => Ok(Some(at)),
        Err(VerifyFault::Memory) => Err("memory ran out".into()),
    }
}

/// Whether the verifier gives up for want of memory.
fn gives_up(alloc: Global, file: &CodeFile) -> Result<bool, Fail>
    requires { AreNoted file.now.code.bodies file.now.notes.bodies.items }
{
    if file.code.instrs.len() >= 1 << 32 {
        return Err("the file is too long".into());
    }
    match verify(alloc, file, &HostTable::new(alloc)) {
        Err(VerifyFault::Memory) => Ok(true),
        _ => Ok(false),
    }
}

/// Where the file with another byte at a place is rejected. None where it is verified.
fn spoiled_is_rejected_at(alloc: Global, place: usize, value: u8) -> Result<Option<u32>, Fail> {
    let file = spoiled(alloc, place, value)?;
    let at = rejected_at(alloc, &file);
    drop(file);
    at
}

#[test]
fn code_is_verified_or_rejected_where_it_breaks(rt: HostRuntime) -> Result<(), Fail> {
    // As it is; Mul made Not; a bool printed; Halt made Ret, which stands in main; Halt made Commit, which ends no code.
    let cases = [
        (0, 0x48, None),
        (63, 1, Some(3)),
        (75, 1, Some(5)),
        (76, 0x12, Some(6)),
        (76, 0x16, Some(7)),
    ];
    for (place, value, at) in cases {
        assert!(rt; spoiled_is_rejected_at(rt.alloc(), place, value)? == at);
    }
    Ok(())
}

/// Where a file with 1,000 branches is rejected. None where it is verified.
fn few_are_rejected_at(alloc: Global) -> Result<Option<u32>, Fail> {
    let few = branched(alloc, 1_000)?;
    let at = rejected_at(alloc, &few);
    drop(few);
    at
}

/// Whether the verifier gives up on a file with 1,300 branches: 1,690,000 looks, where 1,048,576 and 16 for each of 7,802
/// instructions are taken.
fn many_are_given_up(alloc: Global) -> Result<bool, Fail> {
    let many = branched(alloc, 1_300)?;
    let are_given_up = gives_up(alloc, &many);
    drop(many);
    are_given_up
}

#[test]
fn calls_take_a_bounded_number_of_looks(rt: HostRuntime) -> Result<(), Fail> {
    assert!(rt; few_are_rejected_at(rt.alloc())?.is_none());
    assert!(rt; many_are_given_up(rt.alloc())?);
    Ok(())
}
