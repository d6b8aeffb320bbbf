//! A small file, read, spoiled and written.
use hera_code::{Instr, Instrs};
use hera_code_file::{CodeFault, read_code};
use hera_code_writer::write_code;
use std::alloc::Global;
use std::test::Fail;

/// The file of `main { print 2 + 3 * 4; }`.
pub(crate) const FILE: [u8; 77] = [
    0x48, 0x45, 0x52, 0x41, 0x43, 0x4f, 0x44, 0x45, 0, 0, 0, 0, 0, 1, 0, 0, 0, 0, 0, 0, 0, 0, 0, 0,
    0, 0, 0, 0, 0, 0, 0, 7, 0, 0, 0x80, 0, 0, 0, 0, 0, 0, 2, 0, 0, 0x80, 0, 0, 0, 0, 0, 0, 3, 0, 0,
    0x80, 0, 0, 0, 0, 0, 0, 4, 4, 4, 0, 0, 0, 0x13, 4, 2, 0, 0, 0, 0x0f, 0x14, 0, 0x19,
];

/// Where the bytes are bad. None where they are read.
fn bad_at(alloc: Global, bytes: &[u8]) -> Result<Option<u64>, Fail> {
    match read_code(alloc, bytes) {
        Ok(_) => Ok(None),
        Err(CodeFault::BadCode { at }) => Ok(Some(at)),
        Err(CodeFault::Memory) => Err("memory ran out".into()),
    }
}

/// The file with another byte at a place.
pub(crate) fn spoiled(alloc: Global, place: usize, value: u8) -> Result<Vec<u8>, Fail> {
    let mut bytes = Vec::from_slice(alloc, &FILE)?;
    if let Some(byte) = bytes.get_mut(place) {
        *byte = value;
    }
    Ok(bytes)
}

#[test]
fn a_fault_is_told_at_its_field(rt: HostRuntime) -> Result<(), Fail> {
    let spoils = [
        (0, 0),
        (22, 2),
        (23, 2),
        (33, 5),
        (63, 35),
        (74, 26),
        (75, 6),
    ];
    for (place, value) in spoils {
        let bytes = spoiled(rt.alloc(), place, value)?;
        assert_eq!(rt; bad_at(rt.alloc(), &bytes)?, Some(place as u64));
    }
    assert_eq!(rt; bad_at(rt.alloc(), &FILE[..76])?, Some(76));
    assert_eq!(rt; bad_at(rt.alloc(), &FILE[..40])?, Some(34));
    let mut longer = Vec::from_slice(rt.alloc(), &FILE)?;
    longer.push(0)?;
    assert_eq!(rt; bad_at(rt.alloc(), &longer)?, Some(77));
    let many_instrs = spoiled(rt.alloc(), 28, 255)?;
    assert_eq!(rt; bad_at(rt.alloc(), &many_instrs)?, Some(77));
    Ok(())
}

#[test]
fn a_file_is_written_as_it_was_read(rt: HostRuntime) -> Result<(), Fail> {
    match read_code(rt.alloc(), &FILE) {
        Ok(file) => {
            assert_eq!(rt; file.code.instrs.len(), 7);
            let line = write_code(rt.alloc(), &file.relations, &file.code, &file.notes)?;
            assert_eq!(rt; line.bytes(), FILE.as_slice());
            Ok(())
        }
        Err(_) => Err("the bytes are a file".into()),
    }
}

/// A file of 144,000 instructions in one body: `leave`, the constant true and a load, again and again.
fn long_file(alloc: Global) -> Result<Vec<u8>, Fail> {
    let mut bytes = Vec::from_slice(alloc, &FILE[..28])?;
    bytes.extend_from_slice(&144_000_u32.to_be_bytes())?;
    for _ in 0..48_000 {
        bytes.extend_from_slice(&[10, 0, 1, 1, 1, 0, 0, 0, 9])?;
    }
    Ok(bytes)
}

/// Whether these are the long file's instructions, where the row ends and behind it too.
fn are_long(instrs: &Instrs) -> bool {
    instrs.len() == 144_000
        && matches!(instrs.get(0), Some(Instr::Leave))
        && matches!(instrs.near(131_071), Some(Instr::Push(_)))
        && instrs.near(131_072).is_none()
        && matches!(instrs.get(131_071), Some(Instr::Push(_)))
        && matches!(instrs.get(131_072), Some(Instr::Load(9)))
        && matches!(instrs.get(131_073), Some(Instr::Leave))
        && matches!(instrs.get(143_998), Some(Instr::Push(_)))
        && matches!(instrs.get(143_999), Some(Instr::Load(9)))
        && instrs.get(144_000).is_none()
}

#[test]
fn far_instructions_are_read_as_the_first_ones(rt: HostRuntime) -> Result<(), Fail> {
    let bytes = long_file(rt.alloc())?;
    let Ok(file) = read_code(rt.alloc(), &bytes) else {
        return Err("the bytes are a file".into());
    };
    let are = are_long(&file.code.instrs);
    drop(file);
    assert!(rt; are);
    Ok(())
}
