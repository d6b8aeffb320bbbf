//! The four hosts, called by their numbers, and a name that is taken.
use hera_host::{HostCall, HostFault, HostFn, HostTable};
use hera_meaning::{HostAnswer, HostSpec, Kind, Scalar, Text};
use program_hosts::{band, bucket, clamp, is_sku, program_hosts};
use std::alloc::Global;
use std::test::Fail;

/// What a host answers for an int, and `None` where it takes none.
fn answer_for_int(table: &HostTable, id: u32, arg: i64) -> Option<HostAnswer> {
    if id >= table.len() || table.param(id) != Kind::Int {
        return None;
    }
    let arg = Scalar::Int(arg);
    let answer = table.call(id, &arg);
    drop(arg);
    Some(answer)
}

/// What a host answers for a text, and `None` where it takes none.
fn answer_for_text(table: &HostTable, id: u32, text: Text) -> Option<HostAnswer> {
    if id >= table.len() || table.param(id) != Kind::Text {
        drop(text);
        return None;
    }
    let arg = Scalar::Text(text);
    let answer = table.call(id, &arg);
    drop(arg);
    Some(answer)
}

/// Whether the table has four hosts, which are found by their names.
fn are_found(table: &HostTable) -> bool {
    table.len() == 4
        && table.find(b"is_sku") == Some(2)
        && table.find(b"sku").is_none()
        && table.result(0) == Kind::Bool
}

/// Whether each of the four hosts gives one of its answers.
fn answer(alloc: Global, table: &HostTable) -> Result<bool, Fail> {
    let text = Text::new(alloc, b"SKU-7")?;
    Ok(
        answer_for_text(table, 2, text) == Some(HostAnswer::Bool(true))
            && answer_for_int(table, 0, 101) == Some(HostAnswer::Bool(false))
            && answer_for_int(table, 1, i64::MIN) == Some(HostAnswer::Int(-922_337_203_685_477_581))
            && answer_for_int(table, 3, 250) == Some(HostAnswer::Int(100)),
    )
}

#[test]
fn the_program_lends_four_hosts(rt: HostRuntime) -> Result<(), Fail> {
    let alloc = rt.alloc();
    let table = program_hosts(
        alloc,
        Box::new(alloc, |arg: &Scalar| band(arg))?,
        Box::new(alloc, |arg: &Scalar| bucket(arg))?,
        Box::new(alloc, |arg: &Scalar| is_sku(arg))?,
        Box::new(alloc, |arg: &Scalar| clamp(arg))?,
    )?;
    let are_found = are_found(&table);
    let answer = answer(alloc, &table);
    drop(table);
    assert!(rt; are_found);
    assert!(rt; answer?);
    Ok(())
}

/// Whether a table of four hosts refuses a further one named `band`, and stays.
fn refuses(table: &mut HostTable, new: HostFn) -> bool {
    if table.len() != 4 {
        drop(new);
        return false;
    }
    match table.add(new) {
        Err((host, HostFault::NameTaken)) => {
            let is_given_back = host.name.bytes() == b"band".as_slice();
            drop(host);
            is_given_back && table.len() == 4
        }
        Err((host, HostFault::Memory)) => {
            drop(host);
            false
        }
        Ok(()) => false,
    }
}

#[test]
fn a_taken_name_is_refused(rt: HostRuntime) -> Result<(), Fail> {
    let alloc = rt.alloc();
    let mut table = program_hosts(
        alloc,
        Box::new(alloc, |arg: &Scalar| band(arg))?,
        Box::new(alloc, |arg: &Scalar| bucket(arg))?,
        Box::new(alloc, |arg: &Scalar| is_sku(arg))?,
        Box::new(alloc, |arg: &Scalar| clamp(arg))?,
    )?;
    let spec = HostSpec::Clamp { lo: 0, hi: 100 };
    let call: HostCall = Box::new(alloc, |arg: &Scalar| clamp(arg))?;
    let refuses = refuses(
        &mut table,
        HostFn::new(Text::new(alloc, b"band")?, spec, call),
    );
    drop(table);
    assert!(rt; refuses);
    Ok(())
}
