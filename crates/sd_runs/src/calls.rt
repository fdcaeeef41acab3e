//! Which procedures a body calls, and whether it can fail by itself.
ghost use Rattle.std.specs.Prelude.{◌≡◌, ◌++◌, IfOk, OnOk};
ghost use Rattle.sd_runs.specs.Calls.{callees, callees_of, has_fail, any_fail};

use sd_base::NoMemory;
use sd_core::CoreStmt;
use std::alloc::Global;

/// The callees of a body in text order, one for each call.
pub fn callees_of(alloc: Global, body: &[CoreStmt]) -> Result<Vec<u32>, NoMemory>
    ensures { IfOk result (λ v. v.items ≡ callees_of body.now) }
{
    let mut found = Vec::new(alloc);
    put_callees(&mut found, body)?;
    Ok(found)
}

#[cycle(put)]
fn put_callees(found: &mut Vec<u32>, body: &[CoreStmt]) -> Result<(), NoMemory>
    ensures { OnOk result (found.new.items ≡ found.old.items ++ callees_of body.now) }
{
    for statement in body {
        put_callees_in(found, statement)?;
    }
    Ok(())
}

#[cycle(put)]
fn put_callees_in(found: &mut Vec<u32>, statement: &CoreStmt) -> Result<(), NoMemory>
    ensures { OnOk result (found.new.items ≡ found.old.items ++ callees statement.now) }
{
    match statement {
        CoreStmt::If(_, yes, no) => {
            put_callees(found, yes.as_slice())?;
            put_callees(found, no.as_slice())?;
        }
        CoreStmt::Call(_, callee, _) => found.push(*callee)?,
        _ => {}
    }
    Ok(())
}

/// Whether a failure stands in a body.
#[cycle(fail)]
pub fn any_fail(body: &[CoreStmt]) -> bool
    ensures { result ≡ any_fail body.now }
{
    for statement in body {
        if has_fail(statement) {
            return true;
        }
    }
    false
}

#[cycle(fail)]
fn has_fail(statement: &CoreStmt) -> bool
    ensures { result ≡ has_fail statement.now }
{
    match statement {
        CoreStmt::If(_, yes, no) => any_fail(yes.as_slice()) || any_fail(no.as_slice()),
        CoreStmt::Fail => true,
        _ => false,
    }
}
