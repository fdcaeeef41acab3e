//! Public calls that no text reaches that is compared today.
use sd_base::{Name, NoMemory, Sort, Var, indices_of, is_same_sort, values_of};
use sd_core::{CoreExpr, CoreProc, CoreStmt, Spot, same_body};
use sd_parse::read_program;
use sd_rows::Form;
use sqlite_items::{Boxed, Items};
use std::alloc::Global;
use std::test::Fail;

#[test]
fn a_map_has_indices_and_values(rt: HostRuntime) -> Result<(), NoMemory> {
    let alloc = rt.alloc();
    let index = Boxed::new(alloc, Sort::Int)?;
    let value = Boxed::new(alloc, Sort::Bool)?;
    let map = Sort::Map(index, value);
    assert!(rt; is_same_sort(&indices_of(alloc, &map)?, &Sort::Int));
    assert!(rt; is_same_sort(&values_of(alloc, &map)?, &Sort::Bool));
    Ok(())
}

/// A copy of a program has as many declarations.
#[test]
fn a_program_of_the_whole_grammar_is_copied(rt: HostRuntime) -> Result<(), Fail> {
    let text = b"type Account; const unique bank: Account; function f(x: int): bool; axiom f(1);
    var balance: [Account]int;
    procedure Withdraw(a: Account, n: int) returns (ok: bool) modifies balance; {
        ok := false;
        if (n <= balance[a]) { balance[a] := balance[a] - n; ok := true; }
        assert balance[a] >= 0 || !ok;
    }
    procedure Transfer(a: Account, b: Account, n: int) returns (ok: bool) requires n >= 0; modifies balance; {
        call ok := Withdraw(a, n);
        while (ok) invariant n * 2 >= 0; { balance[b] := balance[b] + n; break; }
    }";
    let program = read_program(rt.alloc(), text)?;
    let copy = program.clone_of(rt.alloc())?;
    assert_eq!(rt; copy.decls.len(), 7);
    Ok(())
}

fn only<T: Drop>(alloc: Global, item: T) -> Result<Items<T>, NoMemory> {
    let mut items = Items::new(alloc);
    items.push(item)?;
    Ok(items)
}

/// Where the global holds, the callee gives the local its value. Else the procedure fails.
fn calling(alloc: Global, name: &[u8], global: u32, callee: u32) -> Result<CoreProc, NoMemory> {
    let spot = Spot::Slot(0);
    let call = CoreStmt::Call(only(alloc, spot)?, callee, only(alloc, CoreExpr::At(spot))?);
    let choice = CoreStmt::If(
        CoreExpr::At(Spot::Global(global)),
        only(alloc, call)?,
        only(alloc, CoreStmt::Fail)?,
    );
    let local = Var {
        name: Name::new(alloc, name)?,
        sort: Sort::Bool,
    };
    Ok(CoreProc {
        name: Name::new(alloc, name)?,
        parent: None,
        ins: Items::new(alloc),
        outs: Items::new(alloc),
        locals: only(alloc, local)?,
        modifies: Items::new(alloc),
        body: only(alloc, choice)?,
    })
}

#[test]
fn bodies_are_the_same_once_renumbered(rt: HostRuntime) -> Result<(), NoMemory> {
    let old = calling(rt.alloc(), b"old", 0, 1)?;
    let new = calling(rt.alloc(), b"new", 2, 4)?;
    assert!(rt; same_body(&old, &new, &[None, Some(4)], &[Some(2)]));
    assert!(rt; !same_body(&old, &new, &[None, Some(3)], &[Some(2)]));
    assert!(rt; !same_body(&old, &new, &[None, Some(4)], &[Some(0)]));
    assert!(rt; !same_body(&old, &new, &[], &[]));
    Ok(())
}

#[test]
fn a_form_beyond_the_bounds_is_a_column(rt: HostRuntime) -> Result<(), Fail> {
    let alloc = rt.alloc();
    let large = Form::of_number(alloc, 73_786_976_294_838_206_465).bounded(alloc, 8)?;
    assert_eq!(rt; large.parts.as_slice(), [(8, 1)].as_slice());
    Ok(())
}
