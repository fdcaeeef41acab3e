//! The trees of the core language.

use sd_base::{Name, Sort, Var};
use sqlite_items::Items;

/// A program of the core language.
#[derive(Drop)]
pub struct CoreProgram {
    /// The procedures. A call names its callee by its place in this list.
    pub procs: Items<CoreProc>,
    pub globals: Items<Var>,
    pub functions: Items<Function>,
    pub axioms: Items<CoreExpr>,
    /// The constants that have different values where they have one type.
    pub uniques: Items<Var>,
}

/// A function, or a constant, which has no arguments.
#[derive(Drop)]
pub struct Function {
    pub name: Name,
    pub args: Items<Sort>,
    pub result: Sort,
    pub constant: bool,
}

/// A procedure. Its slots are numbered from 0: the in-parameters, then the out-parameters, then the locals.
#[derive(Drop)]
pub struct CoreProc {
    pub name: Name,
    /// For the procedure of a loop, the procedure that the loop stands in, and which of its loops it is, from 1.
    pub parent: Option<(u32, u32)>,
    pub ins: Items<Var>,
    pub outs: Items<Var>,
    pub locals: Items<Var>,
    /// The globals that a run may change, by their places.
    pub modifies: Items<u32>,
    pub body: Items<CoreStmt>,
}

/// A place in the state: a slot of the procedure, or a global.
#[derive(Clone, Copy, Debug, PartialEq, Eq)]
pub enum Spot {
    Slot(u32),
    Global(u32),
}

/// A statement.
#[derive(Drop)]
pub enum CoreStmt {
    /// Spots with expressions, by position. All expressions are evaluated first.
    Assign(Items<Spot>, Items<CoreExpr>),
    /// The condition, the statements where it holds, and those where it doesn't.
    If(CoreExpr, Items<CoreStmt>, Items<CoreStmt>),
    /// The spots that receive the results, the callee, and the arguments.
    Call(Items<Spot>, u32, Items<CoreExpr>),
    Assume(CoreExpr),
    /// Ends the procedure with its flag up.
    Fail,
    /// Ends the procedure with its flag down.
    Return,
}

/// An expression.
#[derive(Drop)]
pub enum CoreExpr {
    Num(u64),
    Truth(bool),
    At(Spot),
    Const(Name),
    Apply(Name, Items<CoreExpr>),
    Op(CoreOp, Items<CoreExpr>),
}

/// An operator. `Read` takes a map and an index, and `Write` a map, an index and the new value there.
#[derive(Clone, Copy, Debug, PartialEq, Eq)]
pub enum CoreOp {
    Not,
    And,
    Or,
    Eq,
    Le,
    Add,
    Sub,
    Mul,
    Neg,
    Read,
    Write,
}

/// A global that two programs share, by its place in the one and in the other.
#[derive(Clone, Copy, Debug, PartialEq, Eq)]
pub struct Shared {
    pub old: u32,
    pub new: u32,
}
