//! What the rules on types come to.
ghost use Rattle.sd_types.specs.Typing.{TypesAreExact};
ghost use Rattle.sd_types.specs.TypedBodies.{BodiesAreTyped};
ghost use Rattle.sd_types.specs.WellTypedStatements.{StatementsAreExact};
ghost use Rattle.sd_types.specs.WellTyped.{WellTypedIsExact};

/// An expression gets a type exactly if its parts have types that fit together, wherever it stands.
pub fn types_are_exact()
    ensures { TypesAreExact }
{}

/// In the bodies of a well-typed program each expression has the type that it is used at: conditions are truth values,
/// both sides of an assignment agree, and so do arguments and receivers with the callee. `break` stands in loops alone.
pub fn bodies_are_typed()
    ensures { BodiesAreTyped }
{}

/// Statements break no rule exactly where each is well typed: what is assigned may be changed and has the type of its
/// value, callees are declared, have a body and modify no more than their caller, and `break` stands in a loop.
pub fn statements_are_exact()
    ensures { StatementsAreExact }
{}

/// A program breaks no rule, so that `check` gives it back, exactly where it is well typed: each name is declared once,
/// what is used is declared, each expression has the type of its place, and only what may be changed is changed.
pub fn well_typed_is_exact()
    ensures { WellTypedIsExact }
{}
