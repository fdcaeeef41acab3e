//! The axioms of a program as terms.
ghost use Rattle.std.specs.Prelude.{[], IfOk, OnOk, map};
ghost use Rattle.sd_term.specs.Build.{Extends};
ghost use Rattle.sd_vcgen.specs.Body.{term_in};
ghost use Rattle.sd_vcgen.specs.Numbers.{DenoteAll};

use crate::expression::put_expressions;
use crate::spots::Spots;
use sd_base::NoMemory;
use sd_core::CoreProgram;
use sd_term::{Bank, TermId};
use sqlite_items::Items;

/// The terms of a program's axioms, in their order. An axiom speaks of no spots.
pub fn put_axioms(bank: &mut Bank, program: &CoreProgram) -> Result<Items<TermId>, NoMemory>
    ensures terms { IfOk result (λ ids. DenoteAll bank.new ids
        (map (term_in program.now.functions (record { slots = []; globals = [] })) program.now.axioms)) }
    ensures kept { OnOk result (Extends bank.old bank.new) }
{
    let slots = Items::new(bank.allocator());
    let globals = Items::new(bank.allocator());
    let spots = Spots { slots, globals };
    let functions = program.functions.as_slice();
    let terms = put_expressions(bank, functions, &spots, program.axioms.as_slice())?;
    Ok(terms)
}
