//! The bodies of a pair as terms, from which the queries of its candidates are made.
ghost use Rattle.std.specs.Prelude.{◌≡◌, ◌<◌, IfOk, Some, length, slice_get};
ghost use Rattle.sd_product.specs.Work.{pairs_in, claims_in, queries_of};
ghost use Rattle.sd_product.specs.TruthQueries.{AreTruths};
ghost use Rattle.sd_product.specs.Bodies.{IsAbout};

use crate::facts::put_query;
use crate::sides::{Sides, put_sides};
use crate::work::Work;
use sd_base::NoMemory;
use sd_cand::LiveTable;
use sd_term::{Bank, Query};
use std::alloc::Global;
use std::marker::Model;

/// The two bodies of a pair, turned into terms once. The query of each of the pair's candidates is made from a copy
/// of these terms.
#[derive(Drop)]
pub struct PairBodies<'a> {
    work: &'a Work,
    pair: u32,
    bank: Bank,
    /// None where one of the procedures isn't there.
    sides: Option<Sides>,
}

impl<'a> Model for PairBodies<'a> {
    ghost use Rattle.std.specs.Coded.{codes};
    ghost use Rattle.sd_core.specs.contracts.tree.CoreProgram as program;
    ghost use Rattle.sd_product.specs.Bodies.{PairOf};

    ghost Value = { PairOf };

    ghost coded = { Prim.hlevel (codes, program.the_row.coded) };

    ghost use Rattle.sd_product.specs.BodiesInvariant.{pair_of, AreBodies};

    ghost view = { pair_of };

    ghost invariant = { AreBodies };
}

impl<'a> PairBodies<'a> {
    /// The bodies of a pair. More than 2^32 - 1 symbols are answered as out of memory.
    pub fn new(alloc: Global, work: &'a Work, pair: u32) -> Result<PairBodies<'a>, NoMemory>
        requires { pair < length (pairs_in work.now) }
        ensures { IfOk result (λ bodies. bodies ≡ record { work = work.now; pair = pair }) }
    {
        let own = work.pairs().pair(pair);
        let old = work.old_context();
        let new = work.new_context();
        let old_procedure = old.program.procs.get(own.old as usize);
        let new_procedure = new.program.procs.get(own.new as usize);
        let mut bank = Bank::new(alloc);
        let sides = put_sides(alloc, &mut bank, &old, &new, old_procedure, new_procedure)?;
        Ok(PairBodies {
            work,
            pair,
            bank,
            sides,
        })
    }

    /// The query of one of the pair's candidates under a table of live candidates: facts that no valuation makes true
    /// where the candidate holds, if the live candidates hold at calls (Hawblitzel and others 2013).
    pub fn query(&self, alloc: Global, table: &LiveTable, candidate: u32) -> Result<Query, NoMemory>
        requires about { IsAbout self.now.work candidate self.now.pair }
        requires size { length table.now ≡ length (claims_in self.now.work) }
        ensures query { IfOk result (λ q. slice_get (queries_of self.now.work table.now) candidate ≡ Some q) }
        ensures truths { IfOk result AreTruths }
    {
        let work = self.work;
        let obligation = work.obligation(table, candidate);
        let query = put_query(alloc, &obligation, &self.bank, &self.sides)?;
        Ok(query)
    }
}
