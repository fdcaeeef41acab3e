//! The facts of a query.
ghost use Rattle.std.specs.Prelude.{◌≡◌, ◌<◌, [], All, IfOk, OnOk, length};
ghost use Rattle.sd_term.specs.Bank.{tree_at};
ghost use Rattle.sd_term.specs.Build.{Extends};
ghost use Rattle.sd_vcgen.specs.Numbers.{Denotes, DenoteAll};
ghost use Rattle.sd_product.specs.Query.{axioms_of, conditions_of, all_related, premises_of, claim_of, facts_of, query_of};
ghost use Rattle.sd_product.specs.Numbers.{Adds};
ghost use Rattle.sd_product.specs.Sides.{side_at, IsSideWithin};
ghost use Rattle.sd_product.specs.TruthQueries.{AreTruths};
ghost use Rattle.sd_product.specs.Obligations.{work_in, infallibles_in, candidate_in, HasTables, IsSorted, AreSidesFor};

use crate::apart::put_uniques;
use crate::calls::{Claims, put_all_related};
use crate::relations::{EndTerms, put_claim, put_relations};
use crate::sides::{Side, Sides, side_ends, side_inputs};
use sd_base::{CloneOf, NoMemory};
use sd_cand::{Candidate, LiveTable};
use sd_core::CoreProgram;
use sd_match::Pair;
use sd_term::{Bank, Query, TermId};
use sd_vcgen::{Context, put_axioms};
use sqlite_items::Items;
use std::alloc::Global;

/// What a query is about: a candidate of a pair, and what is known of the calls of the two programs.
#[derive(Clone, Copy)]
pub(crate) struct Obligation<'a> {
    pub(crate) old: Context<'a>,
    pub(crate) new: Context<'a>,
    pub(crate) claims: Claims<'a>,
    /// Which candidates are live.
    pub(crate) table: &'a LiveTable,
    pub(crate) pair: &'a Pair,
    pub(crate) candidate: &'a Candidate,
}

// ---- premises

fn put_program_axioms(
    bank: &mut Bank,
    facts: &mut Items<TermId>,
    program: &CoreProgram,
) -> Result<(), NoMemory>
    requires { All (λ id. id < length bank.old) facts.old }
    ensures { OnOk result (Adds bank.old facts.old bank.new facts.new (axioms_of program.now)) }
{
    let axioms = put_axioms(bank, program)?;
    facts.append(axioms)?;
    Ok(())
}

fn put_conditions(
    bank: &mut Bank,
    facts: &mut Items<TermId>,
    obligation: &Obligation<'_>,
    old: &Side,
    new: &Side,
) -> Result<(), NoMemory>
    requires facts { All (λ id. id < length bank.old) facts.old }
    requires old { IsSideWithin bank.old old.now }
    requires new { IsSideWithin bank.old new.now }
    ensures { OnOk result (Adds bank.old facts.old bank.new facts.new
        (conditions_of (candidate_in obligation.now) (side_at bank.old old.now) (side_at bank.old new.now))) }
{
    put_relations(
        bank,
        facts,
        obligation.pair.inputs.as_slice(),
        &side_inputs(old),
        &side_inputs(new),
        obligation.candidate.when.as_slice(),
    )?;
    Ok(())
}

/// Adds what a body assumes.
fn add_assumptions(bank: &Bank, facts: &mut Items<TermId>, side: &Side) -> Result<(), NoMemory>
    requires facts { All (λ id. id < length bank.now) facts.old }
    requires side { IsSideWithin bank.now side.now }
    ensures { OnOk result (Adds bank.now facts.old bank.now facts.new (side_at bank.now side.now).body.assumes) }
{
    let assumes = Items::from_slice(bank.allocator(), side.body.assumes.as_slice())?;
    facts.append(assumes)?;
    Ok(())
}

fn put_calls(
    bank: &mut Bank,
    facts: &mut Items<TermId>,
    obligation: &Obligation<'_>,
    old: &Side,
    new: &Side,
) -> Result<(), NoMemory>
    requires tables { HasTables obligation.now }
    requires facts { All (λ id. id < length bank.old) facts.old }
    requires old { IsSideWithin bank.old old.now }
    requires new { IsSideWithin bank.old new.now }
    ensures { OnOk result (Adds bank.old facts.old bank.new facts.new
        (all_related obligation.now.table.now (work_in obligation.now).claims (side_at bank.old old.now).body.sites
        (side_at bank.old new.now).body.sites)) }
{
    put_all_related(
        bank,
        facts,
        &obligation.claims,
        obligation.table,
        old.body.sites.as_slice(),
        new.body.sites.as_slice(),
    )?;
    Ok(())
}

/// Adds axioms, conditions, what both bodies assume, and what is known of their calls.
fn put_premises(
    bank: &mut Bank,
    facts: &mut Items<TermId>,
    obligation: &Obligation<'_>,
    old: &Side,
    new: &Side,
) -> Result<(), NoMemory>
    requires tables { HasTables obligation.now }
    requires facts { All (λ id. id < length bank.old) facts.old }
    requires old { IsSideWithin bank.old old.now }
    requires new { IsSideWithin bank.old new.now }
    ensures { OnOk result (Adds bank.old facts.old bank.new facts.new
        (premises_of (work_in obligation.now) obligation.now.table.now (candidate_in obligation.now)
        (side_at bank.old old.now) (side_at bank.old new.now))) }
{
    put_program_axioms(bank, facts, obligation.old.program)?;
    put_program_axioms(bank, facts, obligation.new.program)?;
    put_conditions(bank, facts, obligation, old, new)?;
    add_assumptions(bank, facts, old)?;
    add_assumptions(bank, facts, new)?;
    put_calls(bank, facts, obligation, old, new)?;
    Ok(())
}

// ---- the claim

/// What the candidate claims of the ends of the two bodies.
fn put_candidate_claim(
    bank: &mut Bank,
    obligation: &Obligation<'_>,
    old: &Side,
    new: &Side,
) -> Result<TermId, NoMemory>
    requires old { IsSideWithin bank.old old.now }
    requires new { IsSideWithin bank.old new.now }
    ensures term { IfOk result (λ id. Denotes bank.new id
        (claim_of (candidate_in obligation.now) (side_at bank.old old.now) (side_at bank.old new.now))) }
    ensures kept { OnOk result (Extends bank.old bank.new) }
{
    let claim = put_claim(
        bank,
        obligation.pair.outputs.as_slice(),
        obligation.candidate.claim,
        &EndTerms {
            state: side_ends(old),
            flag: old.body.flag,
        },
        &EndTerms {
            state: side_ends(new),
            flag: new.body.flag,
        },
    )?;
    Ok(claim)
}

/// The premises, then that unique constants differ, and last the denial of the claim.
fn put_facts(
    bank: &mut Bank,
    obligation: &Obligation<'_>,
    old: &Side,
    new: &Side,
) -> Result<Items<TermId>, NoMemory>
    requires tables { HasTables obligation.now }
    requires old { IsSideWithin bank.old old.now }
    requires new { IsSideWithin bank.old new.now }
    ensures { IfOk result (λ ids. DenoteAll bank.new ids
        (facts_of (work_in obligation.now) obligation.now.table.now (candidate_in obligation.now)
        (side_at bank.old old.now) (side_at bank.old new.now))) }
{
    let mut facts = Items::new(bank.allocator());
    put_premises(bank, &mut facts, obligation, old, new)?;
    let claim = put_candidate_claim(bank, obligation, old, new)?;
    put_uniques(
        bank,
        &mut facts,
        claim,
        obligation.old.program.uniques.as_slice(),
        obligation.new.program.uniques.as_slice(),
    )?;
    let denial = bank.not(claim)?;
    facts.push(denial)?;
    Ok(facts)
}

// ---- the query

/// The facts of the query of a candidate, over the bodies of its pair. Where there are no bodies, there are none.
fn put_obligation(
    alloc: Global,
    bank: &mut Bank,
    obligation: &Obligation<'_>,
    sides: &Option<Sides>,
) -> Result<Items<TermId>, NoMemory>
    requires tables { HasTables obligation.now }
    requires sides { AreSidesFor obligation.now bank.old sides.now }
    ensures { IfOk result (λ ids. DenoteAll bank.new ids
        (query_of (work_in obligation.now) (infallibles_in obligation.now) obligation.now.table.now
        (candidate_in obligation.now))) }
{
    match sides {
        Some(sides) => put_facts(bank, obligation, &sides.old, &sides.new),
        None => Ok(Items::new(alloc)),
    }
}

/// The query that an obligation asks for, from a copy of the bank with the bodies of its pair.
pub(crate) fn put_query(
    alloc: Global,
    obligation: &Obligation<'_>,
    bodies: &Bank,
    sides: &Option<Sides>,
) -> Result<Query, NoMemory>
    requires tables { HasTables obligation.now }
    requires sorts { IsSorted obligation.now }
    requires sides { AreSidesFor obligation.now bodies.now sides.now }
    ensures query { IfOk result (λ q. q ≡ query_of (work_in obligation.now) (infallibles_in obligation.now)
        obligation.now.table.now (candidate_in obligation.now)) }
    ensures truths { IfOk result AreTruths }
{
    let mut bank = bodies.clone_of(alloc)?;
    let facts = put_obligation(alloc, &mut bank, obligation, sides)?;
    Ok(Query::new(bank, facts))
}
