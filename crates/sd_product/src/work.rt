//! Two programs with their pairs and the candidates of each pair.
ghost use Rattle.std.specs.Prelude.{◌≡◌, ℕ, ◌<◌, ◌≤◌, ◌+◌, IfOk, IfErr, OnOk, Some, None, length, slice_get};
ghost use Rattle.sd_core.specs.Formed.{WellFormed};
ghost use Rattle.sd_match.specs.Refusals.{refusal_of};
ghost use Rattle.sd_vcgen.specs.Numbers.{context_of, KeepsAll};
ghost use Rattle.sd_product.specs.Query.{old_context, new_context};
ghost use Rattle.sd_product.specs.Work as work;
ghost use Rattle.sd_product.specs.Work.{IsAt, pairs_in, candidate_lists, claims_in, work_of};
ghost use Rattle.sd_product.specs.Claims.{claims_of, AreTables};
ghost use Rattle.sd_product.specs.Bodies.{IsAbout, count_before};
ghost use Rattle.sd_product.specs.Obligations.{work_in, infallibles_in, candidate_in, HasTables, IsSorted};
ghost use Rattle.sd_product.specs.WorkErrors.{Tells};

use crate::calls::Claims;
use crate::facts::Obligation;
use crate::tables::{candidate_places, first_numbers, pairs_by_old};
use sd_base::NoMemory;
use sd_cand::{CandError, Candidate, LiveTable, candidates};
use sd_config::Settings;
use sd_core::CoreProgram;
use sd_match::{MatchError, Pairs, pair_up};
use sd_runs::infallible_procedures;
use sd_vcgen::Context;
use sqlite_items::Items;
use std::alloc::Global;
use std::marker::Model;
use thiserror::Error;

/// Why there is nothing to judge.
#[derive(Debug, Drop, Error)]
pub enum WorkError {
    /// The two programs can't be compared.
    #[error(transparent)]
    Match(MatchError),
    #[error("out of memory")]
    NoMemory,
}

impl From<NoMemory> for WorkError {
    ghost use Rattle.std.specs.Prelude.{◌≡◌};
    ghost use Rattle.sd_product.specs.declared.work.WorkError.TheVariants.{NoMemory};

    ghost from_gives = { λ _ e. e ≡ NoMemory };

    fn from(_: NoMemory) -> WorkError {
        WorkError::NoMemory
    }
}

impl From<MatchError> for WorkError {
    ghost use Rattle.std.specs.Prelude.{◌≡◌};
    ghost use Rattle.sd_product.specs.WorkErrors.{error_of};

    ghost from_gives = { λ refused e. e ≡ error_of refused };

    fn from(refused: MatchError) -> WorkError {
        match refused {
            MatchError::NoMemory => WorkError::NoMemory,
            MatchError::GlobalTypes(name) => WorkError::Match(MatchError::GlobalTypes(name)),
            MatchError::FunctionSignatures(name) => {
                WorkError::Match(MatchError::FunctionSignatures(name))
            }
        }
    }
}

impl From<CandError> for WorkError {
    ghost use Rattle.std.specs.Prelude.{◌≡◌};
    ghost use Rattle.sd_product.specs.declared.work.WorkError.TheVariants.{NoMemory};

    ghost from_gives = { λ _ e. e ≡ NoMemory };

    fn from(_: CandError) -> WorkError {
        WorkError::NoMemory
    }
}

/// Two programs with their pairs, and the candidates of all pairs, which are numbered through in order.
#[derive(Drop)]
pub struct Work {
    old: CoreProgram,
    new: CoreProgram,
    old_infallible: Vec<bool>,
    new_infallible: Vec<bool>,
    /// By procedure: whether its calls are kept, which all are.
    old_kept: Vec<bool>,
    new_kept: Vec<bool>,
    pairs: Pairs,
    candidates: Vec<Items<Candidate>>,
    /// By the place of an old procedure: its pair.
    pair_of_old: Vec<Option<u32>>,
    /// By pair: the number of its first candidate.
    first: Vec<u32>,
    /// By candidate: its pair, and its number within the pair.
    places: Vec<(u32, u32)>,
}

impl Model for Work {
    ghost use Rattle.std.specs.Coded.{codes};
    ghost use Rattle.sd_core.specs.contracts.tree.CoreProgram as program;
    ghost use Rattle.sd_product.specs.Work.{PairedPrograms};

    ghost Value = { PairedPrograms };

    ghost coded = { Prim.hlevel (codes, program.the_row.coded) };

    ghost use Rattle.sd_product.specs.WorkInvariant.{programs_in, IsWork};

    ghost view = { programs_in };

    ghost invariant = { IsWork };
}

impl Work {
    /// Pairs two programs and makes the candidates of the pairs.
    ///
    /// # Errors
    ///
    /// `Match` where both programs declare a name with two types.
    pub fn new(
        alloc: Global,
        old: CoreProgram,
        new: CoreProgram,
        settings: &Settings,
    ) -> Result<Work, WorkError>
        requires old { WellFormed old }
        requires new { WellFormed new }
        ensures programs { IfOk result (λ work. (work.old ≡ old) × (work.new ≡ new)) }
        ensures unrefused { OnOk result (refusal_of old new ≡ None) }
        ensures refused { IfErr result (λ e. Tells e (refusal_of old new)) }
    {
        let pairs = pair_up(alloc, &old, &new, settings)?;
        let candidates = candidates(alloc, &old, &new, &pairs, settings)?;
        let work = Work::with_pairs(alloc, old, new, pairs, candidates)?;
        Ok(work)
    }

    fn with_pairs(
        alloc: Global,
        old: CoreProgram,
        new: CoreProgram,
        pairs: Pairs,
        candidates: Vec<Items<Candidate>>,
    ) -> Result<Work, NoMemory>
        requires old { WellFormed old }
        requires new { WellFormed new }
        requires pairs { pairs ≡ pairs_in (record { old = old; new = new }) }
        requires candidates { candidates.items ≡ candidate_lists (record { old = old; new = new }) pairs }
        ensures programs { IfOk result (λ work. (work.old ≡ old) × (work.new ≡ new)) }
    {
        let old_infallible = infallible_procedures(alloc, old.procs.as_slice())?;
        let new_infallible = infallible_procedures(alloc, new.procs.as_slice())?;
        let old_kept = vec![in alloc; true; old.procs.len()]?;
        let new_kept = vec![in alloc; true; new.procs.len()]?;
        let pair_of_old = pairs_by_old(alloc, &pairs, old.procs.len())?;
        let first = first_numbers(alloc, candidates.as_slice())?;
        let places = candidate_places(alloc, candidates.as_slice())?;
        Ok(Work {
            old,
            new,
            old_infallible,
            new_infallible,
            old_kept,
            new_kept,
            pairs,
            candidates,
            pair_of_old,
            first,
            places,
        })
    }

    /// The old program, which is well formed.
    pub fn old_program(&self) -> &CoreProgram
        ensures program { result.now ≡ self.now.old }
        ensures formed { WellFormed result.now }
    {
        &self.old
    }

    /// The new program, which is well formed.
    pub fn new_program(&self) -> &CoreProgram
        ensures program { result.now ≡ self.now.new }
        ensures formed { WellFormed result.now }
    {
        &self.new
    }

    /// The pairs of the programs.
    pub fn pairs(&self) -> &Pairs
        ensures { result.now ≡ pairs_in self.now }
    {
        &self.pairs
    }

    /// The candidates of a pair.
    pub fn candidates_of(&self, pair: u32) -> &[Candidate]
        requires { pair < length (pairs_in self.now) }
        ensures { slice_get (candidate_lists self.now (pairs_in self.now)) pair ≡ Some result.now }
    {
        self.candidates[pair as usize].as_slice()
    }

    /// How many candidates all pairs have.
    pub fn count(&self) -> u32
        ensures { result ≡ length (claims_in self.now) }
    {
        self.places.len() as u32
    }

    /// The pair of a candidate, and its number within the pair.
    pub fn candidate_place(&self, candidate: u32) -> (u32, u32)
        requires { candidate < length (claims_in self.now) }
        ensures { IsAt self.now candidate result.0 result.1 }
    {
        self.places[candidate as usize]
    }

    /// The number of a pair's first candidate, and the number after its last one.
    pub fn numbers_of(&self, pair: u32) -> (u32, u32)
        requires { pair < length (pairs_in self.now) }
        ensures first { result.0 ≡ count_before self.now pair }
        ensures end { result.1 ≡ count_before self.now (pair + 1) }
        ensures ordered { result.0 ≤ result.1 }
        ensures within { result.1 ≤ length (claims_in self.now) }
        ensures own { (n : ℕ) → result.0 ≤ n → n < result.1 → IsAbout self.now n pair }
    {
        let first = self.first[pair as usize];
        let count = self.candidates[pair as usize].len();
        (first, first + count as u32)
    }

    /// The pairs with their candidates, and the tables by which they are found.
    fn claims(&self) -> Claims<'_>
        ensures claims { claims_of result ≡ claims_in self.now }
        ensures tables { AreTables result }
    {
        Claims {
            pairs: self.pairs.as_slice(),
            candidates: self.candidates.as_slice(),
            pair_of_old: self.pair_of_old.as_slice(),
            first: self.first.as_slice(),
        }
    }

    /// The old program, with its infallible procedures. All calls are kept.
    pub(crate) fn old_context(&self) -> Context<'_>
        ensures context { context_of result ≡ old_context (work_of self.now) (work.infallibles_in self.now) }
        ensures kept { KeepsAll result }
    {
        Context {
            program: &self.old,
            infallible: self.old_infallible.as_slice(),
            kept: self.old_kept.as_slice(),
            depth: 0,
        }
    }

    /// The new program, with its infallible procedures. All calls are kept.
    pub(crate) fn new_context(&self) -> Context<'_>
        ensures context { context_of result ≡ new_context (work_of self.now) (work.infallibles_in self.now) }
        ensures kept { KeepsAll result }
    {
        Context {
            program: &self.new,
            infallible: self.new_infallible.as_slice(),
            kept: self.new_kept.as_slice(),
            depth: 0,
        }
    }

    /// What the query of a candidate is about.
    pub(crate) fn obligation<'a>(&'a self, table: &'a LiveTable, candidate: u32) -> Obligation<'a>
        requires within { candidate < length (claims_in self.now) }
        requires size { length table.now ≡ length (claims_in self.now) }
        ensures work { work_in result ≡ work_of self.now }
        ensures infallibles { infallibles_in result ≡ work.infallibles_in self.now }
        ensures candidate { slice_get (claims_in self.now) candidate ≡ Some (candidate_in result) }
        ensures table { result.table.now ≡ table.now }
        ensures tables { HasTables result }
        ensures sorted { IsSorted result }
    {
        let (pair, place) = self.candidate_place(candidate);
        Obligation {
            old: self.old_context(),
            new: self.new_context(),
            claims: self.claims(),
            table,
            pair: self.pairs.pair(pair),
            candidate: &self.candidates_of(pair)[place as usize],
        }
    }
}
