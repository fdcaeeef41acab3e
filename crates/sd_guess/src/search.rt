use crate::facts::Refutation;
use crate::levels::{Budget, Tried};
use crate::state::State;
use crate::stop::Stop;
use crate::values::Values;
use sd_base::NoMemory;
use sd_forms::forms_of;
use sd_kernel::Step;
use sd_term::{Numbered, Query};
use sqlite_items::Items;
use std::alloc::Global;

/// What a whole guess may cost, in small steps.
const EFFORT: u64 = 40_000_000;

/// How many levels may be open where the whole query is tried.
const MOST_LEVELS: usize = 1000;

/// The rounds of a guess: how many conflicts and levels a cut may take, and then how many conflicts the whole query.
const ROUNDS: [(u32, usize, u32); 4] = [(1, 0, 4), (6, 4, 20), (30, 16, 200), (200, 40, 1500)];

/// What a guess comes to. Nothing is promised of it.
#[derive(Drop)]
pub enum Finding {
    /// Steps that may refute the query.
    Steps(Items<Step>),
    /// Values of the atoms under which all facts may be true.
    Values(Values),
    Nothing,
}

/// Guesses steps that refute a query and close at most so many branches, or values that make its facts true.
pub fn guess(alloc: Global, query: &Query, leaves: u32) -> Result<Finding, NoMemory> {
    match guessed(alloc, query, leaves) {
        Ok(found) => Ok(found),
        Err(Stop::GivesUp) => Ok(Finding::Nothing),
        Err(Stop::NoMemory) => Err(NoMemory),
    }
}

fn guessed(alloc: Global, query: &Query, leaves: u32) -> Result<Finding, Stop> {
    let numbered = query.numbered()?;
    let Numbered { terms, facts } = numbered;
    let forms = forms_of(alloc, &terms)?;
    let mut state = State::new(alloc, &terms, forms, EFFORT)?;
    state.assert_all(facts.as_slice())?;
    if let Some(refutation) = state.refute_query()? {
        let steps = state.steps_of(refutation, leaves)?;
        return Ok(Finding::Steps(steps));
    }
    let settled = state.settled;
    match settled {
        Some(values) => Ok(Finding::Values(values)),
        None => Ok(Finding::Nothing),
    }
}

impl State {
    /// Refutes the query: first with few conflicts, then with cuts of ever greater budgets. It ends where the atoms
    /// have values that nothing contradicts.
    fn refute_query(&mut self) -> Result<Option<Refutation>, Stop> {
        match self.refute_whole(3)? {
            Tried::Refuted(refutation) => return Ok(Some(refutation)),
            Tried::Settled => return Ok(None),
            Tried::Spent => {}
        }
        let mut pairs = self.cut_pairs()?;
        for (conflicts, depth, whole) in ROUNDS {
            pairs = self.try_cuts(pairs, Budget { conflicts, depth })?;
            match self.refute_whole(whole)? {
                Tried::Refuted(refutation) => return Ok(Some(refutation)),
                Tried::Settled => return Ok(None),
                Tried::Spent => {}
            }
        }
        Ok(None)
    }

    /// Refutes the query with so many conflicts.
    fn refute_whole(&mut self, conflicts: u32) -> Result<Tried, Stop> {
        self.refute_level(Budget {
            conflicts,
            depth: MOST_LEVELS,
        })
    }
}
