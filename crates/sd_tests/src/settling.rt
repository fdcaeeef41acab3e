//! Candidates that die: of which cause, under which table and in which sweep.
ghost use Rattle.std.specs.Prelude.{◌≤◌};

use crate::given::{AT_LEAST_ONE, AT_LEAST_ZERO, ROOM, VERIFY, files_of, run_words, work_of};
use sd_base::MemSink;
use sd_rounds::{Cause, Death, settle_one};
use sd_term::Literal;
use std::alloc::Global;
use std::test::Fail;

/// The candidate, the only word of the table that was seen, and after how many leaves the search was spent. Without a
/// number the query is open.
type Died = (u32, u64, Option<u32>);

fn is_death(death: &Death, died: Died) -> bool {
    let (candidate, seen, spent) = died;
    let cause = match &death.cause {
        Cause::Open(_) => spent.is_none(),
        Cause::Spent(leaves) => spent == Some(*leaves),
    };
    cause && death.candidate == candidate && death.seen.as_slice() == [seen].as_slice()
}

/// Whether these are all deaths, in order.
fn are_deaths(deaths: &[Death], died: &[Died]) -> bool {
    if deaths.len() != died.len() {
        return false;
    }
    for i in 0..deaths.len() {
        if !is_death(&deaths[i], died[i]) {
            return false;
        }
    }
    true
}

/// Whether two texts, of which each search has so many leaves, are settled in so many sweeps with these deaths.
fn is_settled(
    alloc: Global,
    old: &[u8],
    new: &[u8],
    leaves: u32,
    sweeps: u32,
    died: &[Died],
) -> Result<bool, Fail>
    requires { 1 ≤ leaves }
{
    let work = work_of(alloc, old, new)?;
    let settled = settle_one(alloc, &work, leaves)?;
    Ok(settled.sweeps == sweeps && are_deaths(settled.deaths.as_slice(), died))
}

const FAILS_NEVER: &[u8] = b"procedure p() { }\n";

const CALLS_WHAT_NEVER_FAILS: &[u8] =
    b"procedure p() { call q(); } procedure q() { call r(); } procedure r() { }\n";

const CALLS_WHAT_ALWAYS_FAILS: &[u8] =
    b"procedure p() { call q(); } procedure q() { call r(); } procedure r() { assert false; }\n";

#[test]
fn one_sweep_is_enough_where_nothing_dies(rt: HostRuntime) -> Result<(), Fail> {
    // The denial of each claim is false whatever the search does, so its search closes one branch.
    assert!(rt; is_settled(rt.alloc(), FAILS_NEVER, FAILS_NEVER, 1, 1, &[])?);
    Ok(())
}

#[test]
fn a_search_with_too_few_leaves_is_spent(rt: HostRuntime) -> Result<(), Fail> {
    let alloc = rt.alloc();
    let (old, new) = (AT_LEAST_ONE, AT_LEAST_ZERO);
    // The denial of both claims is that `0 <= x` of the new side is false and `1 <= x` of the old one true. Claim 0
    // has no condition: these values are an open cube, however few the leaves are. For claim 1 each of the two values
    // is forced by a leaf, and the equality of the two `x` closes the branch by rows: three leaves, and no proof has
    // less, since the facts say nothing of rows before.
    assert!(rt; is_settled(alloc, old, new, 1, 2, &[(0, 3, None), (1, 2, Some(1))])?);
    assert!(rt; is_settled(alloc, old, new, 2, 2, &[(0, 3, None), (1, 2, Some(2))])?);
    assert!(rt; is_settled(alloc, old, new, 3, 2, &[(0, 3, None)])?);
    Ok(())
}

#[test]
fn a_death_is_seen_by_its_caller_in_the_next_sweep(rt: HostRuntime) -> Result<(), Fail> {
    let (old, new) = (CALLS_WHAT_NEVER_FAILS, CALLS_WHAT_ALWAYS_FAILS);
    // There is a claim for `p`, one for `q` and one for `r`. In the first sweep those for `p` and `q` are proved by
    // the one for the callee, and the one for `r` dies. In the second one that for `q` dies, in the third one that
    // for `p`, and the fourth one finds none.
    assert!(rt;
        is_settled(
            rt.alloc(),
            old,
            new,
            1,
            4,
            &[(2, 7, None), (1, 3, None), (0, 1, None)]
        )?
    );
    Ok(())
}

fn has_literal(literals: &[Literal], term: u32, value: bool) -> bool {
    literals
        .iter()
        .any(|literal| literal.term == term && literal.value == value)
}

#[test]
fn a_run_gives_the_table_and_the_deaths(rt: HostRuntime) -> Result<(), Fail> {
    let alloc = rt.alloc();
    let mut files = files_of(&rt, alloc, AT_LEAST_ZERO, AT_LEAST_ONE, ROOM, &[])?;
    let mut sink = MemSink::new(alloc, 100, 1000, Vec::new(alloc))?;
    let ended = run_words(&rt, alloc, &VERIFY, &mut files, &mut sink)?;
    assert!(rt; ended.table.as_slice() == [0].as_slice());
    assert!(rt; are_deaths(ended.deaths.as_slice(), &[(0, 3, None), (1, 2, None)]));
    assert_eq!(rt; ended.deaths.len(), 2);
    let Cause::Open(cube) = &ended.deaths[1].cause else {
        assert!(rt; false);
        return Ok(());
    };
    // The terms are the old `x`, the new one, their equality, 1, `1 <= x` of the new side, 0, `0 <= x` of the old
    // one, and so on: the orders of the new failure.
    let literals = cube.literals.as_slice();
    assert!(rt; has_literal(literals, 4, false));
    assert!(rt; has_literal(literals, 6, true));
    Ok(())
}
