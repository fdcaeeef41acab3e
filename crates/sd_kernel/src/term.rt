ghost use Rattle.std.specs.Prelude.{◌≡◌, IfOk};
ghost use Rattle.sd_term.specs.declared.node.Head.{Head};
ghost use Rattle.sd_term.specs.Sorts.{AllWellSorted, sort_of, same_sort};
ghost use Rattle.sd_forms.specs.FactRows.{is_int_sort};
ghost use Rattle.sd_kernel.specs.declared.step.Step.{Step};
ghost use Rattle.sd_kernel.specs.Known.{Trail};
ghost use Rattle.sd_kernel.specs.Steps.{fits, first_part, second_part, is_map, is_read_by, line_head};
ghost use Rattle.sd_kernel.specs.Effects.{IsEffectOf, IsEffectOn};

use crate::effect::Effect;
use crate::nodes::{are_numbers, find_pair};
use crate::step::{NodeLine, StepCause};
use sd_base::{NoMemory, Sort, is_same_sort};
use sd_term::{Bank, Op, TermId};
use std::alloc::Global;

fn op_of(line: NodeLine) -> Op
    ensures { Head.Op result ≡ line_head line }
{
    match line {
        NodeLine::Eq(_, _) => Op::Eq,
        NodeLine::Le(_, _) => Op::Le,
        NodeLine::Read(_, _) => Op::Read,
        NodeLine::Diff(_, _) => Op::Diff,
    }
}

fn first_of(line: NodeLine) -> u32
    ensures { result ≡ first_part line }
{
    match line {
        NodeLine::Eq(first, _) => first,
        NodeLine::Le(first, _) => first,
        NodeLine::Read(first, _) => first,
        NodeLine::Diff(first, _) => first,
    }
}

fn second_of(line: NodeLine) -> u32
    ensures { result ≡ second_part line }
{
    match line {
        NodeLine::Eq(_, second) => second,
        NodeLine::Le(_, second) => second,
        NodeLine::Read(_, second) => second,
        NodeLine::Diff(_, second) => second,
    }
}

/// Whether a sort is that of integers.
pub fn is_int(sort: &Sort) -> bool
    ensures { result ≡ is_int_sort sort.now }
{
    match sort {
        Sort::Int => true,
        _ => false,
    }
}

fn is_map(sort: &Sort) -> bool
    ensures { result ≡ is_map sort.now }
{
    match sort {
        Sort::Map(_, _) => true,
        _ => false,
    }
}

fn is_one_sort(first: &Sort, second: &Sort) -> bool
    ensures { result ≡ same_sort first.now second.now }
{
    is_same_sort(first, second)
}

/// Whether maps of this sort are read at indices of the other one.
fn is_read_by(map: &Sort, index: &Sort) -> bool
    ensures { result ≡ is_read_by map.now index.now }
{
    match map {
        Sort::Map(own, _) => is_one_sort(own.get(), index),
        _ => false,
    }
}

/// Whether the term may be made of parts of these sorts.
fn fits(line: NodeLine, first: &Sort, second: &Sort) -> bool
    ensures { result ≡ fits line first.now second.now }
{
    match line {
        NodeLine::Eq(_, _) => is_one_sort(first, second),
        NodeLine::Le(_, _) => is_int(first) && is_int(second),
        NodeLine::Read(_, _) => is_read_by(first, second),
        NodeLine::Diff(_, _) => is_map(first) && is_one_sort(first, second),
    }
}

/// What the step does that numbers a new term.
pub fn term_effect(alloc: Global, terms: &Bank, line: NodeLine) -> Result<Effect, NoMemory>
    requires sorted { AllWellSorted terms.now }
    ensures effect { IfOk result (λ e. (trail : Trail) → IsEffectOf terms.now trail (Step.Term line) e) }
    ensures fits { IfOk result (IsEffectOn terms.now) }
{
    let first = first_of(line);
    let second = second_of(line);
    if !are_numbers(terms, &[first, second]) {
        return Ok(Effect::bad(StepCause::Number));
    }
    let first = TermId::new(first);
    let second = TermId::new(second);
    if !fits(line, terms.sort(first), terms.sort(second)) {
        return Ok(Effect::bad(StepCause::Shape));
    }
    let op = op_of(line);
    match find_pair(alloc, terms, op, first, second)? {
        Some(_) => Ok(Effect::bad(StepCause::Known)),
        None => Ok(Effect::Grows(op, first, second)),
    }
}
