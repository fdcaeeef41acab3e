//! Unique constants that occur in some facts differ.
ghost use Rattle.std.specs.Prelude.{◌≡◌, ◌<◌, ◌&&◌, List, ◌++◌, [], ◌∷◌, All, IfOk, OnOk, length, drop, map, if◌then◌else◌};
ghost use Rattle.sd_base.specs.Value.{same_text};
ghost use Rattle.sd_core.specs.Formed.{same_sort};
ghost use Rattle.sd_term.specs.Tree.{Tree};
ghost use Rattle.sd_term.specs.Bank.{tree_at, tree_of};
ghost use Rattle.sd_term.specs.Build.{Extends};
ghost use Rattle.sd_vcgen.specs.Numbers.{Denotes, DenoteAll};
ghost use Rattle.sd_product.specs.Numbers.{Adds};
ghost use Rattle.sd_product.specs.Query.{is_head_of, is_constant, any_constant, constant_term, apart};
ghost use Rattle.sd_product.specs.Unique.{present, differ_two, differ_from, differ};

use sd_base::{CloneOf, Name, NoMemory, Sort, Var, is_same_sort};
use sd_term::{Bank, Head, TermId, TermNode, number_terms};
use sqlite_items::Items;

// ---- which of them occur

fn is_named(constant: &Var, name: &Name, sort: &Sort) -> bool
    ensures { result ≡ (same_text constant.now.name name.now && same_sort constant.now.sort sort.now) }
{
    if !constant.name.is(name) {
        return false;
    }
    is_same_sort(&constant.sort, sort)
}

fn is_head_of(head: &Head, constant: &Var) -> bool
    ensures { result ≡ is_head_of constant.now head.now }
{
    match head {
        Head::Const(name, sort) => is_named(constant, name, sort),
        _ => false,
    }
}

/// Whether a node is a constant, in whichever bank.
fn is_node_of(node: &TermNode, constant: &Var) -> bool
    ensures { (bank : List Tree) → result ≡ is_constant constant.now (tree_of bank node.now) }
{
    if !node.parts.is_empty() {
        return false;
    }
    is_head_of(&node.head, constant)
}

/// Whether a term of a bank is a constant.
fn is_constant(terms: &Bank, id: TermId, constant: &Var) -> bool
    requires { id < length terms.now }
    ensures { result ≡ is_constant constant.now (tree_at terms.now id) }
{
    is_node_of(terms.node(id), constant)
}

/// Whether a constant is among the terms of a bank.
fn occurs(terms: &Bank, constant: &Var) -> bool
    ensures { result ≡ any_constant constant.now terms.now }
{
    for i in 0..terms.len() as usize {
        if is_constant(terms, TermId::new(i as u32), constant) {
            return true;
        }
    }
    false
}

fn put_constant(bank: &mut Bank, constant: &Var) -> Result<TermId, NoMemory>
    ensures term { IfOk result (λ id. Denotes bank.new id (constant_term constant.now)) }
    ensures kept { OnOk result (Extends bank.old bank.new) }
{
    let name = constant.name.clone_of(bank.allocator())?;
    let sort = constant.sort.clone_of(bank.allocator())?;
    bank.put_tree(Head::Const(name, sort), &[])
}

fn put_if_present(
    bank: &mut Bank,
    found: &mut Items<TermId>,
    terms: &Bank,
    constant: &Var,
) -> Result<(), NoMemory>
    requires { All (λ id. id < length bank.old) found.old }
    ensures { OnOk result (Adds bank.old found.old bank.new found.new
        (if any_constant constant.now terms.now then constant_term constant.now ∷ [] else [])) }
{
    if occurs(terms, constant) {
        let id = put_constant(bank, constant)?;
        found.push(id)?;
    }
    Ok(())
}

/// The constants that are among the terms of a bank.
fn put_present(bank: &mut Bank, terms: &Bank, constants: &[Var]) -> Result<Items<TermId>, NoMemory>
    ensures terms { IfOk result (λ ids. DenoteAll bank.new ids (present terms.now constants.now)) }
    ensures kept { OnOk result (Extends bank.old bank.new) }
{
    let mut found = Items::new(bank.allocator());
    for constant in constants {
        put_if_present(bank, &mut found, terms, constant)?;
    }
    Ok(found)
}

// ---- that they differ

fn put_if_differing(
    bank: &mut Bank,
    facts: &mut Items<TermId>,
    left: TermId,
    right: TermId,
) -> Result<(), NoMemory>
    requires facts { All (λ id. id < length bank.old) facts.old }
    requires left { left < length bank.old }
    requires right { right < length bank.old }
    ensures { OnOk result (Adds bank.old facts.old bank.new facts.new
        (differ_two (tree_at bank.old left) (tree_at bank.old right))) }
{
    if is_same_sort(bank.sort(left), bank.sort(right)) {
        let same = bank.eq(left, right)?;
        let id = bank.not(same)?;
        facts.push(id)?;
    }
    Ok(())
}

/// Adds that a term differs from those at places from `start` on.
fn put_differing(
    bank: &mut Bank,
    facts: &mut Items<TermId>,
    first: TermId,
    others: &[TermId],
    start: usize,
) -> Result<(), NoMemory>
    requires facts { All (λ id. id < length bank.old) facts.old }
    requires first { first < length bank.old }
    requires others { All (λ id. id < length bank.old) others.now }
    ensures { OnOk result (Adds bank.old facts.old bank.new facts.new
        (differ_from (tree_at bank.old first) (map (tree_at bank.old) (drop start others.now)))) }
{
    for i in start..others.len() {
        put_if_differing(bank, facts, first, others[i])?;
    }
    Ok(())
}

fn put_all_differing(
    bank: &mut Bank,
    facts: &mut Items<TermId>,
    ids: &[TermId],
) -> Result<(), NoMemory>
    requires facts { All (λ id. id < length bank.old) facts.old }
    requires ids { All (λ id. id < length bank.old) ids.now }
    ensures { OnOk result (Adds bank.old facts.old bank.new facts.new (differ (map (tree_at bank.old) ids.now))) }
{
    for i in 0..ids.len() {
        put_differing(bank, facts, ids[i], ids, i + 1)?;
    }
    Ok(())
}

/// Adds that each two of the constants that are among these terms differ, where they have one type.
fn put_apart(
    bank: &mut Bank,
    facts: &mut Items<TermId>,
    terms: &Bank,
    constants: &[Var],
) -> Result<(), NoMemory>
    requires { All (λ id. id < length bank.old) facts.old }
    ensures { OnOk result (Adds bank.old facts.old bank.new facts.new (differ (present terms.now constants.now))) }
{
    let ids = put_present(bank, terms, constants)?;
    put_all_differing(bank, facts, ids.as_slice())?;
    Ok(())
}

/// Adds that the unique constants of each side which occur in the facts or in the claim differ, where they have one
/// type.
pub(crate) fn put_uniques(
    bank: &mut Bank,
    facts: &mut Items<TermId>,
    claim: TermId,
    olds: &[Var],
    news: &[Var],
) -> Result<(), NoMemory>
    requires facts { All (λ id. id < length bank.old) facts.old }
    requires claim { claim < length bank.old }
    ensures { OnOk result (Adds bank.old facts.old bank.new facts.new
        (apart (map (tree_at bank.old) facts.old ++ tree_at bank.old claim ∷ []) olds.now
        ++ apart (map (tree_at bank.old) facts.old ++ tree_at bank.old claim ∷ []) news.now)) }
{
    if olds.is_empty() && news.is_empty() {
        return Ok(());
    }
    let mut whole = Items::from_slice(bank.allocator(), facts.as_slice())?;
    whole.push(claim)?;
    let numbered = number_terms(bank.allocator(), bank, whole.as_slice())?;
    put_apart(bank, facts, &numbered.terms, olds)?;
    put_apart(bank, facts, &numbered.terms, news)?;
    Ok(())
}
