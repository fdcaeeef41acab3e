//! Why two programs can't be compared.

ghost use Rattle.std.specs.Prelude.{◌≡◌, ◌&&◌, IfOk, IfErr, OnOk, Some, None, true, false, if◌then◌else◌};
ghost use Rattle.std.specs.Bool.{beq};
ghost use Rattle.std.specs.Option.{option_copied};
ghost use Rattle.sd_base.specs.Value.{Text, same_text};
ghost use Rattle.sd_core.specs.Formed.{names_of, same_sort, declared_as};
ghost use Rattle.sd_base.specs.FirstPlaces.{place_of};
ghost use Rattle.sd_base.specs.Names.{place_from};
ghost use Rattle.sd_match.specs.Places.{first_named};
ghost use Rattle.sd_match.specs.Refusals.{Answers, refusal_of, retyped_global, retyped_function, sort_named, is_other_sort, all_same_sorts, is_other_function, function_from};

use crate::shared::places_of;
use sd_base::{CloneOf, FirstPlaces, Name, NoMemory, Sort, Var, is_same_sort};
use sd_core::{CoreProgram, Function};
use sqlite_items::at;
use std::alloc::{AllocError, AllocFailed, Global};
use thiserror::Error;

/// Why two programs can't be compared.
#[derive(Debug, Drop, Error)]
pub enum MatchError {
    #[error("out of memory")]
    NoMemory,
    /// A global that both programs declare, with two types.
    #[error("global has two types")]
    GlobalTypes(Name),
    /// A function or a constant that both programs declare, with two signatures.
    #[error("function has two signatures")]
    FunctionSignatures(Name),
}

impl From<NoMemory> for MatchError {
    ghost use Rattle.std.specs.Prelude.{◌≡◌};
    ghost use Rattle.sd_match.specs.declared.refusal.MatchError.TheVariants.{NoMemory};

    ghost from_gives = { λ _ e. e ≡ NoMemory };

    fn from(_: NoMemory) -> MatchError {
        MatchError::NoMemory
    }
}

impl From<AllocError> for MatchError {
    ghost use Rattle.std.specs.Prelude.{◌≡◌};
    ghost use Rattle.sd_match.specs.declared.refusal.MatchError.TheVariants.{NoMemory};

    ghost from_gives = { λ _ e. e ≡ NoMemory };

    fn from(_: AllocError) -> MatchError {
        MatchError::NoMemory
    }
}

impl<T: Drop> From<AllocFailed<T>> for MatchError {
    ghost use Rattle.std.specs.Prelude.{◌≡◌};
    ghost use Rattle.sd_match.specs.declared.refusal.MatchError.TheVariants.{NoMemory};

    ghost from_gives = { λ _ e. e ≡ NoMemory };

    fn from(_: AllocFailed<T>) -> MatchError {
        MatchError::NoMemory
    }
}

// ---- globals

/// The variable of this name.
fn var_named<'a>(places: &FirstPlaces, vars: &'a [Var], name: &Name) -> Option<&'a Var>
    requires { (f : Text) → place_of places.now f ≡ place_from 0 (names_of vars.now) f }
    ensures { option_copied result ≡ first_named (λ x. x.name) vars.now name.now }
{
    match places.find(name) {
        None => None,
        Some(place) => at(vars, place),
    }
}

/// Whether the new globals have one of this name and another type.
fn is_retyped(places: &FirstPlaces, old: &Var, news: &[Var]) -> bool
    requires { (f : Text) → place_of places.now f ≡ place_from 0 (names_of news.now) f }
    ensures { result ≡ is_other_sort old.now.sort (sort_named news.now old.now.name) }
{
    match var_named(places, news, &old.name) {
        None => false,
        Some(new) => !is_same_sort(&old.sort, &new.sort),
    }
}

/// The name of the first global that both programs declare, with two types.
fn retyped_global<'a>(
    alloc: Global,
    olds: &'a [Var],
    news: &[Var],
) -> Result<Option<&'a Name>, NoMemory>
    ensures { IfOk result (λ name. option_copied name ≡ retyped_global olds.now news.now) }
{
    let places = places_of(alloc, news)?;
    'olds: for place in 0..olds.len() {
        if is_retyped(&places, &olds[place], news) {
            return Ok(Some(&olds[place].name));
        }
    }
    Ok(None)
}

// ---- functions and constants

/// Whether it is a constant as wanted.
fn is_as(function: &Function, constant: bool) -> bool
    ensures { result ≡ beq function.now.constant constant }
{
    function.constant == constant
}

fn put_function(
    alloc: Global,
    places: &mut FirstPlaces,
    constant: bool,
    function: &Function,
    place: usize,
) -> Result<(), NoMemory>
    ensures { OnOk result
        ((f : Text)
        → place_of places.new f ≡ (if beq function.now.constant constant && same_text f function.now.name
        then Some place else place_of places.old f)) }
{
    if !is_as(function, constant) {
        return Ok(());
    }
    places.enter(alloc, &function.name, place)?;
    Ok(())
}

/// The places of the functions, or of the constants, by their names.
fn places_of_functions(
    alloc: Global,
    constant: bool,
    functions: &[Function],
) -> Result<FirstPlaces, NoMemory>
    ensures { IfOk result (λ places. (f : Text) → place_of places f ≡ function_from constant 0 functions.now f) }
{
    let mut places = FirstPlaces::new(alloc);
    let mut place = functions.len();
    'functions: while place > 0 {
        place -= 1;
        put_function(alloc, &mut places, constant, &functions[place], place)?;
    }
    Ok(places)
}

/// The function, or the constant, of this name.
fn function_named<'a>(
    places: &FirstPlaces,
    constant: bool,
    functions: &'a [Function],
    name: &Name,
) -> Option<&'a Function>
    requires { (f : Text) → place_of places.now f ≡ function_from constant 0 functions.now f }
    ensures { option_copied result ≡ declared_as constant functions.now name.now }
{
    match places.find(name) {
        None => None,
        Some(place) => at(functions, place),
    }
}

fn have_all_same_sorts(olds: &[Sort], news: &[Sort]) -> bool
    ensures { result ≡ all_same_sorts olds.now news.now }
{
    if olds.len() != news.len() {
        return false;
    }
    'sorts: for place in 0..olds.len() {
        if !is_same_sort(&olds[place], &news[place]) {
            return false;
        }
    }
    true
}

fn have_same_signature(old: &Function, new: &Function) -> bool
    ensures { result ≡ (all_same_sorts old.now.args new.now.args && same_sort old.now.result new.now.result) }
{
    if !have_all_same_sorts(old.args.as_slice(), new.args.as_slice()) {
        return false;
    }
    is_same_sort(&old.result, &new.result)
}

/// Whether that function has another signature.
fn is_other_function(old: &Function, new: Option<&Function>) -> bool
    ensures { result ≡ is_other_function old.now (option_copied new.entry) }
{
    match new {
        None => false,
        Some(new) => !have_same_signature(old, new),
    }
}

/// The new function, or the new constant, of an old one's name.
fn declared_again<'a>(
    functions: &FirstPlaces,
    constants: &FirstPlaces,
    old: &Function,
    news: &'a [Function],
) -> Option<&'a Function>
    requires functions { (f : Text) → place_of functions.now f ≡ function_from false 0 news.now f }
    requires constants { (f : Text) → place_of constants.now f ≡ function_from true 0 news.now f }
    ensures { option_copied result ≡ declared_as old.now.constant news.now old.now.name }
{
    if old.constant {
        function_named(constants, true, news, &old.name)
    } else {
        function_named(functions, false, news, &old.name)
    }
}

/// The name of the first function or constant that both programs declare, with two signatures.
fn retyped_function<'a>(
    alloc: Global,
    olds: &'a [Function],
    news: &[Function],
) -> Result<Option<&'a Name>, NoMemory>
    ensures { IfOk result (λ name. option_copied name ≡ retyped_function olds.now news.now) }
{
    let functions = places_of_functions(alloc, false, news)?;
    let constants = places_of_functions(alloc, true, news)?;
    'olds: for place in 0..olds.len() {
        let new = declared_again(&functions, &constants, &olds[place], news);
        if is_other_function(&olds[place], new) {
            return Ok(Some(&olds[place].name));
        }
    }
    Ok(None)
}

// ---- refusals

/// Refuses two programs that declare one name with two types.
pub(crate) fn refuse(alloc: Global, old: &CoreProgram, new: &CoreProgram) -> Result<(), MatchError>
    ensures ok { OnOk result (refusal_of old.now new.now ≡ None) }
    ensures err { IfErr result (λ e. Answers e (refusal_of old.now new.now)) }
{
    if let Some(name) = retyped_global(alloc, old.globals.as_slice(), new.globals.as_slice())? {
        return Err(MatchError::GlobalTypes(name.clone_of(alloc)?));
    }
    if let Some(name) = retyped_function(
        alloc,
        old.functions.as_slice(),
        new.functions.as_slice(),
    )? {
        return Err(MatchError::FunctionSignatures(name.clone_of(alloc)?));
    }
    Ok(())
}
