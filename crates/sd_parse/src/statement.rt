//! The rules for statements. They take the reader of the statements below as a parameter, so that each is proved by
//! itself.
ghost use Rattle.std.specs.Prelude.{◌≡◌, ◌<◌, ◌^◌};
ghost use Rattle.sd_parse.specs.Statements as grammar;
ghost use Rattle.sd_parse.specs.ReadingStatements as spec;
ghost use Rattle.sd_parse.specs.ReadingStatements.{NestsStatements};
ghost use Rattle.sd_parse.specs.Reading.{Gives};

use crate::assignment::{left, more_lefts};
use crate::attribute::{attributes, claim, expression};
use crate::class::TokenClass;
use crate::cursor::{Cursor, Fault};
use crate::loops::invariants;
use crate::names::{more_names, single};
use crate::values::{arguments, values};
use sd_ast::{Expr, Stmt, StmtKind};
use sd_base::{Name, Place};
use sqlite_items::Items;
use std::alloc::Global;

fn begins_statement(class: TokenClass) -> bool
    ensures { result ≡ spec.begins_statement class }
{
    match class {
        TokenClass::Assert
        | TokenClass::Assume
        | TokenClass::Name
        | TokenClass::Call
        | TokenClass::If
        | TokenClass::While
        | TokenClass::Break
        | TokenClass::Return => true,
        _ => false,
    }
}

fn stated(at: Place, kind: StmtKind) -> Stmt
    ensures { result ≡ grammar.stated at kind }
{
    Stmt { at, kind }
}

#[derive(Clone, Copy)]
pub struct Nested<F> {
    alloc: Global,
    /// How high the expressions of attributes may be.
    limit: u32,
    /// How high the expressions and statements below may be.
    depth: u32,
    inner: F,
}

impl<F: Fn(Global, &mut Cursor<'_>, u32, u32) -> Result<Stmt, Fault>> Nested<F> {
    fn inner(&self, tokens: &mut Cursor<'_>) -> Result<Stmt, Fault>
        requires { NestsStatements self.now.limit self.now.depth (F.pre self.now.inner) (F.post self.now.inner) }
        ensures { Gives (spec.statement self.now.limit self.now.depth tokens.old) result tokens.new }
    {
        (self.inner)(self.alloc, tokens, self.limit, self.depth)
    }

    #[tactic(auto, unfolding(crate::specs::ReadingStatements::asserted))]
    fn asserted(&self, tokens: &mut Cursor<'_>) -> Result<Stmt, Fault>
        requires low { self.now.limit < 2 ^ 31 }
        requires small { self.now.depth < 2 ^ 31 }
        ensures { Gives
            (spec.asserted self.now.limit self.now.depth (spec.statement self.now.limit self.now.depth) tokens.old)
            result tokens.new }
    {
        if self.depth == 0 {
            return Err(Fault::Deep);
        }
        let (at, claimed) = claim(
            self.alloc,
            tokens,
            self.limit,
            self.depth,
            TokenClass::Assert,
        )?;
        Ok(stated(at, StmtKind::Assert(claimed)))
    }

    #[tactic(auto, unfolding(crate::specs::ReadingStatements::assumed))]
    fn assumed(&self, tokens: &mut Cursor<'_>) -> Result<Stmt, Fault>
        requires low { self.now.limit < 2 ^ 31 }
        requires small { self.now.depth < 2 ^ 31 }
        ensures { Gives
            (spec.assumed self.now.limit self.now.depth (spec.statement self.now.limit self.now.depth) tokens.old)
            result tokens.new }
    {
        if self.depth == 0 {
            return Err(Fault::Deep);
        }
        let (at, claimed) = claim(
            self.alloc,
            tokens,
            self.limit,
            self.depth,
            TokenClass::Assume,
        )?;
        Ok(stated(at, StmtKind::Assume(claimed)))
    }

    #[tactic(auto, unfolding(crate::specs::ReadingStatements::assigned))]
    fn assigned(&self, tokens: &mut Cursor<'_>) -> Result<Stmt, Fault>
        requires { self.now.depth < 2 ^ 31 }
        ensures { Gives
            (spec.assigned self.now.limit self.now.depth (spec.statement self.now.limit self.now.depth) tokens.old)
            result tokens.new }
    {
        if self.depth == 0 {
            return Err(Fault::Deep);
        }
        let (first, at) = left(self.alloc, tokens, self.depth)?;
        let first = single(self.alloc, first)?;
        let lefts = more_lefts(self.alloc, tokens, self.depth, first)?;
        tokens.want(TokenClass::Becomes)?;
        let values = values(self.alloc, tokens, self.depth)?;
        tokens.want(TokenClass::Semi)?;
        Ok(stated(at, StmtKind::Assign(lefts, values)))
    }

    /// A call with these receivers, from its procedure's name on.
    #[tactic(auto, unfolding(crate::specs::ReadingStatements::applied))]
    fn applied(
        &self,
        tokens: &mut Cursor<'_>,
        at: Place,
        receivers: Items<Name>,
    ) -> Result<Stmt, Fault>
        requires { self.now.depth < 2 ^ 31 }
        ensures { Gives
            (spec.applied self.now.limit self.now.depth (spec.statement self.now.limit self.now.depth)
            at receivers tokens.old)
            result tokens.new }
    {
        let (callee, _) = tokens.name(self.alloc)?;
        let arguments = arguments(self.alloc, tokens, self.depth)?;
        tokens.want(TokenClass::Semi)?;
        Ok(stated(at, StmtKind::Call(receivers, callee, arguments)))
    }

    /// A call without receivers, from its parenthesis on.
    #[tactic(auto, unfolding(crate::specs::ReadingStatements::applied_to))]
    fn applied_to(&self, tokens: &mut Cursor<'_>, at: Place, callee: Name) -> Result<Stmt, Fault>
        requires { self.now.depth < 2 ^ 31 }
        ensures { Gives
            (spec.applied_to self.now.limit self.now.depth (spec.statement self.now.limit self.now.depth)
            at callee tokens.old)
            result tokens.new }
    {
        let arguments = arguments(self.alloc, tokens, self.depth)?;
        tokens.want(TokenClass::Semi)?;
        let receivers = Items::new(self.alloc);
        Ok(stated(at, StmtKind::Call(receivers, callee, arguments)))
    }

    /// A call whose first receiver was read.
    #[tactic(auto, unfolding(crate::specs::ReadingStatements::received))]
    fn received(&self, tokens: &mut Cursor<'_>, at: Place, first: Name) -> Result<Stmt, Fault>
        requires { self.now.depth < 2 ^ 31 }
        ensures { Gives
            (spec.received self.now.limit self.now.depth (spec.statement self.now.limit self.now.depth)
            at first tokens.old)
            result tokens.new }
    {
        let first = single(self.alloc, first)?;
        let receivers = more_names(self.alloc, tokens, first)?;
        tokens.want(TokenClass::Becomes)?;
        self.applied(tokens, at, receivers)
    }

    /// A call whose first name was read.
    #[tactic(auto, unfolding(crate::specs::ReadingStatements::call_from))]
    fn call_from(&self, tokens: &mut Cursor<'_>, at: Place, first: Name) -> Result<Stmt, Fault>
        requires { self.now.depth < 2 ^ 31 }
        ensures { Gives
            (spec.call_from self.now.limit self.now.depth (spec.statement self.now.limit self.now.depth)
            at first tokens.old)
            result tokens.new }
    {
        match tokens.peek() {
            TokenClass::Comma | TokenClass::Becomes => self.received(tokens, at, first),
            _ => self.applied_to(tokens, at, first),
        }
    }

    #[tactic(auto, unfolding(crate::specs::ReadingStatements::called))]
    fn called(&self, tokens: &mut Cursor<'_>) -> Result<Stmt, Fault>
        requires low { self.now.limit < 2 ^ 31 }
        requires small { self.now.depth < 2 ^ 31 }
        ensures { Gives
            (spec.called self.now.limit self.now.depth (spec.statement self.now.limit self.now.depth) tokens.old)
            result tokens.new }
    {
        let at = tokens.skip()?;
        attributes(self.alloc, tokens, self.limit)?;
        let (first, _) = tokens.name(self.alloc)?;
        self.call_from(tokens, at, first)
    }

    fn statements(&self, tokens: &mut Cursor<'_>) -> Result<Items<Stmt>, Fault>
        requires { NestsStatements self.now.limit self.now.depth (F.pre self.now.inner) (F.post self.now.inner) }
        ensures { Gives
            (spec.statements self.now.limit self.now.depth (spec.statement self.now.limit self.now.depth) tokens.old)
            result tokens.new }
    {
        let mut found = Items::new(self.alloc);
        for _turn in 0..tokens.turns() {
            let begins = begins_statement(tokens.peek());
            if !begins {
                return Ok(found);
            }
            let next = self.inner(tokens)?;
            found.push(next)?;
        }
        Err(Fault::Syntax)
    }

    #[tactic(auto, unfolding(crate::specs::ReadingStatements::block))]
    fn block(&self, tokens: &mut Cursor<'_>) -> Result<Items<Stmt>, Fault>
        requires { NestsStatements self.now.limit self.now.depth (F.pre self.now.inner) (F.post self.now.inner) }
        ensures { Gives
            (spec.block self.now.limit self.now.depth (spec.statement self.now.limit self.now.depth) tokens.old)
            result tokens.new }
    {
        tokens.want(TokenClass::OpenBrace)?;
        let found = self.statements(tokens)?;
        tokens.want(TokenClass::CloseBrace)?;
        Ok(found)
    }

    /// What stands after `else`.
    #[tactic(auto, unfolding(crate::specs::ReadingStatements::branch))]
    fn branch(&self, tokens: &mut Cursor<'_>) -> Result<Items<Stmt>, Fault>
        requires { NestsStatements self.now.limit self.now.depth (F.pre self.now.inner) (F.post self.now.inner) }
        ensures { Gives
            (spec.branch self.now.limit self.now.depth (spec.statement self.now.limit self.now.depth) tokens.old)
            result tokens.new }
    {
        match tokens.peek() {
            TokenClass::If => {
                let next = self.inner(tokens)?;
                Ok(single(self.alloc, next)?)
            }
            _ => self.block(tokens),
        }
    }

    #[tactic(auto, unfolding(crate::specs::ReadingStatements::otherwise))]
    fn otherwise(&self, tokens: &mut Cursor<'_>) -> Result<Items<Stmt>, Fault>
        requires { NestsStatements self.now.limit self.now.depth (F.pre self.now.inner) (F.post self.now.inner) }
        ensures { Gives
            (spec.otherwise self.now.limit self.now.depth (spec.statement self.now.limit self.now.depth) tokens.old)
            result tokens.new }
    {
        match tokens.peek() {
            TokenClass::Else => {
                tokens.skip()?;
                self.branch(tokens)
            }
            _ => Ok(Items::new(self.alloc)),
        }
    }

    /// An expression in parentheses after a word, with the word's place.
    #[tactic(auto, unfolding(crate::specs::ReadingStatements::guard))]
    fn guard(&self, tokens: &mut Cursor<'_>) -> Result<(Place, Expr), Fault>
        requires { self.now.depth < 2 ^ 31 }
        ensures { Gives
            (spec.guard self.now.limit self.now.depth (spec.statement self.now.limit self.now.depth) tokens.old)
            result tokens.new }
    {
        let at = tokens.skip()?;
        tokens.want(TokenClass::Open)?;
        let condition = expression(self.alloc, tokens, self.depth)?;
        tokens.want(TokenClass::Close)?;
        Ok((at, condition))
    }

    #[tactic(auto, unfolding(crate::specs::ReadingStatements::conditional))]
    fn conditional(&self, tokens: &mut Cursor<'_>) -> Result<Stmt, Fault>
        requires nests { NestsStatements self.now.limit self.now.depth (F.pre self.now.inner) (F.post self.now.inner) }
        requires small { self.now.depth < 2 ^ 31 }
        ensures { Gives
            (spec.conditional self.now.limit self.now.depth (spec.statement self.now.limit self.now.depth) tokens.old)
            result tokens.new }
    {
        if self.depth == 0 {
            return Err(Fault::Deep);
        }
        let (at, condition) = self.guard(tokens)?;
        let first = self.block(tokens)?;
        let second = self.otherwise(tokens)?;
        Ok(stated(at, StmtKind::If(condition, first, second)))
    }

    #[tactic(auto, unfolding(crate::specs::ReadingStatements::looped))]
    fn looped(&self, tokens: &mut Cursor<'_>) -> Result<Stmt, Fault>
        requires nests { NestsStatements self.now.limit self.now.depth (F.pre self.now.inner) (F.post self.now.inner) }
        requires low { self.now.limit < 2 ^ 31 }
        requires small { self.now.depth < 2 ^ 31 }
        ensures { Gives
            (spec.looped self.now.limit self.now.depth (spec.statement self.now.limit self.now.depth) tokens.old)
            result tokens.new }
    {
        if self.depth == 0 {
            return Err(Fault::Deep);
        }
        let (at, condition) = self.guard(tokens)?;
        let invariants = invariants(self.alloc, tokens, self.limit, self.depth)?;
        let turn = self.block(tokens)?;
        Ok(stated(at, StmtKind::While(condition, invariants, turn)))
    }

    #[tactic(auto, unfolding(crate::specs::ReadingStatements::broken))]
    fn broken(&self, tokens: &mut Cursor<'_>) -> Result<Stmt, Fault>
        ensures { Gives
            (spec.broken self.now.limit self.now.depth (spec.statement self.now.limit self.now.depth) tokens.old)
            result tokens.new }
    {
        let at = tokens.skip()?;
        tokens.want(TokenClass::Semi)?;
        Ok(stated(at, StmtKind::Break))
    }

    #[tactic(auto, unfolding(crate::specs::ReadingStatements::returned))]
    fn returned(&self, tokens: &mut Cursor<'_>) -> Result<Stmt, Fault>
        ensures { Gives
            (spec.returned self.now.limit self.now.depth (spec.statement self.now.limit self.now.depth) tokens.old)
            result tokens.new }
    {
        let at = tokens.skip()?;
        tokens.want(TokenClass::Semi)?;
        Ok(stated(at, StmtKind::Return))
    }

    #[tactic(auto, unfolding(crate::specs::ReadingStatements::statement_layer))]
    fn layer(&self, tokens: &mut Cursor<'_>) -> Result<Stmt, Fault>
        requires nests { NestsStatements self.now.limit self.now.depth (F.pre self.now.inner) (F.post self.now.inner) }
        requires low { self.now.limit < 2 ^ 31 }
        requires small { self.now.depth < 2 ^ 31 }
        ensures { Gives
            (spec.statement_layer self.now.limit self.now.depth (spec.statement self.now.limit self.now.depth)
            tokens.old)
            result tokens.new }
    {
        match tokens.peek() {
            TokenClass::Assert => self.asserted(tokens),
            TokenClass::Assume => self.assumed(tokens),
            TokenClass::Name => self.assigned(tokens),
            TokenClass::Call => self.called(tokens),
            TokenClass::If => self.conditional(tokens),
            TokenClass::While => self.looped(tokens),
            TokenClass::Break => self.broken(tokens),
            TokenClass::Return => self.returned(tokens),
            _ => Err(Fault::Syntax),
        }
    }
}

/// No statement has height 0.
#[tactic(auto, unfolding(crate::specs::ReadingStatements::statement))]
pub fn none(tokens: &mut Cursor<'_>, limit: u32) -> Result<Stmt, Fault>
    ensures { Gives (spec.statement limit 0 tokens.old) result tokens.new }
{
    if begins_statement(tokens.peek()) {
        Err(Fault::Deep)
    } else {
        Err(Fault::Syntax)
    }
}

/// The statement of the height `depth` at most that the tokens begin with. No expression in its attributes is higher
/// than `limit`.
pub fn statement(
    alloc: Global,
    tokens: &mut Cursor<'_>,
    limit: u32,
    depth: u32,
) -> Result<Stmt, Fault>
    requires low { limit < 2 ^ 31 }
    requires small { depth < 2 ^ 31 }
    ensures { Gives (spec.statement limit depth tokens.old) result tokens.new }
{
    if depth == 0 {
        return none(tokens, limit);
    }
    Nested {
        alloc,
        limit,
        depth: depth - 1,
        inner: statement,
    }
    .layer(tokens)
}

/// The statements of the height `limit` at most that the tokens begin with, as many as there are.
pub fn statements(alloc: Global, tokens: &mut Cursor<'_>, limit: u32) -> Result<Items<Stmt>, Fault>
    requires { limit < 2 ^ 31 }
    ensures { Gives (spec.statements limit limit (spec.statement limit limit) tokens.old) result tokens.new }
{
    Nested {
        alloc,
        limit,
        depth: limit,
        inner: statement,
    }
    .statements(tokens)
}
