//! The rules for expressions. They take the reader of the expressions below as a parameter, so that each is proved by
//! itself.

ghost use Rattle.std.specs.Prelude.{◌≡◌, ◌<◌, ◌≤◌, ◌+◌, ◌^◌, ◌∷◌, [], IfOk, suc};
ghost use Rattle.sd_ast.specs.declared.BinOp.TheVariants as op;
ghost use Rattle.sd_ast.specs.declared.ExprKind as ast;
ghost use Rattle.sd_parse.specs.Grammar as grammar;
ghost use Rattle.sd_parse.specs.Grammar.{Right};
ghost use Rattle.sd_parse.specs.Reading as spec;
ghost use Rattle.sd_parse.specs.Reading.{Gives, Reads, ReadsGroup, Nests};

use crate::class::TokenClass;
use crate::cursor::{Cursor, Fault};
use crate::level::Level;
use sd_ast::{BinOp, Expr, ExprKind, UnOp};
use sd_base::{Name, Place};
use sqlite_items::{Boxed, Items};
use std::alloc::{AllocError, Global};

/// An expression, its height, and the place where its phrase begins.
pub type MeasuredExpr = (Expr, u32, Place);

/// Expressions, and the height of the highest.
pub type Group = (Items<Expr>, u32);

/// The operators that are repeated at a level.
fn repeated(level: Level, class: TokenClass) -> Option<BinOp>
    ensures { result ≡ grammar.repeated level class }
{
    match (level, class) {
        (Level::Whole, TokenClass::Iff) => Some(BinOp::Iff),
        (Level::Explied, TokenClass::Explies) => Some(BinOp::Explies),
        (Level::Conjunction, TokenClass::And) => Some(BinOp::And),
        (Level::Disjunction, TokenClass::Or) => Some(BinOp::Or),
        (Level::Sum, TokenClass::Plus) => Some(BinOp::Add),
        (Level::Sum, TokenClass::Minus) => Some(BinOp::Sub),
        (Level::Product, TokenClass::Star) => Some(BinOp::Mul),
        _ => None,
    }
}

fn operand(level: Level) -> Level
    ensures { result ≡ grammar.operand level }
{
    match level {
        Level::Whole => Level::Implication,
        Level::Explied => Level::Junction,
        Level::Conjunction => Level::Relation,
        Level::Disjunction => Level::Relation,
        Level::Sum => Level::Product,
        Level::Product => Level::Prefix,
        _ => Level::Atom,
    }
}

fn compares(class: TokenClass) -> Option<BinOp>
    ensures { result ≡ grammar.compares class }
{
    match class {
        TokenClass::Equal => Some(BinOp::Eq),
        TokenClass::Unequal => Some(BinOp::Ne),
        TokenClass::Less => Some(BinOp::Lt),
        TokenClass::AtMost => Some(BinOp::Le),
        TokenClass::Greater => Some(BinOp::Gt),
        TokenClass::AtLeast => Some(BinOp::Ge),
        _ => None,
    }
}

fn prefixes(class: TokenClass) -> Option<UnOp>
    ensures { result ≡ grammar.prefixes class }
{
    match class {
        TokenClass::Not => Some(UnOp::Not),
        TokenClass::Minus => Some(UnOp::Neg),
        _ => None,
    }
}

fn begins(class: TokenClass) -> bool
    ensures { result ≡ spec.begins class }
{
    match class {
        TokenClass::Number
        | TokenClass::True
        | TokenClass::False
        | TokenClass::Name
        | TokenClass::Old
        | TokenClass::Open
        | TokenClass::Not
        | TokenClass::Minus => true,
        _ => false,
    }
}

fn comma(class: TokenClass) -> bool
    ensures { result ≡ spec.comma class }
{
    match class {
        TokenClass::Comma => true,
        _ => false,
    }
}

fn opens_bracket(class: TokenClass) -> bool
    ensures { result ≡ spec.opens_bracket class }
{
    match class {
        TokenClass::OpenBracket => true,
        _ => false,
    }
}

fn placed(at: Place, kind: ExprKind) -> Expr
    ensures { result ≡ grammar.placed at kind }
{
    Expr { at, kind }
}

/// A prefix operator that stands at this place, with what follows it.
fn unary(alloc: Global, at: Place, op: UnOp, x: MeasuredExpr) -> Result<MeasuredExpr, AllocError>
    requires { x.1 < 2 ^ 31 }
    ensures { IfOk result (λ y. y ≡ (grammar.placed at (ast.Unary op x.0), suc x.1, at)) }
{
    let (tree, height, _) = x;
    let kind = ExprKind::Unary(op, Boxed::new(alloc, tree)?);
    Ok((placed(at, kind), height + 1, at))
}

/// `old` of what follows it.
fn old_value(alloc: Global, at: Place, x: MeasuredExpr) -> Result<MeasuredExpr, AllocError>
    requires { x.1 < 2 ^ 31 }
    ensures { IfOk result (λ y. y ≡ (grammar.placed at (ast.Old x.0), suc x.1, at)) }
{
    let (tree, height, _) = x;
    let kind = ExprKind::Old(Boxed::new(alloc, tree)?);
    Ok((placed(at, kind), height + 1, at))
}

/// A binary operator between two phrases. It stands where the first one begins.
fn join(
    alloc: Global,
    op: BinOp,
    x: MeasuredExpr,
    y: MeasuredExpr,
) -> Result<MeasuredExpr, AllocError>
    requires left { x.1 < 2 ^ 31 }
    requires right { y.1 < 2 ^ 31 }
    ensures { IfOk result (λ z. z ≡ spec.join op x y) }
{
    let (left, left_height, at) = x;
    let (right, right_height, _) = y;
    let height = left_height.max(right_height) + 1;
    let kind = ExprKind::Binary(op, Boxed::new(alloc, left)?, Boxed::new(alloc, right)?);
    Ok((placed(at, kind), height, at))
}

/// An index of a map. It stands where the map begins.
fn select(alloc: Global, map: MeasuredExpr, index: MeasuredExpr) -> Result<MeasuredExpr, AllocError>
    requires left { map.1 < 2 ^ 31 }
    requires right { index.1 < 2 ^ 31 }
    ensures { IfOk result (λ x. x ≡ spec.select map index) }
{
    let (map, map_height, at) = map;
    let (index, index_height, _) = index;
    let height = map_height.max(index_height) + 1;
    let kind = ExprKind::Select(Boxed::new(alloc, map)?, Boxed::new(alloc, index)?);
    Ok((placed(at, kind), height, at))
}

/// A map with a value written to an index.
fn store(
    alloc: Global,
    map: MeasuredExpr,
    index: MeasuredExpr,
    value: MeasuredExpr,
) -> Result<MeasuredExpr, AllocError>
    requires left { map.1 < 2 ^ 31 }
    requires middle { index.1 < 2 ^ 31 }
    requires right { value.1 < 2 ^ 31 }
    ensures { IfOk result (λ x. x ≡ spec.store map index value) }
{
    let (map, map_height, at) = map;
    let (index, index_height, _) = index;
    let (value, value_height, _) = value;
    let height = map_height.max(index_height.max(value_height)) + 1;
    let map = Boxed::new(alloc, map)?;
    let index = Boxed::new(alloc, index)?;
    let kind = ExprKind::Store(map, index, Boxed::new(alloc, value)?);
    Ok((placed(at, kind), height, at))
}

/// The first expression of a group.
fn first(alloc: Global, x: MeasuredExpr) -> Result<Group, AllocError>
    ensures { IfOk result (λ group. group ≡ (x.0 ∷ [], x.1)) }
{
    let (tree, height, _) = x;
    let mut trees = Items::new(alloc);
    trees.push(tree)?;
    Ok((trees, height))
}

/// One expression more in a group.
fn add(group: Group, x: MeasuredExpr) -> Result<Group, AllocError>
    ensures { IfOk result (λ more. more ≡ spec.add group x) }
{
    let (mut trees, highest) = group;
    let (tree, height, _) = x;
    trees.push(tree)?;
    Ok((trees, highest.max(height)))
}

#[derive(Clone, Copy)]
pub struct Grammar<F> {
    alloc: Global,
    /// How high the expressions below may be.
    depth: u32,
    inner: F,
}

impl<F: Fn(Global, &mut Cursor<'_>, u32, Level) -> Result<MeasuredExpr, Fault>> Grammar<F> {
    fn inner(&self, tokens: &mut Cursor<'_>, level: Level) -> Result<MeasuredExpr, Fault>
        requires { Nests self.now.depth (F.pre self.now.inner) (F.post self.now.inner) }
        ensures { Reads self.now.depth (spec.read self.now.depth level tokens.old) result tokens.new }
    {
        (self.inner)(self.alloc, tokens, self.depth, level)
    }

    #[tactic(auto, unfolding(crate::specs::Reading::parenthesized))]
    fn parenthesized(&self, tokens: &mut Cursor<'_>) -> Result<MeasuredExpr, Fault>
        requires nests { Nests self.now.depth (F.pre self.now.inner) (F.post self.now.inner) }
        requires small { self.now.depth < 2 ^ 31 }
        ensures { Reads (suc self.now.depth) (spec.parenthesized self.now.depth (spec.read self.now.depth) tokens.old)
            result tokens.new }
    {
        if self.depth == 0 {
            return Err(Fault::Deep);
        }
        let at = tokens.skip()?;
        let (tree, height, _) = self.inner(tokens, Level::Whole)?;
        tokens.want(TokenClass::Close)?;
        Ok((tree, height + 1, at))
    }

    #[tactic(auto, unfolding(crate::specs::Reading::old))]
    fn old(&self, tokens: &mut Cursor<'_>) -> Result<MeasuredExpr, Fault>
        requires nests { Nests self.now.depth (F.pre self.now.inner) (F.post self.now.inner) }
        requires small { self.now.depth < 2 ^ 31 }
        ensures { Reads (suc self.now.depth) (spec.old self.now.depth (spec.read self.now.depth) tokens.old)
            result tokens.new }
    {
        if self.depth == 0 {
            return Err(Fault::Deep);
        }
        let at = tokens.skip()?;
        tokens.want(TokenClass::Open)?;
        let below = self.inner(tokens, Level::Whole)?;
        tokens.want(TokenClass::Close)?;
        Ok(old_value(self.alloc, at, below)?)
    }

    #[tactic(auto, unfolding(crate::specs::Reading::next_expression))]
    fn next_expression(&self, tokens: &mut Cursor<'_>) -> Result<MeasuredExpr, Fault>
        requires nests { Nests self.now.depth (F.pre self.now.inner) (F.post self.now.inner) }
        ensures { Reads self.now.depth (spec.next_expression self.now.depth (spec.read self.now.depth) tokens.old)
            result tokens.new }
    {
        tokens.skip()?;
        self.inner(tokens, Level::Whole)
    }

    /// The expressions with a comma before each that follow those of `first`.
    fn more_expressions(&self, tokens: &mut Cursor<'_>, first: Group) -> Result<Group, Fault>
        requires nests { Nests self.now.depth (F.pre self.now.inner) (F.post self.now.inner) }
        requires small { self.now.depth < 2 ^ 31 }
        requires low { first.1 ≤ self.now.depth }
        ensures { ReadsGroup self.now.depth
            (spec.more_expressions self.now.depth (spec.read self.now.depth) first tokens.old) result tokens.new }
    {
        let mut group = first;
        for _turn in 0..tokens.turns() {
            let has_next = comma(tokens.peek());
            if !has_next {
                return Ok(group);
            }
            let next = self.next_expression(tokens)?;
            group = add(group, next)?;
        }
        Err(Fault::Syntax)
    }

    #[tactic(auto, unfolding(crate::specs::Reading::expressions))]
    fn expressions(&self, tokens: &mut Cursor<'_>) -> Result<Group, Fault>
        requires nests { Nests self.now.depth (F.pre self.now.inner) (F.post self.now.inner) }
        requires small { self.now.depth < 2 ^ 31 }
        ensures { ReadsGroup self.now.depth (spec.expressions self.now.depth (spec.read self.now.depth) tokens.old)
            result tokens.new }
    {
        let x = self.inner(tokens, Level::Whole)?;
        let group = first(self.alloc, x)?;
        self.more_expressions(tokens, group)
    }

    #[tactic(auto, unfolding(crate::specs::Reading::arguments))]
    fn arguments(&self, tokens: &mut Cursor<'_>) -> Result<Group, Fault>
        requires nests { Nests self.now.depth (F.pre self.now.inner) (F.post self.now.inner) }
        requires small { self.now.depth < 2 ^ 31 }
        ensures { ReadsGroup self.now.depth (spec.arguments self.now.depth (spec.read self.now.depth) tokens.old)
            result tokens.new }
    {
        match tokens.peek() {
            TokenClass::Close => Ok((Items::new(self.alloc), 0)),
            _ => self.expressions(tokens),
        }
    }

    /// An application of the function of this name, from its parenthesis on.
    #[tactic(auto, unfolding(crate::specs::Reading::application))]
    fn application(
        &self,
        tokens: &mut Cursor<'_>,
        function: (Name, Place),
    ) -> Result<MeasuredExpr, Fault>
        requires nests { Nests self.now.depth (F.pre self.now.inner) (F.post self.now.inner) }
        requires small { self.now.depth < 2 ^ 31 }
        ensures { Reads (suc self.now.depth)
            (spec.application self.now.depth (spec.read self.now.depth) function tokens.old) result tokens.new }
    {
        tokens.skip()?;
        let (trees, height) = self.arguments(tokens)?;
        tokens.want(TokenClass::Close)?;
        let (name, at) = function;
        Ok((placed(at, ExprKind::Apply(name, trees)), height + 1, at))
    }

    #[tactic(auto, unfolding(crate::specs::Reading::named))]
    fn named(&self, tokens: &mut Cursor<'_>) -> Result<MeasuredExpr, Fault>
        requires nests { Nests self.now.depth (F.pre self.now.inner) (F.post self.now.inner) }
        requires small { self.now.depth < 2 ^ 31 }
        ensures { Reads (suc self.now.depth) (spec.named self.now.depth (spec.read self.now.depth) tokens.old)
            result tokens.new }
    {
        let (name, at) = tokens.name(self.alloc)?;
        match tokens.peek() {
            TokenClass::Open => self.application(tokens, (name, at)),
            _ => Ok((placed(at, ExprKind::Var(name)), 1, at)),
        }
    }

    #[tactic(auto, unfolding(crate::specs::Reading::atom))]
    fn atom(&self, tokens: &mut Cursor<'_>) -> Result<MeasuredExpr, Fault>
        requires nests { Nests self.now.depth (F.pre self.now.inner) (F.post self.now.inner) }
        requires small { self.now.depth < 2 ^ 31 }
        ensures { Reads (suc self.now.depth) (spec.atom self.now.depth (spec.read self.now.depth) tokens.old)
            result tokens.new }
    {
        match tokens.peek() {
            TokenClass::Number => {
                let (number, at) = tokens.number()?;
                Ok((placed(at, ExprKind::Num(number)), 1, at))
            }
            TokenClass::True => {
                let at = tokens.skip()?;
                Ok((placed(at, ExprKind::Truth(true)), 1, at))
            }
            TokenClass::False => {
                let at = tokens.skip()?;
                Ok((placed(at, ExprKind::Truth(false)), 1, at))
            }
            TokenClass::Name => self.named(tokens),
            TokenClass::Old => self.old(tokens),
            TokenClass::Open => self.parenthesized(tokens),
            _ => Err(Fault::Syntax),
        }
    }

    /// After an index: a value and the bracket, or the bracket alone.
    #[tactic(auto, unfolding(crate::specs::Reading::indexed))]
    fn indexed(
        &self,
        tokens: &mut Cursor<'_>,
        map: MeasuredExpr,
        index: MeasuredExpr,
    ) -> Result<MeasuredExpr, Fault>
        requires nests { Nests self.now.depth (F.pre self.now.inner) (F.post self.now.inner) }
        requires small { self.now.depth < 2 ^ 31 }
        requires left { map.1 ≤ self.now.depth }
        requires right { index.1 ≤ self.now.depth }
        ensures { Reads (suc self.now.depth)
            (spec.indexed self.now.depth (spec.read self.now.depth) map index tokens.old) result tokens.new }
    {
        match tokens.peek() {
            TokenClass::Becomes => {
                tokens.skip()?;
                let value = self.inner(tokens, Level::Whole)?;
                tokens.want(TokenClass::CloseBracket)?;
                Ok(store(self.alloc, map, index, value)?)
            }
            _ => {
                tokens.want(TokenClass::CloseBracket)?;
                Ok(select(self.alloc, map, index)?)
            }
        }
    }

    /// What stands in brackets after `map`.
    #[tactic(auto, unfolding(crate::specs::Reading::bracket))]
    fn bracket(&self, tokens: &mut Cursor<'_>, map: MeasuredExpr) -> Result<MeasuredExpr, Fault>
        requires nests { Nests self.now.depth (F.pre self.now.inner) (F.post self.now.inner) }
        requires small { self.now.depth < 2 ^ 31 }
        requires low { map.1 ≤ suc self.now.depth }
        ensures { Reads (suc self.now.depth) (spec.bracket self.now.depth (spec.read self.now.depth) map tokens.old)
            result tokens.new }
    {
        if map.1 > self.depth {
            return Err(Fault::Deep);
        }
        tokens.skip()?;
        let index = self.inner(tokens, Level::Whole)?;
        self.indexed(tokens, map, index)
    }

    /// The brackets that follow `first`.
    fn brackets(&self, tokens: &mut Cursor<'_>, first: MeasuredExpr) -> Result<MeasuredExpr, Fault>
        requires nests { Nests self.now.depth (F.pre self.now.inner) (F.post self.now.inner) }
        requires small { self.now.depth < 2 ^ 31 }
        requires low { first.1 ≤ suc self.now.depth }
        ensures { Reads (suc self.now.depth)
            (spec.brackets self.now.depth (spec.read self.now.depth) (suc self.now.depth) first tokens.old)
            result tokens.new }
    {
        let mut x = first;
        for _turn in 0..self.depth + 1 {
            let has_next = opens_bracket(tokens.peek());
            if !has_next {
                return Ok(x);
            }
            x = self.bracket(tokens, x)?;
        }
        Err(Fault::Deep)
    }

    #[tactic(auto, unfolding(crate::specs::Reading::postfix))]
    fn postfix(&self, tokens: &mut Cursor<'_>) -> Result<MeasuredExpr, Fault>
        requires nests { Nests self.now.depth (F.pre self.now.inner) (F.post self.now.inner) }
        requires small { self.now.depth < 2 ^ 31 }
        ensures { Reads (suc self.now.depth) (spec.postfix self.now.depth (spec.read self.now.depth) tokens.old)
            result tokens.new }
    {
        let first = self.atom(tokens)?;
        self.brackets(tokens, first)
    }

    #[tactic(auto, unfolding(crate::specs::Reading::prefixed))]
    fn prefixed(&self, tokens: &mut Cursor<'_>, op: UnOp) -> Result<MeasuredExpr, Fault>
        requires nests { Nests self.now.depth (F.pre self.now.inner) (F.post self.now.inner) }
        requires small { self.now.depth < 2 ^ 31 }
        ensures { Reads (suc self.now.depth) (spec.prefixed self.now.depth (spec.read self.now.depth) op tokens.old)
            result tokens.new }
    {
        if self.depth == 0 {
            return Err(Fault::Deep);
        }
        let at = tokens.skip()?;
        let below = self.inner(tokens, Level::Prefix)?;
        Ok(unary(self.alloc, at, op, below)?)
    }

    #[tactic(auto, unfolding(crate::specs::Reading::prefix))]
    fn prefix(&self, tokens: &mut Cursor<'_>) -> Result<MeasuredExpr, Fault>
        requires nests { Nests self.now.depth (F.pre self.now.inner) (F.post self.now.inner) }
        requires small { self.now.depth < 2 ^ 31 }
        ensures { Reads (suc self.now.depth) (spec.prefix self.now.depth (spec.read self.now.depth) tokens.old)
            result tokens.new }
    {
        match prefixes(tokens.peek()) {
            None => self.postfix(tokens),
            Some(op) => self.prefixed(tokens, op),
        }
    }

    /// An operator after `x`, and its right side.
    #[tactic(auto, unfolding(crate::specs::Reading::operation))]
    fn operation(
        &self,
        tokens: &mut Cursor<'_>,
        level: Level,
        x: MeasuredExpr,
        op: BinOp,
    ) -> Result<MeasuredExpr, Fault>
        requires nests { Nests self.now.depth (F.pre self.now.inner) (F.post self.now.inner) }
        requires small { self.now.depth < 2 ^ 31 }
        requires low { x.1 ≤ suc self.now.depth }
        ensures { Reads (suc self.now.depth)
            (spec.operation self.now.depth (spec.read self.now.depth) level spec.pure x op tokens.old)
            result tokens.new }
    {
        if x.1 > self.depth {
            return Err(Fault::Deep);
        }
        tokens.skip()?;
        let right = self.inner(tokens, level)?;
        Ok(join(self.alloc, op, x, right)?)
    }

    /// The operators of the level that follow `first`.
    fn turns(
        &self,
        tokens: &mut Cursor<'_>,
        level: Level,
        first: MeasuredExpr,
    ) -> Result<MeasuredExpr, Fault>
        requires nests { Nests self.now.depth (F.pre self.now.inner) (F.post self.now.inner) }
        requires small { self.now.depth < 2 ^ 31 }
        requires low { first.1 ≤ suc self.now.depth }
        ensures { Reads (suc self.now.depth)
            (spec.turns self.now.depth (spec.read self.now.depth) (suc self.now.depth) level first tokens.old)
            result tokens.new }
    {
        let mut x = first;
        for _turn in 0..self.depth + 1 {
            match repeated(level, tokens.peek()) {
                None => return Ok(x),
                Some(op) => x = self.operation(tokens, operand(level), x, op)?,
            }
        }
        Err(Fault::Deep)
    }

    #[tactic(auto, unfolding(crate::specs::Reading::product))]
    fn product(&self, tokens: &mut Cursor<'_>) -> Result<MeasuredExpr, Fault>
        requires nests { Nests self.now.depth (F.pre self.now.inner) (F.post self.now.inner) }
        requires small { self.now.depth < 2 ^ 31 }
        ensures { Reads (suc self.now.depth) (spec.product self.now.depth (spec.read self.now.depth) tokens.old)
            result tokens.new }
    {
        let first = self.prefix(tokens)?;
        self.turns(tokens, Level::Product, first)
    }

    #[tactic(auto, unfolding(crate::specs::Reading::sum))]
    fn sum(&self, tokens: &mut Cursor<'_>) -> Result<MeasuredExpr, Fault>
        requires nests { Nests self.now.depth (F.pre self.now.inner) (F.post self.now.inner) }
        requires small { self.now.depth < 2 ^ 31 }
        ensures { Reads (suc self.now.depth) (spec.sum self.now.depth (spec.read self.now.depth) tokens.old)
            result tokens.new }
    {
        let first = self.product(tokens)?;
        self.turns(tokens, Level::Sum, first)
    }

    #[tactic(auto, unfolding(crate::specs::Reading::relation))]
    fn relation(&self, tokens: &mut Cursor<'_>) -> Result<MeasuredExpr, Fault>
        requires nests { Nests self.now.depth (F.pre self.now.inner) (F.post self.now.inner) }
        requires small { self.now.depth < 2 ^ 31 }
        ensures { Reads (suc self.now.depth) (spec.relation self.now.depth (spec.read self.now.depth) tokens.old)
            result tokens.new }
    {
        let first = self.sum(tokens)?;
        match compares(tokens.peek()) {
            None => Ok(first),
            Some(op) => self.operation(tokens, Level::Sum, first, op),
        }
    }

    #[tactic(auto, unfolding(crate::specs::Reading::junction))]
    fn junction(&self, tokens: &mut Cursor<'_>) -> Result<MeasuredExpr, Fault>
        requires nests { Nests self.now.depth (F.pre self.now.inner) (F.post self.now.inner) }
        requires small { self.now.depth < 2 ^ 31 }
        ensures { Reads (suc self.now.depth) (spec.junction self.now.depth (spec.read self.now.depth) tokens.old)
            result tokens.new }
    {
        let first = self.relation(tokens)?;
        match tokens.peek() {
            TokenClass::And => self.turns(tokens, Level::Conjunction, first),
            _ => self.turns(tokens, Level::Disjunction, first),
        }
    }

    /// `==>` after `x`, and its right side, which may have `==>` again.
    fn implied(&self, tokens: &mut Cursor<'_>, x: MeasuredExpr) -> Result<MeasuredExpr, Fault>
        requires nests { Nests self.now.depth (F.pre self.now.inner) (F.post self.now.inner) }
        requires small { self.now.depth < 2 ^ 31 }
        requires low { x.1 ≤ suc self.now.depth }
        ensures { Reads (suc self.now.depth)
            (spec.operation self.now.depth (spec.read self.now.depth) Right spec.pure x op.Implies tokens.old)
            result tokens.new }
    {
        self.operation(tokens, Level::Right, x, BinOp::Implies)
    }

    #[tactic(auto, unfolding(crate::specs::Reading::right))]
    fn right(&self, tokens: &mut Cursor<'_>) -> Result<MeasuredExpr, Fault>
        requires nests { Nests self.now.depth (F.pre self.now.inner) (F.post self.now.inner) }
        requires small { self.now.depth < 2 ^ 31 }
        ensures { Reads (suc self.now.depth) (spec.right self.now.depth (spec.read self.now.depth) tokens.old)
            result tokens.new }
    {
        let first = self.junction(tokens)?;
        match tokens.peek() {
            TokenClass::Implies => self.implied(tokens, first),
            _ => Ok(first),
        }
    }

    #[tactic(auto, unfolding(crate::specs::Reading::implication))]
    fn implication(&self, tokens: &mut Cursor<'_>) -> Result<MeasuredExpr, Fault>
        requires nests { Nests self.now.depth (F.pre self.now.inner) (F.post self.now.inner) }
        requires small { self.now.depth < 2 ^ 31 }
        ensures { Reads (suc self.now.depth) (spec.implication self.now.depth (spec.read self.now.depth) tokens.old)
            result tokens.new }
    {
        let first = self.junction(tokens)?;
        match tokens.peek() {
            TokenClass::Implies => self.implied(tokens, first),
            _ => self.turns(tokens, Level::Explied, first),
        }
    }

    #[tactic(auto, unfolding(crate::specs::Reading::whole))]
    fn whole(&self, tokens: &mut Cursor<'_>) -> Result<MeasuredExpr, Fault>
        requires nests { Nests self.now.depth (F.pre self.now.inner) (F.post self.now.inner) }
        requires small { self.now.depth < 2 ^ 31 }
        ensures { Reads (suc self.now.depth) (spec.whole self.now.depth (spec.read self.now.depth) tokens.old)
            result tokens.new }
    {
        let first = self.implication(tokens)?;
        self.turns(tokens, Level::Whole, first)
    }

    fn layer(&self, tokens: &mut Cursor<'_>, level: Level) -> Result<MeasuredExpr, Fault>
        requires nests { Nests self.now.depth (F.pre self.now.inner) (F.post self.now.inner) }
        requires small { self.now.depth < 2 ^ 31 }
        ensures { Reads (suc self.now.depth) (spec.layer self.now.depth (spec.read self.now.depth) level tokens.old)
            result tokens.new }
    {
        match level {
            Level::Whole => self.whole(tokens),
            Level::Implication => self.implication(tokens),
            Level::Right => self.right(tokens),
            Level::Explied => {
                let first = self.junction(tokens)?;
                self.turns(tokens, Level::Explied, first)
            }
            Level::Junction => self.junction(tokens),
            Level::Conjunction => {
                let first = self.relation(tokens)?;
                self.turns(tokens, Level::Conjunction, first)
            }
            Level::Disjunction => {
                let first = self.relation(tokens)?;
                self.turns(tokens, Level::Disjunction, first)
            }
            Level::Relation => self.relation(tokens),
            Level::Sum => self.sum(tokens),
            Level::Product => self.product(tokens),
            Level::Prefix => self.prefix(tokens),
            Level::Postfix => self.postfix(tokens),
            Level::Atom => self.atom(tokens),
        }
    }
}

/// No expression has height 0.
#[tactic(auto, unfolding(crate::specs::Reading::read))]
fn none(tokens: &mut Cursor<'_>, level: Level) -> Result<MeasuredExpr, Fault>
    ensures { Reads 0 (spec.read 0 level tokens.old) result tokens.new }
{
    if begins(tokens.peek()) {
        Err(Fault::Deep)
    } else {
        Err(Fault::Syntax)
    }
}

/// The expression of this height at most that the tokens begin with.
pub fn read(
    alloc: Global,
    tokens: &mut Cursor<'_>,
    depth: u32,
    level: Level,
) -> Result<MeasuredExpr, Fault>
    requires { depth < 2 ^ 31 }
    ensures { Reads depth (spec.read depth level tokens.old) result tokens.new }
{
    if depth == 0 {
        return none(tokens, level);
    }
    Grammar {
        alloc,
        depth: depth - 1,
        inner: read,
    }
    .layer(tokens, level)
}
