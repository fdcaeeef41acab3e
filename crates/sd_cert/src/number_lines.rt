//! Lines of a word and numbers.
ghost use Rattle.std.specs.Prelude.{◌≡◌, ◌≢◌, [], ◌∷◌, Some, IfOk};
ghost use Rattle.sd_cert.specs.declared.keyword.Keyword.TheVariants as word;
ghost use Rattle.sd_cert.specs.Fields.{IsReadAs};
ghost use Rattle.sd_cert.specs.Lines.{IsLine};
ghost use Rattle.sd_cert.specs.NumberLines.{word_and_numbers};

use crate::keyword::Keyword;
use crate::line::Line;
use crate::numbers::{all_small, small};
use sd_base::NoMemory;
use sd_kernel::{NodeLine, RowLine, Step};
use std::alloc::Global;

/// The line of this word and these numbers.
pub(crate) fn number_line(
    alloc: Global,
    keyword: Keyword,
    numbers: &[u64],
) -> Result<Option<Line>, NoMemory>
    ensures { IfOk result (IsReadAs word_and_numbers IsLine (Some (keyword, numbers.now))) }
{
    match keyword {
        Keyword::Chain => chain_line(alloc, numbers),
        _ => Ok(match numbers {
            [a] => line_of_one(keyword, *a),
            [a, b] => line_of_two(keyword, *a, *b),
            [a, b, c] => line_of_three(keyword, *a, *b, *c),
            [a, b, c, d] => line_of_four(keyword, *a, *b, *c, *d),
            _ => None,
        }),
    }
}

/// The chain of these numbers.
fn chain_line(alloc: Global, numbers: &[u64]) -> Result<Option<Line>, NoMemory>
    ensures { IfOk result (IsReadAs word_and_numbers IsLine (Some (word.Chain, numbers.now))) }
{
    let [first, others @ ..] = numbers else {
        return Ok(None);
    };
    let Some(equality) = small(*first) else {
        return Ok(None);
    };
    match all_small(alloc, others)? {
        Some(links) => Ok(Some(Line::Step(Step::Chain(equality, links)))),
        None => Ok(None),
    }
}

fn line_of_one(keyword: Keyword, number: u64) -> Option<Line>
    requires { keyword ≢ word.Chain }
    ensures { IsReadAs word_and_numbers IsLine (Some (keyword, number ∷ [])) result }
{
    match keyword {
        Keyword::Version => Some(Line::Version(number)),
        Keyword::Pairs => Some(Line::Pairs(number)),
        Keyword::Rows => Some(Line::Rows(number)),
        Keyword::Candidate => Some(Line::Candidate(small(number)?)),
        Keyword::Split => Some(Line::Step(Step::Split(small(number)?))),
        Keyword::Close => Some(Line::Step(Step::Close(small(number)?))),
        Keyword::Fact => Some(Line::Row(RowLine::Fact(small(number)?))),
        Keyword::Back => Some(Line::Row(RowLine::Back(small(number)?))),
        Keyword::Cut => Some(Line::Row(RowLine::Cut(small(number)?))),
        _ => None,
    }
}

fn line_of_two(keyword: Keyword, first: u64, second: u64) -> Option<Line>
    requires { keyword ≢ word.Chain }
    ensures { IsReadAs word_and_numbers IsLine (Some (keyword, first ∷ second ∷ [])) result }
{
    let a = small(first)?;
    let b = small(second)?;
    match keyword {
        Keyword::TermEq => Some(Line::Step(Step::Term(NodeLine::Eq(a, b)))),
        Keyword::TermLe => Some(Line::Step(Step::Term(NodeLine::Le(a, b)))),
        Keyword::TermRead => Some(Line::Step(Step::Term(NodeLine::Read(a, b)))),
        Keyword::TermDiff => Some(Line::Step(Step::Term(NodeLine::Diff(a, b)))),
        Keyword::Ite => Some(Line::Step(Step::Ite(a, b))),
        _ => None,
    }
}

fn line_of_three(keyword: Keyword, first: u64, second: u64, third: u64) -> Option<Line>
    requires { keyword ≢ word.Chain }
    ensures { IsReadAs word_and_numbers IsLine (Some (keyword, first ∷ second ∷ third ∷ [])) result }
{
    match keyword {
        Keyword::Order => Some(Line::Step(Step::Order(
            small(first)?,
            small(second)?,
            small(third)?,
        ))),
        _ => None,
    }
}

fn line_of_four(keyword: Keyword, first: u64, by: u64, second: u64, with: u64) -> Option<Line>
    requires { keyword ≢ word.Chain }
    ensures { IsReadAs word_and_numbers IsLine (Some (keyword, first ∷ by ∷ second ∷ with ∷ [])) result }
{
    match keyword {
        Keyword::Add => Some(Line::Row(RowLine::Add(small(first)?, by, small(second)?, with))),
        _ => None,
    }
}
