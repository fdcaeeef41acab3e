//! The text of a certificate.
ghost use Rattle.std.specs.Prelude.{◌≡◌, ◌<◌, ◌^◌, ◌++◌, ◌∷◌, [], ℕ, List, map, length, IfOk, OnOk};
ghost use Rattle.std.specs.List.{flat_map};
ghost use Rattle.std.specs.Fmt.{decimal};
ghost use Rattle.hex.specs.Hex.{encode_lower};
ghost use Rattle.sd_cert.specs.declared.line.Line.TheVariants as line;
ghost use Rattle.sd_kernel.specs.declared.Step.TheVariants as step;
ghost use Rattle.sd_cert.specs.Fields.{AreSmall, numbers_text};
ghost use Rattle.sd_cert.specs.Lines.{node_text, step_text, row_text, line_text, IsNode, IsStep, IsRow, IsLine};
ghost use Rattle.sd_cert.specs.Added.{IsOneLine, IsNoStep, IsAdded};
ghost use Rattle.sd_cert.specs.Certificates.{step_lines, proved_lines, pair_lines, certificate_text, IsCertificate};

use crate::certificate::{CertPair, Certificate};
use crate::line::{CertState, Line};
use sd_base::NoMemory;
use sd_kernel::{How, NodeLine, Proved, RowLine, Step};
use std::alloc::Global;

/// The one text that spells a certificate.
pub fn spell_certificate(alloc: Global, certificate: &Certificate) -> Result<Vec<u8>, NoMemory>
    requires { length certificate.now.pairs < 2 ^ 32 }
    ensures form { IfOk result (λ _. IsCertificate certificate.now) }
    ensures text { IfOk result (λ text. text.items ≡ certificate_text certificate.now) }
{
    let mut text = Vec::new(alloc);
    let pairs = certificate.pairs.as_slice();
    push_line(alloc, &mut text, Line::Version(1))?;
    push_line(alloc, &mut text, Line::Old(certificate.digests.old))?;
    push_line(alloc, &mut text, Line::New(certificate.digests.new))?;
    push_line(
        alloc,
        &mut text,
        Line::Settings(certificate.digests.settings),
    )?;
    push_line(alloc, &mut text, Line::Pairs(pairs.len() as u64))?;
    push_pairs(alloc, &mut text, pairs)?;
    push_line(alloc, &mut text, Line::End)?;
    Ok(text)
}

fn push_pairs(alloc: Global, text: &mut Vec<u8>, pairs: &[CertPair]) -> Result<(), NoMemory>
    requires { length pairs.now < 2 ^ 32 }
    ensures { OnOk result (IsAdded (pair_lines 0 pairs.now) text.old.items text.new.items) }
{
    for (i, pair) in pairs.iter().enumerate() {
        push_line(alloc, text, Line::Pair(i as u32, pair.state))?;
        push_all_proved(alloc, text, pair.proved.as_slice())?;
    }
    Ok(())
}

fn push_all_proved(alloc: Global, text: &mut Vec<u8>, all: &[Proved]) -> Result<(), NoMemory>
    ensures { OnOk result (IsAdded (flat_map proved_lines all.now) text.old.items text.new.items) }
{
    for proved in all {
        push_proved(alloc, text, proved)?;
    }
    Ok(())
}

fn push_proved(alloc: Global, text: &mut Vec<u8>, proved: &Proved) -> Result<(), NoMemory>
    ensures { OnOk result (IsAdded (proved_lines proved.now) text.old.items text.new.items) }
{
    push_line(alloc, text, Line::Candidate(proved.candidate))?;
    match &proved.how {
        How::Steps(proof) => push_steps(alloc, text, proof.steps.as_slice()),
    }
}

fn push_steps(alloc: Global, text: &mut Vec<u8>, steps: &[Step]) -> Result<(), NoMemory>
    ensures { OnOk result (IsAdded (flat_map step_lines steps.now) text.old.items text.new.items) }
{
    for step in steps {
        push_step(alloc, text, step)?;
    }
    Ok(())
}

fn push_step(alloc: Global, text: &mut Vec<u8>, step: &Step) -> Result<(), NoMemory>
    ensures { OnOk result (IsAdded (step_lines step.now) text.old.items text.new.items) }
{
    match step {
        Step::Rows(rows) => {
            push_line(alloc, text, Line::Rows(rows.len() as u64))?;
            push_rows(alloc, text, rows.as_slice())
        }
        _ => {
            push_step_fields(alloc, text, step)?;
            text.push(b'\n')?;
            Ok(())
        }
    }
}

fn push_rows(alloc: Global, text: &mut Vec<u8>, rows: &[RowLine]) -> Result<(), NoMemory>
    ensures { OnOk result (IsAdded (map line.Row rows.now) text.old.items text.new.items) }
{
    for row in rows {
        push_line(alloc, text, Line::Row(*row))?;
    }
    Ok(())
}

/// A line other than a step.
fn push_line(alloc: Global, text: &mut Vec<u8>, line: Line) -> Result<(), NoMemory>
    requires { IsNoStep line }
    ensures { OnOk result (IsAdded (line ∷ []) text.old.items text.new.items) }
{
    push_fields(alloc, text, line)?;
    text.push(b'\n')?;
    Ok(())
}

fn push_fields(alloc: Global, text: &mut Vec<u8>, line: Line) -> Result<(), NoMemory>
    requires { IsNoStep line }
    ensures fit { IfOk result (λ _. IsLine line) }
    ensures text { OnOk result (text.new.items ≡ text.old.items ++ line_text line) }
{
    match line {
        Line::Version(version) => push_number(alloc, text, b"symdiff-certificate ", version),
        Line::Old(digest) => push_digest(alloc, text, b"old ", &digest),
        Line::New(digest) => push_digest(alloc, text, b"new ", &digest),
        Line::Settings(digest) => push_digest(alloc, text, b"settings ", &digest),
        Line::Pairs(count) => push_number(alloc, text, b"pairs ", count),
        Line::Pair(number, state) => push_pair(alloc, text, number, state),
        Line::Candidate(candidate) => push_number(alloc, text, b"candidate ", candidate as u64),
        Line::Rows(count) => push_number(alloc, text, b"rows ", count),
        Line::Row(row) => push_row(alloc, text, row),
        Line::End => push(text, b"end"),
        Line::Step(_) => unreachable!(),
    }
}

fn push_pair(
    alloc: Global,
    text: &mut Vec<u8>,
    number: u32,
    state: CertState,
) -> Result<(), NoMemory>
    ensures { OnOk result (text.new.items ≡ text.old.items ++ line_text (line.Pair number state)) }
{
    push_number(alloc, text, b"pair ", number as u64)?;
    match state {
        CertState::Open => push(text, b" open"),
        CertState::Refused => push(text, b" refused"),
    }
}

fn push_row(alloc: Global, text: &mut Vec<u8>, row: RowLine) -> Result<(), NoMemory>
    ensures fit { IfOk result (λ _. IsRow row) }
    ensures text { OnOk result (text.new.items ≡ text.old.items ++ row_text row) }
{
    match row {
        RowLine::Fact(fact) => push_number(alloc, text, b"fact ", fact as u64),
        RowLine::Back(fact) => push_number(alloc, text, b"back ", fact as u64),
        RowLine::Add(first, by, second, with) => {
            push_number(alloc, text, b"add ", first as u64)?;
            push_number(alloc, text, b" ", by)?;
            push_number(alloc, text, b" ", second as u64)?;
            push_number(alloc, text, b" ", with)
        }
        RowLine::Cut(row) => push_number(alloc, text, b"cut ", row as u64),
    }
}

/// What a step of one line has.
fn push_step_fields(alloc: Global, text: &mut Vec<u8>, step: &Step) -> Result<(), NoMemory>
    requires { IsOneLine step.now }
    ensures fit { IfOk result (λ _. IsStep step.now) }
    ensures text { OnOk result (text.new.items ≡ text.old.items ++ step_text step.now) }
{
    match step {
        Step::Term(node) => push_node(alloc, text, *node),
        Step::Split(term) => push_number(alloc, text, b"split ", *term as u64),
        Step::Order(equality, left, right) => {
            push_number(alloc, text, b"order ", *equality as u64)?;
            push_number(alloc, text, b" ", *left as u64)?;
            push_number(alloc, text, b" ", *right as u64)
        }
        Step::Ite(choice, equality) => push_two(alloc, text, b"ite ", *choice, *equality),
        Step::Chain(equality, links) => push_chain(alloc, text, *equality, links.as_slice()),
        Step::Close(fact) => push_number(alloc, text, b"close ", *fact as u64),
        Step::Rows(_) => unreachable!(),
    }
}

fn push_node(alloc: Global, text: &mut Vec<u8>, node: NodeLine) -> Result<(), NoMemory>
    ensures fit { IfOk result (λ _. IsNode node) }
    ensures text { OnOk result (text.new.items ≡ text.old.items ++ node_text node) }
{
    match node {
        NodeLine::Eq(first, second) => push_two(alloc, text, b"term eq ", first, second),
        NodeLine::Le(first, second) => push_two(alloc, text, b"term le ", first, second),
        NodeLine::Read(first, second) => push_two(alloc, text, b"term read ", first, second),
        NodeLine::Diff(first, second) => push_two(alloc, text, b"term diff ", first, second),
    }
}

fn push_two(
    alloc: Global,
    text: &mut Vec<u8>,
    front: &[u8],
    first: u32,
    second: u32,
) -> Result<(), NoMemory>
    ensures { OnOk result (text.new.items ≡ text.old.items ++ (front.now ++ numbers_text (first ∷ second ∷ []))) }
{
    push_number(alloc, text, front, first as u64)?;
    push_number(alloc, text, b" ", second as u64)
}

fn push_chain(
    alloc: Global,
    text: &mut Vec<u8>,
    equality: u32,
    links: &[u32],
) -> Result<(), NoMemory>
    ensures fit { IfOk result (λ _. AreSmall links.now) }
    ensures text { OnOk result (text.new.items ≡ text.old.items ++ step_text (step.Chain equality links.now)) }
{
    push_number(alloc, text, b"chain ", equality as u64)?;
    for link in links {
        push_number(alloc, text, b" ", *link as u64)?;
    }
    Ok(())
}

fn push_number(alloc: Global, text: &mut Vec<u8>, front: &[u8], number: u64) -> Result<(), NoMemory>
    ensures { OnOk result (text.new.items ≡ text.old.items ++ (front.now ++ decimal number)) }
{
    let digits = format!(in alloc; "{number}")?;
    push(text, front)?;
    push(text, digits.as_bytes())
}

fn push_digest(
    alloc: Global,
    text: &mut Vec<u8>,
    front: &[u8],
    digest: &[u8],
) -> Result<(), NoMemory>
    ensures { OnOk result (text.new.items ≡ text.old.items ++ (front.now ++ encode_lower digest.now)) }
{
    let digits = hex::encode(alloc, digest)?;
    push(text, front)?;
    push(text, digits.as_bytes())
}

fn push(text: &mut Vec<u8>, more: &[u8]) -> Result<(), NoMemory>
    ensures { OnOk result (text.new.items ≡ text.old.items ++ more.now) }
{
    text.extend_from_slice(more)?;
    Ok(())
}
