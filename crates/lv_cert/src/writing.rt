//! The text of a certificate: each line's words, parted by one space and ended by a line feed. Numbers are decimal.
#![tactic(auto)]

ghost use Rattle.std.specs.Prelude.{◌≡◌, ◌++◌, ◌∷◌, [], IfOk, map, decimal, codes};
ghost use Rattle.lv_cert.specs.Texts.{question_word, moment_word, head_word, literal_word, evidence_words, words_of, spaced, joined, line_text, text_of};

use crate::cert::Cert;
use crate::line::{Evidence, Head, Line, Literal, Moment, Question};
use itoa::Buffer;
use std::alloc::{AllocError, Global};

/// The text of a certificate.
pub fn write_cert(alloc: Global, cert: &Cert) -> Result<Vec<u8>, AllocError>
    ensures { IfOk result (λ out. out.items ≡ text_of cert.now.lines) }
{
    let mut out = Vec::new(alloc);
    push_lines(&mut out, cert.lines())?;
    Ok(out)
}

/// Adds the lines.
fn push_lines(out: &mut Vec<u8>, lines: &[Line]) -> Result<(), AllocError>
    ensures { IfOk result (λ _. out.new.items ≡ out.old.items ++ text_of lines.now) }
{
    for line in lines {
        push_line(out, line)?;
    }
    Ok(())
}

/// Adds a line.
fn push_line(out: &mut Vec<u8>, line: &Line) -> Result<(), AllocError>
    ensures { IfOk result (λ _. out.new.items ≡ out.old.items ++ line_text line.now) }
{
    push_words(out, line)?;
    out.extend_from_slice(b"\n")?;
    Ok(())
}

/// Adds the words of a line.
fn push_words(out: &mut Vec<u8>, line: &Line) -> Result<(), AllocError>
    ensures { IfOk result (λ _. out.new.items ≡ out.old.items ++ joined (words_of line.now)) }
{
    match line {
        Line::Certificate(question) => push_two(out, b"certificate", question_word(*question)),
        Line::Model(name) => push_two(out, b"model", name.as_slice()),
        Line::Goal(text) => push_two(out, b"goal", text.as_slice()),
        Line::Distinct(limit) => push_distinct(out, *limit),
        Line::Fact(moment, observable, value) => push_fact(out, *moment, *observable, *value),
        Line::Clause(literals, hints) => push_clause(out, literals.as_slice(), hints.as_slice()),
        Line::Split(zone, evidence) => push_split(out, *zone, *evidence),
        Line::Numbers(head, numbers) => push_row(out, *head, numbers.as_slice()),
        Line::End => {
            out.extend_from_slice(b"end")?;
            Ok(())
        }
    }
}

/// Adds a word after a space.
fn push_word(out: &mut Vec<u8>, word: &[u8]) -> Result<(), AllocError>
    ensures { IfOk result (λ _. out.new.items ≡ out.old.items ++ spaced (word.now ∷ [])) }
{
    out.extend_from_slice(b" ")?;
    out.extend_from_slice(word)?;
    Ok(())
}

/// Adds a number after a space.
fn push_number(out: &mut Vec<u8>, n: u128) -> Result<(), AllocError>
    ensures { IfOk result (λ _. out.new.items ≡ out.old.items ++ spaced (decimal n ∷ [])) }
{
    let mut buffer = Buffer::new();
    push_word(out, buffer.format(n).as_bytes())
}

/// Adds numbers, each after a space.
fn push_numbers(out: &mut Vec<u8>, numbers: &[u128]) -> Result<(), AllocError>
    ensures { IfOk result (λ _. out.new.items ≡ out.old.items ++ spaced (map decimal numbers.now)) }
{
    for n in numbers {
        push_number(out, *n)?;
    }
    Ok(())
}

/// Adds the two words of a line.
fn push_two(out: &mut Vec<u8>, first: &[u8], second: &[u8]) -> Result<(), AllocError>
    ensures { IfOk result (λ _. out.new.items ≡ out.old.items ++ joined (first.now ∷ second.now ∷ [])) }
{
    out.extend_from_slice(first)?;
    push_word(out, second)
}

/// Adds the words of a limit of candidates with distinct targets.
fn push_distinct(out: &mut Vec<u8>, limit: u128) -> Result<(), AllocError>
    ensures { IfOk result (λ _. out.new.items ≡ out.old.items ++ joined (codes "k" ∷ decimal limit ∷ codes "distinct" ∷ [])) }
{
    out.extend_from_slice(b"k")?;
    push_number(out, limit)?;
    push_word(out, b"distinct")
}

/// Adds the words of a fact.
fn push_fact(
    out: &mut Vec<u8>,
    moment: Moment,
    observable: u128,
    value: u128,
) -> Result<(), AllocError>
    ensures { IfOk result (λ _. out.new.items ≡ out.old.items ++ joined (codes "fact" ∷ moment_word moment ∷ decimal observable ∷ decimal value ∷ [])) }
{
    push_two(out, b"fact", moment_word(moment))?;
    push_number(out, observable)?;
    push_number(out, value)
}

/// Adds the words of a clause.
fn push_clause(out: &mut Vec<u8>, literals: &[Literal], hints: &[u128]) -> Result<(), AllocError>
    ensures { IfOk result (λ _. out.new.items ≡ out.old.items ++ joined (codes "clause" ∷ (map literal_word literals.now ++ codes "0" ∷ (map decimal hints.now ++ codes "0" ∷ [])))) }
{
    out.extend_from_slice(b"clause")?;
    push_literals(out, literals)?;
    push_hints(out, hints)?;
    Ok(())
}

/// Adds the 0 that ends the literals of a clause, and its hints with theirs.
fn push_hints(out: &mut Vec<u8>, hints: &[u128]) -> Result<(), AllocError>
    ensures { IfOk result (λ _. out.new.items ≡ out.old.items ++ spaced (codes "0" ∷ (map decimal hints.now ++ codes "0" ∷ []))) }
{
    push_word(out, b"0")?;
    push_numbers(out, hints)?;
    push_word(out, b"0")?;
    Ok(())
}

/// Adds literals, each after a space.
fn push_literals(out: &mut Vec<u8>, literals: &[Literal]) -> Result<(), AllocError>
    ensures { IfOk result (λ _. out.new.items ≡ out.old.items ++ spaced (map literal_word literals.now)) }
{
    for literal in literals {
        push_literal(out, *literal)?;
    }
    Ok(())
}

/// Adds a literal after a space.
fn push_literal(out: &mut Vec<u8>, literal: Literal) -> Result<(), AllocError>
    ensures { IfOk result (λ _. out.new.items ≡ out.old.items ++ spaced (literal_word literal ∷ [])) }
{
    let mut buffer = Buffer::new();
    out.extend_from_slice(if literal.negated { b" -" } else { b" " })?;
    out.extend_from_slice(buffer.format(literal.number).as_bytes())?;
    Ok(())
}

/// Adds the words of a split.
fn push_split(out: &mut Vec<u8>, zone: u128, evidence: Evidence) -> Result<(), AllocError>
    ensures { IfOk result (λ _. out.new.items ≡ out.old.items ++ joined (codes "split" ∷ decimal zone ∷ evidence_words evidence)) }
{
    out.extend_from_slice(b"split")?;
    push_number(out, zone)?;
    match evidence {
        Evidence::Conflict(n) => push_numbered(out, b"conflict", n),
        Evidence::Listed(n) => push_numbered(out, b"listed", n),
        Evidence::Target(n) => push_numbered(out, b"target", n),
        Evidence::Recovery => push_word(out, b"recovery"),
    }
}

/// Adds a word and a number, each after a space.
fn push_numbered(out: &mut Vec<u8>, word: &[u8], n: u128) -> Result<(), AllocError>
    ensures { IfOk result (λ _. out.new.items ≡ out.old.items ++ spaced (word.now ∷ decimal n ∷ [])) }
{
    push_word(out, word)?;
    push_number(out, n)
}

/// Adds the words of a line of numbers.
fn push_row(out: &mut Vec<u8>, head: Head, numbers: &[u128]) -> Result<(), AllocError>
    ensures { IfOk result (λ _. out.new.items ≡ out.old.items ++ joined (head_word head ∷ map decimal numbers.now)) }
{
    out.extend_from_slice(head_word(head))?;
    push_numbers(out, numbers)
}

/// The word of a question.
fn question_word(question: Question) -> &'static [u8]
    ensures { result.now ≡ question_word question }
{
    match question {
        Question::Diagnosis => b"diagnosis",
        Question::Recovery => b"recovery",
    }
}

/// The word of a moment.
fn moment_word(moment: Moment) -> &'static [u8]
    ensures { result.now ≡ moment_word moment }
{
    match moment {
        Moment::Now => b"now",
        Moment::Next => b"next",
    }
}

/// The first word of a line of numbers.
fn head_word(head: Head) -> &'static [u8]
    ensures { result.now ≡ head_word head }
{
    match head {
        Head::Limit => b"k",
        Head::State => b"state",
        Head::Control => b"control",
        Head::Listed => b"listed",
        Head::Now => b"now",
        Head::Next => b"next",
        Head::Conflict => b"conflict",
        Head::Recovery => b"recovery",
        Head::Good => b"good",
        Head::Proof => b"proof",
        Head::Counter => b"counter",
    }
}
