//! The line that words are. The first word says of which kind it is, and each kind has its own form for what stands
//! behind it. What the numbers stand for isn't looked at.
#![tactic(auto)]

ghost use Rattle.std.specs.Prelude.{◌≡◌, IfOk, position, length};
ghost use Rattle.std.specs.Str.{bytes_eq};
ghost use Rattle.lv_cert.specs.Words as Words;
ghost use Rattle.lv_cert.specs.Reading as Reading;
ghost use Rattle.lv_cert.specs.Reading.{question_of, moment_of, rare_head_of, head_of, has_fitting_count, numbers_of, literals_of, hints_of, row_of, only_word, certificate_of, fact_from, fact_of, numbered, evidence_of, split_of, is_zero, clause_from, clause_of, other_line_of, distinct_of, limit_of, line_from, line_of};

use crate::line::{Evidence, Head, Line, Literal, Moment, Question};
use crate::numbers::{literal, number, positive};
use crate::words::Word;
use lv_base::Seq;
use std::alloc::{AllocError, Global};

/// Whether a word is that one.
fn is(word: &[u8], text: &[u8]) -> bool
    ensures { result ≡ bytes_eq word.now text.now }
{
    word == text
}

fn question_of(word: &[u8]) -> Option<Question>
    ensures { result ≡ question_of word.now }
{
    if is(word, b"diagnosis") {
        Some(Question::Diagnosis)
    } else if is(word, b"recovery") {
        Some(Question::Recovery)
    } else {
        None
    }
}

fn moment_of(word: &[u8]) -> Option<Moment>
    ensures { result ≡ moment_of word.now }
{
    if is(word, b"now") {
        Some(Moment::Now)
    } else if is(word, b"next") {
        Some(Moment::Next)
    } else {
        None
    }
}

/// The head of a line of numbers, of the kinds that are few in a certificate.
fn rare_head_of(word: &[u8]) -> Option<Head>
    ensures { result ≡ rare_head_of word.now }
{
    if is(word, b"k") {
        Some(Head::Limit)
    } else if is(word, b"state") {
        Some(Head::State)
    } else if is(word, b"control") {
        Some(Head::Control)
    } else if is(word, b"recovery") {
        Some(Head::Recovery)
    } else if is(word, b"good") {
        Some(Head::Good)
    } else {
        None
    }
}

/// The head of a line of numbers.
fn head_of(word: &[u8]) -> Option<Head>
    ensures { result ≡ head_of word.now }
{
    if is(word, b"listed") {
        Some(Head::Listed)
    } else if is(word, b"now") {
        Some(Head::Now)
    } else if is(word, b"next") {
        Some(Head::Next)
    } else if is(word, b"conflict") {
        Some(Head::Conflict)
    } else if is(word, b"proof") {
        Some(Head::Proof)
    } else if is(word, b"counter") {
        Some(Head::Counter)
    } else {
        rare_head_of(word)
    }
}

/// Whether so many numbers may stand behind a head.
fn has_fitting_count(head: Head, count: usize) -> bool
    ensures { result ≡ has_fitting_count head count }
{
    match head {
        Head::Limit => count == 1,
        Head::State => count >= 1,
        Head::Control => true,
        Head::Listed => count >= 1,
        Head::Now => true,
        Head::Next => true,
        Head::Conflict => true,
        Head::Recovery => true,
        Head::Good => count == 1,
        Head::Proof => count == 2,
        Head::Counter => count >= 1,
    }
}

/// Whether bytes are one word.
fn is_word(word: &[u8]) -> bool
    ensures { result ≡ Words.is_word word.now }
{
    !word.is_empty() && has_only_inside(word)
}

/// Whether no byte is a space or a line feed.
fn has_only_inside(word: &[u8]) -> bool
    ensures { result ≡ Words.has_only_inside word.now }
{
    word.iter().all(|byte| *byte != b' ' && *byte != b'\n')
}

/// The numbers that words spell.
fn numbers_of(alloc: Global, words: &[Word]) -> Result<Option<Seq<u128>>, AllocError>
    ensures { IfOk result (λ found. found ≡ numbers_of words.now) }
{
    let mut numbers = Vec::new(alloc);
    for word in words {
        match number(word.as_slice()) {
            Some(n) => numbers.push(n)?,
            None => return Ok(None),
        }
    }
    Ok(Some(Seq::from_vec(numbers)))
}

/// The literals that words spell.
fn literals_of(alloc: Global, words: &[Word]) -> Result<Option<Seq<Literal>>, AllocError>
    ensures { IfOk result (λ found. found ≡ literals_of words.now) }
{
    let mut literals = Vec::new(alloc);
    for word in words {
        match literal(word.as_slice()) {
            Some(l) => literals.push(l)?,
            None => return Ok(None),
        }
    }
    Ok(Some(Seq::from_vec(literals)))
}

/// The hints that words spell.
fn hints_of(alloc: Global, words: &[Word]) -> Result<Option<Seq<u128>>, AllocError>
    ensures { IfOk result (λ found. found ≡ hints_of words.now) }
{
    let mut hints = Vec::new(alloc);
    for word in words {
        match positive(word.as_slice()) {
            Some(n) => hints.push(n)?,
            None => return Ok(None),
        }
    }
    Ok(Some(Seq::from_vec(hints)))
}

/// A line of numbers.
fn row_of(alloc: Global, head: Head, words: &[Word]) -> Result<Option<Line>, AllocError>
    ensures { IfOk result (λ line. line ≡ row_of head words.now) }
{
    if !has_fitting_count(head, words.len()) {
        return Ok(None);
    }
    match numbers_of(alloc, words)? {
        Some(numbers) => Ok(Some(Line::Numbers(head, numbers))),
        None => Ok(None),
    }
}

/// The one word there is, if it is a word.
fn only_word(alloc: Global, words: &[Word]) -> Result<Option<Seq<u8>>, AllocError>
    ensures { IfOk result (λ word. word ≡ only_word words.now) }
{
    match words {
        [word] => {
            if is_word(word.as_slice()) {
                Ok(Some(Seq::from_slice(alloc, word.as_slice())?))
            } else {
                Ok(None)
            }
        }
        _ => Ok(None),
    }
}

/// The first line.
fn certificate_of(words: &[Word]) -> Option<Line>
    ensures { result ≡ certificate_of words.now }
{
    match words {
        [word] => match question_of(word.as_slice()) {
            Some(question) => Some(Line::Certificate(question)),
            None => None,
        },
        _ => None,
    }
}

/// A fact of its three words.
fn fact_from(moment: &[u8], observable: &[u8], value: &[u8]) -> Option<Line>
    ensures { result ≡ fact_from moment.now observable.now value.now }
{
    let moment = moment_of(moment)?;
    let observable = number(observable)?;
    let value = number(value)?;
    Some(Line::Fact(moment, observable, value))
}

/// A fact.
fn fact_of(words: &[Word]) -> Option<Line>
    ensures { result ≡ fact_of words.now }
{
    match words {
        [moment, observable, value] => {
            fact_from(moment.as_slice(), observable.as_slice(), value.as_slice())
        }
        _ => None,
    }
}

/// What a word, with a number behind it, splits a zone by.
fn numbered(word: &[u8], n: u128) -> Option<Evidence>
    ensures { result ≡ numbered word.now n }
{
    if is(word, b"conflict") {
        Some(Evidence::Conflict(n))
    } else if is(word, b"listed") {
        Some(Evidence::Listed(n))
    } else if is(word, b"target") {
        Some(Evidence::Target(n))
    } else {
        None
    }
}

/// What a zone is split by.
fn evidence_of(words: &[Word]) -> Option<Evidence>
    ensures { result ≡ evidence_of words.now }
{
    match words {
        [word] => {
            if is(word.as_slice(), b"recovery") {
                Some(Evidence::Recovery)
            } else {
                None
            }
        }
        [word, n] => numbered(word.as_slice(), number(n.as_slice())?),
        _ => None,
    }
}

/// A split.
fn split_of(words: &[Word]) -> Option<Line>
    ensures { result ≡ split_of words.now }
{
    match words {
        [zone, rest @ ..] => {
            let zone = number(zone.as_slice())?;
            let evidence = evidence_of(rest)?;
            Some(Line::Split(zone, evidence))
        }
        [] => None,
    }
}

/// Where the first 0 stands.
fn first_zero(words: &[Word]) -> Option<usize>
    ensures { result ≡ position is_zero words.now }
{
    words.iter().position(|word| is(word.as_slice(), b"0"))
}

/// A clause of words for its literals, and of words of which the last ends its hints.
fn clause_from(alloc: Global, literals: &[Word], hints: &[Word]) -> Result<Option<Line>, AllocError>
    ensures { IfOk result (λ line. line ≡ clause_from literals.now hints.now) }
{
    let Some(at) = first_zero(hints) else {
        return Ok(None);
    };
    if at + 1 != hints.len() {
        return Ok(None);
    }
    let Some(literals) = literals_of(alloc, literals)? else {
        return Ok(None);
    };
    match hints_of(alloc, &hints[..at])? {
        Some(hints) => Ok(Some(Line::Clause(literals, hints))),
        None => Ok(None),
    }
}

/// A clause.
fn clause_of(alloc: Global, words: &[Word]) -> Result<Option<Line>, AllocError>
    ensures { IfOk result (λ line. line ≡ clause_of words.now) }
{
    match first_zero(words) {
        Some(at) => clause_from(alloc, &words[..at], &words[at + 1..]),
        None => Ok(None),
    }
}

/// The goal of the one word there is.
fn goal_of(alloc: Global, words: &[Word]) -> Result<Option<Line>, AllocError>
    ensures { IfOk result (λ line. line ≡ Reading.goal_of words.now) }
{
    match only_word(alloc, words)? {
        Some(text) => Ok(Some(Line::Goal(text))),
        None => Ok(None),
    }
}

/// The model of the one word there is.
fn model_of(alloc: Global, words: &[Word]) -> Result<Option<Line>, AllocError>
    ensures { IfOk result (λ line. line ≡ Reading.model_of words.now) }
{
    match only_word(alloc, words)? {
        Some(name) => Ok(Some(Line::Model(name))),
        None => Ok(None),
    }
}

/// A line whose first word is not the head of a line of numbers.
fn other_line_of(alloc: Global, word: &[u8], words: &[Word]) -> Result<Option<Line>, AllocError>
    ensures { IfOk result (λ line. line ≡ other_line_of word.now words.now) }
{
    if is(word, b"clause") {
        clause_of(alloc, words)
    } else if is(word, b"split") {
        Ok(split_of(words))
    } else if is(word, b"fact") {
        Ok(fact_of(words))
    } else if is(word, b"goal") {
        goal_of(alloc, words)
    } else if is(word, b"model") {
        model_of(alloc, words)
    } else if is(word, b"certificate") {
        Ok(certificate_of(words))
    } else {
        Ok(end_of(word, words))
    }
}

/// The last line.
fn end_of(word: &[u8], words: &[Word]) -> Option<Line>
    ensures { result ≡ Reading.end_of word.now words.now }
{
    if is(word, b"end") && words.is_empty() {
        Some(Line::End)
    } else {
        None
    }
}

/// A limit of candidates with distinct targets, of its two words.
fn distinct_of(limit: &[u8], word: &[u8]) -> Option<Line>
    ensures { result ≡ distinct_of limit.now word.now }
{
    if is(word, b"distinct") {
        Some(Line::Distinct(number(limit)?))
    } else {
        None
    }
}

/// A limit, with or without a word behind it.
fn limit_of(alloc: Global, words: &[Word]) -> Result<Option<Line>, AllocError>
    ensures { IfOk result (λ line. line ≡ limit_of words.now) }
{
    match words {
        [limit, word] => Ok(distinct_of(limit.as_slice(), word.as_slice())),
        _ => row_of(alloc, Head::Limit, words),
    }
}

/// The line that words are, if they are one.
pub fn line_of(alloc: Global, words: &[Word]) -> Result<Option<Line>, AllocError>
    ensures { IfOk result (λ line. line ≡ line_of words.now) }
{
    match words {
        [word, rest @ ..] => match head_of(word.as_slice()) {
            Some(Head::Limit) => limit_of(alloc, rest),
            Some(head) => row_of(alloc, head, rest),
            None => other_line_of(alloc, word.as_slice(), rest),
        },
        [] => Ok(None),
    }
}
