//! The words that statements begin with.
#![tactic(auto)]

ghost use Rattle.std.specs.Prelude.{◌≡◌, Some, None, if◌then◌else◌};
ghost use Rattle.lv_text.specs.Lexemes.{says};
ghost use Rattle.lv_reader.specs.Keywords.{keyword_of};

use lv_base::Class;
use lv_text::TokenLine;

/// The word that a statement begins with.
#[derive(Clone, Copy, Debug, PartialEq, Eq)]
pub enum Keyword {
    /// `model`
    ModelWord,
    /// `domain`
    DomainWord,
    /// `type`
    TypeWord,
    /// `control`, `variable` or `observable`
    ClassWord(Class),
    /// `mode`
    ModeWord,
    /// `law`
    LawWord,
    /// `in`
    InWord,
    /// `step`
    StepWord,
    /// `fault`
    FaultWord,
    /// `end`
    EndWord,
    /// `part`
    PartWord,
    /// `price`
    PriceWord,
    /// `version`
    VersionWord,
}

/// The keyword, where the line begins with its word.
fn keyword_if(line: &TokenLine<'_>, text: &[u8], keyword: Keyword) -> Option<Keyword>
    ensures { result ≡ (if says text.now line.now 0 then Some keyword else None) }
{
    if line.says(0, text) {
        Some(keyword)
    } else {
        None
    }
}

/// The word of a statement that the line begins with, if it begins with one. Its first byte tells which it can be.
#[tactic(auto, unfolding(crate::specs::Keywords::keyword_of))]
pub fn keyword_of(line: &TokenLine<'_>) -> Option<Keyword>
    ensures { result ≡ keyword_of line.now }
{
    match line.word(0)?.first() {
        Some(b'c') => keyword_if(line, b"control", Keyword::ClassWord(Class::Control)),
        Some(b'd') => keyword_if(line, b"domain", Keyword::DomainWord),
        Some(b'e') => keyword_if(line, b"end", Keyword::EndWord),
        Some(b'f') => keyword_if(line, b"fault", Keyword::FaultWord),
        Some(b'i') => keyword_if(line, b"in", Keyword::InWord),
        Some(b'l') => keyword_if(line, b"law", Keyword::LawWord),
        Some(b'o') => keyword_if(line, b"observable", Keyword::ClassWord(Class::Observable)),
        Some(b's') => keyword_if(line, b"step", Keyword::StepWord),
        Some(b't') => keyword_if(line, b"type", Keyword::TypeWord),
        Some(b'm') => {
            if line.says(0, b"mode") {
                Some(Keyword::ModeWord)
            } else {
                keyword_if(line, b"model", Keyword::ModelWord)
            }
        }
        Some(b'p') => {
            if line.says(0, b"part") {
                Some(Keyword::PartWord)
            } else {
                keyword_if(line, b"price", Keyword::PriceWord)
            }
        }
        Some(b'v') => {
            if line.says(0, b"variable") {
                Some(Keyword::ClassWord(Class::Dependent))
            } else {
                keyword_if(line, b"version", Keyword::VersionWord)
            }
        }
        _ => None,
    }
}
