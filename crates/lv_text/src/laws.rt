//! What holds of lines and tokens whatever the text, and worked examples.
//!
//! Each function does nothing: its contract is the law, which callers above cite by calling it.

ghost use Rattle.std.specs.Prelude.{◌≡◌, [], ◌∷◌, ◌++◌, codes};
ghost use Rattle.lv_text.specs.Tokens.{line_tokens, lexed, bad_byte};
ghost use Rattle.lv_text.specs.Lines.{lines_of};
ghost use Rattle.lv_text.specs.Laws.{BadByteIsNotAllowed, token_at, CommentChangesNothing, CommentKeepsReading, TokensLeaveBlanks, BlankParts, BlankLineIsEmpty, TextIsToken, LineFeedEndsLine, ReturnGoesWithLineFeed, EndOfTextEndsLine, LinesPartAtLineFeed, FirstLineStays, TextMovesWithToken, TextStaysBeforeMore, PrintedNumberIsItself, LexemesHaveKinds, PrintedIsReadAgain};

use crate::lexer::TokenKind;

/// A comment changes nothing.
pub fn comment_changes_nothing()
    ensures tokens { CommentChangesNothing }
    ensures reading { CommentKeepsReading }
{}

/// A space or a tab only parts what stands round it.
pub fn blank_parts()
    ensures { BlankParts }
{}

/// Before the tokens of a line, between and behind them stand spaces, tabs and a comment alone.
pub fn tokens_leave_blanks()
    ensures { TokensLeaveBlanks }
{}

/// A line of spaces and tabs has no tokens.
pub fn blank_line_is_empty()
    ensures { BlankLineIsEmpty }
{}

/// The text of a token reads as that token: the law by which what is printed is read again.
pub fn text_is_token()
    ensures { TextIsToken }
{}

/// The byte told as bad is not allowed where it stands: it is a letter behind a digit, or no blank, comment
/// or token begins with it.
pub fn bad_byte_is_not_allowed()
    ensures { BadByteIsNotAllowed }
{}

/// A line feed ends a line.
pub fn line_feed_ends_line()
    ensures { LineFeedEndsLine }
{}

/// Exactly one carriage return goes with a line feed.
pub fn return_goes_with_line_feed()
    ensures { ReturnGoesWithLineFeed }
{}

/// The end of the text ends a line.
pub fn end_of_text_ends_line()
    ensures { EndOfTextEndsLine }
{}

/// The lines of a text up to a line feed stay as they are, whatever stands behind it.
pub fn lines_part_at_line_feed()
    ensures { LinesPartAtLineFeed }
{}

/// A first line that has ended is the first line still when more of the text has come.
pub fn first_line_stays()
    ensures { FirstLineStays }
{}

/// The text of a token doesn't change with what stands before the line.
pub fn text_moves_with_token()
    ensures { TextMovesWithToken }
{}

/// The text of a token doesn't change with what stands behind the line.
pub fn text_stays_before_more()
    ensures { TextStaysBeforeMore }
{}

/// A number as it is printed is read as itself.
pub fn printed_number_is_itself()
    ensures { PrintedNumberIsItself }
{}

/// The lexemes of a line have texts of their kinds.
pub fn lexemes_have_kinds()
    ensures { LexemesHaveKinds }
{}

/// Lexemes that are printed with no more spaces than needed are read again as themselves.
pub fn printed_is_read_again()
    ensures { PrintedIsReadAgain }
{}

/// Lines that read as tokens.
pub fn token_examples()
    ensures words { line_tokens (codes "fault a -> b cost 3") ≡ lexed (
        token_at TokenKind.Word 0 5 ∷ token_at TokenKind.Word 6 7 ∷
        token_at TokenKind.Arrow 8 10 ∷ token_at TokenKind.Word 11 12 ∷
        token_at TokenKind.Word 13 17 ∷ token_at TokenKind.Number 18 19 ∷ []) }
    ensures path { line_tokens (codes "a.b=c") ≡ lexed (
        token_at TokenKind.Word 0 1 ∷ token_at TokenKind.Dot 1 2 ∷
        token_at TokenKind.Word 2 3 ∷ token_at TokenKind.Equals 3 4 ∷
        token_at TokenKind.Word 4 5 ∷ []) }
    ensures longest { line_tokens (codes "x<=>y=>==") ≡ lexed (
        token_at TokenKind.Word 0 1 ∷ token_at TokenKind.Iff 1 4 ∷
        token_at TokenKind.Word 4 5 ∷ token_at TokenKind.Implies 5 7 ∷
        token_at TokenKind.Equals 7 8 ∷ token_at TokenKind.Equals 8 9 ∷ []) }
    ensures comment { line_tokens (codes "!a#" ++ 200 ∷ 13 ∷ []) ≡ lexed (
        token_at TokenKind.Not 0 1 ∷ token_at TokenKind.Word 1 2 ∷ []) }
{}

/// Lines with a byte that is not allowed.
pub fn fault_examples()
    ensures letter_behind_digits { line_tokens (codes "12a") ≡ bad_byte 2 }
    ensures half_a_symbol { line_tokens (codes "a <= b") ≡ bad_byte 2 }
    ensures parted_arrow { line_tokens (codes "- >") ≡ bad_byte 0 }
    ensures lone_return { line_tokens (codes "diagnose" ++ 13 ∷ []) ≡ bad_byte 8 }
{}

/// Texts cut into lines.
pub fn line_examples()
    ensures none { lines_of [] ≡ [] }
    ensures only_return { lines_of (13 ∷ []) ≡ [] ∷ [] }
    ensures two_returns { lines_of (97 ∷ 13 ∷ 13 ∷ 10 ∷ []) ≡ (97 ∷ 13 ∷ []) ∷ [] }
    ensures last_without_end { lines_of (97 ∷ 10 ∷ 10 ∷ 98 ∷ []) ≡ (97 ∷ []) ∷ [] ∷ (98 ∷ []) ∷ [] }
{}
