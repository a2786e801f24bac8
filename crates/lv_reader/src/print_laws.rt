//! What holds of the canonical text of every model's text.
//!
//! Each function does nothing: its contract is the law.
#![tactic(auto)]

ghost use Rattle.lv_reader.specs.PrintLaws.{VersionOneIsRead, LineSaysTheSame, LineIsNoLonger, TextReadsBack, PrintedTwiceIsTheSame, TextIsLittleLonger};

/// What a line says in a text of the first version it says in one of the second: so that a text may be printed as one of
/// the second.
pub fn version_one_is_read()
    ensures { VersionOneIsRead }
{}

/// A statement's canonical line says the same as the line that it was read from, and is no longer.
pub fn line_stays()
    ensures statement { LineSaysTheSame }
    ensures length { LineIsNoLonger }
{}

/// The canonical text of what was read reads as the same statements, the version and the model's name before them.
pub fn text_reads_back()
    ensures { TextReadsBack }
{}

/// Printing again what was printed changes nothing.
pub fn printed_twice_is_the_same()
    ensures { PrintedTwiceIsTheSame }
{}

/// The canonical text is longer than its source by no more than the added version, the added name and the end of a last line.
pub fn text_is_little_longer()
    ensures { TextIsLittleLonger }
{}
