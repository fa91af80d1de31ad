//! Laws of the tokens: what `front` answers, in the grammar's own words.

ghost use Rattle.dump_lex.specs.Grammar.{FoundStands, StandingIsFound, ErrorHolds, FailingIsTold, BlanksSeparate, SeparatedIsBlank};
ghost use Rattle.dump_lex.specs.Reading.{TextIsRead, ReadingIsOne, ReadingParses, ParsedIsRead};
ghost use Rattle.dump_lex.specs.Written.{ValuesAreRead};

/// A token that is found is one of the grammar, and no following byte makes it longer.
pub fn found_stands()
    ensures { FoundStands }
{}

/// A token of the grammar that no following byte makes longer is found.
pub fn standing_is_found()
    ensures { StandingIsFound }
{}

/// An error is given only where the grammar's condition for it holds.
pub fn error_holds()
    ensures { ErrorHolds }
{}

/// An error is given wherever the grammar's condition for it holds.
pub fn failing_is_told()
    ensures { FailingIsTold }
{}

/// What is skipped before a token is spaces, newlines and whole comments, and no more of them follow.
pub fn blanks_separate()
    ensures { BlanksSeparate }
{}

/// Spaces, newlines and whole comments, with no more of them behind, are skipped.
pub fn separated_is_blank()
    ensures { SeparatedIsBlank }
{}

/// A text is read to its end or to its first error.
pub fn text_is_read()
    ensures { TextIsRead }
{}

/// A text is read in one way only.
pub fn reading_is_one()
    ensures { ReadingIsOne }
{}

/// What the lexer reads is the text in the grammar's words: separators and tokens in turn, each token as long as
/// its bytes allow, up to the end or to the first place where no token stands.
pub fn reading_parses()
    ensures { ReadingParses }
{}

/// What the text is in the grammar's words, the lexer reads.
pub fn parsed_is_read()
    ensures { ParsedIsRead }
{}

/// The token that writes a value is read as that value.
pub fn values_are_read()
    ensures { ValuesAreRead }
{}
