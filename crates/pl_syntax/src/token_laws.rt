//! What a text is, as tokens.

ghost use Rattle.pl_syntax.specs.TokenLaws.{EachIsRead, OneReading};

/// Each text is some tokens and what is after them.
pub fn each_is_read()
    ensures { EachIsRead }
{}

/// No text is two lists of tokens.
pub fn one_reading()
    ensures { OneReading }
{}
