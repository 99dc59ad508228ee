//! The law is the contract of a function that does nothing.
ghost use Rattle.pg_pieces.specs.Strings.{TextsStayWithin, WordsStayWithin};

/// No text of a file ends a string of JSON, nor do words of the program.
pub fn texts_stay_within()
    ensures texts { TextsStayWithin }
    ensures words { WordsStayWithin }
{}
