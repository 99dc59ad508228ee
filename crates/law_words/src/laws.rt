//! The law is the contract of a function that does nothing.
ghost use Rattle.law_words.specs.Laws.{NumbersReadBack, WholesReadBack, LengthsReadBack, CountsReadBack, SidesReadBack, PlacesReadBack};

/// What is written reads back.
pub fn written_reads_back()
    ensures numbers { NumbersReadBack }
    ensures wholes { WholesReadBack }
    ensures lengths { LengthsReadBack }
    ensures counts { CountsReadBack }
    ensures sides { SidesReadBack }
    ensures places { PlacesReadBack }
{}
