//! Each law is the contract of a function that does nothing.
ghost use Rattle.law_readers.specs.Begins.{NoOutputsBeginAtFaults, OutputsBeginBeforeFaults};
ghost use Rattle.law_readers.specs.FaultsStay.{OutputFaultsStay};
ghost use Rattle.law_readers.specs.Galleys.{GalleyFaultsStay, ListingsAreRead, PassesOverLinesOutside, ReadsBrokenLines, ReadsItsListings};
ghost use Rattle.law_readers.specs.Paragraphs.{ParagraphFaultsStay, ParagraphsAreRead, PassesOverLinesOutside as PassesOverLinesBetween, ReadsItsParagraphs};
ghost use Rattle.law_readers.specs.Scripts.{ItemLinesAreRead, ReadsItsItemLines, ReadsPartByPart};

/// A fault of an output text at a whole line is a fault of every text that begins with the lines up to it.
pub fn faults_of_outputs_stay()
    ensures { OutputFaultsStay }
{}

/// The line at which an output text has its fault is the least number of lines that begin no output text.
pub fn outputs_begin_before_faults()
    ensures before { OutputsBeginBeforeFaults }
    ensures at { NoOutputsBeginAtFaults }
{}

/// A galley that is read of a file has the blocks of the file's listings, item by item, and what they say is read. Lines
/// outside of listings do not matter, lines that were broken at a width are read as if they were whole, and a fault at some line is a fault of every
/// file that begins with the lines up to it.
pub fn galleys_are_their_listings()
    ensures listings { ReadsItsListings }
    ensures read { ListingsAreRead }
    ensures outside { PassesOverLinesOutside }
    ensures broken { ReadsBrokenLines }
    ensures faults { GalleyFaultsStay }
{}

/// Paragraphs that are read of a file are those that stand there, item by item, and what they say is read. Lines outside
/// of paragraphs do not matter, and a fault at some line is a fault of every file that begins with the lines up to it.
pub fn paragraphs_are_their_items()
    ensures paragraphs { ReadsItsParagraphs }
    ensures read { ParagraphsAreRead }
    ensures outside { PassesOverLinesBetween }
    ensures faults { ParagraphFaultsStay }
{}

/// The steps of a script that is cut in front of a line without a point are those of its parts, or the first fault. The
/// blocks of its item lines are those that the lines say, as in a listing.
pub fn scripts_are_their_parts()
    ensures parts { ReadsPartByPart }
    ensures items { ReadsItsItemLines }
    ensures read { ItemLinesAreRead }
{}
