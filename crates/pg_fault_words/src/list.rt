//! The faults of a galley's text.
ghost use Rattle.std.specs.Prelude.{◌≡◌};
ghost use Rattle.pg_showbox.specs.Kinds.{kind_number};

use crate::row::Row;
use pg_showbox::ListKind;

const NO_LISTING: Row = Row {
    number: 1,
    cause: "no listing in the file (line 0)",
    act: "There is no `\\showbox` of a vertical box in this log. Or the file is not a log: is it the style?",
};

const BAD_LINE: Row = Row {
    number: 2,
    cause: "a line of a listing that is not as its kind of line has to be; a deeper line with no item above; \
            something behind a glue",
    act: "Has the line before it 79 bytes? Then the log is wrapped: `--wrap 79`, or TeX once more with \
          `max_print_line=1000000`. Else look for a line end within a `\\special` or `\\write`, and for a log \
          that was edited.",
};

const UNKNOWN_NODE: Row = Row {
    number: 3,
    cause: "a name that no list has",
    act: "As with 2: is the log wrapped? An `\\unsetbox` is of an alignment that was not finished when the list \
          was shown.",
};

const BAD_NUMBER: Row = Row {
    number: 4,
    cause: "a number is missing",
    act: "As with 2: the number may stand on the next line, where the log is wrapped.",
};

const OUT_OF_RANGE: Row = Row {
    number: 5,
    cause: "a number is out of range",
    act: "A size of 16384 points or more: cut the box. In a marker, a looseness or demerits beyond their range.",
};

const TRUNCATED: Row = Row {
    number: 6,
    cause: "the list was cut",
    act: "Raise `\\showboxbreadth` and `\\showboxdepth`.",
};

const INFINITE_SHRINK: Row = Row {
    number: 7,
    cause: "a shrink without bound",
    act: "There is a `\\vss` or another `minus 1fil` between the lines: give it a finite amount. TeX takes none \
          on its own pages either.",
};

const RUNNING_SIZE: Row = Row {
    number: 8,
    cause: "`*` as the height or depth of a rule",
    act: "TeX writes none in a vertical list: was the log edited?",
};

const NEGATIVE_SIZE: Row = Row {
    number: 9,
    cause: "an insert of negative size",
    act: "What it holds has a negative skip or kern: put it into a box of its own.",
};

const CHOICE_SHAPE: Row = Row {
    number: 10,
    cause: "a marker out of place or not of its form, an item in front of the first version, a version that does \
            not begin with a box or rule or ends with what is discarded, or a choice that is not closed (told at \
            the line that ends its listing; at the end of the file one line behind the last)",
    act: "Compare the markers with the section on choices in `docs/input.md`. A `\\special` within a \
          paragraph is not a marker: write them between paragraphs.",
};

const CHOICE_INSERTS: Row = Row {
    number: 11,
    cause: "a version whose inserts are not those of the first (told at the marker that closes it)",
    act: "Footnotes and floats have to stand in each version, with the same text.",
};

const LIMIT: Row = Row {
    number: 12,
    cause: "an item beyond 2^20 (told at its line), or a sixth version",
    act: "Paginate chapter by chapter; leave out a version.",
};

const MEMORY: Row = Row {
    number: 13,
    cause: "memory ran out",
    act: "Try again with less, or on a machine with more.",
};

/// The words of a kind of fault of a galley, or of paragraphs.
pub fn list_row(kind: ListKind) -> Row
    ensures { result.number ≡ kind_number kind }
{
    match kind {
        ListKind::NoListing => NO_LISTING,
        ListKind::BadLine => BAD_LINE,
        ListKind::UnknownNode => UNKNOWN_NODE,
        ListKind::BadNumber => BAD_NUMBER,
        ListKind::OutOfRange => OUT_OF_RANGE,
        ListKind::Truncated => TRUNCATED,
        ListKind::InfiniteShrink => INFINITE_SHRINK,
        ListKind::RunningSize => RUNNING_SIZE,
        ListKind::NegativeSize => NEGATIVE_SIZE,
        ListKind::ChoiceShape => CHOICE_SHAPE,
        ListKind::ChoiceInserts => CHOICE_INSERTS,
        ListKind::Limit => LIMIT,
        ListKind::Memory => MEMORY,
    }
}

/// The words of all kinds that a text can have, in the order of their numbers.
pub const LIST_ROWS: [Row; 12] = [
    NO_LISTING,
    BAD_LINE,
    UNKNOWN_NODE,
    BAD_NUMBER,
    OUT_OF_RANGE,
    TRUNCATED,
    INFINITE_SHRINK,
    RUNNING_SIZE,
    NEGATIVE_SIZE,
    CHOICE_SHAPE,
    CHOICE_INSERTS,
    LIMIT,
];
