//! The faults of a style file.
ghost use Rattle.std.specs.Prelude.{◌≡◌};
ghost use Rattle.pg_stylefile.specs.Faults.{kind_number};

use crate::row::Row;
use pg_stylefile::StyleKind;

const TOML: Row = Row {
    number: 1,
    cause: "The text is not TOML, or not UTF-8. There is no key, and `-` is printed. A whole number beyond 64 \
            bits and a key that stands twice are faults of this kind.",
    act: "Any reader of TOML names the line. Or the names stand the wrong way round: the style comes before the \
          galley.",
};

const MISSING_KEY: Row = Row {
    number: 2,
    cause: "A key that is due is missing.",
    act: "Add it; `examples/plain.toml` has all but the classes, and there the least that does nothing: a count \
          of 0, a length of `\"0.0\"`.",
};

const UNKNOWN_KEY: Row = Row {
    number: 3,
    cause: "A key that the table does not know.",
    act: "Look for a slip in its name, for a key that stands below the wrong `[table]`, for `fitness` in a \
          style of version 1, for `ragged` in one of version 1 or 2, or for a key of notes in a class of floats.",
};

const WRONG_KIND: Row = Row {
    number: 4,
    cause: "A value of another kind: not a whole number, not a dimension, not one of the words, not a table, not an \
            array, or an array with an element that should be a table or a whole number and is not.",
    act: "A dimension is a string with a point and no unit, `\"58.0\"`; a whole number stands without quotes; \
          `runs` and `classes` are `[[runs]]` and `[[classes]]`.",
};

const OUT_OF_RANGE: Row = Row {
    number: 5,
    cause: "A value out of range: a number, a dimension (`\"16384.0\"` too), a part of a gap, a gap that is shrunk \
            by more than its size, or how many elements an array has.",
    act: "`docs/input.md` tells the range of each key. At `runs[N].extra` the sum with `height` counts, too.",
};

const DECREASING: Row = Row {
    number: 6,
    cause: "An entry of `distance` below the one before.",
    act: "A float that waits longer may not cost less: raise the later entry.",
};

const DUPLICATE_CLASS: Row = Row {
    number: 7,
    cause: "A class with the number of an earlier class.",
    act: "Each insert has one class: take one away.",
};

const NO_RUN: Row = Row {
    number: 8,
    cause: "`runs` is empty.",
    act: "Write the run that changes nothing: `extra = \"0.0\"`, `demerits = 0`.",
};

const MEMORY: Row = Row {
    number: 9,
    cause: "memory ran out",
    act: "Try again with less, or on a machine with more.",
};

/// The words of a kind of fault of a style.
pub fn style_row(kind: StyleKind) -> Row
    ensures { result.number ≡ kind_number kind }
{
    match kind {
        StyleKind::Toml => TOML,
        StyleKind::MissingKey => MISSING_KEY,
        StyleKind::UnknownKey => UNKNOWN_KEY,
        StyleKind::WrongKind => WRONG_KIND,
        StyleKind::OutOfRange => OUT_OF_RANGE,
        StyleKind::Decreasing => DECREASING,
        StyleKind::DuplicateClass => DUPLICATE_CLASS,
        StyleKind::NoRun => NO_RUN,
        StyleKind::Memory => MEMORY,
    }
}

/// The words of all kinds that a text can have, in the order of their numbers.
pub const STYLE_ROWS: [Row; 8] = [
    TOML,
    MISSING_KEY,
    UNKNOWN_KEY,
    WRONG_KIND,
    OUT_OF_RANGE,
    DECREASING,
    DUPLICATE_CLASS,
    NO_RUN,
];
