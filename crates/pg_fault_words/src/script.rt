//! The faults of an edit script and of its edits.

use crate::row::Row;

const UNKNOWN_WORD: Row = Row {
    number: 1,
    cause: "The first word is none of the four, or an item line stands behind no `insert` or `replace`.",
    act: "Is there an empty line in front of the item line, or a blank in front of the word?",
};

const BAD_NUMBER: Row = Row {
    number: 2,
    cause: "There are too few words or too many, or one is not a number of the stated form.",
    act: "Look for two blanks in a row, and for one at the end of the line.",
};

const NO_BLOCKS: Row = Row {
    number: 3,
    cause: "An `insert` or `replace` has no item line directly behind it.",
    act: "To take blocks out, write `delete`.",
};

const BLOCKS: Row = Row {
    number: 4,
    cause: "An item line is at fault; ` list fault J` follows, with a kind of galleys, 2 to 12. A choice that \
            is not closed is told at the line behind the item lines.",
    act: "As for a galley. The limit of items counts those of one `insert` or `replace` alone.",
};

/// The words of the kinds of faults of a script, in the order of their numbers.
pub const SCRIPT_ROWS: [Row; 4] = [UNKNOWN_WORD, BAD_NUMBER, NO_BLOCKS, BLOCKS];

const NO_SUCH_BLOCKS: Row = Row {
    number: 1,
    cause: "The blocks from A on are not all there.",
    act: "`pg show` prints the galley as it was read, a block a line but for choices and deeper lines.",
};

const MANY_ITEMS: Row = Row {
    number: 2,
    cause: "The galley would have more than 1048576 items.",
    act: "Paginate chapter by chapter.",
};

const STRANGE_CLASS: Row = Row {
    number: 3,
    cause: "An insert has a class that the style does not have.",
    act: "Give the style that class.",
};

const MANY_FLOATS: Row = Row {
    number: 4,
    cause: "The galley would have more than 4096 floats.",
    act: "Paginate chapter by chapter.",
};

/// The words of the faults of an edit, in the order of their numbers.
pub const EDIT_ROWS: [Row; 4] = [NO_SUCH_BLOCKS, MANY_ITEMS, STRANGE_CLASS, MANY_FLOATS];
