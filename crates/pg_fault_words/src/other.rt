//! The lines that are said without a kind.

use crate::row::Remark;

const LINES_FAULT: Remark = Remark {
    line: "`pg: NAME: line L: list fault K`",
    cause: "with the numbers of galleys: 1 where the file has no line that begins with `\\hbox(`; 2 where a \
            line of a paragraph has no point in front, as a second root, or is not as its kind has to be; 3 for \
            a character or any other item that is not named above; 4, 5 and 7 for numbers; 6 for `.etc.` and a \
            root that ends in ` []`; 12 for the item beyond 2048 of a paragraph",
    act: "Put each word into an `\\hbox`, and an empty line between paragraphs.",
};

const UNBROKEN: Remark = Remark {
    line: "`pg: NAME: paragraph P cannot be broken`",
    cause: "where no way to break paragraph P, counted from 1, is legal; it may have no box",
    act: "Raise the tolerance. Is a word wider than W? Is there glue in the last line that stretches, as \
          `\\hskip0pt plus 1fil`?",
};

const MANY_ITEMS: Remark = Remark {
    line: "`pg: NAME: N items are too many`",
    cause: "where the galley up to a paragraph has N items, more than 1048576, all versions counted",
    act: "Break chapter by chapter, or with a smaller `--around`.",
};

const LONG_PARAGRAPHS: Remark = Remark {
    line: "`pg: NAME: longer than 67108864 bytes`",
    cause: "for a file of more than 2^26 bytes",
    act: "Break chapter by chapter.",
};

/// Of the line `pg: NAME: longer than 67108864 bytes`.
pub const LONG_STYLE: Remark = Remark {
    line: "`pg: NAME: longer than 67108864 bytes`, of the style",
    cause: "for a file of more than 2^26 bytes",
    act: "Is it the style?",
};

/// Of the line `pg: NAME: longer than 67108864 bytes`.
pub const LONG_GALLEY: Remark = Remark {
    line: "`pg: NAME: longer than 67108864 bytes`, of the galley",
    cause: "for a file of more than 2^26 bytes",
    act: "`\\def\\galleydepth{1}` makes the log shorter; or paginate chapter by chapter.",
};

/// Of the line `pg: class N is not in the style`.
pub const STRANGE_CLASS: Remark = Remark {
    line: "`pg: class N is not in the style`",
    cause: "for the first insert, in the order of the galley, whose class the style does not have",
    act: "Give the style that class, as `examples/book.toml` has two; the plain style of `--height` has none. \
          Or take the notes and floats out of the document.",
};

/// Of the line `pg: N floats are too many`.
pub const MANY_FLOATS: Remark = Remark {
    line: "`pg: N floats are too many`",
    cause: "for more than 4096 floats",
    act: "Paginate chapter by chapter.",
};

const TWO_COLUMNS: Remark = Remark {
    line: "`pg: first fit: two columns`",
    cause: "for a style of two columns",
    act: "Compare with a style of one.",
};

const CHOICE: Remark = Remark {
    line: "`pg: first fit: choice at block B`",
    cause: "for a choice, where no float comes before it",
    act: "Take out the variants: first fit has no way to choose.",
};

const FLOAT: Remark = Remark {
    line: "`pg: first fit: float at block B`",
    cause: "for an insert of a float class, where no choice comes before it",
    act: "Compare without floats, or give the class the kind `note`.",
};

/// Of the line `pg: NAME: line L: not an output text`.
pub const NO_OUTPUT: Remark = Remark {
    line: "`pg: NAME: line L: not an output text`",
    cause: "for the first line by which the file cannot begin an output text; for the line behind the last \
            where it ends too soon",
    act: "Write it with `pg run`, or with `pg run --labels` for `pg check`.",
};

/// Of the line `pg: NAME: cannot be read`.
pub const UNREAD: Remark = Remark {
    line: "`pg: NAME: cannot be read`, with the status 4",
    cause: "where the working folder has no file of this name, or it may not be read",
    act: "Is the name right, seen from the working folder?",
};

/// What `pg lines` refuses.
pub const PARAGRAPHS: [Remark; 4] = [LINES_FAULT, UNBROKEN, MANY_ITEMS, LONG_PARAGRAPHS];

/// What else is refused.
pub const OTHERS: [Remark; 9] = [
    LONG_STYLE,
    LONG_GALLEY,
    STRANGE_CLASS,
    MANY_FLOATS,
    TWO_COLUMNS,
    CHOICE,
    FLOAT,
    NO_OUTPUT,
    UNREAD,
];
