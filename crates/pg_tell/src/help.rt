//! How the program is used.

/// What `--help` tells.
pub const HELP: &str = "\
usage: pg_tell [--json] [--wrap N] STYLE GALLEY
       pg_tell [--json] --height H [--wrap N] GALLEY
       pg_tell --faults | --help | --version

It tells in words what pg says of the same files: how many pages the best
pagination has, what it costs and for what, and what these pages are like; or
that none is legal, why, which number of the style would help, all else as it
is, and how far pages come; and where a file is refused, the line of the file,
what is wrong with it, and what to do. To find what would help it searches up
to 64 times more.

  --height H   one column H points high (58.0: always with a point) in place
               of a style
  --wrap N     join lines of exactly N bytes with what follows them (79 for a
               log that TeX has wrapped)
  --json       tell it as one object of JSON
  --faults     every fault that pg tells by a number, with what to do

It ends with the status of pg: 0 pages, 1 no legal pagination, 2 usage, 3 a
file is refused, 4 a file cannot be read, 5 the output failed, 6 no memory.
";

/// What `--version` tells.
pub const VERSION: &str = "pg_tell 1.0\n";
