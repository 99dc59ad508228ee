//! The faults of a style file, and the paths of its keys.
ghost use Rattle.std.specs.Prelude.{◌≡◌, ◌++◌, IfOk, OnOk};
ghost use Rattle.pg_stylefile.specs.Faults.{kind_number, path_of, position_text, fault_at, bare_fault, UnlessMemory};

use itoa::Buffer;
use pg_list::Bytes;
use std::alloc::{AllocError, Global};

/// What is wrong with a style file.
#[derive(Clone, Copy, PartialEq, Eq)]
pub enum StyleKind {
    /// The text is no TOML.
    Toml,
    /// A key that is due is not there.
    MissingKey,
    /// A table has a key that it does not know.
    UnknownKey,
    /// A value is of another kind, or a string is no dimension or no word of the list.
    WrongKind,
    /// A number, or how many elements an array has, is out of range.
    OutOfRange,
    /// An entry of a distance table is below the one before.
    Decreasing,
    /// An earlier class has the number.
    DuplicateClass,
    /// There is no run.
    NoRun,
    /// There was no memory.
    Memory,
}

/// The first fault of a style file, and the path of the key that has it. The path is empty where
/// the text is no TOML, and where there was no memory.
#[derive(Drop)]
pub struct StyleFault {
    pub kind: StyleKind,
    pub key: Bytes,
}

impl StyleKind {
    /// The number by which users are told of the fault.
    pub fn number(self) -> u8
        ensures { result ≡ kind_number self }
    {
        match self {
            StyleKind::Toml => 1,
            StyleKind::MissingKey => 2,
            StyleKind::UnknownKey => 3,
            StyleKind::WrongKind => 4,
            StyleKind::OutOfRange => 5,
            StyleKind::Decreasing => 6,
            StyleKind::DuplicateClass => 7,
            StyleKind::NoRun => 8,
            StyleKind::Memory => 9,
        }
    }
}

/// A table of a style file.
#[derive(Clone, Copy, PartialEq, Eq)]
pub enum TableName {
    Root,
    Top,
    Bottom,
    Wide,
    FloatColumn,
    Run { position: usize },
    Class { position: usize },
}

/// A fault at a key of a table. It takes no memory.
#[derive(Clone, Copy)]
pub struct Fault<'t> {
    pub kind: StyleKind,
    pub table_name: TableName,
    pub key: &'t [u8],
}

fn push_position(position: usize, path: &mut Vec<u8>) -> Result<(), AllocError>
    ensures { OnOk result (path.new.items ≡ path.old.items ++ position_text position) }
{
    let mut buffer = Buffer::new();
    path.extend_from_slice(buffer.format(position).as_bytes())?;
    path.extend_from_slice(b"].")
}

/// Appends the path of a table, as it stands in front of the table's keys.
#[tactic(auto, unfolding(crate::specs::Faults::path_of))]
fn push_path(table_name: TableName, path: &mut Vec<u8>) -> Result<(), AllocError>
    ensures { OnOk result (path.new.items ≡ path.old.items ++ path_of table_name) }
{
    match table_name {
        TableName::Root => Ok(()),
        TableName::Top => path.extend_from_slice(b"top."),
        TableName::Bottom => path.extend_from_slice(b"bottom."),
        TableName::Wide => path.extend_from_slice(b"wide."),
        TableName::FloatColumn => path.extend_from_slice(b"float_column."),
        TableName::Run { position } => {
            path.extend_from_slice(b"runs[")?;
            push_position(position, path)
        }
        TableName::Class { position } => {
            path.extend_from_slice(b"classes[")?;
            push_position(position, path)
        }
    }
}

impl Fault<'_> {
    fn path(&self, alloc: Global) -> Result<Bytes, AllocError>
        ensures { IfOk result (λ path. path ≡ path_of self.now.table_name ++ self.now.key.now) }
    {
        let mut path = Vec::new(alloc);
        push_path(self.table_name, &mut path)?;
        path.extend_from_slice(self.key)?;
        Ok(Bytes::new(path))
    }

    /// The fault with its path.
    #[tactic(auto, unfolding(crate::specs::Faults::fault_at))]
    pub fn told(&self, alloc: Global) -> StyleFault
        ensures { UnlessMemory result.kind (result ≡ fault_at self.now.kind self.now.table_name self.now.key.now) }
    {
        match self.path(alloc) {
            Ok(key) => StyleFault {
                kind: self.kind,
                key,
            },
            Err(_) => StyleFault::bare(alloc, StyleKind::Memory),
        }
    }
}

impl StyleFault {
    /// A fault of the text as a whole.
    pub fn bare(alloc: Global, kind: StyleKind) -> StyleFault
        ensures { result ≡ bare_fault kind }
    {
        StyleFault {
            kind,
            key: Bytes::new(Vec::new(alloc)),
        }
    }
}
