//! Why files of edits are not read.

/// Why a line is no batch of edits.
#[derive(Clone, Copy, Debug, PartialEq, Eq)]
pub enum LineCause {
    /// It is no JSON value.
    NotJson,
    /// The value is no command. The place is 0 where the command itself is at fault, and else that of the first edit
    /// that is none, counted from 1.
    NotCommand(u32),
    /// It is a command, and no edit.
    NotEdit,
}

/// What is wrong first with the files of edits. Editors and lines are counted from 1.
#[derive(Clone, Copy, Debug, PartialEq, Eq)]
pub enum EditsFault {
    /// The folder did not give the file of this editor, or has none.
    Missing(u32),
    /// It has more than 16,777,216 bytes.
    TooLong(u32),
    /// One of the files has more than 10,000 lines.
    TooMany,
    /// This line of an editor's file is no batch of edits.
    BadLine {
        editor: u32,
        line: u32,
        cause: LineCause,
    },
    /// Memory was not found.
    NoMemory,
}
