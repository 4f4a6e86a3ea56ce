//! How the program ends.
ghost use Rattle.std.specs.Prelude.{◌≡◌};
ghost use Rattle.ltm_command.specs.Status.{number_of};

/// How the program ended. Its number is the exit status of the process.
#[derive(Clone, Copy, Debug, PartialEq, Eq)]
pub enum Status {
    /// 0: the whole text that the command asks for is written.
    Ok,
    /// 2: the words are no command, and the usage line is written.
    Usage,
    /// 3: a file of the case could not be fetched, and nothing is written.
    FolderFault,
    /// 4: the input failed, and the answers to the lines that had come whole are written.
    ReadFault,
    /// 5: the output failed, and a front of what was to be written is there.
    WriteFault,
    /// 6: the files are no valid case, and the line of the first fault is written.
    BadCase,
    /// 7: a file of the case, of edits or of curves, or a line of the script has more bytes than are read; the answers to the
    /// lines before it are written, and a line that says so.
    TooLong,
    /// 8: the script has more lines than are answered, or a file of edits more than are read; the answers to those are written,
    /// and a line that says so.
    TooManyCommands,
    /// 9: memory was not found, and a front of what was to be written, or nothing, is there.
    NoMemory,
    /// 11: `curves.csv` is no curve file of the case, and the line of the first fault is written.
    BadCurves,
    /// 12: the curves of `curves.csv` are not the loading of the case, and a line that says where is written.
    NotLoading,
    /// 13: a line of a file of edits is no edit, and a line that says which is written.
    BadScript,
    /// 14: the case keeps no history, which the command needs, and a line that says so is written.
    NoHistory,
}

impl Status {
    /// The exit status of the process.
    pub fn number(&self) -> u8
        ensures { result ≡ number_of self.now }
    {
        match self {
            Status::Ok => 0,
            Status::Usage => 2,
            Status::FolderFault => 3,
            Status::ReadFault => 4,
            Status::WriteFault => 5,
            Status::BadCase => 6,
            Status::TooLong => 7,
            Status::TooManyCommands => 8,
            Status::NoMemory => 9,
            Status::BadCurves => 11,
            Status::NotLoading => 12,
            Status::BadScript => 13,
            Status::NoHistory => 14,
        }
    }
}
