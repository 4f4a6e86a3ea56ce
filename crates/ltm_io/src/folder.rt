//! A folder of files, as the code above sees it.
ghost use Rattle.std.specs.Prelude.{◌≡◌, ◌≢◌, ℕ, ◌<◌, ◌≤◌, [], length, Option, Some, IfSome, IsSomeAnd};
ghost use Rattle.ltm_io.specs.Folder.{Files};
ghost use Rattle.ltm_io.specs.Faults.{Rose};
ghost use Rattle.ltm_io.specs.declared.doc.Doc.{Doc};

use crate::Doc;

/// How a fetch ended.
#[derive(Clone, Copy, Debug, PartialEq, Eq)]
pub enum Fetched {
    /// The file's bytes were put into the buffer.
    Found,
    /// The file has more bytes than were allowed.
    TooLong,
    /// The file is missing or could not be read, and its count of faults rose.
    Failed,
    /// Memory was not found.
    NoMemory,
}

/// Files by name, and for each file a count of faults that never falls.
///
/// `told` is what the folder tells of its files; a real folder tells nothing. `faults` is the count
/// of a file. A count that stands at the greatest number of 64 bits counts as risen.
pub trait Folder {
    ghost told: { Self → Option Files };

    ghost faults: { Self → Doc → ℕ };

    /// Puts the bytes of a file of at most `max` bytes into `into`, in place of what it held.
    ///
    /// After every answer but `Found`, `into` is empty. The folder's files stay as they are, and so
    /// do the counts of the other files.
    fn fetch(&mut self, doc: Doc, into: &mut Vec<u8>, max: u64) -> Fetched
        ensures found { result ≡ Fetched.Found
            → IfSome (told self.old) (λ files. files doc ≡ Some into.new.items) }
        ensures too_long { result ≡ Fetched.TooLong
            → IfSome (told self.old) (λ files. IsSomeAnd (files doc)
            (λ bytes. max < length bytes)) }
        ensures failed { result ≡ Fetched.Failed
            → Rose (faults self.old doc) (faults self.new doc) }

        // A longer file is never found, told or not.
        ensures size { length into.new.items ≤ max }
        ensures emptied { result ≢ Fetched.Found → into.new.items ≡ [] }

        ensures keeps { told self.new ≡ told self.old }
        ensures later { (d : Doc) → faults self.old d ≤ faults self.new d }
        ensures others { (d : Doc) → d ≢ doc → faults self.new d ≡ faults self.old d };
}
