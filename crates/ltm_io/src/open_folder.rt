//! A folder whose files can be read piece by piece, as the code above sees it.
ghost use Rattle.std.specs.Prelude.{◌≡◌, ◌≢◌, ◌<◌, ◌≤◌, Some, Err, IfOk, IfSome, IsSomeAnd};
ghost use Rattle.ltm_io.specs.Faults.{Rose};
ghost use Rattle.ltm_io.specs.declared.doc.Doc.{Doc};

use crate::{Doc, Folder, Source};
use std::alloc::Global;

/// Why a file was not opened.
#[derive(Clone, Copy, Debug, PartialEq, Eq)]
pub enum OpenFault {
    /// The file is missing or could not be opened, and its count of faults rose.
    Failed,
    /// Memory was not found.
    NoMemory,
}

/// A folder whose files can be read piece by piece.
pub trait OpenFolder: Folder {
    type File: Source + Drop;

    /// A file, to be read from its first byte on. It counts the faults of its reads, from 0 on, until it is closed.
    fn open(&mut self, alloc: Global, doc: Doc) -> Result<Self::File, OpenFault>
        ensures opened { IfOk result (λ file. IfSome (Self.told self.old)
            (λ files. IsSomeAnd (files doc) (λ bytes. Self.File.left file ≡ Some bytes))) }
        ensures faultless { IfOk result (λ file. Self.File.faults file ≡ 0) }
        ensures failed { result ≡ Err OpenFault.Failed
            → Rose (Self.faults self.old doc) (Self.faults self.new doc) }
        ensures keeps { Self.told self.new ≡ Self.told self.old }
        ensures later { (d : Doc) → Self.faults self.old d ≤ Self.faults self.new d }
        ensures others { (d : Doc) → d ≢ doc → Self.faults self.new d ≡ Self.faults self.old d };

    /// Lets a file go. Where one of its reads failed, and only there, the folder's count of faults of the file rises.
    fn close(&mut self, doc: Doc, file: Self::File)
        ensures failed { 0 < Self.File.faults file
            → Rose (Self.faults self.old doc) (Self.faults self.new doc) }
        ensures stays { Self.File.faults file ≡ 0
            → (d : Doc) → Self.faults self.new d ≡ Self.faults self.old d }
        ensures keeps { Self.told self.new ≡ Self.told self.old }
        ensures later { (d : Doc) → Self.faults self.old d ≤ Self.faults self.new d }
        ensures others { (d : Doc) → d ≢ doc → Self.faults self.new d ≡ Self.faults self.old d };
}
