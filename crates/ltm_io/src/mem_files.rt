//! The files of a folder in memory.
ghost use Rattle.std.specs.Prelude.{◌≡◌, ◌≢◌, ◌<◌, ◌≤◌, Some, Err, IfOk, IsSomeAnd};
ghost use Rattle.ltm_io.specs.Faults.{Rose};
ghost use Rattle.ltm_io.specs.MemFolder.{file_of, faults_of};
ghost use Rattle.ltm_io.specs.declared.doc.Doc.{Doc};
ghost use Rattle.ltm_io.specs.SureSource.{left_of};

use crate::open_folder::{OpenFault, OpenFolder};
use crate::{Doc, Fetched, Folder, MemFolder, SureSource};
use std::alloc::Global;

/// The most bytes that a read gives.
const PIECE: u32 = 1 << 16;

impl OpenFolder for MemFolder {
    type File = SureSource;

    /// As the trait says. The file is fetched, and its reads never fail.
    fn open(&mut self, alloc: Global, doc: Doc) -> Result<SureSource, OpenFault>
        ensures opened { IfOk result (λ file. IsSomeAnd (file_of self.old doc)
            (λ bytes. Some (left_of file) ≡ Some bytes)) }
        ensures failed { result ≡ Err OpenFault.Failed
            → Rose (faults_of self.old doc) (faults_of self.new doc) }
        ensures keeps { Some (file_of self.new) ≡ Some (file_of self.old) }
        ensures later { (d : Doc) → faults_of self.old d ≤ faults_of self.new d }
        ensures others { (d : Doc) → d ≢ doc → faults_of self.new d ≡ faults_of self.old d }
    {
        let mut bytes = Vec::new(alloc);
        match self.fetch(doc, &mut bytes, u64::MAX) {
            Fetched::Found => match SureSource::create(alloc, bytes.as_slice(), PIECE) {
                Ok(file) => Ok(file),
                Err(_) => Err(OpenFault::NoMemory),
            },
            Fetched::Failed => Err(OpenFault::Failed),
            Fetched::TooLong | Fetched::NoMemory => Err(OpenFault::NoMemory),
        }
    }

    /// As the trait says. Nothing changes.
    fn close(&mut self, doc: Doc, file: SureSource)
        ensures failed { 0 < 0 → Rose (faults_of self.old doc) (faults_of self.new doc) }
        ensures stays { (d : Doc) → faults_of self.new d ≡ faults_of self.old d }
        ensures keeps { Some (file_of self.new) ≡ Some (file_of self.old) }
        ensures later { (d : Doc) → faults_of self.old d ≤ faults_of self.new d }
        ensures others { (d : Doc) → d ≢ doc → faults_of self.new d ≡ faults_of self.old d }
    {
        let _ = doc;
        drop(file);
    }
}
