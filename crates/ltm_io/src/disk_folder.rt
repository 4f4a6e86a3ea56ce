//! The current folder, whose files can also be read piece by piece.
ghost use Rattle.std.specs.Prelude.{◌≡◌, ◌≢◌, ◌<◌, ◌≤◌, [], length, None, Err, IfOk};
ghost use Rattle.ltm_io.specs.Faults.{Rose};
ghost use Rattle.ltm_io.specs.declared.doc.Doc.{Doc};
ghost use Rattle.ltm_io.specs.RealFile as real;

use crate::doc::DOC_COUNT;
use crate::open_folder::{OpenFault, OpenFolder};
use crate::real_file::RealFile;
use crate::{Doc, Fetched, Folder, RealFolder};
use std::alloc::Global;
use std::fs;
use std::io::ErrorKind;
use std::rt::Files;

/// Files of the current folder. It tells nothing of what they hold. A count of faults has those of fetches and those of opened
/// files.
#[derive(Drop)]
pub struct DiskFolder<R: Files + Drop> {
    rt: R,
    folder: RealFolder<R>,
    faults: [u64; DOC_COUNT],
}

impl<R: Files + Drop + Copy> DiskFolder<R> {
    ghost use Rattle.ltm_io.specs.DiskFolder.{faults_of};

    /// The current folder of `rt`, with no fault counted.
    pub fn new(rt: R) -> DiskFolder<R>
        ensures { (d : Doc) → faults_of result d ≡ 0 }
    {
        DiskFolder {
            rt,
            folder: RealFolder::new(rt),
            faults: [0; DOC_COUNT],
        }
    }

    /// Counts a fault of a file.
    fn count_fault(&mut self, doc: Doc)
        ensures risen { Rose (faults_of self.old doc) (faults_of self.new doc) }
        ensures later { (d : Doc) → faults_of self.old d ≤ faults_of self.new d }
        ensures others { (d : Doc) → d ≢ doc → faults_of self.new d ≡ faults_of self.old d }
    {
        let place = doc.place();
        self.faults[place] = self.faults[place].saturating_add(1);
    }
}

impl<R: Files + Drop + Copy> Folder for DiskFolder<R> {
    ghost use Rattle.ltm_io.specs.DiskFolder.{faults_of};

    ghost told = { λ _. None };

    ghost faults = { faults_of };

    /// As the trait says.
    fn fetch(&mut self, doc: Doc, into: &mut Vec<u8>, max: u64) -> Fetched
        // What the trait promises. The clauses on what is told say nothing here.
        ensures failed { result ≡ Fetched.Failed
            → Rose (faults_of self.old doc) (faults_of self.new doc) }
        ensures size { length into.new.items ≤ max }
        ensures emptied { result ≢ Fetched.Found → into.new.items ≡ [] }
        ensures later { (d : Doc) → faults_of self.old d ≤ faults_of self.new d }
        ensures others { (d : Doc) → d ≢ doc → faults_of self.new d ≡ faults_of self.old d }
    {
        self.folder.fetch(doc, into, max)
    }
}

impl<R: Files + Drop + Copy> OpenFolder for DiskFolder<R> {
    ghost use Rattle.ltm_io.specs.DiskFolder.{faults_of};

    type File = RealFile<R::File>;

    /// As the trait says.
    fn open(&mut self, _alloc: Global, doc: Doc) -> Result<RealFile<R::File>, OpenFault>
        ensures faultless { IfOk result (λ file. real.faults_of file ≡ 0) }
        ensures failed { result ≡ Err OpenFault.Failed
            → Rose (faults_of self.old doc) (faults_of self.new doc) }
        ensures later { (d : Doc) → faults_of self.old d ≤ faults_of self.new d }
        ensures others { (d : Doc) → d ≢ doc → faults_of self.new d ≡ faults_of self.old d }
    {
        match fs::open(&self.rt, doc.file_name()) {
            Ok(file) => Ok(RealFile::new(file)),
            Err(e) => match e.kind() {
                ErrorKind::OutOfMemory => Err(OpenFault::NoMemory),
                _ => {
                    self.count_fault(doc);
                    Err(OpenFault::Failed)
                }
            },
        }
    }

    /// As the trait says.
    fn close(&mut self, doc: Doc, file: RealFile<R::File>)
        ensures failed { 0 < real.faults_of file
            → Rose (faults_of self.old doc) (faults_of self.new doc) }
        ensures stays { real.faults_of file ≡ 0
            → (d : Doc) → faults_of self.new d ≡ faults_of self.old d }
        ensures later { (d : Doc) → faults_of self.old d ≤ faults_of self.new d }
        ensures others { (d : Doc) → d ≢ doc → faults_of self.new d ≡ faults_of self.old d }
    {
        if file.has_failed() {
            self.count_fault(doc);
        }
    }
}
