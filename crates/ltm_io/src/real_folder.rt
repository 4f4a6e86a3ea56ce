//! The current folder.
ghost use Rattle.std.specs.Prelude.{◌≡◌, ◌≢◌, ℕ, ◌<◌, ◌≤◌, [], length, None, IfSome};
ghost use Rattle.std.specs.IoError.{error_kind};
ghost use Rattle.ltm_io.specs.Faults.{Rose, raised};
ghost use Rattle.ltm_io.specs.declared.doc.Doc.{Doc};

use crate::doc::DOC_COUNT;
use crate::{Doc, Fetched, Folder};
use std::fs::OpenFile;
use std::io::{ErrorKind, Read};
use std::rt::Files;
use std::{fs, io};

/// Files of the current folder. It tells nothing of what they hold.
#[derive(Drop)]
pub struct RealFolder<R: Files + Drop> {
    rt: R,
    faults: [u64; DOC_COUNT],
}

impl<R: Files + Drop> RealFolder<R> {
    ghost use Rattle.ltm_io.specs.RealFolder.{faults_of};

    /// The current folder of `rt`, with no fault counted.
    pub fn new(rt: R) -> RealFolder<R>
        ensures { (d : Doc) → faults_of result d ≡ 0 }
    {
        RealFolder {
            rt,
            faults: [0; DOC_COUNT],
        }
    }
}

impl<R: Files + Drop> Folder for RealFolder<R> {
    ghost use Rattle.ltm_io.specs.RealFolder.{faults_of};

    ghost told = { λ _. None };

    ghost faults = { faults_of };

    /// As the trait says. The file's count rises by one exactly where the fetch failed.
    fn fetch(&mut self, doc: Doc, into: &mut Vec<u8>, max: u64) -> Fetched
        // What the trait promises. The clauses on what is told say nothing here.
        ensures failed { result ≡ Fetched.Failed
            → Rose (faults_of self.old doc) (faults_of self.new doc) }
        ensures size { length into.new.items ≤ max }
        ensures emptied { result ≢ Fetched.Found → into.new.items ≡ [] }
        ensures later { (d : Doc) → faults_of self.old d ≤ faults_of self.new d }
        ensures others { (d : Doc) → d ≢ doc → faults_of self.new d ≡ faults_of self.old d }

        // The exact count.
        ensures counts { result ≡ Fetched.Failed
            → faults_of self.new doc ≡ raised (faults_of self.old doc) }
        ensures stays { result ≢ Fetched.Failed → faults_of self.new doc ≡ faults_of self.old doc }
    {
        into.clear();
        let answer = match fs::open(&self.rt, doc.file_name()) {
            Ok(file) => read_file(file, into, max),
            Err(e) => answer_to(&e),
        };
        if answer == Fetched::Failed {
            let place = doc.place();
            self.faults[place] = self.faults[place].saturating_add(1);
        }
        answer
    }
}

// Reads an open file to its end, or one byte past `max`.
fn read_file<F: Read + OpenFile + Drop>(file: F, into: &mut Vec<u8>, max: u64) -> Fetched
    requires { into.old.items ≡ [] }
    ensures found { result ≡ Fetched.Found
        → IfSome (F.remaining file) (λ bytes. into.new.items ≡ bytes) }
    ensures too_long { result ≡ Fetched.TooLong
        → IfSome (F.remaining file) (λ bytes. max < length bytes) }
    ensures size { length into.new.items ≤ max }
    ensures emptied { result ≢ Fetched.Found → into.new.items ≡ [] }
{
    make_room(&file, into, max);
    let mut front = file.take(max.saturating_add(1));
    match front.read_to_end(into) {
        Ok(_) if into.len() as u64 <= max => Fetched::Found,
        Ok(_) => {
            into.clear();
            Fetched::TooLong
        }
        Err(e) => {
            into.clear();
            answer_to(&e)
        }
    }
}

// Makes room for the length that the system tells of a file, so that the read need not grow it.
// The length is only a hint: where there is none, or the room is not found, the read grows.
fn make_room<F: OpenFile>(file: &F, into: &mut Vec<u8>, max: u64)
    ensures { into.new.items ≡ into.old.items }
{
    if let Ok(metadata) = file.metadata() {
        // One place more, in which the read finds the end.
        let room = metadata.len().min(max).saturating_add(1);
        let _ = into.reserve(room as usize);
    }
}

// What an error of the system makes of a fetch.
fn answer_to(error: &io::Error) -> Fetched
    ensures memory { error_kind error.now ≡ ErrorKind.OutOfMemory → result ≡ Fetched.NoMemory }
    ensures other { error_kind error.now ≢ ErrorKind.OutOfMemory → result ≡ Fetched.Failed }
{
    match error.kind() {
        ErrorKind::OutOfMemory => Fetched::NoMemory,
        _ => Fetched::Failed,
    }
}
