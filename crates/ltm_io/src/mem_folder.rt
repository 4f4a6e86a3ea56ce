//! A folder in memory.
ghost use Rattle.std.specs.Prelude.{◌≡◌, ◌≢◌, ℕ, ◌<◌, ◌≤◌, [], length, None, Some, IfOk, OnOk, OnErr, IsSomeAnd, option_map, if◌then◌else◌};
ghost use Rattle.ltm_io.specs.Doc.{place_of};
ghost use Rattle.ltm_io.specs.Fetched.{answer_of};
ghost use Rattle.ltm_io.specs.Faults.{Rose, raised};
ghost use Rattle.ltm_io.specs.declared.doc.Doc.{Doc};

use crate::doc::DOC_COUNT;
use crate::{Doc, Fetched, Folder};
use ltm_units::NoMemory;
use std::alloc::Global;

/// A folder in memory, whose fetches of a chosen list fail.
pub struct MemFolder {
    files: [Option<Vec<u8>>; DOC_COUNT],
    faults: [u64; DOC_COUNT],
    calls: u64,
    failing: Vec<u64>,
}

// By hand, so that letting go of a folder is one call, and not its parts one by one wherever that may happen.
impl Drop for MemFolder {
    fn drop(self) {
        let MemFolder {
            files: _files,
            faults: _faults,
            calls: _calls,
            failing: _failing,
        } = self;
    }
}

impl MemFolder {
    ghost use Rattle.ltm_io.specs.MemFolder.{file_of, faults_of, calls_of, failing_of};

    /// A folder with no file and no fault. The fetches whose numbers, counted from 1, are in
    /// `failing` are to fail.
    pub fn create(alloc: Global, failing: &[u64]) -> Result<MemFolder, NoMemory>
        ensures empty { IfOk result (λ folder. (d : Doc) → file_of folder d ≡ None) }
        ensures faultless { IfOk result (λ folder. (d : Doc) → faults_of folder d ≡ 0) }
        ensures calls { IfOk result (λ folder. calls_of folder ≡ 0) }
        ensures failing { IfOk result (λ folder. failing_of folder ≡ failing.now) }
    {
        let failing = Vec::from_slice(alloc, failing)?;
        Ok(MemFolder {
            files: [
                None, None, None, None, None, None, None, None, None, None, None, None, None, None,
                None, None,
            ],
            faults: [0; DOC_COUNT],
            calls: 0,
            failing,
        })
    }

    /// A folder with the four files that each case has, and no fault. The fetches whose numbers are in `failing` are to fail.
    pub fn of_case(
        alloc: Global,
        failing: &[u64],
        setup: &str,
        links: &str,
        demand: &str,
        splits: &str,
    ) -> Result<MemFolder, NoMemory>
        ensures setup { IfOk result (λ folder. file_of folder Doc.Setup ≡ Some setup.now) }
        ensures links { IfOk result (λ folder. file_of folder Doc.Links ≡ Some links.now) }
        ensures demand { IfOk result (λ folder. file_of folder Doc.Demand ≡ Some demand.now) }
        ensures splits { IfOk result (λ folder. file_of folder Doc.Splits ≡ Some splits.now) }
        ensures others { IfOk result (λ folder. (d : Doc) → 4 ≤ place_of d
            → file_of folder d ≡ None) }
        ensures faultless { IfOk result (λ folder. (d : Doc) → faults_of folder d ≡ 0) }
        ensures calls { IfOk result (λ folder. calls_of folder ≡ 0) }
        ensures failing { IfOk result (λ folder. failing_of folder ≡ failing.now) }
    {
        let setup = Vec::from_slice(alloc, setup.as_bytes())?;
        let links = Vec::from_slice(alloc, links.as_bytes())?;
        let demand = Vec::from_slice(alloc, demand.as_bytes())?;
        let splits = Vec::from_slice(alloc, splits.as_bytes())?;
        let failing = Vec::from_slice(alloc, failing)?;
        Ok(MemFolder {
            files: [
                Some(setup),
                Some(links),
                Some(demand),
                Some(splits),
                None,
                None,
                None,
                None,
                None,
                None,
                None,
                None,
                None,
                None,
                None,
                None,
            ],
            faults: [0; DOC_COUNT],
            calls: 0,
            failing,
        })
    }

    /// Sets the bytes of a file, in place of those that it had. An error leaves the folder as it
    /// was.
    pub fn put(&mut self, doc: Doc, bytes: &[u8]) -> Result<(), NoMemory>
        ensures set { OnOk result (file_of self.new doc ≡ Some bytes.now) }
        ensures others { (d : Doc) → d ≢ doc → file_of self.new d ≡ file_of self.old d }
        ensures err { OnErr result (file_of self.new ≡ file_of self.old) }
        ensures faults { (d : Doc) → faults_of self.new d ≡ faults_of self.old d }
        ensures calls { calls_of self.new ≡ calls_of self.old }
        ensures failing { failing_of self.new ≡ failing_of self.old }
    {
        let alloc = *self.failing.allocator();
        let copy = Vec::from_slice(alloc, bytes)?;
        let place = doc.place();
        self.files[place] = Some(copy);
        Ok(())
    }
}

impl Folder for MemFolder {
    ghost use Rattle.ltm_io.specs.MemFolder.{file_of, faults_of, calls_of, failing_of, fails_next, is_fault};

    ghost told = { λ folder. Some (file_of folder) };

    ghost faults = { faults_of };

    /// As the trait says. The fetch fails, and the file's count rises by one, exactly where its
    /// number is one of the list or the file is missing.
    fn fetch(&mut self, doc: Doc, into: &mut Vec<u8>, max: u64) -> Fetched
        // What the trait promises.
        ensures found { result ≡ Fetched.Found → file_of self.old doc ≡ Some into.new.items }
        ensures too_long { result ≡ Fetched.TooLong
            → IsSomeAnd (file_of self.old doc) (λ bytes. max < length bytes) }
        ensures failed { result ≡ Fetched.Failed
            → Rose (faults_of self.old doc) (faults_of self.new doc) }
        ensures size { length into.new.items ≤ max }
        ensures emptied { result ≢ Fetched.Found → into.new.items ≡ [] }
        ensures keeps { Some (file_of self.new) ≡ Some (file_of self.old) }
        ensures later { (d : Doc) → faults_of self.old d ≤ faults_of self.new d }
        ensures others { (d : Doc) → d ≢ doc → faults_of self.new d ≡ faults_of self.old d }

        // The exact answer, to which want of memory is the one exception.
        ensures answer { result ≢ Fetched.NoMemory
            → result ≡ answer_of (fails_next self.old) (file_of self.old doc) max }
        ensures no_memory { result ≡ Fetched.NoMemory
            → answer_of (fails_next self.old) (file_of self.old doc) max ≡ Fetched.Found }

        // The exact counts.
        ensures counts { faults_of self.new doc ≡ (if is_fault self.old doc
            then raised (faults_of self.old doc) else faults_of self.old doc) }
        ensures calls { calls_of self.new ≡ raised (calls_of self.old) }
        ensures failing { failing_of self.new ≡ failing_of self.old }
    {
        into.clear();
        self.calls = self.calls.saturating_add(1);
        let place = doc.place();
        let fails = self.failing.contains(&self.calls);
        let answer = copied(fails, &self.files[place], into, max);
        if answer == Fetched::Failed {
            self.faults[place] = self.faults[place].saturating_add(1);
        }
        answer
    }
}

// Copies a file of at most `max` bytes, unless the fetch is to fail.
fn copied(fails: bool, file: &Option<Vec<u8>>, into: &mut Vec<u8>, max: u64) -> Fetched
    requires { into.old.items ≡ [] }
    ensures answer { result ≢ Fetched.NoMemory
        → result ≡ answer_of fails (option_map (λ v. v.items) file.now) max }
    ensures no_memory { result ≡ Fetched.NoMemory
        → answer_of fails (option_map (λ v. v.items) file.now) max ≡ Fetched.Found }
    ensures found { result ≡ Fetched.Found
        → option_map (λ v. v.items) file.now ≡ Some into.new.items }
    ensures size { length into.new.items ≤ max }
    ensures emptied { result ≢ Fetched.Found → into.new.items ≡ [] }
{
    match file {
        Some(bytes) if !fails => {
            if bytes.len() as u64 > max {
                Fetched::TooLong
            } else if into.extend_from_slice(bytes.as_slice()).is_err() {
                Fetched::NoMemory
            } else {
                Fetched::Found
            }
        }
        _ => Fetched::Failed,
    }
}
