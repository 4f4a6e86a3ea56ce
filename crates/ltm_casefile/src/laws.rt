//! What holds of all cases. A call runs nothing.
ghost use Rattle.std.specs.Prelude.{IfErr};
ghost use Rattle.ltm_io.specs.Folder.{Files};
ghost use Rattle.ltm_casefile.specs.Case.{case_of};
ghost use Rattle.ltm_casefile.specs.Faults.{HidesNoMemory};
ghost use Rattle.ltm_casefile.specs.Roads.{unsplit_case_of};
ghost use Rattle.ltm_casefile.specs.Matrix.{NothingIsLost};
ghost use Rattle.ltm_casefile.specs.Headers.{HeadersAreTaken, ColumnsAreAtTheirNames};

/// No files make a bad case whose cause is the network's want of memory.
#[tactic(auto, using(crate::proofs::Memory::case_hides, crate::proofs::Memory::roads_hide))]
pub fn memory_is_never_a_bad_case()
    ensures case { (files : Files) → IfErr (case_of files) HidesNoMemory }
    ensures roads { (files : Files) → IfErr (unsplit_case_of files) HidesNoMemory }
{}

/// A header of a setup is taken exactly if it is the three names that are always there and any of the others, in their order; and
/// each column is read where its own name stands.
pub fn headers_are_read()
    ensures taken { HeadersAreTaken }
    ensures names { ColumnsAreAtTheirNames }
{}

/// What the slices of a profile get of an amount is all of it.
#[tactic(auto, using(crate::proofs::Slices::nothing_is_lost))]
pub fn nothing_is_lost()
    ensures { NothingIsLost }
{}
