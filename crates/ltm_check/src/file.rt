//! Reading a curve file piece by piece.
ghost use Rattle.std.specs.Prelude.{◌≡◌, ◌<◌, ◌≤◌, ◌^◌, ◌+◌, ◌++◌, ◌⊎◌, List, ℕ, [], drop, length, Err, OnOk, OnErr, IfOk, IfErr, IfSome};
ghost use Rattle.ltm_io.specs.Faults.{Rose};
ghost use Rattle.ltm_io.specs.Source.{prepended};
ghost use Rattle.ltm_records.specs.Fields.{Fields};
ghost use Rattle.ltm_records.specs.Left.{records_of};
ghost use Rattle.ltm_setting.specs.Setting.{setting_of};
ghost use Rattle.ltm_check.specs.Due.{record_count};
ghost use Rattle.ltm_check.specs.File.{IsCurveFile, told};
ghost use Rattle.ltm_check.specs.Faults.{IsFault};
ghost use Rattle.ltm_check.specs.Kept.{Keeps};
ghost use Rattle.ltm_check.specs.Pieces.{HasRead, IsReadTo, AnswersFile, EndsWith};
ghost use Rattle.ltm_setting.specs.Places.{IsShapedFor};

use crate::cut::{cut_at_line_end, cut_of};
use crate::due::record_count;
use crate::faults::{CurvesCause, CurvesFault, FileFault};
use crate::piece::read_piece;
use ltm_curve::Curves;
use ltm_flows::fresh;
use ltm_io::Source;
use ltm_scenario::Scenario;
use ltm_units::NoMemory;
use std::alloc::Global;

/// How many bytes are read at a time.
const PIECE: usize = 1 << 18;

/// Appends to a text what one read gives, and says how many bytes that is; none where none is left.
fn take_some<S: Source>(
    source: &mut S,
    piece: &mut [u8],
    text: &mut Vec<u8>,
) -> Result<usize, FileFault>
    requires { 0 < length piece.old }
    ensures few { IfOk result (λ n. n ≤ length piece.new) }
    ensures got { IfOk result (λ n. (got : List ℕ) × (length got ≡ n)
        × (text.new.items ≡ text.old.items ++ got)
        × (S.left source.old ≡ prepended got (S.left source.new))) }
    ensures end { IfOk result (λ n. n ≡ 0 → IfSome (S.left source.old) (λ bytes. bytes ≡ [])) }
    ensures causes { IfErr result (λ e. (e ≡ FileFault.ReadFault) ⊎ (e ≡ FileFault.NoMemory)) }
    ensures later { S.faults source.old ≤ S.faults source.new }
    ensures cause { result ≡ Err FileFault.ReadFault
        → Rose (S.faults source.old) (S.faults source.new) }
{
    let Ok(count) = source.read(piece) else {
        return Err(FileFault::ReadFault);
    };
    if text.extend_from_slice(&piece[..count]).is_err() {
        return Err(FileFault::NoMemory);
    }
    Ok(count)
}

/// Reads the records of a text up to its last line's end before its first quote, and keeps the text from there on. How many
/// records were read then. Nothing is read of a text that is shorter than is worth a look.
fn read_front(
    alloc: Global,
    scenario: &Scenario,
    curves: &mut Curves,
    next: u32,
    text: &mut Vec<u8>,
    worth: usize,
) -> Result<u32, CurvesFault>
    requires shape { IsShapedFor scenario.now curves.old }
    requires next { next ≤ record_count scenario.now + 1 }
    ensures shape { IsShapedFor scenario.now curves.new }
    ensures few { IfOk result (λ n. n ≤ record_count scenario.now + 1) }
    ensures right { IfOk result (λ n. (bytes : List ℕ)
        → HasRead scenario.now bytes curves.old next text.old.items
        → HasRead scenario.now bytes curves.new n text.new.items) }
    ensures fault { IfErr result (λ e. (bytes more : List ℕ)
        → HasRead scenario.now bytes curves.old next text.old.items
        → IsFault scenario.now (records_of (bytes ++ more)) e) }
{
    cut_at_line_end();
    if text.len() < worth {
        return Ok(next);
    }
    let cut = cut_of(text.as_slice());
    if cut == 0 {
        return Ok(next);
    }
    let read = match read_piece(alloc, scenario, curves, next, &text[..cut]) {
        Ok(read) => read,
        Err(fault) => return Err(fault),
    };
    match Vec::from_slice(alloc, &text[cut..]) {
        Ok(rest) => *text = rest,
        Err(_) => return Err(CurvesFault::NoMemory),
    }
    Ok(read)
}

/// Reads the last records of a file.
fn read_end(
    alloc: Global,
    scenario: &Scenario,
    curves: &mut Curves,
    next: u32,
    text: &[u8],
) -> Result<(), CurvesFault>
    requires shape { IsShapedFor scenario.now curves.old }
    requires next { next ≤ record_count scenario.now + 1 }
    ensures right { OnOk result ((bytes : List ℕ)
        → HasRead scenario.now bytes curves.old next text.now
        → IsCurveFile scenario.now (records_of bytes)
        × Keeps (setting_of scenario.now) (told scenario.now (records_of bytes)) curves.new) }
    ensures fault { IfErr result (λ e. (bytes : List ℕ)
        → HasRead scenario.now bytes curves.old next text.now
        → IsFault scenario.now (records_of bytes) e) }
{
    let read = match read_piece(alloc, scenario, curves, next, text) {
        Ok(read) => read,
        Err(fault) => return Err(fault),
    };
    match all_read(scenario, curves, read) {
        Ok(()) => Ok(()),
        Err(fault) => Err(fault),
    }
}

/// Whether all records were read where none is left.
fn all_read(scenario: &Scenario, curves: &Curves, next: u32) -> Result<(), CurvesFault>
    requires shape { IsShapedFor scenario.now curves.now }
    requires next { next ≤ record_count scenario.now + 1 }
    ensures right { OnOk result ((records : List Fields)
        → IsReadTo scenario.now records curves.now next → drop next records ≡ []
        → IsCurveFile scenario.now records
        × Keeps (setting_of scenario.now) (told scenario.now records) curves.now) }
    ensures fault { IfErr result (λ e. (records : List Fields)
        → IsReadTo scenario.now records curves.now next → drop next records ≡ []
        → IsFault scenario.now records e) }
{
    let _ = curves;
    if next == record_count(scenario) + 1 {
        return Ok(());
    }
    if next == 0 {
        return Err(CurvesFault::Bad {
            row: 1,
            cause: CurvesCause::Header,
        });
    }
    Err(CurvesFault::Bad {
        row: next + 1,
        cause: CurvesCause::Rows,
    })
}

/// Counts the bytes that are left of a file whose first fault is known, since one with too many bytes is told first.
fn count_rest<S: Source>(
    source: &mut S,
    piece: &mut [u8],
    taken: u64,
    most: u64,
    fault: CurvesFault,
) -> FileFault
    requires room { 0 < length piece.old }
    requires taken { taken ≤ most }
    requires most { most < 2 ^ 62 }
    ensures told { (rest : List ℕ) × IfSome (S.left source.old) (λ bytes. bytes ≡ rest)
        × EndsWith taken most fault rest result }
    ensures later { S.faults source.old ≤ S.faults source.new }
    ensures cause { result ≡ FileFault.ReadFault
        → Rose (S.faults source.old) (S.faults source.new) }
{
    let mut taken = taken;
    for _ in taken..most + 1 {
        let Ok(count) = source.read(piece) else {
            return FileFault::ReadFault;
        };
        if count == 0 {
            return FileFault::Curves(fault);
        }
        taken += count as u64;
        if taken > most {
            return FileFault::TooLong;
        }
    }
    FileFault::TooLong
}

/// As many zeros as are read at a time.
fn zeros(alloc: Global) -> Result<Vec<u8>, NoMemory>
    ensures { IfOk result (λ zeros. 0 < length zeros.items) }
{
    let zeros = vec![in alloc; 0u8; PIECE]?;
    Ok(zeros)
}

/// Reads a curve file of a scenario of at most `most` bytes from a source, as `read_curves` does, in memory that follows the curves,
/// where no quotes stand in it, and the longest record, and not the text. A file with too many bytes is told before its first fault.
pub fn read_curves_from<S: Source>(
    alloc: Global,
    scenario: &Scenario,
    source: &mut S,
    most: u64,
) -> Result<Curves, FileFault>
    requires { most < 2 ^ 62 }
    ensures told { (bytes : List ℕ) × IfSome (S.left source.old) (λ all. all ≡ bytes)
        × AnswersFile scenario.now most bytes result }
    ensures later { S.faults source.old ≤ S.faults source.new }
    ensures cause { result ≡ Err FileFault.ReadFault
        → Rose (S.faults source.old) (S.faults source.new) }
{
    let mut curves = match fresh(alloc, scenario) {
        Ok(curves) => curves,
        Err(NoMemory) => return Err(FileFault::NoMemory),
    };
    let mut zeros = match zeros(alloc) {
        Ok(zeros) => zeros,
        Err(NoMemory) => return Err(FileFault::NoMemory),
    };
    let piece = zeros.as_mut_slice();
    let mut text = Vec::new(alloc);
    let mut next: u32 = 0;
    let mut taken: u64 = 0;
    // A text that was looked at in vain is looked at again when it is twice as long, so that a long record costs its length.
    let mut worth = 0usize;
    for _ in 0..most + 1 {
        let count = match take_some(source, piece, &mut text) {
            Ok(count) => count,
            Err(fault) => return Err(fault),
        };
        taken += count as u64;
        if taken > most {
            return Err(FileFault::TooLong);
        }
        if count == 0 {
            return match read_end(alloc, scenario, &mut curves, next, text.as_slice()) {
                Ok(()) => Ok(curves),
                Err(fault) => Err(FileFault::Curves(fault)),
            };
        }
        match read_front(alloc, scenario, &mut curves, next, &mut text, worth) {
            Ok(read) => next = read,
            Err(fault) => {
                return Err(count_rest(source, piece, taken, most, fault));
            }
        }
        if text.len() >= worth {
            worth = text.len().saturating_mul(2);
        }
    }
    Err(FileFault::TooLong)
}
