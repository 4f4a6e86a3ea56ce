//! The profile of a matrix: the slices of the horizon over which it is split.
ghost use Rattle.std.specs.Prelude.{◌≡◌, ◌≤◌, ◌+◌, ◌*◌, [], length, Ok, Err, IfOk, IfErr, OnOk};
ghost use Rattle.csv.specs.Records.{fields_of};
ghost use Rattle.ltm_records.specs.Left.{records_of};
ghost use Rattle.ltm_units.specs.Bounds.{most_slots};
ghost use Rattle.ltm_casefile.specs.Causes.{Tells};
ghost use Rattle.ltm_casefile.specs.Faults.{Says};
ghost use Rattle.ltm_casefile.specs.Folder.{longest_large_file};
ghost use Rattle.ltm_casefile.specs.Profile.{AreSlices, no_slices, is_profile_header, slice_record, is_next, is_share, with_slice, slice_taken, slice_added, slices_of, profile_of};
ghost use Rattle.ltm_casefile.specs.Rows.{rows_from};
ghost use Rattle.ltm_casefile.specs.declared.faults.File.TheVariants as file;

use crate::faults::{CaseCause, CaseFault, File, RecordFault};
use crate::fields::{check_width, read_number};
use crate::texts::FileText;
use csv::ByteRecord;
use ltm_records::{Records, has, width};
use ltm_scenario::Scenario;
use std::alloc::Global;
use std::marker::Model;

/// The most that a slice's share may be.
const MOST_SHARE: u32 = 1_000_000;

/// How many fields a record has.
const WIDTH: usize = 3;

/// What a record of a profile says.
#[derive(Clone, Copy)]
pub struct SliceRecord {
    /// The first slot.
    pub from: u32,
    /// The slot after the last.
    pub to: u32,
    pub share: u32,
}

/// A slice of the horizon, and where its share of the total begins and ends.
#[derive(Clone, Copy)]
pub struct Slice {
    /// The first slot.
    pub from: u32,
    /// The slot after the last.
    pub to: u32,
    /// The shares of the slices before it.
    pub before: u64,
    /// These and its own.
    pub up_to: u64,
}

/// The slices of a profile, in order and apart.
pub struct Profile {
    slices: Vec<Slice>,
    end: u32,
    total: u64,
}

// By hand, so that letting go of a profile is one call, and not its parts one by one wherever that may happen.
impl Drop for Profile {
    fn drop(self) {
        let Profile {
            slices: _slices,
            end: _end,
            total: _total,
        } = self;
    }
}

impl Model for Profile {
    ghost use Rattle.ltm_casefile.specs.Profile.{ProfileData, AreSlices};

    ghost Value = { ProfileData };

    ghost view = { λ p. record { slices = p.slices.items; end = p.end; total = p.total } };

    ghost invariant = { λ p. AreSlices (record { slices = p.slices.items; end = p.end; total = p.total }) };
}

/// Whether the record is `from_slot,to_slot,share`.
pub fn is_profile_header(row: &ByteRecord) -> bool
    ensures { result ≡ is_profile_header (fields_of row.now) }
{
    width(row) == WIDTH
        && has(row, 0, b"from_slot")
        && has(row, 1, b"to_slot")
        && has(row, 2, b"share")
}

#[tactic(auto, unfolding(crate::specs::Profile::slice_record))]
fn read_slice(row: &ByteRecord) -> Result<SliceRecord, CaseCause>
    ensures { result ≡ slice_record (fields_of row.now) }
{
    check_width(row, WIDTH)?;
    let from = read_number(row, 1)?;
    let to = read_number(row, 2)?;
    let share = read_number(row, 3)?;
    Ok(SliceRecord { from, to, share })
}

impl Profile {
    /// A profile without slices.
    pub fn new(alloc: Global) -> Profile
        ensures { result ≡ no_slices }
    {
        Profile {
            slices: Vec::new(alloc),
            end: 0,
            total: 0,
        }
    }

    /// The slices, in order.
    pub fn slices(&self) -> &[Slice]
        ensures slices { result.now ≡ self.now.slices }
        ensures sound { AreSlices self.now }
    {
        self.slices.as_slice()
    }

    /// The shares of all slices, 0 where there is none.
    pub fn total(&self) -> u64
        ensures { result ≡ self.now.total }
    {
        self.total
    }

    /// Adds a slice behind the others.
    fn add(&mut self, slots: u32, said: &SliceRecord) -> Result<(), RecordFault>
        requires { slots ≤ most_slots }
        ensures ok { OnOk result (slice_taken slots self.old said.now ≡ Ok self.new) }
        ensures cause { IfErr result (Tells (slice_taken slots self.old said.now)) }
    {
        if said.from >= said.to || said.to > slots || said.from < self.end {
            return Err(RecordFault::Cause(CaseCause::BadSlots));
        }
        if said.share < 1 || said.share > MOST_SHARE {
            return Err(RecordFault::Cause(CaseCause::Range(3)));
        }
        let up_to = self.total + u64::from(said.share);
        let slice = Slice {
            from: said.from,
            to: said.to,
            before: self.total,
            up_to,
        };
        if self.slices.push(slice).is_err() {
            return Err(RecordFault::NoMemory);
        }
        self.end = said.to;
        self.total = up_to;
        Ok(())
    }

    fn add_record(&mut self, slots: u32, row: &ByteRecord) -> Result<(), RecordFault>
        requires { slots ≤ most_slots }
        ensures ok { OnOk result (slice_added slots self.old (fields_of row.now) ≡ Ok self.new) }
        ensures cause { IfErr result (Tells (slice_added slots self.old (fields_of row.now))) }
    {
        let said = read_slice(row)?;
        self.add(slots, &said)
    }

    /// Adds the records that are left, the first of which is in row 2.
    fn add_records(
        &mut self,
        slots: u32,
        records: &mut Records,
        row: &mut ByteRecord,
    ) -> Result<(), CaseFault>
        requires slots { slots ≤ most_slots }
        requires few { length records.old ≤ longest_large_file }
        ensures ok { OnOk result (rows_from file.Profile (slice_added slots) 2 self.old records.old
            ≡ Ok self.new) }
        ensures fault { IfErr result (Says
            (rows_from file.Profile (slice_added slots) 2 self.old records.old)) }
    {
        let mut number = 2;
        'rows: while records.next(row)? {
            match self.add_record(slots, row) {
                Ok(()) => {}
                Err(RecordFault::NoMemory) => return Err(CaseFault::NoMemory),
                Err(RecordFault::Cause(cause)) => return Err(bad(number, cause)),
            }
            number += 1;
        }
        Ok(())
    }
}

fn bad(row: u32, cause: CaseCause) -> CaseFault
    ensures { result ≡ CaseFault.Bad File.Profile row cause }
{
    CaseFault::Bad {
        file: File::Profile,
        row,
        cause,
    }
}

/// The slices of a profile, of which there is one at least.
#[tactic(auto, unfolding(crate::specs::Profile::profile_of))]
pub fn read_profile(
    alloc: Global,
    scenario: &Scenario,
    text: &FileText,
) -> Result<Profile, CaseFault>
    ensures ok { IfOk result (λ p. profile_of scenario.now.setup.slots (records_of text.now)
        ≡ Ok p) }
    ensures some { IfOk result (λ p. 1 ≤ p.total) }
    ensures fault { IfErr result (Says
        (profile_of scenario.now.setup.slots (records_of text.now))) }
{
    let slots = scenario.setup().slots;
    let mut records = Records::of(alloc, text.bytes());
    let mut row = ByteRecord::new(alloc);
    if !records.next(&mut row)? || !is_profile_header(&row) {
        return Err(bad(1, CaseCause::Header));
    }
    let mut profile = Profile::new(alloc);
    profile.add_records(slots, &mut records, &mut row)?;
    if profile.total() == 0 {
        return Err(bad(2, CaseCause::Rows));
    }
    Ok(profile)
}
