//! The records of a file of fields with commas, one at a time.
//!
//! Contracts see a `Records` as the list of the records that are left. What the reader of `csv` has to keep for that is
//! the invariant of the model, `IsReading`; once a read found no record or failed, none is left and the reader is not
//! asked again.
ghost use Rattle.std.specs.Prelude.{◌≡◌, ◌≤◌, ◌+◌, [], ◌∷◌, length, Some, true, false, IfOk, OnErr};
ghost use Rattle.csv.specs.Reading.{error_kind, stops_reader};
ghost use Rattle.csv.specs.Records.{fields_of};
ghost use Rattle.ltm_records.specs.Left.{records_of};

use csv::{ByteRecord, Error, Reader, ReaderBuilder};
use ltm_units::NoMemory;
use std::alloc::Global;
use std::marker::Model;

/// The records that are left of a text, the header among them.
pub struct Records<'a> {
    reader: Reader<&'a [u8]>,
    ended: bool,
}

// By hand, so that letting go of records is one call, and not their parts one by one wherever that may happen.
impl Drop for Records<'_> {
    fn drop(self) {
        let Records {
            reader: _reader,
            ended: _ended,
        } = self;
    }
}

impl<'a> Model for Records<'a> {
    ghost use Rattle.std.specs.Prelude.{◌≡◌, List, [], Some, false, if◌then◌else◌};
    ghost use Rattle.ltm_records.specs.Fields.{Fields};
    ghost use Rattle.ltm_records.specs.Left.{left_of, IsReading};

    ghost Value = { List Fields };

    ghost view = { λ a. if a.ended then [] else left_of (λ s. Some s.now) a.reader };

    ghost invariant = { λ a. a.ended ≡ false → IsReading a.reader };
}

/// An error of memory, since a slice gives no other and no length is asked of a record.
fn stopped(error: Error) -> NoMemory
    requires { stops_reader (error_kind error) ≡ true }
{
    let _ = error;
    NoMemory
}

impl<'a> Records<'a> {
    /// The records of a text. There are at most as many as it has bytes, and one more.
    #[tactic(auto, using(crate::proofs::Few::few))]
    pub fn of(alloc: Global, text: &'a [u8]) -> Records<'a>
        ensures records { result ≡ records_of text.now }
        ensures few { length result ≤ length text.now + 1 }
    {
        Records {
            reader: ReaderBuilder::new()
                .has_headers(false)
                .flexible(true)
                .from_reader(alloc, text),
            ended: false,
        }
    }

    /// Reads the next record into `row`, and tells whether there was one. Where there was none, or no memory for it,
    /// nothing is said of `row`.
    pub fn next(&mut self, row: &mut ByteRecord) -> Result<bool, NoMemory>
        ensures found { IfOk result (λ found. found ≡ true
            → self.old ≡ fields_of row.new ∷ self.new) }
        ensures end { IfOk result (λ found. found ≡ false → (self.old ≡ []) × (self.new ≡ [])) }
        ensures err { OnErr result (self.new ≡ []) }
    {
        if self.ended {
            return Ok(false);
        }
        match self.reader.read_byte_record(row) {
            Ok(found) => {
                self.ended = !found;
                Ok(found)
            }
            Err(error) => {
                self.ended = true;
                Err(stopped(error))
            }
        }
    }
}
