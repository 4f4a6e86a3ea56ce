//! A place to write bytes to, as the code above sees it.
ghost use Rattle.std.specs.Prelude.{◌≡◌, ℕ, ◌<◌, ◌≤◌, List, length, take, Option, IfOk, OnOk, OnErr, IsErrOf};
ghost use Rattle.ltm_io.specs.Faults.{Rose};
ghost use Rattle.ltm_io.specs.Sink.{appended, AppendsFront};

/// Why a write took nothing.
#[derive(Clone, Copy, Debug, PartialEq, Eq)]
pub enum SinkError {
    /// The sink failed, and its count of faults rose.
    WriteFault,
    /// Memory was not found.
    NoMemory,
}

/// What was written, and a count of faults that never falls.
///
/// `written` is what the sink tells of the bytes written; a real sink tells nothing. A count that
/// stands at the greatest number of 64 bits counts as risen.
pub trait Sink {
    ghost written: { Self → Option (List ℕ) };

    ghost faults: { Self → ℕ };

    /// Takes bytes from the front of `piece`, at least one where there is one, and says how many.
    ///
    /// A write that gives an error takes nothing.
    fn write(&mut self, piece: &[u8]) -> Result<usize, SinkError>
        ensures count { IfOk result (λ n. n ≤ length piece.now) }
        ensures some { IfOk result (λ n. 0 < length piece.now → 0 < n) }
        ensures took { IfOk result
            (λ n. written self.new ≡ appended (take n piece.now) (written self.old)) }
        ensures refused { OnErr result (written self.new ≡ written self.old) }
        ensures later { faults self.old ≤ faults self.new }
        ensures cause { IsErrOf result SinkError.WriteFault
            → Rose (faults self.old) (faults self.new) };
}

/// Writes all of the bytes, in as many writes as the sink asks for.
///
/// With an error a front of the bytes was written: those that the writes before took.
pub fn write_all_known<W: Sink>(sink: &mut W, bytes: &[u8]) -> Result<(), SinkError>
    ensures ok { OnOk result (W.written sink.new ≡ appended bytes.now (W.written sink.old)) }
    ensures err { OnErr result
        (AppendsFront (W.written sink.old) (W.written sink.new) bytes.now) }
    ensures later { W.faults sink.old ≤ W.faults sink.new }
    ensures cause { IsErrOf result SinkError.WriteFault
        → Rose (W.faults sink.old) (W.faults sink.new) }
{
    let mut at = 0;
    while at < bytes.len() {
        let taken = sink.write(&bytes[at..])?;
        at += taken;
    }
    Ok(())
}
