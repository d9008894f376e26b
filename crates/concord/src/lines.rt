ghost use Rattle.std.specs.Prelude.{◌≡◌, pos};
ghost use Rattle.date.specs.Refusals.{refusal};
ghost use Rattle.concord.specs.Inputs.{EachAlone};
ghost use Rattle.concord.specs.Lines.{fresh, finished, taken, fed, rest};

use crate::reader::{Line, Reader};
use date::faults::{Cause, Fault};
use std::mem;

// Lines cut from bytes that come one by one: the line in reading, or its refusal once no line goes on with what was read,
// and the place of its next byte.
#[derive(Clone, Copy)]
pub(crate) struct Lines {
    reading: Result<Reader, Fault>,
    place: usize,
}

impl Lines {
    // At the start of an input. Each line of it is read as if it stood alone, once and in its order.
    #[tactic(auto, using(crate::proofs::Fronts::each_alone))]
    pub(crate) fn new() -> Lines
        ensures value { result ≡ fresh }
        ensures alone { EachAlone }
    {
        Lines {
            reading: Ok(Reader::new()),
            place: 1,
        }
    }

    // Takes one byte. At a line feed, answers for the line that it ends.
    pub(crate) fn feed(&mut self, byte: u8) -> Option<Result<Line, Fault>>
        ensures answer { result ≡ (fed self.old byte).0 }
        ensures after { self.new ≡ (fed self.old byte).1 }
    {
        if byte == b'\n' {
            return Some(mem::replace(self, Lines::new()).finish());
        }
        self.read(byte);
        None
    }

    // The answer for a last line that no line feed ends.
    pub(crate) fn end(&self) -> Option<Result<Line, Fault>>
        ensures { result ≡ rest self.now }
    {
        if self.place == 1 && self.reading.is_ok() {
            return None;
        }
        Some(self.finish())
    }

    // The answer for the line in reading, if it ends here.
    fn finish(&self) -> Result<Line, Fault>
        ensures { result ≡ finished self.now }
    {
        self.reading?.end().map_err(|cause| self.refusal(cause))
    }

    // Takes a byte of a line. After a refusal the rest of the line is passed over.
    fn read(&mut self, byte: u8)
        ensures { self.new ≡ taken self.old byte }
    {
        let Ok(reader) = &mut self.reading else {
            return;
        };
        match reader.step(byte) {
            Ok(()) => self.place = self.place.saturating_add(1),
            Err(cause) => self.reading = Err(self.refusal(cause)),
        }
    }

    // Why the line cannot go on, or not end, at the place that it has come to.
    fn refusal(&self, cause: Cause) -> Fault
        ensures { result ≡ refusal cause self.now.place (pos 0) 0 }
    {
        Fault::new(cause, self.place, 0, 0)
    }
}
