//! The samples of a stream, one by one.

ghost use Rattle.std.specs.Prelude.{◌≡◌, ◌-◌, ◌^◌};
ghost use Rattle.std.specs.Iterator.{at_most};
ghost use Rattle.flac_reader.specs.Sampling.{GivesSample, calls_left, turned};

use crate::reader::Reader;
use crate::spot::{Spot, sample_at};
use flac_native::{Container, Fault, Place, Why};

/// An iterator over the samples of the frames that a reader has not lent yet, interleaved: those of all channels at one
/// index, channel by channel, then those at the next. [`Reader::into_samples`] makes one.
///
/// An item is a sample, which has as many bits as STREAMINFO states (RFC 9639, section 8.2), or the fault at which the
/// stream is refused. No item comes after a fault. After 2^64 - 1 steps, of samples and frames, a fault `Memory` ends
/// the iterator.
///
/// ```
/// for sample in samples {
///     peak = sample?.unsigned_abs().max(peak);
/// }
/// ```
#[derive(Drop)]
pub struct Samples<C: Container> {
    reader: Reader<C>,
    spot: Spot,
    left: u64,
}

impl<C: Container> Samples<C> {
    ghost use Rattle.flac_reader.specs.Giving.{Gives, last_frame};
    ghost use Rattle.flac_reader.specs.inner.Stepping.{TakesSample, EntersFrame};

    /// The samples of the frames that the reader has not lent yet.
    pub(crate) fn over(reader: Reader<C>) -> Samples<C>
        // proof only
        ensures reader { result.reader ≡ reader }
        ensures spot { result.spot ≡ Spot.Next }
        ensures left { result.left ≡ 2 ^ 64 - 1 }
    {
        Samples {
            reader,
            spot: Spot::Next,
            left: u64::MAX,
        }
    }

    /// The reader, which has the metadata.
    pub fn reader(&self) -> &Reader<C>
        ensures { result.now ≡ self.now.reader }
    {
        &self.reader
    }

    /// Returns the reader. It lends the frames after the one of which a sample was given last.
    pub fn into_reader(self) -> Reader<C>
        ensures { result ≡ self.reader }
    {
        let Samples {
            reader,
            spot: _,
            left: _,
        } = self;
        reader
    }

    /// The next sample of the frame that was read last.
    fn take(&mut self) -> Option<i32>
        ensures sample { TakesSample self.old.spot self.new.spot (last_frame self.old.reader) result }
        // proof only
        ensures reader { self.new.reader ≡ self.old.reader }
        ensures left { self.new.left ≡ self.old.left }
    {
        let Spot::Inside(channel, index) = self.spot else {
            return None;
        };
        let frame = self.reader.frame()?;
        let (sample, channel, index) = sample_at(&frame, channel, index)?;
        self.spot = Spot::Inside(channel, index);
        Some(sample)
    }

    /// Goes to the next frame; false at the end.
    fn enter(&mut self) -> Result<bool, Fault>
        ensures gives { Gives self.old.reader self.new.reader (λ _. last_frame self.new.reader) result }
        ensures spot { EntersFrame (last_frame self.new.reader) self.new.spot result }
        // proof only
        ensures left { self.new.left ≡ self.old.left }
    {
        self.spot = Spot::Over;
        match self.reader.step() {
            Ok(()) => {}
            Err(fault) => return Err(fault),
        }
        if self.reader.frame().is_some() {
            self.spot = Spot::Inside(0, 0);
            return Ok(true);
        }
        Ok(false)
    }

    /// The next sample; `None` after the last, and after a fault.
    fn give(&mut self) -> Result<Option<i32>, Fault>
        ensures { GivesSample self.old self.new result }
    {
        if self.spot.is_over() {
            return Ok(None);
        }
        while self.left > 0 {
            self.left -= 1;
            match self.take() {
                Some(sample) => return Ok(Some(sample)),
                None => {}
            }
            match self.enter() {
                Ok(true) => {}
                Ok(false) => return Ok(None),
                Err(fault) => return Err(fault),
            }
        }
        self.spot = Spot::Over;
        Err(Fault {
            at: Place::Frame(u64::MAX),
            why: Why::Memory,
        })
    }
}

impl<C: Container + Drop> Iterator for Samples<C> {
    type Item = Result<i32, Fault>;

    ghost next_gives = { λ old item new. GivesSample old new (turned item) };

    ghost remaining = { λ s. at_most (calls_left s.spot s.left) };

    /// The next sample. After the last, and after a fault, there is none.
    fn next(&mut self) -> Option<Result<i32, Fault>> {
        match self.give() {
            Ok(Some(sample)) => Some(Ok(sample)),
            Ok(None) => None,
            Err(fault) => Some(Err(fault)),
        }
    }
}
