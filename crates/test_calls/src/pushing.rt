//! Samples that come as they are recorded, a target without much room, and the numbers of faults.

use flac_native::{Container, Decoder, EncodeFault, Fault, Item, SetupFault};
use std::io;
use std::io::{ErrorKind, Write};

/// The number of a fault, 0 if there is none.
pub fn number_of(outcome: Result<(), EncodeFault>) -> u8 {
    match outcome {
        Ok(()) => 0,
        Err(fault) => fault.number(),
    }
}

/// The same of a list of predictors that is set.
pub fn setup_number(outcome: Result<(), SetupFault>) -> u8 {
    match outcome {
        Ok(()) => 0,
        Err(fault) => fault.number(),
    }
}

/// A writer that has room for n bytes.
#[derive(Drop)]
pub struct Narrow {
    room: usize,
}

impl Narrow {
    /// A writer with this room.
    pub fn new(room: usize) -> Narrow {
        Narrow { room }
    }
}

impl Write for Narrow {
    fn write(&mut self, bytes: &[u8]) -> io::Result<usize> {
        if self.room == 0 {
            return Err(io::Error::from(ErrorKind::Other));
        }
        let count = bytes.len().min(self.room);
        self.room -= count;
        Ok(count)
    }

    fn flush(&mut self) -> io::Result<()> {
        Ok(())
    }
}

/// A source of samples that does not have all of them yet: 0, 1, 2, ..
#[derive(Drop)]
pub struct Recorder {
    at: i32,
}

impl Recorder {
    /// A source at its first sample.
    pub fn new() -> Recorder {
        Recorder { at: 0 }
    }

    /// Puts the next samples into a block.
    pub fn fill(&mut self, block: &mut [i32]) {
        for i in 0..block.len() {
            block[i] = self.at;
            self.at = self.at.wrapping_add(1);
        }
    }
}

/// How far samples go on that rise by 1 from a number on: the number that would be next, or the smallest of all if one
/// is another.
fn rising_to(from: i32, samples: &[i32]) -> i32 {
    let mut next = from;
    for sample in samples {
        next = if *sample == next {
            next.saturating_add(1)
        } else {
            i32::MIN
        };
    }
    next
}

/// How many samples 0, 1, 2, .. the first channel of a stream has, up to the end.
pub fn count_rising<C: Container>(decoder: &mut Decoder<C>) -> Result<i32, Fault> {
    let mut next = 0;
    for _ in 0..u64::MAX {
        match decoder.next()? {
            Item::Block(_) => {}
            Item::Frame(frame) => {
                if frame.channels() > 0 {
                    next = rising_to(next, frame.channel(0));
                }
            }
            Item::End => return Ok(next),
        }
    }
    Ok(next)
}
