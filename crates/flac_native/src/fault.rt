//! Where and why a stream is refused, and why encoding failed.

ghost use Rattle.std.specs.Prelude.{Some, ◌≡◌, ◌≢◌, true};
ghost use Rattle.flac_native.specs.Places.{kind_name, place_text, fault_text};
ghost use Rattle.flac_native.specs.Numbers.{fault_number, text_of, is_of_whole};

use flac_bits::Why;
use flac_frame::SetupFault;
use std::fmt;
use thiserror::Error;

/// Where a stream is refused. Blocks, frames and pages are counted from 0; an index above 2^64 - 1 is reported as 2^64
/// - 1.
///
/// It prints as `marker`, `block 2`, `frame 3`, `page 4` or `end`.
#[derive(Clone, Copy, Debug, PartialEq, Eq)]
pub enum Place {
    /// The first four bytes, or the first packet's mapping in an Ogg stream.
    Marker,
    /// The metadata block of this index; STREAMINFO is block 0.
    Block(u64),
    /// The frame of this index.
    Frame(u64),
    /// The page of this index, in an Ogg stream.
    Page(u64),
    /// After the last frame.
    End,
}

impl Place {
    /// The word for what is at the place, by which it prints: `marker`, `block`, `frame`, `page` or `end`.
    pub fn kind_name(self) -> &'static str
        ensures { result.now ≡ kind_name self }
    {
        match self {
            Place::Marker => "marker",
            Place::Block(_) => "block",
            Place::Frame(_) => "frame",
            Place::Page(_) => "page",
            Place::End => "end",
        }
    }
}

impl fmt::Display for Place {
    ghost output = { λ place. Some (place_text place) };

    fn fmt<W: fmt::Write>(&self, f: &mut fmt::Formatter<W>) -> fmt::Result {
        let kind = self.kind_name();
        match *self {
            Place::Block(index) | Place::Frame(index) | Place::Page(index) => {
                write!(f, "{kind} {index}")
            }
            Place::Marker | Place::End => f.write_str(kind),
        }
    }
}

/// Where and why a stream is refused, or where reading was broken off.
///
/// It prints as its place and its reason: `frame 3: 26 FrameCheck`.
#[derive(Clone, Copy, Debug, PartialEq, Eq)]
pub struct Fault {
    /// The place.
    pub at: Place,
    /// The reason. `docs/errors.md` says of each what can be done.
    pub why: Why,
}

impl fmt::Display for Fault {
    ghost output = { λ fault. Some (fault_text fault) };

    fn fmt<W: fmt::Write>(&self, f: &mut fmt::Formatter<W>) -> fmt::Result {
        let at = self.at;
        let why = self.why;
        write!(f, "{at}: {why}")
    }
}

impl std::error::Error for Fault {}

/// Why a call did not read what it was given, which it gives back: a source or a decoder, from which it may have read.
/// `?` turns it into the [`Fault`] in a function that returns one, and drops what was given. It prints as the fault.
///
/// ```
/// match open_native(rt.alloc(), Counted::new(file), Profile::Subset, Keep::Tags) {
///     Ok(reader) => play(reader),
///     Err(refused) => print(refused.fault, refused.left.last_error()),
/// }
/// ```
#[derive(Drop)]
pub struct Refused<T> {
    /// Where and why.
    pub fault: Fault,
    /// What the call was given. Bytes that were pulled from a source are lost; a decoder still has those that it
    /// pulled.
    pub left: T,
}

impl<T: Drop> From<Refused<T>> for Fault {
    ghost from_gives = { λ refused fault. fault ≡ refused.fault };

    fn from(refused: Refused<T>) -> Fault {
        refused.fault
    }
}

impl<T> fmt::Display for Refused<T> {
    ghost output = { λ refused. Some (fault_text refused.fault) };

    fn fmt<W: fmt::Write>(&self, f: &mut fmt::Formatter<W>) -> fmt::Result {
        let fault = self.fault;
        write!(f, "{fault}")
    }
}

impl<T> fmt::Debug for Refused<T> {
    fn fmt<W: fmt::Write>(&self, f: &mut fmt::Formatter<W>) -> fmt::Result {
        let fault = self.fault;
        write!(f, "{fault:?}")
    }
}

impl<T: Drop> std::error::Error for Refused<T> {}

/// Why encoding failed. Each reason has a number, see [`EncodeFault::number`]. [`crate::encode`] and `encode_ogg` of
/// `flac_ogg` return no other than `Memory`, `RepeatedBlock`, `BadMapping` and `Write`.
///
/// It prints as its number and its name: `39 Write`. Sections are those of RFC 9639.
#[derive(Clone, Copy, Debug, PartialEq, Eq, Error)]
pub enum EncodeFault {
    /// Out of memory: an allocation failed in this call.
    Memory,
    /// The list of blocks has a seek table, and the plan asks for one (section 8.5).
    RepeatedBlock,
    /// A block was pushed after one that was shorter than the block size; only the last may be shorter (section 9.1).
    BlockSize,
    /// Not possible in an Ogg stream: the first block after STREAMINFO is no Vorbis comment, or a seek table is asked
    /// for (section 10.1).
    BadMapping,
    /// The target returned an error in an earlier call, or `BlockEncoder::failed` of `flac_encoder` was called; nothing
    /// more is encoded.
    Spent,
    /// The target returned an error in this call.
    Write,
    /// The format or the samples cannot be encoded.
    Setup(SetupFault),
}

impl EncodeFault {
    /// The number of the reason: 2, 9, 19, 37, 38 or 39, or 40 to 47, 51 or 52 of [`SetupFault`].
    pub fn number(self) -> u8
        ensures { result ≡ fault_number self }
    {
        match self {
            EncodeFault::Memory => 2,
            EncodeFault::RepeatedBlock => 9,
            EncodeFault::BlockSize => 19,
            EncodeFault::BadMapping => 37,
            EncodeFault::Spent => 38,
            EncodeFault::Write => 39,
            EncodeFault::Setup(fault) => fault.number(),
        }
    }

    /// The same reason for a target in memory, such as [`crate::Collected`]: its only error is a failed allocation, so
    /// `Write` becomes `Memory`.
    pub fn in_memory(self) -> EncodeFault
        ensures write { self ≡ EncodeFault.Write → result ≡ EncodeFault.Memory }
        ensures others { self ≢ EncodeFault.Write → result ≡ self }
        ensures whole { is_of_whole self ≡ true → is_of_whole result ≡ true }
    {
        match self {
            EncodeFault::Write => EncodeFault::Memory,
            other => other,
        }
    }

    /// The number and the name of the reason: `39 Write`.
    pub fn as_str(self) -> &'static str
        ensures { result.now ≡ text_of self }
    {
        match self {
            EncodeFault::Memory => "2 Memory",
            EncodeFault::RepeatedBlock => "9 RepeatedBlock",
            EncodeFault::BlockSize => "19 BlockSize",
            EncodeFault::BadMapping => "37 BadMapping",
            EncodeFault::Spent => "38 Spent",
            EncodeFault::Write => "39 Write",
            EncodeFault::Setup(fault) => fault.as_str(),
        }
    }
}

impl fmt::Display for EncodeFault {
    ghost output = { λ fault. Some (text_of fault) };

    fn fmt<W: fmt::Write>(&self, f: &mut fmt::Formatter<W>) -> fmt::Result {
        f.write_str(self.as_str())
    }
}
