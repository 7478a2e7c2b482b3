//! Where and why a stream is refused, in numbers.

ghost use Rattle.std.specs.Prelude.{◌≡◌, ◌≢◌, OnErr};
ghost use Rattle.flac_bits.specs.Handing.{outcome_of};
ghost use Rattle.flac_native.specs.Item.{fault_pair};
ghost use Rattle.flac_c.specs.Answers.{kind_of, index_of, in_c, place_text};

use flac_native::{Fault, Place};

/// Where and why a stream is refused. All fields are 0 if it is not.
#[repr(C)]
#[derive(Clone, Copy, Drop)]
pub struct FlacProvedFault {
    /// The number of the reason, 1 to 39, as [`flac_bits::Why::number`].
    pub number: u32,
    /// The kind of the place: 1 the marker, 2 a metadata block, 3 a frame, 4 a page of an Ogg stream, 5 the end.
    pub place: u32,
    /// The index of the block, frame or page, counted from 0; 0 for the marker and the end.
    pub index: u64,
}

/// The kind of a place.
fn kind_of(place: Place) -> u32
    ensures { result ≡ kind_of place }
{
    match place {
        Place::Marker => 1,
        Place::Block(_) => 2,
        Place::Frame(_) => 3,
        Place::Page(_) => 4,
        Place::End => 5,
    }
}

/// A place of each kind.
const PLACES: [Place; 5] = [
    Place::Marker,
    Place::Block(0),
    Place::Frame(0),
    Place::Page(0),
    Place::End,
];

/// The name of the kind of place with this number; empty if there is none.
pub(crate) fn kind_name(kind: u32) -> &'static str
    ensures { result.now ≡ place_text kind }
{
    for place in PLACES {
        if kind_of(place) == kind {
            return place.kind_name();
        }
    }
    ""
}

/// The index of a place.
fn index_of(place: Place) -> u64
    ensures { result ≡ index_of place }
{
    match place {
        Place::Block(index) => index,
        Place::Frame(index) => index,
        Place::Page(index) => index,
        Place::Marker => 0,
        Place::End => 0,
    }
}

/// The outcome of a call in numbers.
#[tactic(auto, using(crate::proofs::Numbered::some_number))]
pub(crate) fn in_c(outcome: Result<(), Fault>) -> FlacProvedFault
    ensures value { result ≡ in_c (outcome_of fault_pair outcome) }
    ensures some { OnErr outcome (result.number ≢ 0) }
{
    match outcome {
        Ok(()) => FlacProvedFault {
            number: 0,
            place: 0,
            index: 0,
        },
        Err(fault) => FlacProvedFault {
            number: u32::from(fault.why.number()),
            place: kind_of(fault.at),
            index: index_of(fault.at),
        },
    }
}
