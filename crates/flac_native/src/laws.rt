//! Laws: what holds of the definitions. Calling them does nothing; a proof may name them.

ghost use Rattle.flac_bits.specs.Handing.{OneReading, SomeReading};
ghost use Rattle.flac_native.specs.Stream.{grammar};
ghost use Rattle.flac_native.specs.Retag.{HeadsAreOne, RetaggedAreRead};
ghost use Rattle.flac_native.specs.Whole.{StreamsAreWhole};
ghost use Rattle.flac_native.specs.BlockOrder.{BlocksAreInOrder};
ghost use Rattle.flac_native.specs.Ordered.{StreamsAreOrdered};
ghost use Rattle.flac_native.specs.LaxProfile.{SubsetIsLax, NothingIsOutsideLax};
ghost use Rattle.flac_native.specs.Points.{PointsNameFrames};
ghost use Rattle.flac_native.specs.ReadBack.{EncodedAreReadBack};
ghost use Rattle.flac_native.specs.Resuming.{FramesAreResumed, EncodedAreResumed};
ghost use Rattle.flac_native.specs.Writing.{EncodedAreStreams};
ghost use Rattle.flac_native.specs.Calls.{FailuresArePlaced};

use crate::container::Container;

/// No input has two readings: it is one stream, or it is refused at one place for one reason.
pub fn only_one_way()
    ensures { OneReading grammar }
{}

/// Each input has a reading: it is a stream, or it is refused at a place for a reason.
pub fn some_way()
    ensures { SomeReading grammar }
{}

/// A stream is exactly this: the marker, STREAMINFO, other blocks, and frames to the end of the input, whose headers
/// keep the rules on the list of all headers. The number of samples and the digest, if STREAMINFO states them, are
/// those of all frames (RFC 9639, sections 6, 8.2 and 9.1).
pub fn streams_are_whole()
    ensures { StreamsAreWhole }
{}

/// The metadata blocks of a stream are in order: STREAMINFO is the first, and there is no other; at most one is a seek
/// table and at most one a Vorbis comment; only the last is marked last; and frames come after them. Such blocks, each
/// valid by itself, and no others are read one after another (RFC 9639, section 8).
pub fn blocks_are_in_order()
    ensures { BlocksAreInOrder }
{}

/// A stream, said without a state: the marker, blocks in order, and frames to the end whose headers follow one another,
/// with the number of samples and the digest that STREAMINFO states, if it states them (RFC 9639, sections 6, 8 and
/// 9.1).
pub fn streams_are_ordered()
    ensures { StreamsAreOrdered }
{}

/// No input has two heads, that is the marker and the blocks before the frames: it begins with one, or it is refused
/// there at one place for one reason.
pub fn only_one_head()
    ensures { HeadsAreOne }
{}

/// A stream with other comments begins with what is read as the same STREAMINFO, these comments and the other blocks.
pub fn retagged_are_read()
    ensures { RetaggedAreRead }
{}

/// A stream of the streamable subset (RFC 9639, section 7) is, without the subset's limits, a stream of the same items:
/// what [`flac_header::Profile::Subset`] accepts, [`flac_header::Profile::Lax`] accepts as the same.
pub fn subset_is_lax()
    ensures { SubsetIsLax }
{}

/// Without the subset's limits no input is outside the subset: [`flac_header::Profile::Lax`] never has the error
/// [`flac_bits::Why::NotSubset`], of a whole stream and from a frame on.
pub fn nothing_is_outside_lax()
    ensures { NothingIsOutsideLax }
{}

/// What encoding writes is a stream of the plan's profile: the marker, the spellings of STREAMINFO and of the blocks,
/// and a frame for each block of the samples.
pub fn encoded_are_streams()
    ensures { EncodedAreStreams }
{}

/// What [`crate::encode`] writes has one reading in the plan's profile, whatever was written before it: the marker,
/// STREAMINFO, the given blocks, the seek table if there is one, and the frames. It has no other part, nothing in it is
/// refused, and the samples of the frames, one frame after another, are exactly the given ones (RFC 9639, section 6).
pub fn encoded_are_read_back()
    ensures { EncodedAreReadBack }
{}

/// Each point of the seek table of frames names a frame: its first sample, the bytes of the frames before it, and its
/// number of samples. One of these has an index that is a multiple of the plan's number, and each such index below the
/// number of samples is in a frame with a point (RFC 9639, section 8.5.1).
pub fn points_name_frames()
    ensures { PointsNameFrames }
{}

/// An encoded stream from one of its frames on, as a decoder that is resumed there in the plan's profile reads it, is
/// exactly the frames from there on.
pub fn encoded_are_resumed()
    ensures { EncodedAreResumed }
{}

/// A stream that is read from the first bit of any of its frames on, with its STREAMINFO, has that frame and all later
/// ones, and then ends. So if a seek point names a frame, [`crate::Decoder::resume`] gives the rest of the stream (RFC
/// 9639, section 8.5).
pub fn frames_are_resumed()
    ensures { FramesAreResumed }
{}

/// Calls of [`crate::Decoder::next`], one after another, read parts of the stream one after another: those of the items
/// that they give, and the marker. If one then returns [`flac_bits::Why::Read`] or [`flac_bits::Why::Memory`], its
/// place is what the container reports after these parts: in a native stream the place of the part after them, which
/// for [`flac_bits::Why::Memory`] is never the marker.
pub fn failures_are_placed<C: Container>()
    ensures { FailuresArePlaced C.Container }
{}
