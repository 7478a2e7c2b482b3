//! Laws: what holds of the definitions of seeking. Calling them does nothing; a proof may name them.

ghost use Rattle.flac_reader.specs.Seeking.{FramesStart, CutsAreRead};
ghost use Rattle.flac_reader.specs.Encoded.{FramesAreCut, PointsAreCut, SearchesAreCut, SamplesAreFound};

use flac_native::Container;

/// [`crate::Reader::frames_start`] is where the frames of a native stream in memory begin: the bytes before are the
/// marker and the blocks. The bytes from any frame on are read by [`crate::Decoder::resume`] as exactly that frame, all
/// later ones, and the end (RFC 9639, sections 6 and 8.5).
pub fn streams_are_cut()
    ensures start { FramesStart }
    ensures read { CutsAreRead }
{}

/// A stream that [`flac_native::encode`] wrote, with nothing before it, is cut at each of its frames: the offset of a
/// frame from the first one is the number of bytes of the frames before it. So the stream is cut at the offset of each
/// point of the seek table that the plan asked for (RFC 9639, section 8.5.1).
pub fn encoded_are_cut()
    ensures frames { FramesAreCut }
    ensures points { PointsAreCut }
{}

/// A reader that opened such a stream in the plan's profile seeks a sample from a cut on: that of the last point at or
/// before the sample, or of the first frame. [`crate::Reader::seek_in`] over the bytes of the stream, with the same
/// profile, gives just the frame that holds the sample, all later frames and the end, or nothing but the end if the
/// stream has fewer samples, unless memory runs out (RFC 9639, sections 8.5 and 9.1.5). No seek table was among the
/// given blocks; the reader may keep any.
pub fn encoded_are_sought<C: Container, D: Container>()
    ensures cut { SearchesAreCut C.Container }
    ensures found { SamplesAreFound C.Container D.Container }
{}
