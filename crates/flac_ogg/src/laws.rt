//! Laws: what holds of the definitions. Calling them does nothing; a proof may name them.

ghost use Rattle.flac_ogg.specs.Laws.{OggIsReadOnce, OggIsRead, CallsBreakAtPages};
ghost use Rattle.flac_ogg.specs.Native.{OggStreamsAreStreams, EncodedAreOggItems};
ghost use Rattle.flac_ogg.specs.RoundTrip.{EncodedOggIsRead};
ghost use Rattle.flac_ogg.specs.LaxProfile.{SubsetOggIsLax, NothingIsOutsideLaxInOgg};

use crate::packets::OggPackets;
use flac_bits::Source;
use flac_native::Container;

/// No input has two readings: it is one Ogg stream of FLAC, or it is refused at one place for one reason.
pub fn only_one_way()
    ensures { OggIsReadOnce }
{}

/// Each input has a reading: it is an Ogg stream of FLAC, or it is refused after some of its items.
pub fn some_way()
    ensures { OggIsRead }
{}

/// The items of an Ogg stream are those of a native stream: of the marker, and of the bytes of all packets without the
/// 13 bytes before STREAMINFO (RFC 9639, section 10.1).
pub fn same_items()
    ensures { OggStreamsAreStreams }
{}

/// The packets that are encoded (the mapping with STREAMINFO, one for each block, one for each frame) are the items of
/// an Ogg stream of what was given, in the plan's profile (RFC 9639, section 10.1).
pub fn encoded_items()
    ensures { EncodedAreOggItems }
{}

/// What is encoded as an Ogg stream is an Ogg stream of exactly what was given, in the plan's profile: its items are
/// STREAMINFO, the blocks and the frames, and no others (RFC 9639, section 10.1).
pub fn encoded_are_read()
    ensures { EncodedOggIsRead }
{}

/// An Ogg stream of the streamable subset (RFC 9639, section 7) is, without the subset's limits, an Ogg stream of the
/// same items.
pub fn subset_is_lax()
    ensures { SubsetOggIsLax }
{}

/// Without the subset's limits no Ogg stream is refused as outside the subset (RFC 9639, section 7): with
/// [`crate::Profile::Lax`] no call returns [`crate::Why::NotSubset`].
pub fn nothing_is_outside_lax()
    ensures { NothingIsOutsideLaxInOgg }
{}

/// A decoder of known bytes, as [`crate::ogg_decoder`] makes it, gave some items, and then a call of
/// [`crate::Decoder::next`] returned [`crate::Why::Read`] or [`crate::Why::Memory`]. The items are those of the first
/// packets. The place of `Read` is the page after the first n good pages, in which exactly these packets end; that of
/// `Memory` is the next metadata block, never a frame.
pub fn calls_break_at_pages<R: Source>()
    ensures { CallsBreakAtPages ⟦<OggPackets<R> as Container>⟧ }
{}
