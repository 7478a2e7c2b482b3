//! Finds the byte at which a native stream is refused.

ghost use Rattle.std.specs.Prelude.{◌≡◌, ◌<◌, true, IfSome};
ghost use Rattle.flac_native.specs.Stream.{Progress};
ghost use Rattle.flac_native.specs.Track.{IsAt};
ghost use Rattle.flac_native.specs.Decoding.{IfCalm, SourceFailedIfRead};
ghost use Rattle.flac_native.specs.Located.{Locates};
ghost use Rattle.flac_native.specs.inner.Located.{StopsFrom};

use crate::fault::Fault;
use crate::native::advance;
use crate::track::Track;
use flac_bits::{BitReader, Source, Why};
use flac_header::Profile;
use std::alloc::Global;

/// Where a native stream is refused, and at which byte.
#[derive(Clone, Copy, Debug, PartialEq, Eq)]
pub struct Located {
    /// The place and the reason, as [`crate::decode`] returns them.
    pub fault: Fault,
    /// How many bytes the parts before have, up to 2^64 - 1: the marker, metadata blocks and frames. So it is the offset
    /// of the part that is refused.
    pub byte: u64,
}

/// Reads the parts of a stream up to its end, or to the part that is refused.
fn locate_in<R: Source>(reader: &mut BitReader<R>, track: &mut Track) -> Option<Located>
    // proof only
    ensures located { (p : Progress) → IsAt track.old p → StopsFrom p reader.old reader.new result }
    ensures read { IfSome result (λ l. reader.old.known ≡ true → l.fault.why ≡ Why.Read
        → reader.old.raised < reader.new.raised) }
    ensures names { reader.new.names ≡ reader.old.names }
{
    loop {
        let byte = reader.bytes_taken();
        match advance(reader, track) {
            Ok(Some(_)) => {}
            Ok(None) => return None,
            Err(fault) => return Some(Located { fault, byte }),
        }
    }
}

/// Finds where a native stream is refused, and at which byte: the offset of the block, the frame or the marker that is
/// not as it should be (RFC 9639, section 6). `None` if all bytes of the source are one stream. It holds one block and
/// one frame.
///
/// ```
/// if let Some(found) = locate_fault(rt.alloc(), &mut source, Profile::Lax) {
///     println!(rt; "{} at byte {}", found.fault, found.byte)?;
/// }
/// ```
///
/// The fault is that of [`crate::decode`]: [`Why::Read`](crate::Why::Read) if the source returned an error,
/// [`Why::Memory`](crate::Why::Memory) if an allocation failed.
pub fn locate_fault<R: Source>(alloc: Global, source: &mut R, profile: Profile) -> Option<Located>
    // If no error of the source was met: all bytes are a stream, or they are refused so, after parts of so many
    // bytes.
    ensures located { IfCalm R.Source source.old source.new
        (Locates profile (R.coming source.old) (R.after source.old) result) }
    ensures read { IfSome result (λ l. SourceFailedIfRead R.Source source.old source.new l.fault.why) }
    ensures names { R.names source.new ≡ R.names source.old }
{
    let mut reader = BitReader::new(source);
    let mut track = Track::opening(alloc, profile);
    let found = locate_in(&mut reader, &mut track);
    let _source = reader.into_source(); // for its clauses alone
    found
}
