//! Opens streams in either container.

ghost use Rattle.std.specs.Prelude.{◌≡◌, IfOk, IfErr};
ghost use Rattle.flac_reader.specs.Inputs.{any_input};
ghost use Rattle.flac_reader.specs.Either.{OpensEitherSource, StartsEitherSource};
ghost use Rattle.flac_reader.specs.Refusing.{RefusesSource};

use crate::keep::Keep;
use crate::opening::{open_native, open_ogg};
use crate::reader::Reader;
use flac_bits::BitReader;
use flac_native::{Profile, Refused, Source};
use flac_ogg::{Fronted, OggPackets, begins_page, pull_front};
use std::alloc::Global;

/// A reader of a native stream or of an Ogg stream: what [`open`] returns.
#[derive(Drop)]
pub enum Opened<N, O> {
    /// Of a native stream (RFC 9639, section 6).
    Native(N),
    /// Of an Ogg stream (RFC 9639, section 10.1).
    Ogg(O),
}

/// The same with the source alone.
fn without_front<R: Source>(refused: Refused<Fronted<R>>) -> Refused<R>
    ensures { result ≡ record { fault = refused.fault; left = refused.left.source } }
{
    let Refused { fault, left } = refused;
    let Fronted { front: _, source } = left;
    Refused {
        fault,
        left: source,
    }
}

/// Opens a stream in either container: an Ogg stream if the first byte is `O`, that of a page (RFC 9639, section 10.1),
/// a native one otherwise (section 6). It reads the metadata, and the first frame, which [`Reader::next`] lends then.
///
/// ```
/// match open(rt.alloc(), Counted::new(file), Profile::Subset, Keep::Tags)? {
///     Opened::Native(mut reader) => play(&mut reader),
///     Opened::Ogg(mut reader) => play(&mut reader),
/// }
/// ```
///
/// # Errors
/// [`Why::Read`](crate::Why::Read) if the source returns an error for the first byte. Else those of [`open_ogg`] or of
/// [`open_native`]. The source is returned with them.
pub fn open<R: Source + Drop>(
    alloc: Global,
    source: R,
    profile: Profile,
    keep: Keep,
) -> Result<Opened<Reader<BitReader<Fronted<R>>>, Reader<OggPackets<Fronted<R>>>>, Refused<R>>
    // The blocks that are kept, and the frames to come, are those of the stream that the bytes are in the container
    // that the first of them names.
    ensures opens { IfOk result (λ o. OpensEitherSource R.Source (any_input profile) source keep o) }
    // The numbers are 0, and no error of the source was met.
    ensures starts { IfOk result (λ o. StartsEitherSource R.Source source o) }
    // Refused only as the input is, before its first frame; or because memory runs out, or because of an error of the
    // source, which the source that is returned has counted.
    ensures refused { IfErr result (λ x. RefusesSource R.Source (any_input profile) source x) }
    ensures names { IfErr result (λ x. R.names x.left ≡ R.names source) }
{
    let mut source = source;
    let front = match pull_front(&mut source) {
        Ok(front) => front,
        Err(fault) => {
            return Err(Refused {
                fault,
                left: source,
            });
        }
    };
    let source = Fronted { front, source };
    if begins_page(front) {
        match open_ogg(alloc, source, profile, keep) {
            Ok(reader) => Ok(Opened::Ogg(reader)),
            Err(refused) => Err(without_front(refused)),
        }
    } else {
        match open_native(alloc, source, profile, keep) {
            Ok(reader) => Ok(Opened::Native(reader)),
            Err(refused) => Err(without_front(refused)),
        }
    }
}
