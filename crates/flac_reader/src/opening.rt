//! Opens native and Ogg streams.

ghost use Rattle.std.specs.Prelude.{◌≡◌, IfOk, IfErr};
ghost use Rattle.flac_reader.specs.Inputs.{native_input, ogg_input};
ghost use Rattle.flac_reader.specs.Opening.{OpensSource, StartsSource};
ghost use Rattle.flac_reader.specs.Refusing.{RefusesSource};

use crate::keep::Keep;
use crate::reader::Reader;
use flac_bits::BitReader;
use flac_native::{Decoder, Profile, Refused, Source};
use flac_ogg::{OggPackets, ogg_decoder_returning};
use std::alloc::Global;

/// Opens a native stream (RFC 9639, section 6): reads its metadata, and the first frame, which [`Reader::next`] lends
/// then.
///
/// ```
/// let mut reader = open_native(rt.alloc(), Counted::new(file), Profile::Subset, Keep::Tags)?;
/// ```
///
/// # Errors
/// Those of [`Reader::over`]. The source is returned with them.
pub fn open_native<R: Source + Drop>(
    alloc: Global,
    source: R,
    profile: Profile,
    keep: Keep,
) -> Result<Reader<BitReader<R>>, Refused<R>>
    // The blocks that are kept, and the frames to come, are those of the stream that the bytes are.
    ensures opens { IfOk result (λ r. OpensSource R.Source (native_input profile) source keep r) }
    // The numbers are 0, and no error of the source was met.
    ensures starts { IfOk result (λ r. StartsSource R.Source source r) }
    // Refused only as the input is, before its first frame; or because memory runs out, or because of an error of the
    // source, which the source that is returned has counted.
    ensures refused { IfErr result (λ x. RefusesSource R.Source (native_input profile) source x) }
    ensures names { IfErr result (λ x. R.names x.left ≡ R.names source) }
{
    match Reader::over(alloc, Decoder::new(alloc, source, profile), keep) {
        Ok(reader) => Ok(reader),
        Err(refused) => {
            let fault = refused.fault;
            let left = refused.left.into_source();
            Err(Refused { fault, left })
        }
    }
}

/// Opens an Ogg stream (RFC 9639, section 10.1): reads its metadata, and the first frame, which [`Reader::next`] lends
/// then.
///
/// ```
/// let mut reader = open_ogg(rt.alloc(), Counted::new(file), Profile::Subset, Keep::Tags)?;
/// ```
///
/// # Errors
/// Those of [`Reader::over`], and [`Why::Memory`](crate::Why::Memory) if the allocation of 65025 bytes for a page
/// fails. The source is returned with them.
pub fn open_ogg<R: Source + Drop>(
    alloc: Global,
    source: R,
    profile: Profile,
    keep: Keep,
) -> Result<Reader<OggPackets<R>>, Refused<R>>
    // The blocks that are kept, and the frames to come, are those of the stream that the bytes are.
    ensures opens { IfOk result (λ r. OpensSource R.Source (ogg_input profile) source keep r) }
    // The numbers are 0, and no error of the source was met.
    ensures starts { IfOk result (λ r. StartsSource R.Source source r) }
    // Refused only as the input is, before its first frame; or because memory runs out, or because of an error of the
    // source, which the source that is returned has counted.
    ensures refused { IfErr result (λ x. RefusesSource R.Source (ogg_input profile) source x) }
    ensures names { IfErr result (λ x. R.names x.left ≡ R.names source) }
{
    let decoder = match ogg_decoder_returning(alloc, source, profile) {
        Ok(decoder) => decoder,
        Err(refused) => return Err(refused),
    };
    match Reader::over(alloc, decoder, keep) {
        Ok(reader) => Ok(reader),
        Err(refused) => {
            let fault = refused.fault;
            let left = refused.left.into_container().into_source();
            Err(Refused { fault, left })
        }
    }
}
