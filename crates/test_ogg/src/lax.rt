//! Streams outside the streamable subset (RFC 9639, section 7), put together by hand: all samples are zeros.

use flac_native::{nothing_is_outside_lax, subset_is_lax};
use flac_ogg::{Decoder, Memory, Profile, verify};
use std::alloc::Global;
use std::mem::drop;
use std::test::Fail;
use test_calls::peaks_to_end;
use test_vectors::fields_of;

/// Streams of one channel, and why each is refused in the streamable subset and without its limits: rate and depth that
/// STREAMINFO alone states, of 65537 Hz and 5 bits; the depth alone; blocks of 8192 samples, also above STREAMINFO's
/// greatest block, and of 65535; 2^9 partitions of 16 samples; a linear predictor of order 13 at 44100 Hz; 2^9
/// partitions of 512 samples; a rate field of 0, which states 0 Hz; a stated depth that is not STREAMINFO's; and a
/// frame of the subset.
const ROWS: &str =
    "664c61438000002200100010000000000000100010400000001000000000000000000000000000000000fff86000000fc700000572 | frame 0: 14 NotSubset | none
664c614380000022001000100000000000000ac440f00000001000000000000000000000000000000000fff86900000f610000009a1b | frame 0: 14 NotSubset | none
664c614380000022001020000000000000000ac440f00000200000000000000000000000000000000000fff8d9080037000000188e | frame 0: 14 NotSubset | none
664c614380000022001010000000000000000ac440f00000200000000000000000000000000000000000fff8d9080037000000188e | frame 0: 14 NotSubset | frame 0: 19 BlockSize
664c6143800000220010ffff0000000000000ac440f00000ffff00000000000000000000000000000000fff8790800fffe420000006fa6 | frame 0: 14 NotSubset | none
664c614380000022001000100000000000000ac440f00000001000000000000000000000000000000000fff86908000f30102400000000\
    00000000163f | frame 0: 14 NotSubset | frame 0: 22 BadPartition
664c614380000022001000100000000000000ac440f00000001000000000000000000000000000000000fff86908000f30580000000000\
    0000000000000000000000000000000000000000000000000f0053ce | frame 0: 14 NotSubset | none
664c614380000022020002000000000000000ac440f00000020000000000000000000000000000000000fff8990800b110242108421084\
    21084210842108421084210842108421084210842108421084210842108421084210842108421084210842108421084210842108421084\
    21084210842108421084210842108421084210842108421084210842108421084210842108421084210842108421084210842108421084\
    21084210842108421084210842108421084210842108421084210842108421084210842108421084210842108421084210842108421084\
    21084210842108421084210842108421084210842108421084210842108421084210842108421084210842108421084210842108421084\
    21084210842108421084210842108421084210842108421084210842108421084210842108421084210842108421084210842108421084\
    210842108421084210842108421084210842108421084210842108421084210842108421084210840ab9 | frame 0: 14 NotSubset | none
664c614380000022001000100000000000000ac440f00000001000000000000000000000000000000000fff86c08000f007d00000032e3 | frame 0: 17 HeaderMismatch | frame 0: 17 HeaderMismatch
664c614380000022001000100000000000000ac441300000001000000000000000000000000000000000fff86008000f96000000ae85 | frame 0: 14 NotSubset | frame 0: 17 HeaderMismatch
664c614380000022001000100000000000000ac440f00000001000000000000000000000000000000000fff86908000f300000004680 | none | none";

/// Why bytes are refused; `none` if they are a stream.
pub(crate) fn refusal(alloc: Global, bytes: &[u8], profile: Profile) -> Result<String, Fail> {
    match verify(alloc, bytes, profile) {
        Ok(()) => Ok(format!(in alloc; "none")?),
        Err(fault) => Ok(format!(in alloc; "{fault}")?),
    }
}

/// Whether the stream of a row is refused so in both profiles.
fn is_judged(alloc: Global, row: &str) -> Result<bool, Fail> {
    let (words, subset, lax) = fields_of(row);
    let bytes = hex::decode(alloc, words)?;
    let first = refusal(alloc, &bytes, Profile::Subset)?;
    let second = refusal(alloc, &bytes, Profile::Lax)?;
    Ok(first.as_str() == subset && second.as_str() == lax)
}

#[test]
fn outside_the_subset(rt: HostRuntime) -> Result<(), Fail> {
    subset_is_lax();
    nothing_is_outside_lax();
    flac_ogg::subset_is_lax();
    flac_ogg::nothing_is_outside_lax();
    for row in ROWS.lines() {
        assert!(rt; is_judged(rt.alloc(), row)?, "{row}");
    }
    Ok(())
}

/// The first of these streams item by item: a block, and a frame of silence.
#[test]
fn rate_and_depth_of_streaminfo(rt: HostRuntime) -> Result<(), Fail> {
    let row = ROWS.lines().next().unwrap_or("");
    let (words, _, _) = fields_of(row);
    let bytes = hex::decode(rt.alloc(), words)?;
    let mut decoder = Decoder::new(rt.alloc(), Memory::new(&bytes), Profile::Lax);
    let found = peaks_to_end(&mut decoder);
    drop(decoder);
    assert!(rt; found == Some((0, 0, 0)));
    Ok(())
}
