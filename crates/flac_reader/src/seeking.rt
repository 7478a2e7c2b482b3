//! Finds the frame that holds a sample.

ghost use Rattle.std.specs.Prelude.{◌≡◌, ◌≢◌, IfOk, IfErr, IfSome};
ghost use Rattle.flac_frame.specs.Viewed.{frame_of};
ghost use Rattle.flac_native.specs.Giving.{stage_of};
ghost use Rattle.flac_reader.specs.Coming.{IsPast, Counted, item_in};
ghost use Rattle.flac_reader.specs.Seeking.{number_of};
ghost use Rattle.flac_reader.specs.inner.Seeking.{FirstIfHeld, PassesFrame, SearchesFrames, KnownAtMemory, too_many_frames};

use flac_native::{Container, Decoder, Fault, FrameView, Item, Place, StreamInfo, Why};

/// The number of the frame's first sample, if the frame holds the sample.
fn first_if_held(info: &StreamInfo, frame: &FrameView<'_>, sample: u64) -> Option<u64>
    ensures { FirstIfHeld info.now sample (frame_of frame.now) result }
{
    let first = frame.first_sample(info.greatest_block());
    if first <= sample && sample - first < frame.len() as u64 {
        Some(first)
    } else {
        None
    }
}

/// Reads the next frame, and returns the number of its first sample if it holds the sample; 0 at the end.
fn pass_frame<C: Container>(
    decoder: &mut Decoder<C>,
    info: &StreamInfo,
    sample: u64,
) -> Result<Option<u64>, Fault>
    ensures passes { PassesFrame C.Container info.now sample (stage_of decoder.old) (stage_of decoder.new) result }
    ensures first { IfOk result (λ o. IfSome o (λ n. n ≡ number_of info.now (item_in (stage_of decoder.new)))) }
    // proof only
    ensures counts { Counted C.Container (stage_of decoder.old) (stage_of decoder.new) result }
    ensures memory { IsPast (stage_of decoder.old) → IfErr result (λ f. f.why ≢ Why.Memory) }
    ensures past { IsPast (stage_of decoder.old) → IfOk result (λ _. IsPast (stage_of decoder.new)) }
{
    match decoder.step() {
        Ok(()) => {}
        Err(fault) => return Err(fault),
    }
    match decoder.view() {
        Item::Frame(frame) => Ok(first_if_held(info, &frame, sample)),
        Item::Block(_) => Ok(Some(0)),
        Item::End => Ok(Some(0)),
    }
}

/// Reads frames up to the first that holds the sample, or to the end, and returns the number of that frame's first
/// sample.
pub(crate) fn find_frame<C: Container>(
    decoder: &mut Decoder<C>,
    info: &StreamInfo,
    sample: u64,
) -> Result<u64, Fault>
    ensures finds { SearchesFrames C.Container info.now sample (stage_of decoder.old) (stage_of decoder.new) result }
    ensures first { IfOk result (λ n. n ≡ number_of info.now (item_in (stage_of decoder.new))) }
    ensures memory { IsPast (stage_of decoder.old) → IfErr result (λ f. f.why ≡ Why.Memory → f ≡ too_many_frames) }
    // Memory runs out after frames that were read without an error: what was known is still known.
    ensures known { IsPast (stage_of decoder.old) → IfErr result (KnownAtMemory decoder.old decoder.new) }
    // proof only
    ensures counts { Counted C.Container (stage_of decoder.old) (stage_of decoder.new) result }
    ensures past { IsPast (stage_of decoder.old) → IfOk result (λ _. IsPast (stage_of decoder.new)) }
{
    for _ in 0..u64::MAX {
        match pass_frame(decoder, info, sample) {
            Ok(None) => {}
            Ok(Some(first)) => return Ok(first),
            Err(fault) => return Err(fault),
        }
    }
    Err(Fault {
        at: Place::Frame(u64::MAX),
        why: Why::Memory,
    })
}
