//! What a decoder gives.

use flac_frame::FrameView;
use flac_native::{Block, Container, Decoder, Fault, Item, Place, Why};

/// The peak of some samples.
fn peak(samples: &[i32]) -> u32 {
    let mut peak = 0;
    for sample in samples {
        peak = sample.unsigned_abs().max(peak);
    }
    peak
}

/// Raises the peak of each channel to that of a frame.
fn note(frame: &FrameView<'_>, peaks: &mut [u32; 8]) {
    for i in 0..8 {
        if i < frame.channels() {
            peaks[i] = peak(frame.channel(i)).max(peaks[i]);
        }
    }
}

/// The peak of each channel of a stream.
fn peaks<C: Container>(decoder: &mut Decoder<C>) -> Result<[u32; 8], Fault> {
    let mut peaks = [0; 8];
    for _ in 0..u64::MAX {
        match decoder.next()? {
            Item::Block(_) => {}
            Item::Frame(frame) => note(&frame, &mut peaks),
            Item::End => return Ok(peaks),
        }
    }
    Ok(peaks)
}

/// Whether the end comes next.
pub fn ends<C: Container>(decoder: &mut Decoder<C>) -> bool {
    matches!(decoder.next(), Ok(Item::End))
}

/// The peaks of the first three channels of a stream, after which the end comes once more.
pub fn peaks_to_end<C: Container>(decoder: &mut Decoder<C>) -> Option<(u32, u32, u32)> {
    let peaks = peaks(decoder).ok()?;
    if ends(decoder) {
        Some((peaks[0], peaks[1], peaks[2]))
    } else {
        None
    }
}

/// The peaks of the example of RFC 9639, appendix D.1.
pub const PEAKS: Option<(u32, u32, u32)> = Some((25588, 10416, 0));

/// The number of the type of the block that comes next, 127 if none does.
pub fn next_type<C: Container>(decoder: &mut Decoder<C>) -> u8 {
    match decoder.next() {
        Ok(Item::Block(Block::StreamInfo(_))) => 0,
        Ok(Item::Block(Block::VorbisComment(_))) => 4,
        _ => 127,
    }
}

/// The next two faults of a stream.
pub fn two_faults<C: Container>(
    decoder: &mut Decoder<C>,
) -> (Result<(), Fault>, Result<(), Fault>) {
    (decoder.step(), decoder.step())
}

/// Whether these are the faults of a stream that is cut off at a place, and whose decoder is spent then.
pub fn are_of_a_cut(faults: (Result<(), Fault>, Result<(), Fault>), at: Place) -> bool {
    let (first, second) = faults;
    let cut = Fault {
        at,
        why: Why::Truncated,
    };
    let spent = Fault {
        at,
        why: Why::Spent,
    };
    first == Err(cut) && second == Err(spent)
}
