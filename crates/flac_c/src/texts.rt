//! The texts of numbers.

ghost use Rattle.std.specs.Prelude.{◌≡◌, ◌≢◌, ◌<◌, ◌⊎◌, [], Some, None};
ghost use Rattle.flac_bits.specs.Reasons.{number_of};
ghost use Rattle.flac_frame.specs.Setup.{number_of as setup_number};
ghost use Rattle.flac_c.specs.Answers.{place_text, IsCopied};
ghost use Rattle.flac_c.specs.Texts.{CopiesReason, CopiesSetup, CopiesWave, IsNoReason};
ghost use Rattle.flac_wave.specs.Reasons.{number_of as wave_number};

use crate::fault::kind_name;
use flac_bits::Why;
use flac_frame::SetupFault;
use flac_wave::WaveWhy;

/// Copies bytes or samples to the front of a buffer, as far as there is room, and returns how many there are.
pub(crate) fn copy<T: Copy>(items: &[T], out: &mut [T]) -> usize
    ensures { IsCopied items.now out.old out.new result }
{
    let n = items.len().min(out.len());
    out[..n].copy_from_slice(&items[..n]);
    items.len()
}

/// The reasons of a refusal in the order of their numbers, which begin at 1.
const REASONS: [Why; 39] = [
    Why::Read,
    Why::Memory,
    Why::Truncated,
    Why::BadMarker,
    Why::NotStreamInfoFirst,
    Why::ForbiddenType,
    Why::BlockLength,
    Why::BadStreamInfo,
    Why::RepeatedBlock,
    Why::SeekOrder,
    Why::CueSheet,
    Why::BadSync,
    Why::ReservedCode,
    Why::NotSubset,
    Why::BadNumber,
    Why::HeaderCheck,
    Why::HeaderMismatch,
    Why::Sequence,
    Why::BlockSize,
    Why::BadSubframe,
    Why::BadPredictor,
    Why::BadPartition,
    Why::ResidualRange,
    Why::NonzeroPadding,
    Why::FrameTooLong,
    Why::FrameCheck,
    Why::SampleRange,
    Why::TotalMismatch,
    Why::Md5Mismatch,
    Why::Sink,
    Why::BadPage,
    Why::PageCheck,
    Why::PageOrder,
    Why::OtherStream,
    Why::PacketLength,
    Why::NoEndPage,
    Why::BadMapping,
    Why::Spent,
    Why::Write,
];

/// The reason with this number, 1 to 39.
fn reason_of(number: u32) -> Option<Why>
    ensures each { (why : Why) → number_of why ≡ number → result ≡ Some why }
    ensures other { (number ≡ 0) ⊎ (39 < number) → result ≡ None }
{
    if number < 1 || number > 39 {
        return None;
    }
    Some(REASONS[number as usize - 1])
}

/// The reason with this number, 40 to 47, 51 or 52.
fn setup_of(number: u32) -> Option<SetupFault>
    ensures each { (fault : SetupFault) → setup_number fault ≡ number → result ≡ Some fault }
    ensures other { (number < 40) ⊎ (((47 < number) × (number < 51)) ⊎ (52 < number)) → result ≡ None }
{
    match number {
        40 => Some(SetupFault::BadRate),
        41 => Some(SetupFault::BadDepth),
        42 => Some(SetupFault::BadChannels),
        43 => Some(SetupFault::LengthsDiffer),
        44 => Some(SetupFault::SampleTooLarge),
        45 => Some(SetupFault::TooLong),
        46 => Some(SetupFault::BadBlockSize),
        47 => Some(SetupFault::TooManyPoints),
        51 => Some(SetupFault::PredictorOrder),
        52 => Some(SetupFault::TooManyPredictors),
        _ => None,
    }
}

/// The reasons for which bytes are no WAV file that have the numbers 60 to 70, in their order.
const WAVE_REASONS: [WaveWhy; 11] = [
    WaveWhy::NotWave,
    WaveWhy::ChunkCut,
    WaveWhy::ChunkLength,
    WaveWhy::NoFormat,
    WaveWhy::RepeatedFormat,
    WaveWhy::FormatLength,
    WaveWhy::Coding,
    WaveWhy::FormatFields,
    WaveWhy::NoData,
    WaveWhy::DataCut,
    WaveWhy::PartSample,
];

/// The reason with this number, 60 to 70 or 92.
fn wave_of(number: u32) -> Option<WaveWhy>
    ensures each { (why : WaveWhy) → wave_number why ≡ number → result ≡ Some why }
    ensures other { (number < 60) ⊎ ((70 < number) × (number ≢ 92)) → result ≡ None }
{
    if number == 92 {
        return Some(WaveWhy::DataUnstated);
    }
    if number < 60 || number > 70 {
        return None;
    }
    Some(WAVE_REASONS[number as usize - 60])
}

/// Copies the number and the name of a reason, as `26 FrameCheck`, to the front of `out`, as far as there is room, and
/// returns the length of this text in bytes. The rest of `out` is unchanged. The text is empty for numbers
/// of no reason: 0, 48 to 50, 53 to 59, and those above 70 but 92.
#[unsafe(no_mangle)]
pub extern "C" fn flac_proved_strerror(number: u32, out: &mut [u8]) -> usize
    ensures reason { CopiesReason number out.old out.new result }
    ensures setup { CopiesSetup number out.old out.new result }
    ensures wave { CopiesWave number out.old out.new result }
    ensures other { IsNoReason number → IsCopied [] out.old out.new result }
{
    if let Some(why) = reason_of(number) {
        return copy(why.as_str().as_bytes(), out);
    }
    if let Some(fault) = setup_of(number) {
        return copy(fault.as_str().as_bytes(), out);
    }
    if let Some(reason) = wave_of(number) {
        return copy(reason.as_str().as_bytes(), out);
    }
    copy(&[], out)
}

/// Copies the name of a kind of place ([`FlacProvedFault::place`](crate::fault::FlacProvedFault)), as `frame`, to the
/// front of `out`, as far as there is room, and returns the length of this text in bytes. The rest of `out` is
/// unchanged. The text is empty for numbers that are no kind.
#[unsafe(no_mangle)]
pub extern "C" fn flac_proved_place(kind: u32, out: &mut [u8]) -> usize
    ensures { IsCopied (place_text kind) out.old out.new result }
{
    copy(kind_name(kind).as_bytes(), out)
}
