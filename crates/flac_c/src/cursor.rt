//! A place in a native stream that is read frame by frame.

ghost use Rattle.std.specs.Prelude.{◌≡◌, ◌≤◌, IfOk, IfErr};
ghost use Rattle.flac_info.specs.Info.{KeepsRules};
ghost use Rattle.flac_frame.specs.Viewed.{frame_of};
ghost use Rattle.flac_c.specs.Cursors.{info_from_c, passed};

use crate::info::FlacProvedInfo;
use flac_bits::Why;
use flac_frame::FrameView;
use flac_meta::StreamInfo;

/// Where the next frame of a native stream begins, and the STREAMINFO by which frames are read: plain numbers, which
/// the caller keeps. `flac_proved_start` and `flac_proved_seek` make one.
#[repr(C)]
#[derive(Clone, Copy, Drop)]
pub struct FlacProvedCursor {
    /// Bytes from the first byte of the stream to the next frame.
    pub offset: u64,
    /// How many frames were read since the cursor was made.
    pub frames: u64,
    /// The number of the first sample of the next frame, counted from 0 in each channel.
    pub sample: u64,
    /// STREAMINFO of the stream.
    pub info: FlacProvedInfo,
}

/// The STREAMINFO by which frames are read: without the number of all samples and their MD5. Its only error is
/// `BadStreamInfo`: a field is out of its range.
pub(crate) fn info_from_c(info: &FlacProvedInfo) -> Result<StreamInfo, Why>
    ensures value { IfOk result (λ i. i ≡ info_from_c info.now) }
    ensures rules { IfOk result (λ i. KeepsRules i) }
    ensures refused { IfErr result (λ e. (e ≡ Why.BadStreamInfo) × (KeepsRules (info_from_c info.now) → ⊥)) }
{
    if info.least_block > 65535
        || info.greatest_block > 65535
        || info.channels > 8
        || info.bits > 32
    {
        return Err(Why::BadStreamInfo);
    }
    let found = StreamInfo::new(
        info.least_block as u16,
        info.greatest_block as u16,
        info.least_frame,
        info.greatest_frame,
        info.rate,
        info.channels as u8,
        info.bits as u8,
        0,
        [0; 16],
    )?;
    // Read only for the proof, which then knows what the model of a `StreamInfo` keeps to.
    let _rules = found.rate();
    Ok(found)
}

/// The cursor after a frame that ends at an offset.
pub(crate) fn passed(cursor: &FlacProvedCursor, frame: &FrameView<'_>, end: u64) -> FlacProvedCursor
    requires { cursor.now.info.greatest_block ≤ 65535 }
    ensures { result ≡ passed cursor.now (frame_of frame.now) end }
{
    let first = frame.first_sample(cursor.info.greatest_block as u16);
    FlacProvedCursor {
        offset: end,
        frames: cursor.frames.saturating_add(1),
        sample: first.saturating_add(frame.len() as u64),
        info: cursor.info,
    }
}
