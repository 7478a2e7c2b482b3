//! STREAMINFO, and the buffers for its frames.

ghost use Rattle.std.specs.Prelude.{◌≡◌, OnOk, IfOk, IfErr, None, min};
ghost use Rattle.flac_header.specs.Header.{greatest_in};

use flac_bits::{BitReader, Source, Why};
use flac_frame::{FrameBuffers, FrameView};
use flac_header::Profile;
use flac_meta::StreamInfo;
use std::alloc::Global;

/// STREAMINFO, and the buffers for its frames.
pub(crate) struct Format {
    pub(crate) profile: Profile,
    pub(crate) info: StreamInfo,
    pub(crate) buffers: FrameBuffers,
    ghost channels: { buffers.channels ≡ info.channels },
    ghost block: { buffers.max_block ≡ min info.greatest_block (greatest_in profile info.rate) },
}

impl Drop for Format {
    fn drop(self) {
        let Format {
            profile: _,
            info: _,
            buffers: _,
        } = self;
    }
}

impl Format {
    ghost use Rattle.flac_frame.specs.Viewed.{frame_of};
    ghost use Rattle.flac_native.specs.Track.{FillsFrame, FollowsFrame};

    /// Makes the buffers. Its only error is `Memory`: an allocation failed.
    pub(crate) fn new(alloc: Global, profile: Profile, info: StreamInfo) -> Result<Format, Why>
        ensures ok { IfOk result (λ f. (f.profile ≡ profile) × (f.info ≡ info) × (f.buffers.before ≡ None)) }
        ensures err { IfErr result (λ e. e ≡ Why.Memory) }
    {
        let block = u32::from(info.greatest_block()).min(profile.greatest_block(info.rate()));
        let buffers = FrameBuffers::new(alloc, u32::from(info.channels()), block)?;
        Ok(Format {
            profile,
            info,
            buffers,
        })
    }

    /// Reads the next frame into the buffers: what [`FrameBuffers::fill`] does, proved by the reading of the layout.
    pub(crate) fn fill<R: Source>(&mut self, bits: &mut BitReader<R>) -> Result<(), Why>
        ensures reading { FillsFrame self.old self.new bits.old bits.new result }
        ensures before { OnOk result (FollowsFrame self.old self.new) }
        ensures info { self.new.info ≡ self.old.info }
        ensures profile { self.new.profile ≡ self.old.profile }
    {
        self.buffers.fill(bits, &self.info, self.profile)
    }

    /// The frame that was read last.
    pub(crate) fn view(&self) -> FrameView<'_>
        ensures { frame_of result ≡ self.now.buffers.held }
    {
        self.buffers.view()
    }
}
