//! The state of a stream between its parts, and what is compared at its end.

ghost use Rattle.std.specs.Prelude.{◌≡◌, ◌≢◌, OnOk, IfOk, IfErr, Err, Some, is_some, true, ⊤, [], false};
ghost use Rattle.std.specs.Borrow.{sem, follows_so};
ghost use mathlib.Core.Option.{none};
ghost use Rattle.flac_bits.specs.Reading.{ReadsGivenMemory, Call, MeansGivenMemory};
ghost use Rattle.flac_bits.specs.Reasons.{of_output};
ghost use Rattle.flac_meta.specs.Block.{block as block_layout};
ghost use Rattle.flac_native.specs.Resuming.{at_frames};
ghost use Rattle.flac_frame.specs.Viewed.{frame_of};
ghost use Rattle.flac_native.specs.Stream.{Progress, marked, block as block_piece, framed, info_after, before_after_block, frame_after, place_in, next, opening, is_unknown, end_rules};
ghost use Rattle.flac_native.specs.Track.{IsAt, ReadsPart, MeansBlock, ReadsBlock, MeansFrame, ReadsFrame, stand_of, is_after_blocks, profile_of, info_in, before_in, shown, kept};
ghost use Rattle.flac_native.specs.declared.track.Phase.TheVariants.{Blocks};
ghost use Rattle.flac_native.specs.contracts.track.Track.{the_row};
ghost use Rattle.std.specs.Str.{bytes_eq};
ghost use Rattle.flac_native.specs.Ends.{EndsBy, JudgesEnd};
ghost use Rattle.md5.specs.Md5.{Holds};

use crate::digest::feed;
use crate::fault::Place;
use crate::format::Format;
use crate::position::Position;
use crate::sample_bytes::sample_width;
use flac_bits::{BitReader, Source, Why};
use flac_frame::FrameView;
use flac_header::Profile;
use flac_meta::{Block, StreamInfo};
use md5::{Digest, Md5};
use std::alloc::Global;
use std::mem;

/// Which kind of part of a stream comes next.
#[derive(Clone, Copy)]
pub(crate) enum Phase {
    /// The marker.
    Opening,
    /// A metadata block.
    Blocks,
    /// A frame, or the end.
    Frames,
}

/// The state of a stream between two of its parts, by which they are read one by one (RFC 9639, section 6): a metadata
/// block by [`Track::block`]; after the last block a frame by [`Track::frame`] or [`Track::next_frame`]; and at the end
/// of the stream [`Track::end`], which compares what STREAMINFO states of all samples. [`crate::Decoder`] does all
/// this; a track is for the author of a [`crate::Container`].
///
/// ```
/// let mut bits = BitReader::new(source); // after `fLaC`
/// let mut track = Track::new(rt.alloc(), Profile::Subset);
/// let (last, info) = track.block(&mut bits)?; // STREAMINFO
/// ```
pub struct Track {
    pub(crate) alloc: Global,
    /// The buffers have it too, once there are some.
    pub(crate) profile: Profile,
    pub(crate) position: Position,
    pub(crate) format: Option<Format>,
    pub(crate) hasher: Md5,
    pub(crate) samples: u64,
    pub(crate) last: bool,
    pub(crate) block: Option<Block>,
}

impl Drop for Track {
    fn drop(self) {
        let Track {
            alloc: _,
            profile: _,
            position: _,
            format: _,
            hasher: _,
            samples: _,
            last: _,
            block: _,
        } = self;
    }
}

impl Track {
    /// Makes the state after the marker: the first metadata block comes next. It allocates when it reads metadata: for
    /// the block, and at STREAMINFO for one frame.
    pub fn new(alloc: Global, profile: Profile) -> Track
        ensures { IsAt result (next (opening profile) marked) }
    {
        let mut track = Track::opening(alloc, profile);
        track.position.phase = Phase::Blocks;
        track
    }

    /// The state before the marker.
    pub(crate) fn opening(alloc: Global, profile: Profile) -> Track
        ensures { IsAt result (opening profile) }
    {
        Track {
            alloc,
            profile,
            position: Position::start(),
            format: None,
            hasher: Md5::new(),
            samples: 0,
            last: false,
            block: None,
        }
    }

    /// The state before a frame of a stream with this STREAMINFO. Its only error is `Memory`: an allocation failed.
    pub(crate) fn resumed(alloc: Global, profile: Profile, info: StreamInfo) -> Result<Track, Why>
        ensures ok { IfOk result (λ t. IsAt t (at_frames profile info)) }
        ensures err { IfErr result (λ e. e ≡ Why.Memory) }
    {
        let format = Format::new(alloc, profile, info)?;
        let mut track = Track::opening(alloc, profile);
        track.position.phase = Phase::Frames;
        track.format = Some(format);
        Ok(track)
    }

    /// The profile by which frames are judged.
    fn profile(&self) -> Profile
        ensures { result ≡ profile_of self.now }
    {
        match &self.format {
            Some(format) => format.profile,
            None => self.profile,
        }
    }

    /// Makes the buffers for frames if a block is STREAMINFO. Its only error is `Memory`: an allocation failed.
    fn prepare(&mut self, block: &Block) -> Result<(), Why>
        ensures position { self.new.position ≡ self.old.position }
        ensures profile { OnOk result (profile_of self.new ≡ profile_of self.old) }
        ensures info { OnOk result (info_in self.new.format ≡ info_after (info_in self.old.format) block.now) }
        ensures before { OnOk result
            (before_in self.new.format ≡ before_after_block (before_in self.old.format) block.now) }
        ensures samples { self.new.samples ≡ self.old.samples }
        ensures hasher { self.new.hasher ≡ self.old.hasher }
        ensures last { self.new.last ≡ self.old.last }
        ensures kept { self.new.block ≡ self.old.block }
        ensures err { IfErr result (λ e. e ≡ Why.Memory) }
    {
        if let Block::StreamInfo(info) = block {
            let profile = self.profile();
            self.format = Some(Format::new(self.alloc, profile, *info)?);
        }
        Ok(())
    }

    /// Reads the next metadata block, and returns whether it is marked last, and the block (RFC 9639, section 8).
    ///
    /// # Errors
    /// Those of [`flac_meta::read_block`], which depend on the blocks that this track read before; [`Why::Memory`] also
    /// if the allocation for a frame fails. The track must not be used to read on then.
    pub fn block<R: Source>(&mut self, bits: &mut BitReader<R>) -> Result<(bool, Block), Why>
        ensures reading { Call 32 (MeansGivenMemory (λ x. x) (block_layout (stand_of self.old).seen))
            bits.old bits.new result }
        ensures next { IfOk result (λ x. ReadsPart self.old (block_piece x.0 x.1) self.new) }
        // The block that Track::next_block keeps does not change.
        ensures last { self.new.last ≡ self.old.last }
        ensures kept { self.new.block ≡ self.old.block }
    {
        self.block_by_layout(bits)
    }

    /// What [`Track::block`] does, proved by the reading of the layout.
    fn block_by_layout<R: Source>(&mut self, bits: &mut BitReader<R>) -> Result<(bool, Block), Why>
        ensures reading { Call 32 (ReadsGivenMemory (λ x. x) (block_layout (stand_of self.old).seen))
            bits.old bits.new result }
        ensures next { IfOk result (λ x. ReadsPart self.old (block_piece x.0 x.1) self.new) }
        ensures last { self.new.last ≡ self.old.last }
        ensures kept { self.new.block ≡ self.old.block }
    {
        let (last, block) = self.position.read_block(self.alloc, bits)?;
        match self.prepare(&block) {
            Ok(()) => Ok((last, block)),
            Err(why) => {
                drop(block);
                Err(why)
            }
        }
    }

    /// Reads the next metadata block as [`Track::block`] does, and keeps it in the track, as [`crate::Container::next`]
    /// has to do.
    ///
    /// # Errors
    /// Those of [`Track::block`].
    pub fn next_block<R: Source>(&mut self, bits: &mut BitReader<R>) -> Result<(), Why>
        ensures reading { MeansBlock self.old self.new bits.old bits.new result }
        ensures next { OnOk result (ReadsPart self.old (kept self.new) self.new) }
        ensures made { OnOk result (is_some self.new.block ≡ true) }
    {
        self.next_block_by_layout(bits)
    }

    /// What [`Track::next_block`] does, proved by the reading of the layout.
    pub(crate) fn next_block_by_layout<R: Source>(
        &mut self,
        bits: &mut BitReader<R>,
    ) -> Result<(), Why>
        ensures reading { ReadsBlock self.old self.new bits.old bits.new result }
        ensures next { OnOk result (ReadsPart self.old (kept self.new) self.new) }
        ensures made { OnOk result (is_some self.new.block ≡ true) }
    {
        self.block = None; // so that only one block is held
        let (last, block) = self.block_by_layout(bits)?;
        self.last = last;
        self.block = Some(block);
        Ok(())
    }

    /// Reads the next frame, which [`Track::view`] lends then (RFC 9639, section 9). It must agree with STREAMINFO and
    /// follow the frames that this track read before, and has at most 16777215 bytes. No fence is left
    /// ([`BitReader::fence`]).
    ///
    /// # Errors
    /// Those of [`flac_frame::FrameBuffers::fill`]; [`Why::FrameTooLong`] if it has more bytes;
    /// [`Why::NotStreamInfoFirst`] if no STREAMINFO was read. Never [`Why::Memory`]. The track must not be used to read
    /// on then.
    pub fn next_frame<R: Source>(&mut self, bits: &mut BitReader<R>) -> Result<(), Why>
        ensures reading { MeansFrame (λ _. shown self.new) (stand_of self.old) bits.old bits.new result }
        ensures next { OnOk result (ReadsPart self.old (framed (shown self.new)) self.new) }
        ensures phase { OnOk result ((stand_of self.new).phase ≡ (stand_of self.old).phase) }
        ensures made { OnOk result (is_some (stand_of self.new).info ≡ true) }
        // The block that Track::next_block keeps does not change.
        ensures last { self.new.last ≡ self.old.last }
        ensures kept { self.new.block ≡ self.old.block }
    {
        self.next_frame_by_layout(bits)
    }

    /// What [`Track::next_frame`] does, proved by the reading of the layout.
    #[tactic(auto, unfolding(crate::specs::Stream::frame_after))]
    pub(crate) fn next_frame_by_layout<R: Source>(
        &mut self,
        bits: &mut BitReader<R>,
    ) -> Result<(), Why>
        ensures reading { ReadsFrame (λ _. shown self.new) (stand_of self.old) bits.old bits.new result }
        ensures next { OnOk result (ReadsPart self.old (framed (shown self.new)) self.new) }
        ensures phase { OnOk result ((stand_of self.new).phase ≡ (stand_of self.old).phase) }
        ensures made { OnOk result (is_some (stand_of self.new).info ≡ true) }
        ensures last { self.new.last ≡ self.old.last }
        ensures kept { self.new.block ≡ self.old.block }
    {
        let Some(format) = &mut self.format else {
            bits.lift();
            return Err(Why::NotStreamInfoFirst);
        };
        format.fill(bits)?;
        let view = format.view();
        let width = sample_width(u32::from(format.info.depth()));
        feed(&mut self.hasher, &view, width);
        self.samples = self.samples.saturating_add(view.len() as u64);
        self.position.index = self.position.index.saturating_add(1);
        Ok(())
    }

    /// Lends the frame that was read last; one without channels before the first. STREAMINFO must have been read.
    pub fn view(&self) -> FrameView<'_>
        requires { is_some (stand_of self.now).info ≡ true }
        ensures { frame_of result ≡ shown self.now }
    {
        match &self.format {
            Some(format) => format.view(),
            None => unreachable!(),
        }
    }

    /// Reads the next frame as [`Track::next_frame`] does, and lends it.
    ///
    /// # Errors
    /// Those of [`Track::next_frame`].
    pub fn frame<R: Source>(&mut self, bits: &mut BitReader<R>) -> Result<FrameView<'_>, Why>
        ensures reading { MeansFrame frame_of (stand_of self.old) bits.old bits.new result }
        ensures* after { sem 𝓛 (follows_so the_row the_row self.entry.ghost_name none (λ _ _. ⊤)
            (λ last. IfOk result (λ v. ReadsPart self.old (framed (frame_of v)) last))) }
    {
        self.next_frame(bits)?;
        Ok(self.view())
    }

    /// Whether the last metadata block was read, so that only frames and the end are still to come (RFC 9639, section
    /// 8.1).
    pub fn is_past_metadata(&self) -> bool
        ensures { result ≡ is_after_blocks (stand_of self.now).phase }
    {
        self.position.is_past_metadata()
    }

    /// The place of the next part: the marker, a block or a frame. Blocks and frames are counted from 0, up to 2^64 -
    /// 1.
    pub fn place(&self) -> Place
        ensures { result ≡ place_in (stand_of self.now).phase (stand_of self.now).index }
    {
        self.position.place()
    }

    /// Compares the number of samples and the MD5 digest of all frames with what STREAMINFO states, if it was read and
    /// states them (RFC 9639, section 8.2). It is called once, after the last frame: the digest begins anew.
    ///
    /// # Errors
    /// [`Why::TotalMismatch`] if the number of samples differs, else [`Why::Md5Mismatch`] if the digest does.
    #[tactic(auto, unfolding(crate::specs::Stream::end_rules))]
    pub fn end(&mut self) -> Result<(), Why>
        ensures judged { (p : Progress) → IsAt self.old p → EndsBy (end_rules p.stand.info p.samples p.message) result }
        ensures quiet { IfErr result (λ e. e ≢ Why.Read) }
        ensures memory { IfErr result (λ e. e ≢ Why.Memory) }
        ensures output { IfErr result (λ e. of_output e ≡ false) }
        // Nothing else changes.
        ensures stays { self.new ≡ record self.old { hasher = self.new.hasher } }
        ensures anew { is_some self.old.format ≡ true → Holds self.new.hasher [] }
        ensures unasked { is_some self.old.format ≡ false → self.new.hasher ≡ self.old.hasher }
    {
        let Some(format) = &self.format else {
            return Ok(());
        };
        let hasher = mem::replace(&mut self.hasher, Md5::new());
        judge(&format.info, self.samples, hasher)
    }
}

/// Whether a digest of STREAMINFO is unknown: all its bytes are 0.
fn is_unknown(digest: &[u8]) -> bool
    ensures { result ≡ is_unknown digest.now }
{
    digest.iter().all(|byte| *byte == 0)
}

/// Whether two digests are equal.
fn same_bytes(one: &[u8], other: &[u8]) -> bool
    ensures { result ≡ bytes_eq one.now other.now }
{
    one == other
}

/// Compares the number of samples and the digest with what STREAMINFO states.
#[tactic(auto, unfolding(crate::specs::Stream::end_rules))]
fn judge(info: &StreamInfo, samples: u64, hasher: Md5) -> Result<(), Why>
    ensures judged { JudgesEnd info.now samples hasher result }
    ensures quiet { IfErr result (λ e. e ≢ Why.Read) }
    ensures memory { IfErr result (λ e. e ≢ Why.Memory) }
    ensures output { IfErr result (λ e. of_output e ≡ false) }
{
    if info.total() != 0 && info.total() != samples {
        return Err(Why::TotalMismatch);
    }
    let stated = info.digest();
    let digest = hasher.finalize();
    if !is_unknown(&stated) && !same_bytes(&stated, &digest) {
        return Err(Why::Md5Mismatch);
    }
    Ok(())
}
