//! A reader: metadata at once, then one frame after another.

ghost use Rattle.std.specs.Prelude.{◌≡◌, ◌-◌, ◌^◌, ⊤, IfOk, IfErr, None, Some, true, option_copied};
ghost use Rattle.std.specs.Duration.{as_nanos};
ghost use Rattle.std.specs.Borrow.{sem, follows_so};
ghost use mathlib.Core.Option.{none};
ghost use Rattle.flac_native.specs.Giving.{stage_of};
ghost use Rattle.flac_meta.specs.SeekTable.{last_before};
ghost use Rattle.flac_reader.specs.Kept.{first_info, first_comments, first_points};
ghost use Rattle.flac_reader.specs.Refusing.{RefusedHead};
ghost use Rattle.flac_reader.specs.Seeking.{offset_before};
ghost use Rattle.flac_reader.specs.Coming.{lent, size_of, ReadsHead, IsPast};
ghost use Rattle.flac_reader.specs.Time.{nanos_of, IsLength};

use crate::head::{Head, forward, read_head};
use crate::keep::Keep;
use crate::samples::Samples;
use crate::time::time_of;
use flac_native::{
    Block, Comments, Container, Decoder, Fault, FrameView, Item, Refused, SeekPoint, StreamInfo,
};
use std::alloc::Global;
use std::time::Duration;

/// Reads a stream whose metadata was read already: [`Reader::info`], [`Reader::comments`] and [`Reader::blocks`] return
/// it, and [`Reader::next`] lends one frame after another.
///
/// [`crate::open`], [`crate::open_native`] and [`crate::open_ogg`] make one.
///
/// ```
/// let mut reader = open_native(rt.alloc(), Counted::new(file), Profile::Subset, Keep::Tags)?;
/// let rate = reader.info().rate();
/// for _ in 0..u64::MAX {
///     match reader.next()? {
///         Some(frame) => play(&frame),
///         None => break,
///     }
/// }
/// ```
#[derive(Drop)]
pub struct Reader<C: Container> {
    pub(crate) decoder: Decoder<C>,
    /// The STREAMINFO.
    pub(crate) info: StreamInfo,
    /// The metadata blocks that are kept.
    pub(crate) blocks: Vec<Block>,
    /// Whether the decoder has read a frame that was not given yet: opening reads the first one.
    pub(crate) ahead: bool,
    /// How many bytes of a native stream are before its first frame.
    pub(crate) start: u64,
    /// The number of the first sample of the last frame that was given.
    pub(crate) first: u64,
    /// The number of the first sample after it, which the next frame begins with.
    pub(crate) after: u64,
}

impl<C: Container + Drop> Reader<C> {
    /// Makes a reader of a decoder of which nothing was read yet. It reads all metadata, of which it keeps the wanted
    /// blocks, and the first frame, which [`Reader::next`] lends then.
    ///
    /// # Errors
    /// Those of [`crate::read_blocks`], and [`Why::NotStreamInfoFirst`](crate::Why::NotStreamInfoFirst) if there is no
    /// STREAMINFO. The decoder is returned with them.
    pub fn over(
        alloc: Global,
        decoder: Decoder<C>,
        keep: Keep,
    ) -> Result<Reader<C>, Refused<Decoder<C>>>
        ensures info { IfOk result (λ r. first_info r.blocks.items ≡ Some r.info) }
        ensures ahead { IfOk result (λ r. r.ahead ≡ true) }
        ensures start { IfOk result (λ r. (r.first ≡ 0) × (r.after ≡ 0)) }
        // The last metadata block was read: no `next` of it is out of memory.
        ensures past { IfOk result (λ r. IsPast (stage_of r.decoder)) }
        // All wanted blocks are kept, and the frames come next: those of the stream that the decoder was to give.
        ensures head { IfOk result (λ r. ReadsHead decoder r.decoder keep r.blocks.items r.ahead r.start) }
        // Refused only as the stream is that the decoder was to give, before its first frame, or because memory runs
        // out. The decoder that is returned has counted an error of the device.
        ensures refused { IfErr result (λ x. RefusedHead C.Container (stage_of decoder) (stage_of x.left) x.fault) }
    {
        let mut decoder = decoder;
        let mut blocks = Vec::new(alloc);
        match read_head(&mut decoder, keep, &mut blocks) {
            Ok(head) => Ok(Reader::before_frame(decoder, head, blocks, 0)),
            Err(fault) => Err(Refused {
                fault,
                left: decoder,
            }),
        }
    }
}

impl<C: Container> Reader<C> {
    ghost use Rattle.flac_reader.specs.contracts.reader.Reader.{the_row};
    ghost use Rattle.flac_reader.specs.Giving.{Gives, last_frame};
    ghost use Rattle.flac_reader.specs.Sampling.{SamplesOf};

    /// Makes a reader whose decoder has already read the next frame, or the end. That frame's first sample has this
    /// number.
    pub(crate) fn before_frame(
        decoder: Decoder<C>,
        head: Head,
        blocks: Vec<Block>,
        first: u64,
    ) -> Reader<C>
        // proof only
        ensures decoder { result.decoder ≡ decoder }
        ensures head { (result.info ≡ head.info) × (result.start ≡ head.start) }
        ensures blocks { result.blocks ≡ blocks }
        ensures ahead { result.ahead ≡ true }
        ensures first { (result.first ≡ first) × (result.after ≡ first) }
    {
        Reader {
            decoder,
            info: head.info,
            blocks,
            ahead: true,
            start: head.start,
            first,
            after: first,
        }
    }

    /// STREAMINFO: sample rate, channels, bits per sample and number of samples (RFC 9639, section 8.2).
    pub fn info(&self) -> &StreamInfo
        ensures { result.now ≡ self.now.info }
    {
        &self.info
    }

    /// The metadata blocks that were kept, in their order (RFC 9639, section 8). See [`Keep`].
    pub fn blocks(&self) -> &[Block]
        ensures { result.now ≡ self.now.blocks.items }
    {
        self.blocks.as_slice()
    }

    /// The comments, or `None` if the stream has none (RFC 9639, section 8.6).
    ///
    /// ```
    /// match reader.comments() {
    ///     Some(comments) => comments.find(b"title") == Some(b"x".as_slice()),
    ///     None => false,
    /// }
    /// ```
    #[tactic(auto, unfolding(crate::specs::Kept::first_comments), using(crate::proofs::Firsts::comments_more))]
    pub fn comments(&self) -> Option<&Comments>
        ensures { option_copied result ≡ first_comments self.now.blocks.items }
    {
        for block in self.blocks.iter() {
            match block {
                Block::VorbisComment(found) => return Some(found),
                _ => {}
            }
        }
        None
    }

    /// The last point at or before a sample of the seek table, if a table with one is among the blocks that were kept
    /// (RFC 9639, section 8.5).
    #[tactic(auto, unfolding(crate::specs::Kept::first_points), using(crate::proofs::Firsts::points_more))]
    pub(crate) fn point_before(&self, sample: u64) -> Option<SeekPoint>
        ensures { result ≡ last_before sample (first_points self.now.blocks.items) }
    {
        for block in self.blocks.iter() {
            match block {
                Block::SeekTable(table) => return table.before(sample),
                _ => {}
            }
        }
        None
    }

    /// The offset of that point, in bytes from the first frame; 0 if there is none.
    pub(crate) fn offset_before(&self, sample: u64) -> u64
        ensures { result ≡ offset_before sample (first_points self.now.blocks.items) }
    {
        match self.point_before(sample) {
            Some(point) => point.offset,
            None => 0,
        }
    }

    /// The number of the first sample of the frame that was lent last, counted from 0 in each channel. At the end of
    /// the stream it is the number of samples of each channel, or 0 if the reader is there since no frame held the
    /// sample of a seek. It stops at 2^64 - 1.
    pub fn first_sample(&self) -> u64
        ensures { result ≡ self.now.first }
    {
        self.first
    }

    /// The time at which the frame that was lent last begins: that of its first sample from the start of the stream,
    /// rounded down to a nanosecond. At the end of the stream it is the time that all samples take, or 0 if no frame
    /// held the sample of a seek.
    ///
    /// ```
    /// let at = reader.time().as_secs();
    /// ```
    pub fn time(&self) -> Duration
        ensures { as_nanos result ≡ nanos_of self.now.first self.now.info.rate }
    {
        time_of(self.first, &self.info)
    }

    /// The time that all samples take, as STREAMINFO states it, rounded down to a nanosecond; `None` if STREAMINFO does
    /// not state how many samples there are (RFC 9639, section 8.2).
    pub fn duration(&self) -> Option<Duration>
        ensures { IsLength self.now.info result }
    {
        match self.info.total() {
            0 => None,
            total => Some(time_of(total, &self.info)),
        }
    }

    /// An iterator over all samples of the frames that [`Reader::next`] has not lent yet, interleaved.
    ///
    /// ```
    /// let mut peak = 0;
    /// for sample in reader.into_samples() {
    ///     peak = sample?.unsigned_abs().max(peak);
    /// }
    /// ```
    pub fn into_samples(self) -> Samples<C>
        ensures reader { result.reader ≡ self }
        // As many steps are left as can be counted: one for each sample, each frame, and the end.
        ensures left { result.left ≡ 2 ^ 64 - 1 }
        // All samples of the frames to come are given, and then the same end.
        ensures come { SamplesOf self result }
    {
        Samples::over(self)
    }

    /// Returns the decoder, which has the source. It may have read a frame already that [`Reader::next`] has not lent
    /// yet: the first one, see [`Reader::over`].
    ///
    /// ```
    /// let source = reader.into_decoder().into_source();
    /// ```
    pub fn into_decoder(self) -> Decoder<C>
        ensures { result ≡ self.decoder }
    {
        let Reader {
            decoder,
            info: _,
            blocks: _,
            ahead: _,
            start: _,
            first: _,
            after: _,
        } = self;
        decoder
    }

    /// The frame that was read last, by [`Reader::step`] or [`Reader::next`]; `None` at the end of the stream, and
    /// after an error. Before the first of these calls it is the first frame, which was read when the stream was
    /// opened.
    ///
    /// ```
    /// reader.step()?;
    /// let frame = reader.frame();
    /// ```
    pub fn frame(&self) -> Option<FrameView<'_>>
        ensures { lent result ≡ last_frame self.now }
    {
        match self.decoder.view() {
            Item::Block(_) => None,
            Item::Frame(frame) => Some(frame),
            Item::End => None,
        }
    }

    /// How many samples of each channel the frame has that was read last; 0 if there is none.
    fn frame_len(&self) -> u64
        ensures { result ≡ size_of (last_frame self.now) }
    {
        match self.frame() {
            Some(frame) => frame.len() as u64,
            None => 0,
        }
    }

    /// Reads the next frame, which [`Reader::frame`] lends then. It is [`Reader::next`] for callers that cannot hold
    /// the loan of a frame, such as those of two readers.
    ///
    /// # Errors
    /// Those of [`Reader::next`].
    pub fn step(&mut self) -> Result<(), Fault>
        ensures { Gives self.old self.new (λ _. last_frame self.new) result }
    {
        match forward(&mut self.decoder, &mut self.ahead) {
            Ok(()) => {}
            Err(fault) => return Err(fault),
        }
        self.first = self.after;
        self.after = self.after.saturating_add(self.frame_len());
        Ok(())
    }

    /// Reads the next frame and lends it; `None` at the end of the stream, and in each call after it.
    ///
    /// ```
    /// for _ in 0..u64::MAX {
    ///     match reader.next()? {
    ///         Some(frame) => play(&frame),
    ///         None => break,
    ///     }
    /// }
    /// ```
    ///
    /// # Errors
    /// Those of [`Decoder::next`]. After an error each call returns [`Why::Spent`](crate::Why::Spent) at the place of
    /// that error.
    pub fn next(&mut self) -> Result<Option<FrameView<'_>>, Fault>
        ensures* after { sem 𝓛 (follows_so (the_row C.row C.Container) (the_row C.row C.Container)
            self.entry.ghost_name none (λ _ _. ⊤) (λ last. Gives self.old last lent result)) }
    {
        self.step()?;
        Ok(self.frame())
    }
}
