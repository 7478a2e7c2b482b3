//! A decoder that lends one item of a stream after another, from the start or from a frame on.

ghost use Rattle.flac_native.specs.Track.{is_made, is_going, stand_of, IsAt, is_after_blocks};
ghost use Rattle.std.specs.Prelude.{◌≡◌, ◌*◌, true, ⊤, Some, Ok, option_copied, IfOk, IfErr, drop};
ghost use Rattle.std.specs.Borrow.{sem, follows_so};
ghost use mathlib.Core.Option.{none};
ghost use Rattle.flac_bits.specs.State.{without_fence};
ghost use Rattle.flac_bits.specs.Fencing.{lifted};
ghost use Rattle.flac_native.specs.Stream.{opening};
ghost use Rattle.flac_native.specs.Decoding.{source_start};
ghost use Rattle.flac_native.specs.Resuming.{resumed};

use crate::container::{Container, Part};
use crate::fault::{Fault, Place, Refused};
use crate::item::{Item, next_item};
use crate::track::Track;
use flac_bits::{BitReader, Source, Why};
use flac_header::Profile;
use flac_meta::StreamInfo;
use std::alloc::Global;

/// How far a decoder has read.
#[derive(Clone, Copy)]
pub(crate) enum Course {
    /// Nothing was read.
    Begun,
    /// A part of this kind was read last.
    Read(Part),
    /// The stream is over.
    Over,
    /// The stream was refused at this place.
    Spent(Place),
}

/// Reads a stream item by item: its metadata blocks, its frames, then the end (RFC 9639, section 6). It holds one block
/// and one frame.
///
/// [`Decoder::new`] makes one for a native stream, `ogg_decoder` of `flac_ogg` one for an Ogg stream, and
/// [`Decoder::resume`] one that begins at a frame.
///
/// ```
/// /// The peak of each channel of a stream.
/// fn peaks<C: Container>(decoder: &mut Decoder<C>) -> Result<[u32; 8], Fault> {
///     let mut peaks = [0; 8];
///     for _ in 0..u64::MAX {
///         match decoder.next()? {
///             Item::Block(_) => {}
///             Item::Frame(frame) => note(&frame, &mut peaks),
///             Item::End => return Ok(peaks),
///         }
///     }
///     Ok(peaks)
/// }
/// ```
#[derive(Drop)]
pub struct Decoder<C: Container> {
    pub(crate) container: C,
    pub(crate) track: Track,
    pub(crate) course: Course,
    ghost made: { is_made course track ≡ true },
    ghost stands: { is_going course ≡ true → C.stands container (stand_of track) ≡ true },
}

impl<C: Container> Decoder<C> {
    ghost use Rattle.flac_native.specs.contracts.decoder.Decoder.{the_row};
    ghost use Rattle.flac_native.specs.Giving.{held, held_in, shown_of, Goes, Moves, Lends, stage_of};

    /// Makes a decoder of a container and the state of a track, such as that of [`Track::new`] if the first metadata
    /// block comes next. Nothing is read yet.
    pub fn over(container: C, track: Track) -> Decoder<C>
        requires { C.stands container (stand_of track) ≡ true }
        ensures track { result.track ≡ track }
        ensures course { result.course ≡ Course.Begun }
        ensures container { result.container ≡ container }
    {
        Decoder {
            container,
            track,
            course: Course::Begun,
        }
    }

    /// Reads the next item, which [`Decoder::view`] lends then. It is [`Decoder::next`] for callers that cannot hold
    /// the loan of an item.
    ///
    /// # Errors
    /// Those of [`Decoder::next`].
    pub fn step(&mut self) -> Result<(), Fault>
        ensures { Moves C.Container (stage_of self.old) (stage_of self.new) (λ _. held_in self.new) result }
    {
        match self.course {
            Course::Begun => self.advance(),
            Course::Read(_) => self.advance(),
            Course::Over => Ok(()),
            Course::Spent(at) => Err(Fault {
                at,
                why: Why::Spent,
            }),
        }
    }

    /// Reads the next item of a stream that is neither over nor refused.
    fn advance(&mut self) -> Result<(), Fault>
        requires { is_going self.old.course ≡ true }
        ensures { Goes C.Container (stage_of self.old) (stage_of self.new) (λ _. held_in self.new) result }
    {
        match next_item(&mut self.container, &mut self.track) {
            Ok(Some(part)) => {
                self.course = Course::Read(part);
                Ok(())
            }
            Ok(None) => {
                self.course = Course::Over;
                Ok(())
            }
            Err(fault) => {
                self.course = Course::Spent(fault.at);
                Err(fault)
            }
        }
    }

    /// Lends the item that was read last. [`Item::End`] before the first call of [`Decoder::step`], at the end of the
    /// stream, and after an error.
    pub fn view(&self) -> Item<'_>
        ensures { shown_of result ≡ held self.now.course self.now.track }
    {
        match self.course {
            Course::Read(Part::Block) => match &self.track.block {
                Some(block) => Item::Block(block),
                None => unreachable!(),
            },
            Course::Read(Part::Frame) => match &self.track.format {
                Some(format) => Item::Frame(format.view()),
                None => unreachable!(),
            },
            _ => Item::End,
        }
    }

    /// Reads the next item and lends it: a metadata block (RFC 9639, section 8), a frame (section 9), or the end of the
    /// stream. After [`Item::End`] each call returns [`Item::End`].
    ///
    /// The number of samples and the MD5 digest that STREAMINFO states are compared at the end, so a stream is verified
    /// only when [`Item::End`] is returned.
    ///
    /// # Errors
    /// The place, with blocks and frames counted from 0, and the reason. After an error each call returns
    /// [`Why::Spent`] at the place of that error.
    ///
    /// - [`Why::Read`]: the device returned an error.
    /// - [`Why::Memory`]: an allocation failed; never once the last metadata block was read.
    /// - Any other reason: the stream is refused there.
    pub fn next(&mut self) -> Result<Item<'_>, Fault>
        ensures* after { sem 𝓛 (follows_so (the_row C.row C.Container) (the_row C.row C.Container)
            self.entry.ghost_name none (λ _ _. ⊤)
            (λ last. Lends C.Container self.old last result)) }
    {
        self.step()?;
        Ok(self.view())
    }

    /// STREAMINFO: sample rate, channels, bits per sample, and number of samples (RFC 9639, section 8.2). `None` until
    /// it was read. A decoder of [`Decoder::resume`] has it from the start, without the number of samples and the
    /// digest.
    ///
    /// ```
    /// if let Some(info) = decoder.info() {
    ///     println!(rt; "{} Hz", info.rate())?;
    /// }
    /// ```
    pub fn info(&self) -> Option<&StreamInfo>
        ensures { option_copied result ≡ (stand_of (stage_of self.now).track).info }
    {
        match &self.track.format {
            Some(format) => Some(&format.info),
            None => None,
        }
    }

    /// Whether the last metadata block was read, so that only frames and the end are still to come (RFC 9639, section
    /// 8.1).
    ///
    /// ```
    /// for _ in 0..u64::MAX {
    ///     if decoder.is_past_metadata() {
    ///         break;
    ///     }
    ///     if let Item::Block(block) = decoder.next()? {
    ///         note(block);
    ///     }
    /// }
    /// ```
    pub fn is_past_metadata(&self) -> bool
        ensures { result ≡ is_after_blocks (stand_of (stage_of self.now).track).phase }
    {
        self.track.is_past_metadata()
    }

    /// Returns the container, which goes on after the item that was read last. After an error it must not be read
    /// further.
    pub fn into_container(self) -> C
        ensures { result ≡ self.container }
    {
        let Decoder {
            container,
            track: _,
            course: _,
        } = self;
        container
    }
}

impl<R: Source> Decoder<BitReader<R>> {
    /// Makes a decoder of a native stream, whose marker `fLaC` is the next four bytes of the source (RFC 9639, section
    /// 6). It allocates when it reads metadata: for each block, and at STREAMINFO for one frame.
    ///
    /// ```
    /// let file = File::open(&rt, "peaks.flac")?;
    /// let mut decoder = Decoder::new(rt.alloc(), Counted::new(file), Profile::Subset);
    /// let found = peaks(&mut decoder)?;
    /// ```
    pub fn new(alloc: Global, source: R, profile: Profile) -> Decoder<BitReader<R>>
        ensures track { IsAt result.track (opening profile) }
        ensures course { result.course ≡ Course.Begun }
        ensures known { result.container.known ≡ R.known source }
        ensures errors { (result.container.errors ≡ R.errors source) × (result.container.raised ≡ R.raised source) }
        ensures cursor { (lifted result.container).cursor ≡ source_start R.Source source }
        ensures after { result.container.after ≡ without_fence (R.after source) }
        ensures most { result.container.most ≡ 8 * R.most source }
        ensures names { result.container.names ≡ R.names source }
    {
        Decoder::over(BitReader::new(source), Track::opening(alloc, profile))
    }

    /// Returns the source. Bytes that were pulled from it and not decoded yet are lost.
    pub fn into_source(self) -> R
        ensures known { self.container.known ≡ true → R.known result ≡ true }
        ensures errors { (R.errors result ≡ self.container.errors) × (R.raised result ≡ self.container.raised) }
        ensures after { without_fence (R.after result) ≡ without_fence self.container.after }
        ensures names { R.names result ≡ self.container.names }
    {
        self.into_container().into_source()
    }

    /// Does what [`Decoder::resume`] does, and returns the source with an error.
    ///
    /// # Errors
    /// Those of [`Decoder::resume`]. Nothing was read from the source.
    pub fn resume_returning(
        alloc: Global,
        source: R,
        info: &StreamInfo,
        profile: Profile,
    ) -> Result<Decoder<BitReader<R>>, Refused<R>>
        ensures track { IfOk result (λ d. IsAt d.track (resumed profile info.now)) }
        ensures course { IfOk result (λ d. d.course ≡ Course.Begun) }
        ensures known { IfOk result (λ d. d.container.known ≡ R.known source) }
        ensures errors { IfOk result (λ d. (d.container.errors ≡ R.errors source)
            × (d.container.raised ≡ R.raised source)) }
        ensures cursor { IfOk result (λ d. (lifted d.container).cursor ≡ source_start R.Source source) }
        ensures after { IfOk result (λ d. d.container.after ≡ without_fence (R.after source)) }
        ensures most { IfOk result (λ d. d.container.most ≡ 8 * R.most source) }
        ensures names { IfOk result (λ d. d.container.names ≡ R.names source) }
        ensures memory { IfErr result (λ x. x.fault ≡ record { at = Place.Marker; why = Why.Memory }) }
        ensures left { IfErr result (λ x. x.left ≡ source) }
    {
        match Track::resumed(alloc, profile, info.without_totals()) {
            Ok(track) => Ok(Decoder::over(BitReader::new(source), track)),
            Err(why) => Err(Refused {
                fault: Fault {
                    at: Place::Marker,
                    why,
                },
                left: source,
            }),
        }
    }
}

impl<R: Source + Drop> Decoder<BitReader<R>> {
    /// Makes a decoder that begins at the first byte of a frame, in a stream with this STREAMINFO. The offset of a seek
    /// point says where such a byte is (RFC 9639, section 8.5). It allocates for one frame.
    ///
    /// Frames are counted from 0 in its faults. The number of samples and the digest are not compared at the end, and
    /// [`Decoder::info`] states neither.
    ///
    /// ```
    /// let mut decoder = Decoder::resume(rt.alloc(), source, &info, Profile::Subset)?;
    /// ```
    ///
    /// # Errors
    /// [`Why::Memory`] at [`Place::Marker`] if an allocation fails.
    pub fn resume(
        alloc: Global,
        source: R,
        info: &StreamInfo,
        profile: Profile,
    ) -> Result<Decoder<BitReader<R>>, Fault>
        ensures track { IfOk result (λ d. IsAt d.track (resumed profile info.now)) }
        ensures course { IfOk result (λ d. d.course ≡ Course.Begun) }
        ensures known { IfOk result (λ d. d.container.known ≡ R.known source) }
        ensures errors { IfOk result (λ d. (d.container.errors ≡ R.errors source)
            × (d.container.raised ≡ R.raised source)) }
        ensures cursor { IfOk result (λ d. (lifted d.container).cursor ≡ source_start R.Source source) }
        ensures after { IfOk result (λ d. d.container.after ≡ without_fence (R.after source)) }
        ensures most { IfOk result (λ d. d.container.most ≡ 8 * R.most source) }
        ensures names { IfOk result (λ d. d.container.names ≡ R.names source) }
        ensures memory { IfErr result (λ f. f ≡ record { at = Place.Marker; why = Why.Memory }) }
    {
        match Decoder::resume_returning(alloc, source, info, profile) {
            Ok(decoder) => Ok(decoder),
            Err(refused) => Err(refused.fault),
        }
    }
}

/// The bytes from an offset on; none if there are not as many. It is for streams that are all in memory, and are read
/// from a frame on, as by [`Decoder::resume`](crate::Decoder::resume).
///
/// ```
/// let source = Memory::new(bytes_from(&stream, offset));
/// let mut decoder = Decoder::resume(rt.alloc(), source, &info, Profile::Subset)?;
/// ```
pub fn bytes_from(bytes: &[u8], offset: u64) -> &[u8]
    ensures { result.now ≡ drop offset bytes.now }
{
    if offset < bytes.len() as u64 {
        &bytes[offset as usize..]
    } else {
        &bytes[bytes.len()..]
    }
}
