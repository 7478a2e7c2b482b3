//! Readers of native streams at the frame that holds a sample. The frames of an Ogg stream are not sought.

ghost use Rattle.std.specs.Prelude.{◌≡◌, IfOk, IfErr, drop, true, is_some, []};
ghost use Rattle.flac_native.specs.Giving.{stage_of};
ghost use Rattle.flac_reader.specs.Kept.{first_points};
ghost use Rattle.flac_reader.specs.Coming.{IsPast};
ghost use Rattle.flac_reader.specs.Opening.{IsOver, IsOverSource};
ghost use Rattle.flac_reader.specs.Moved.{FindsDevice, RefusesDevice};
ghost use Rattle.flac_reader.specs.Seeking.{search_start, point_offset, search_offset, IsNumbered, MemoryAtEnds, no_memory, SeeksBytes, SeeksStream, SoughtSource, RefusesSeekSource};

use crate::head::Head;
use crate::reader::Reader;
use crate::returned::{Returned, move_to};
use crate::seeking::find_frame;
use flac_bits::BitReader;
use flac_native::{
    Counted, Decoder, Fault, Memory, Place, Profile, Refused, Source, Why, bytes_from,
};
use std::alloc::Global;
use std::io::{Read, Seek};

impl<R: Source> Reader<BitReader<R>> {
    /// How many bytes a native stream has before its first frame: those of the marker and of the metadata blocks (RFC
    /// 9639, section 6). The offsets of a seek table count from there.
    ///
    /// ```
    /// let frames = &stream[reader.frames_start() as usize..];
    /// ```
    pub fn frames_start(&self) -> u64
        ensures { result ≡ self.now.start }
    {
        self.start
    }

    /// Where the search for a sample begins in a native stream, in bytes from its first byte: at the last seek point at
    /// or before the sample, or at the first frame if there is none (RFC 9639, section 8.5). It stops at 2^64 - 1.
    ///
    /// ```
    /// file.seek(SeekFrom::Start(reader.seek_offset(44100)))?;
    /// ```
    pub fn seek_offset(&self, sample: u64) -> u64
        ensures { result ≡ search_start self.now.start sample (first_points self.now.blocks.items) }
    {
        let offset = self.offset_before(sample);
        self.start.saturating_add(offset)
    }
}

impl<R: Source + Drop> Reader<BitReader<R>> {
    /// Makes a reader of the same stream whose next frame holds this sample, counted from 0; if no frame holds it, the
    /// reader is at the end. `frames` are the bytes of a native stream from its first frame on
    /// ([`Reader::frames_start`]).
    ///
    /// The search begins at the last seek point at or before the sample, or at the first frame if there is none (RFC
    /// 9639, section 8.5): for that, the seek table must have been kept ([`Keep::All`](crate::Keep::All)). A frame
    /// holds the samples from the number in its header on. If the header has the number of the frame, each frame before
    /// it counts as many samples as the largest block size of STREAMINFO (section 9.1.5).
    ///
    /// The frames are read in `profile`, whatever the profile that the reader was opened with: in [`Profile::Subset`]
    /// those outside the streamable subset are refused with [`Why::NotSubset`] (section 7).
    ///
    /// ```
    /// let start = reader.frames_start() as usize;
    /// let mut reader = reader.seek(rt.alloc(), &stream[start..], Profile::Subset, 44100)?;
    /// ```
    ///
    /// # Errors
    /// Those of [`Decoder::resume`] and [`Decoder::next`]. Frames are counted from the seek point on.
    pub fn seek<'a>(
        self,
        alloc: Global,
        frames: &'a [u8],
        profile: Profile,
        sample: u64,
    ) -> Result<Reader<BitReader<Memory<'a>>>, Fault>
        ensures blocks { IfOk result (λ r. (r.blocks ≡ self.blocks) × (r.info ≡ self.info) × (r.start ≡ self.start)) }
        ensures ahead { IfOk result (λ r. r.ahead ≡ true) }
        ensures first { IfOk result (λ r. IsNumbered self.info r) }
        ensures source { IfOk result (λ r. IsOver true 0 0 [] r) }
        // The last metadata block was read: no `next` of it is out of memory.
        ensures past { IfOk result (λ r. IsPast (stage_of r.decoder)) }
        // Memory runs out before a frame is read, or after as many frames as can be counted.
        ensures memory { IfErr result MemoryAtEnds }
        // Of the frames from that point on, the first that holds the sample comes next, and then all others; refused
        // only as the bytes are, with no such frame before.
        ensures found { SeeksBytes profile self.info sample (drop (point_offset self sample) frames.now) result }
    {
        let offset = self.offset_before(sample);
        let source = Memory::new(bytes_from(frames, offset));
        match self.seek_from(alloc, source, profile, sample) {
            Ok(reader) => Ok(reader),
            Err(refused) => Err(refused.fault),
        }
    }

    /// Does what [`Reader::seek`] does. `stream` has all bytes of the native stream.
    ///
    /// ```
    /// let reader = open_native(rt.alloc(), Memory::new(&stream), Profile::Subset, Keep::All)?;
    /// let mut reader = reader.seek_in(rt.alloc(), &stream, Profile::Subset, 44100)?;
    /// ```
    ///
    /// # Errors
    /// Those of [`Reader::seek`].
    pub fn seek_in<'a>(
        self,
        alloc: Global,
        stream: &'a [u8],
        profile: Profile,
        sample: u64,
    ) -> Result<Reader<BitReader<Memory<'a>>>, Fault>
        ensures blocks { IfOk result (λ r. (r.blocks ≡ self.blocks) × (r.info ≡ self.info) × (r.start ≡ self.start)) }
        ensures ahead { IfOk result (λ r. r.ahead ≡ true) }
        ensures first { IfOk result (λ r. IsNumbered self.info r) }
        ensures source { IfOk result (λ r. IsOver true 0 0 [] r) }
        // The last metadata block was read: no `next` of it is out of memory.
        ensures past { IfOk result (λ r. IsPast (stage_of r.decoder)) }
        // Memory runs out before a frame is read, or after as many frames as can be counted.
        ensures memory { IfErr result MemoryAtEnds }
        // Of the frames from that point on, the first that holds the sample comes next, and then all others; refused
        // only as the bytes are, with no such frame before.
        ensures found { SeeksBytes profile self.info sample (drop (search_offset self sample) stream.now) result }
        // If the bytes are a stream with some frames after that point, exactly these are searched, and the rest of them
        // is given up to the end of the stream.
        ensures whole { SeeksStream profile self.info sample stream.now (search_offset self sample) result }
    {
        let offset = self.seek_offset(sample);
        let source = Memory::new(bytes_from(stream, offset));
        match self.seek_from(alloc, source, profile, sample) {
            Ok(reader) => Ok(reader),
            Err(refused) => Err(refused.fault),
        }
    }

    /// Does what [`Reader::seek`] does. The source gives the bytes of the native stream from [`Reader::seek_offset`]
    /// on, such as a file that was moved there.
    ///
    /// ```
    /// file.seek(SeekFrom::Start(reader.seek_offset(44100)))?;
    /// let mut reader = reader.seek_from(rt.alloc(), Counted::new(file), Profile::Subset, 44100)?;
    /// ```
    ///
    /// # Errors
    /// Those of [`Reader::seek`]. The source is returned with them.
    pub fn seek_from<S: Source + Drop>(
        self,
        alloc: Global,
        source: S,
        profile: Profile,
        sample: u64,
    ) -> Result<Reader<BitReader<S>>, Refused<S>>
        ensures blocks { IfOk result (λ r. (r.blocks ≡ self.blocks) × (r.info ≡ self.info) × (r.start ≡ self.start)) }
        ensures ahead { IfOk result (λ r. r.ahead ≡ true) }
        ensures first { IfOk result (λ r. IsNumbered self.info r) }
        ensures source { IfOk result (λ r. IsOverSource S.Source source r) }
        // The last metadata block was read: no `next` of it is out of memory.
        ensures past { IfOk result (λ r. IsPast (stage_of r.decoder)) }
        // Memory runs out before a frame is read, or after as many frames as can be counted.
        ensures memory { IfErr result (λ x. MemoryAtEnds x.fault) }
        // Of the frames of the source, the first that holds the sample comes next, and then all others.
        ensures found { IfOk result (λ r. SoughtSource S.Source profile self.info sample source r) }
        // Refused only as the input is, with no such frame before; or because memory runs out, or because of an error
        // of the source, which the source that is returned has counted.
        ensures refused { IfErr result (λ x. RefusesSeekSource S.Source profile self.info sample source x) }
        ensures names { IfErr result (λ x. S.names x.left ≡ S.names source) }
        // If memory ran out, the bytes are still known if they were; before anything was read, the source is as it was.
        ensures known { IfErr result (λ x. x.fault.why ≡ Why.Memory → S.known source ≡ true → S.known x.left ≡ true) }
        ensures unread { IfErr result (λ x. x.fault ≡ no_memory → x.left ≡ source) }
    {
        let Reader {
            decoder: _,
            info,
            blocks,
            ahead: _,
            start,
            first: _,
            after: _,
        } = self;
        let mut decoder = match Decoder::resume_returning(alloc, source, &info, profile) {
            Ok(decoder) => decoder,
            Err(refused) => return Err(refused),
        };
        match find_frame(&mut decoder, &info, sample) {
            Ok(first) => {
                let head = Head { info, start };
                Ok(Reader::before_frame(decoder, head, blocks, first))
            }
            Err(fault) => {
                let left = decoder.into_source();
                Err(Refused { fault, left })
            }
        }
    }

    /// Does what [`Reader::seek`] does. The device, such as a file, can be moved, and its first byte is that of the
    /// native stream.
    ///
    /// ```
    /// let file = File::open(&rt, "music.flac")?;
    /// let reader = open_native(rt.alloc(), Counted::new(&file), Profile::Subset, Keep::All)?;
    /// let mut reader = reader.seek_file(rt.alloc(), &file, Profile::Subset, 44100)?;
    /// ```
    ///
    /// # Errors
    /// [`Why::Read`] at frame 0 if the device cannot be moved. Else those of [`Reader::seek`]. The device is returned
    /// with them, with its last error, of moving it or of reading it ([`Returned::last_error`]).
    pub fn seek_file<T: Read + Seek + Drop>(
        self,
        alloc: Global,
        device: T,
        profile: Profile,
        sample: u64,
    ) -> Result<Reader<BitReader<Counted<T>>>, Refused<Returned<T>>>
        ensures blocks { IfOk result (λ r. (r.blocks ≡ self.blocks) × (r.info ≡ self.info) × (r.start ≡ self.start)) }
        ensures ahead { IfOk result (λ r. r.ahead ≡ true) }
        ensures first { IfOk result (λ r. IsNumbered self.info r) }
        // The last metadata block was read: no `next` of it is out of memory.
        ensures past { IfOk result (λ r. IsPast (stage_of r.decoder)) }
        // Memory runs out before a frame is read, or after as many frames as can be counted.
        ensures memory { IfErr result (λ x. MemoryAtEnds x.fault) }
        // Of the frames of the device from that point on, the first that holds the sample comes next, and then all
        // others.
        ensures found { IfOk result (λ r. FindsDevice T.Seek T.Read self device profile sample r) }
        // Refused only if the device could not be moved, and is returned where it was; or as its bytes from there on
        // are, with no such frame before; or because memory runs out, or because of an error of the device.
        ensures refused { IfErr result (λ x. RefusesDevice T.Seek T.Read self device profile sample x) }
        // For an error of the device only if it returned one, in moving or in reading.
        ensures asked { IfErr result (λ x. x.fault.why ≡ Why.Read → is_some x.left.last ≡ true) }
    {
        let offset = self.seek_offset(sample);
        let device = match move_to(device, offset) {
            Ok(device) => device,
            Err(left) => {
                let fault = Fault {
                    at: Place::Frame(0),
                    why: Why::Read,
                };
                return Err(Refused { fault, left });
            }
        };
        match self.seek_from(alloc, Counted::new(device), profile, sample) {
            Ok(reader) => Ok(reader),
            Err(refused) => {
                let fault = refused.fault;
                let left = Returned::after_reading(refused.left);
                Err(Refused { fault, left })
            }
        }
    }
}
