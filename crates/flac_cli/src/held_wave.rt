//! What is held of a WAV file while its stream is decoded.

ghost use Rattle.std.specs.Prelude.{◌≡◌, ◌<◌, ◌≤◌, ◌%◌, ◌+◌, ℕ, length, map, OnOk};
ghost use Rattle.flac_wave.specs.Kept.{bits_after, begins_file};
ghost use Rattle.flac_wave.specs.Plain.{CanBeWritten};
ghost use Rattle.flac_wave.specs.Wave.{is_head};
ghost use Rattle.flac_cli.specs.Outcomes.{text_of_kept};
ghost use Rattle.flac_cli.specs.Waves.{is_riff, has_room, plain_with};
ghost use Rattle.flac_cli.specs.inner.Waving.{Held, nothing_held, with_piece, with_plain, with_info, with_speakers, with_block, with_samples, with_begun, is_kept, held_fault, held_wave_width, front_pieces, back_pieces};

use crate::speakers::mask_in;
use byteorder::{ByteOrder, LittleEndian};
use flac_meta::{Block, StreamInfo};
use flac_native::sample_width;
use flac_wave::{WaveFormat, begins_wave, plain_pieces};
use std::alloc::{AllocError, Global};
use std::marker::Model;

/// Why there is no WAV file of a stream's samples.
#[derive(Clone, Copy)]
pub(crate) enum KeptFault {
    /// The blocks of the stream keep one whose samples have no room for the stream's.
    OtherBits,
}

impl KeptFault {
    /// The number and the name of the reason, as `72 OtherBits`.
    pub(crate) fn as_str(self) -> &'static str
        ensures { result.now ≡ text_of_kept self }
    {
        match self {
            KeptFault::OtherBits => "72 OtherBits",
        }
    }
}

/// The pieces of a WAV file that came, and what is known of its samples.
#[derive(Drop)]
pub(crate) struct HeldWave {
    pieces: Vec<Vec<u8>>,
    /// How many pieces there are up to the header of the samples; 0 before it came.
    head: usize,
    /// The pieces of a plain file, which is written if the others make none; none before STREAMINFO came.
    made: Vec<Vec<u8>>,
    /// The format of that file, and how many samples each of its channels has.
    form: WaveFormat,
    total: u64,
    /// How many of them come before the samples.
    cut: usize,
    depth: u8,
    begun: bool,
    odd: usize,
    /// The bits of a sample of the file, as the piece `fmt ` states them; 0 before it.
    bits: u16,
}

impl Model for HeldWave {
    ghost use Rattle.std.specs.Prelude.{◌≤◌, ◌<◌, length, map};
    ghost use Rattle.flac_wave.specs.Plain.{CanBeWritten};
    ghost use Rattle.flac_cli.specs.inner.Waving.{Held};

    ghost Value = { Held };

    ghost view = { λ h. record {
      pieces = map (λ p. p.items) h.pieces.items;
      head = h.head;
      bits = h.bits;
      plain = record { form = h.form; total = h.total; made = map (λ p. p.items) h.made.items };
      cut = h.cut;
      depth = h.depth;
      begun = h.begun;
      odd = h.odd;
    } };

    ghost invariant = { λ h. (h.depth ≤ 32) × (h.odd < 2) × (h.head ≤ length h.pieces.items)
        × (h.cut ≤ length h.made.items) × CanBeWritten h.form × (h.total < 68719476736) };
}

/// Whether a piece is the header of the samples, alone.
fn is_head(piece: &[u8]) -> bool
    ensures { result ≡ is_head piece.now }
{
    piece.len() == 8 && LittleEndian::read_u32(piece) == 0x6174_6164
}

/// Whether the identifier of an application is `riff`.
pub(crate) fn is_riff(id: &[u8]) -> bool
    requires { 4 ≤ length id.now }
    ensures { result ≡ is_riff id.now }
{
    LittleEndian::read_u32(id) == 0x6666_6972
}

/// The bits of a sample that are known after a piece: a chunk `fmt ` states them.
fn bits_after(bits: u16, piece: &[u8]) -> u16
    ensures { result ≡ bits_after bits piece.now }
{
    if piece.len() >= 24 && LittleEndian::read_u32(piece) == 0x2074_6D66 {
        return LittleEndian::read_u16(&piece[22..]);
    }
    bits
}

/// Whether the first piece begins as a WAV file does.
fn begins_file(pieces: &[Vec<u8>]) -> bool
    ensures { result ≡ begins_file (map (λ p. p.items) pieces.now) }
{
    match pieces.first() {
        Some(piece) => begins_wave(piece.as_slice()),
        None => false,
    }
}

/// Whether a sample of this depth, of 1 bit at least, has room in n bytes, of which there are 4 at most.
fn has_room(wide: u32, depth: u32) -> bool
    ensures { result ≡ has_room wide depth }
{
    wide < 5 && depth > 0 && depth <= 8 * wide
}

impl HeldWave {
    /// Nothing came.
    pub(crate) fn new(alloc: Global) -> HeldWave
        ensures { result ≡ nothing_held }
    {
        HeldWave {
            pieces: Vec::new(alloc),
            head: 0,
            made: Vec::new(alloc),
            form: WaveFormat::plain(1, 1, 8),
            total: 0,
            cut: 0,
            depth: 0,
            begun: false,
            odd: 0,
            bits: 0,
        }
    }

    /// Adds a piece.
    fn add(&mut self, alloc: Global, piece: &[u8]) -> Result<(), AllocError>
        ensures ok { OnOk result (self.new ≡ with_piece self.old piece.now) }
    {
        let copy = Vec::from_slice(alloc, piece)?;
        self.pieces.push(copy)?;
        if self.head == 0 {
            if is_head(piece) {
                self.head = self.pieces.len();
            } else {
                self.bits = bits_after(self.bits, piece);
            }
        }
        Ok(())
    }

    /// Makes the pieces of a plain file.
    fn make(
        &mut self,
        alloc: Global,
        form: WaveFormat,
        total: u64,
        depth: u8,
    ) -> Result<(), AllocError>
        requires form { CanBeWritten form }
        requires few { total < 68719476736 }
        requires depth { depth ≤ 32 }
        ensures ok { OnOk result (self.new ≡ with_plain self.old (plain_with form total) depth) }
    {
        self.made = plain_pieces(alloc, &form, total)?;
        self.cut = if total == 0 {
            self.made.len().saturating_sub(1)
        } else {
            self.made.len()
        };
        self.form = form;
        self.total = total;
        self.depth = depth;
        Ok(())
    }

    /// Takes the format and the number of samples that a plain file has.
    fn plan(&mut self, alloc: Global, info: &StreamInfo) -> Result<(), AllocError>
        ensures ok { OnOk result (self.new ≡
            with_info self.old info.now.rate info.now.channels info.now.depth info.now.total) }
    {
        let format = WaveFormat::plain(
            info.rate(),
            u32::from(info.channels()),
            u32::from(info.depth()),
        );
        self.make(alloc, format, info.total(), info.depth())
    }

    /// Takes the speakers that a comment states.
    #[tactic(auto, using(crate::proofs::Waved::speakers_written))]
    fn name_speakers(&mut self, alloc: Global, mask: u32) -> Result<(), AllocError>
        ensures ok { OnOk result (self.new ≡ with_speakers self.old (Some mask)) }
    {
        let format = WaveFormat {
            mask: Some(mask),
            ..self.form
        };
        self.make(alloc, format, self.total, self.depth)
    }

    /// Takes what a block has of the file.
    pub(crate) fn take_block(&mut self, alloc: Global, block: &Block) -> Result<(), AllocError>
        ensures ok { OnOk result (self.new ≡ with_block self.old block.now) }
    {
        match block {
            Block::StreamInfo(info) => self.plan(alloc, info),
            Block::VorbisComment(comments) => match mask_in(comments) {
                Some(mask) => self.name_speakers(alloc, mask),
                None => Ok(()),
            },
            Block::Application { id, bytes } => {
                if is_riff(id) {
                    return self.add(alloc, bytes.as_slice());
                }
                Ok(())
            }
            _ => Ok(()),
        }
    }

    /// Samples of this parity came.
    pub(crate) fn count(&mut self, odd: usize)
        requires { odd < 2 }
        ensures { (n : ℕ) → odd ≡ (self.old.odd + n) % 2 → self.new ≡ with_samples self.old n }
    {
        self.begun = true;
        self.odd = odd;
    }

    /// Samples came that are not written.
    pub(crate) fn begin(&mut self)
        ensures { self.new ≡ with_begun self.old }
    {
        self.begun = true;
    }

    /// Whether the pieces make a WAV file again.
    fn is_kept(&self) -> bool
        ensures { result ≡ is_kept self.now }
    {
        self.head > 0 && begins_file(self.pieces.as_slice()) && self.bits > 0
    }

    /// Why there is no WAV file of the stream's samples: those of the file that is kept have no room for them.
    pub(crate) fn fault(&self) -> Option<KeptFault>
        ensures value { result ≡ held_fault self.now }
        ensures few { self.now.depth ≤ 32 }
    {
        if !self.is_kept() || has_room((u32::from(self.bits) + 7) / 8, u32::from(self.depth)) {
            return None;
        }
        Some(KeptFault::OtherBits)
    }

    /// How many bytes a sample of the file has.
    pub(crate) fn wide(&self) -> usize
        ensures { result ≡ held_wave_width self.now }
    {
        if self.is_kept() {
            return (usize::from(self.bits) + 7) / 8;
        }
        sample_width(u32::from(self.depth))
    }

    /// Whether samples came.
    pub(crate) fn begun(&self) -> bool
        ensures { result ≡ self.now.begun }
    {
        self.begun
    }

    /// The bits of a sample.
    pub(crate) fn depth(&self) -> u8
        ensures value { result ≡ self.now.depth }
        ensures few { result ≤ 32 }
    {
        self.depth
    }

    /// Whether the bytes of the samples are of odd number.
    pub(crate) fn odd(&self) -> usize
        ensures value { result ≡ self.now.odd }
        ensures few { result < 2 }
    {
        self.odd
    }

    /// The pieces before the samples.
    pub(crate) fn front(&self) -> &[Vec<u8>]
        ensures { map (λ p. p.items) result.now ≡ front_pieces self.now }
    {
        if self.is_kept() {
            return &self.pieces[..self.head];
        }
        &self.made[..self.cut]
    }

    /// The pieces after the samples.
    pub(crate) fn back(&self) -> &[Vec<u8>]
        ensures { map (λ p. p.items) result.now ≡ back_pieces self.now }
    {
        if self.is_kept() {
            return &self.pieces[self.head..];
        }
        &self.made[self.cut..]
    }
}
