//! The MD5 digest of samples (RFC 9639, section 8.2).

ghost use Rattle.std.specs.Prelude.{◌≡◌, ◌≤◌, ◌+◌, length, map};
ghost use Rattle.flac_native.specs.Message.{rows_bytes, frame_rows, sample_width, Feeds};
ghost use Rattle.md5.specs.Md5.{md5};
ghost use Rattle.flac_frame.specs.Viewed.{frame_of};
ghost use Rattle.flac_frame.specs.Audio.{samples_each};
ghost use Rattle.flac_native.specs.Given.{sound_message};

use crate::sample_bytes::{Channels, Pair, Rows, put_rows_in, sample_width};
use flac_frame::{Audio, FrameView};
use md5::{Digest, Md5};

/// The most bytes that are added to the digest at once.
const CHUNK: usize = 4096;

/// How many inter-channel samples fit into these bytes: each has at most 8 samples of 4 bytes. If all are there, they
/// are whole blocks of the digest.
const ROWS: usize = 128;

/// Adds `len` samples of each channel, from `start` on, to the input of a digest, interleaved, each in its lowest
/// `width` bytes.
#[inline(always)]
#[tactic(auto, unfolding(crate::specs::Message::rows_bytes), using(crate::proofs::Messages::rows_split))]
pub(crate) fn feed_rows<C: Channels>(
    hasher: &mut Md5,
    samples: &C,
    channels: usize,
    start: usize,
    len: usize,
    width: usize,
)
    requires channels { channels ≡ length (C.lists samples.now) }
    requires few { channels ≤ 8 }
    requires width { width ≤ 4 }
    requires rows { start + len ≤ C.size samples.now }
    requires end { start + len ≤ usize.MAX }
    ensures { Feeds hasher.old (rows_bytes width (C.lists samples.now) len start) hasher.new }
{
    let mut chunk = [0u8; CHUNK];
    let mut fed = 0;
    while fed < len {
        let count = (len - fed).min(ROWS);
        let end = put_rows_in(samples, channels, width, start + fed, count, &mut chunk);
        hasher.update(&chunk[..end]);
        fed += count;
    }
}

/// Adds all samples of a frame to the input of a digest.
pub(crate) fn feed(hasher: &mut Md5, view: &FrameView<'_>, width: usize)
    requires { width ≤ 4 }
    ensures { Feeds hasher.old (frame_rows width (frame_of view.now)) hasher.new }
{
    let view = *view;
    feed_rows(hasher, &view, view.channels(), 0, view.len(), width);
}

/// Adds `size` samples of each channel, from index `start` on, to the input of a digest, interleaved, as STREAMINFO's
/// digest has all samples (RFC 9639, section 8.2).
pub(crate) fn feed_block(hasher: &mut Md5, audio: &Audio, start: usize, size: usize)
    requires { start + size ≤ samples_each audio.now.channels }
    ensures { Feeds hasher.old (rows_bytes (sample_width audio.now.bits) audio.now.channels size start) hasher.new }
{
    let width = sample_width(audio.bits());
    let channels = audio.channels();
    if channels.len() == 2 {
        let left = audio.part(0, start, size);
        let right = audio.part(1, start, size);
        let pair = Pair { left, right };
        feed_rows(hasher, &pair, 2, 0, size, width);
        return;
    }
    feed_rows(hasher, audio, channels.len(), start, size, width);
}

/// Adds the first `len` samples of each channel of a block to the input of a digest, interleaved, each in its lowest
/// `width` bytes (1 to 4), as the digest of STREAMINFO has all samples (RFC 9639, section 8.2). A block has one slice
/// for each of at most 8 channels; a sample that a slice does not have counts as 0.
pub fn feed_slices(hasher: &mut Md5, block: &[&[i32]], len: usize, width: usize)
    requires few { length block.now ≤ 8 }
    requires width { width ≤ 4 }
    ensures { Feeds hasher.old (rows_bytes width (map (λ c. c.now) block.now) len 0) hasher.new }
{
    let rows = Rows { block, len };
    feed_rows(hasher, &rows, block.len(), 0, len, width);
}

/// The digest of all samples, which STREAMINFO states (RFC 9639, section 8.2).
#[tactic(auto, unfolding(crate::specs::Given::sound_message))]
pub(crate) fn digest_of(audio: &Audio) -> [u8; 16]
    ensures { result ≡ md5 (sound_message audio.now) }
{
    let mut hasher = Md5::new();
    feed_block(&mut hasher, audio, 0, audio.len());
    hasher.finalize()
}
