//! How STREAMINFO is read and written (RFC 9639, section 8.2).

ghost use Rattle.std.specs.Prelude.{IfOk, ◌<◌, ◌≤◌, ◌^◌};
ghost use Rattle.flac_meta.specs.inner.Sizes.{sizes_of, FitsFields};
ghost use Rattle.flac_meta.specs.Info.{info_sizes, info_format, stream_info};
ghost use Rattle.flac_bits.specs.Reading.{Reads, Call};
ghost use Rattle.flac_bits.specs.Written.{Writes};
ghost use Rattle.flac_meta.specs.Spelling.{info_spelling};

use crate::fields::Field;
use crate::put::put_fields;
use flac_bits::{BitReader, BitWriter, Source, Target, Why, read_bytes};
use flac_info::StreamInfo;

/// Smallest and largest block size in samples, smallest and largest frame size in bytes.
#[derive(Clone, Copy)]
struct Sizes {
    least_block: u16,
    greatest_block: u16,
    least_frame: u32,
    greatest_frame: u32,
}

/// Reads the sizes of blocks and frames.
#[tactic(auto, unfolding(crate::specs::Info::info_sizes))]
fn read_sizes<R: Source>(bits: &mut BitReader<R>) -> Result<Sizes, Why>
    ensures fit { IfOk result (λ s. (s.least_frame < 2 ^ 24) × (s.greatest_frame < 2 ^ 24)) }
    ensures reading { Call 0 (Reads sizes_of info_sizes) bits.old bits.new result }
{
    let least_block = bits.take(16)? as u16;
    let greatest_block = bits.take(16)? as u16;
    let least_frame = bits.take(24)? as u32;
    let greatest_frame = bits.take(24)? as u32;
    Ok(Sizes {
        least_block,
        greatest_block,
        least_frame,
        greatest_frame,
    })
}

/// Sample rate in Hz, channels, bits per sample, samples of each channel.
#[derive(Clone, Copy)]
struct Format {
    rate: u32,
    channels: u8,
    depth: u8,
    total: u64,
}

/// Reads the format and the number of samples.
#[tactic(auto, unfolding(crate::specs::Info::info_format))]
fn read_format<R: Source>(bits: &mut BitReader<R>) -> Result<Format, Why>
    ensures fit { IfOk result FitsFields }
    ensures reading { Call 0 (Reads (λ f. (f.rate, f.channels, f.depth, f.total)) info_format)
        bits.old bits.new result }
{
    let rate = bits.take(20)? as u32;
    let channels = bits.take(3)? as u8 + 1;
    let depth = bits.take(5)? as u8 + 1;
    let total = bits.take(36)?;
    Ok(Format {
        rate,
        channels,
        depth,
        total,
    })
}

/// Reads the content of a STREAMINFO block (RFC 9639, section 8.2).
#[tactic(auto, unfolding(crate::specs::Info::stream_info))]
pub(crate) fn read_stream_info<R: Source>(bits: &mut BitReader<R>) -> Result<StreamInfo, Why>
    ensures reading { Call 0 (Reads (λ i. i) stream_info) bits.old bits.new result }
{
    let sizes = read_sizes(bits)?;
    let format = read_format(bits)?;
    let mut digest = [0u8; 16];
    read_bytes(bits, &mut digest)?;
    StreamInfo::new(
        sizes.least_block,
        sizes.greatest_block,
        sizes.least_frame,
        sizes.greatest_frame,
        format.rate,
        format.channels,
        format.depth,
        format.total,
        digest,
    )
}

/// Writes the content of STREAMINFO (RFC 9639, section 8.2).
#[tactic(auto, unfolding(crate::specs::Spelling::info_spelling))]
pub(crate) fn put_info<W: Target>(writer: &mut BitWriter<W>, info: &StreamInfo) -> Result<(), Why>
    ensures { Writes (info_spelling info.now) writer.old writer.new result }
{
    put_fields(
        writer,
        &[
            Field {
                bits: 16,
                value: info.least_block() as u64,
            },
            Field {
                bits: 16,
                value: info.greatest_block() as u64,
            },
            Field {
                bits: 24,
                value: info.least_frame() as u64,
            },
            Field {
                bits: 24,
                value: info.greatest_frame() as u64,
            },
            Field {
                bits: 20,
                value: info.rate() as u64,
            },
            Field {
                bits: 3,
                value: (info.channels() - 1) as u64,
            },
            Field {
                bits: 5,
                value: (info.depth() - 1) as u64,
            },
            Field {
                bits: 36,
                value: info.total(),
            },
        ],
    )?;
    writer.put_bytes(&info.digest())
}
