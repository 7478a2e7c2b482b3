//! Whether streams one after another have one format.

ghost use Rattle.std.specs.Prelude.{◌≡◌, IfSome};
ghost use Rattle.flac_cli.specs.ChainFormats.{stated_by, TakesFormat};

use flac_meta::{Block, StreamInfo};

/// What STREAMINFO states of a format (RFC 9639, section 8.2).
#[derive(Clone, Copy)]
pub(crate) struct StreamFormat {
    /// Sample rate in Hz.
    rate: u32,
    channels: u8,
    /// Bits per sample.
    depth: u8,
}

/// The format that STREAMINFO states.
fn stated_by(info: &StreamInfo) -> StreamFormat
    ensures { result ≡ stated_by info.now }
{
    StreamFormat {
        rate: info.rate(),
        channels: info.channels(),
        depth: info.depth(),
    }
}

/// The format of streams after a block of one of them; `None` if that is the STREAMINFO of another format.
pub(crate) fn format_after(
    format: Option<StreamFormat>,
    block: &Block,
) -> Option<Option<StreamFormat>>
    ensures { IfSome result (TakesFormat format block.now) }
{
    let Block::StreamInfo(info) = block else {
        return Some(format);
    };
    let now = stated_by(info);
    match format {
        Some(first) => {
            if first.rate == now.rate
                && first.channels == now.channels
                && first.depth == now.depth
            {
                Some(Some(now))
            } else {
                None
            }
        }
        None => Some(Some(now)),
    }
}
