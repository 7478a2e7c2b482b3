//! Which metadata blocks a reader keeps.

ghost use Rattle.std.specs.Prelude.{◌≡◌, ◌++◌, [], ◌∷◌, filter, OnOk, IfErr};
ghost use Rattle.flac_reader.specs.Kept.{keeps};

use flac_native::{Block, Why};

/// Which metadata blocks a reader keeps (RFC 9639, section 8.1).
#[derive(Clone, Copy, Debug, PartialEq, Eq)]
pub enum Keep {
    /// All of them. A seek table is needed if samples are to be sought quickly.
    All,
    /// STREAMINFO and the comments only: no picture is copied.
    Tags,
}

/// Whether a block is kept.
fn is_kept(keep: Keep, block: &Block) -> bool
    ensures { result ≡ keeps keep block.now }
{
    match keep {
        Keep::All => true,
        Keep::Tags => matches!(block, Block::StreamInfo(_) | Block::VorbisComment(_)),
    }
}

/// Adds a copy of the block, if it is kept. Its only error is `Memory`: an allocation failed.
pub(crate) fn keep_block(kept: &mut Vec<Block>, keep: Keep, block: &Block) -> Result<(), Why>
    ensures kept { OnOk result (kept.new.items ≡ kept.old.items ++ filter (keeps keep) (block.now ∷ [])) }
    ensures memory { IfErr result (λ e. e ≡ Why.Memory) }
{
    if is_kept(keep, block) {
        let copy = block.clone()?;
        kept.push(copy)?;
    }
    Ok(())
}
