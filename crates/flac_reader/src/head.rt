//! Reads the metadata of a stream.

ghost use Rattle.std.specs.Prelude.{◌≡◌, ◌≢◌, ◌⊎◌, [], Some, true, false, OnOk, IfOk, IfErr};
ghost use Rattle.flac_native.specs.Track.{is_going};
ghost use Rattle.flac_native.specs.Giving.{stage_of};
ghost use Rattle.flac_reader.specs.Kept.{first_info};
ghost use Rattle.flac_reader.specs.Coming.{IsPast, Counted, ReadsBlocks, ReadsHead, ReadsFrame};
ghost use Rattle.flac_reader.specs.Refusing.{RefusedHead};
ghost use Rattle.flac_reader.specs.inner.Taking.{TakesItem, PassesBlocks, CountsBlocks};

use crate::keep::{Keep, keep_block};
use flac_native::{Block, Container, Decoder, Fault, Item, Place, StreamInfo, Why};

/// What the metadata of a stream says.
#[derive(Clone, Copy)]
pub(crate) struct Head {
    /// STREAMINFO.
    pub(crate) info: StreamInfo,
    /// How many bytes a native stream has before its first frame.
    pub(crate) start: u64,
}

/// Reads the next item, keeps it if it is a block that is wanted, and adds its bytes to `size`. False if it is no
/// block.
fn take_block<C: Container>(
    decoder: &mut Decoder<C>,
    keep: Keep,
    index: u64,
    kept: &mut Vec<Block>,
    size: &mut u64,
) -> Result<bool, Fault>
    ensures gives { TakesItem decoder.old decoder.new keep kept.old.items kept.new.items size.old size.new result }
    // proof only
    ensures counts { Counted C.Container (stage_of decoder.old) (stage_of decoder.new) result }
    ensures going { IfOk result (λ more. more ≡ true → is_going (stage_of decoder.new).course ≡ true) }
    ensures past { IfOk result (λ more. more ≡ false → PassesBlocks decoder.old decoder.new) }
    ensures unkept { IfOk result (λ more. more ≡ false → kept.new.items ≡ kept.old.items) }
{
    match decoder.step() {
        Ok(()) => {}
        Err(fault) => return Err(fault),
    }
    let outcome = match decoder.view() {
        Item::Block(block) => {
            *size = size.saturating_add(4 + block.length());
            keep_block(kept, keep, block)
        }
        Item::Frame(_) => return Ok(false),
        Item::End => return Ok(false),
    };
    match outcome {
        Ok(()) => Ok(true),
        Err(why) => Err(Fault {
            at: Place::Block(index),
            why,
        }),
    }
}

/// Reads all metadata blocks as [`read_blocks`] does, and adds their bytes to `size`.
fn read_counted<C: Container>(
    decoder: &mut Decoder<C>,
    keep: Keep,
    kept: &mut Vec<Block>,
    size: &mut u64,
) -> Result<(), Fault>
    requires { kept.old.items ≡ [] }
    ensures head { ReadsBlocks C.Container (stage_of decoder.old) (stage_of decoder.new) keep kept.new.items result }
    ensures size { OnOk result (CountsBlocks decoder.old decoder.new size.old size.new) }
    // proof only
    ensures counts { Counted C.Container (stage_of decoder.old) (stage_of decoder.new) result }
    ensures past { OnOk result ((kept.new.items ≡ []) ⊎ IsPast (stage_of decoder.new)) }
{
    for index in 0..u64::MAX {
        match take_block(decoder, keep, index, kept, size) {
            Ok(true) => {}
            Ok(false) => return Ok(()),
            Err(fault) => return Err(fault),
        }
    }
    Err(Fault {
        at: Place::Block(u64::MAX),
        why: Why::Memory,
    })
}

/// Reads all metadata blocks of a stream from its start, and adds those that are wanted to `kept`, which must be empty,
/// in their order (RFC 9639, section 8). It also reads the first frame, or the end if there is none, which
/// [`Decoder::view`] lends then.
///
/// ```
/// let mut kept = Vec::new(rt.alloc());
/// read_blocks(&mut decoder, Keep::All, &mut kept)?;
/// ```
///
/// # Errors
/// Those of [`Decoder::next`]. [`Why::Memory`] also if a block that is to be kept cannot be copied.
pub fn read_blocks<C: Container>(
    decoder: &mut Decoder<C>,
    keep: Keep,
    kept: &mut Vec<Block>,
) -> Result<(), Fault>
    requires { kept.old.items ≡ [] }
    ensures counts { Counted C.Container (stage_of decoder.old) (stage_of decoder.new) result }
    // Of a stream that is read so, all wanted blocks are kept, and the frames come next; refused only as the stream is,
    // with no frame before.
    ensures head { ReadsBlocks C.Container (stage_of decoder.old) (stage_of decoder.new) keep kept.new.items result }
{
    let mut size = 0;
    read_counted(decoder, keep, kept, &mut size)
}

/// The first STREAMINFO of some blocks.
#[tactic(auto, unfolding(crate::specs::Kept::first_info), using(crate::proofs::Firsts::info_more))]
fn first_info(blocks: &[Block]) -> Option<StreamInfo>
    ensures { result ≡ first_info blocks.now }
{
    for block in blocks {
        match block {
            Block::StreamInfo(info) => return Some(*info),
            _ => {}
        }
    }
    None
}

/// Reads all metadata blocks, finds STREAMINFO, and counts the bytes before the first frame of a native stream. The
/// marker has 4 of them.
pub(crate) fn read_head<C: Container>(
    decoder: &mut Decoder<C>,
    keep: Keep,
    kept: &mut Vec<Block>,
) -> Result<Head, Fault>
    requires { kept.old.items ≡ [] }
    ensures info { IfOk result (λ h. first_info kept.new.items ≡ Some h.info) }
    ensures head { IfOk result (λ h. ReadsHead decoder.old decoder.new keep kept.new.items true h.start) }
    ensures past { IfOk result (λ _. IsPast (stage_of decoder.new)) }
    ensures refused { IfErr result (λ f. RefusedHead C.Container (stage_of decoder.old) (stage_of decoder.new) f) }
{
    let mut start = 4;
    match read_counted(decoder, keep, kept, &mut start) {
        Ok(()) => {}
        Err(fault) => return Err(fault),
    }
    match first_info(kept.as_slice()) {
        Some(info) => Ok(Head { info, start }),
        None => Err(Fault {
            at: Place::Block(0),
            why: Why::NotStreamInfoFirst,
        }),
    }
}

/// Reads the next frame, unless it was read ahead.
pub(crate) fn forward<C: Container>(decoder: &mut Decoder<C>, ahead: &mut bool) -> Result<(), Fault>
    ensures ahead { ahead.new ≡ false }
    ensures given { ahead.old ≡ true → IfErr result (λ _. ⊥) × (decoder.new ≡ decoder.old) }
    ensures frame { ReadsFrame C.Container ahead.old (stage_of decoder.old) (stage_of decoder.new) result }
    // proof only
    ensures counts { Counted C.Container (stage_of decoder.old) (stage_of decoder.new) result }
    ensures memory { IsPast (stage_of decoder.old) → IfErr result (λ f. f.why ≢ Why.Memory) }
    ensures past { IsPast (stage_of decoder.old) → OnOk result (IsPast (stage_of decoder.new)) }
{
    if *ahead {
        *ahead = false;
        return Ok(());
    }
    decoder.step()
}
