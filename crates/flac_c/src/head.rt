//! Reads STREAMINFO and the comments at the start of a stream.

ghost use Rattle.std.specs.Prelude.{◌≡◌, ◌≢◌, [], nat_lt, true, false, is_some, IfErr, OnOk, None, Some};
ghost use Rattle.flac_native.specs.Item.{fault_pair};
ghost use Rattle.flac_c.specs.Heads.{BeginsBy, Begins, Lacks};
ghost use Rattle.flac_c.specs.inner.Heads.{info_after_item, comments_after_item, frames_after_item, EndsIn, IsRefusedFor, HasInfo};

use flac_bits::{Memory, Why};
use flac_frame::FrameView;
use flac_meta::{Block, Comments, StreamInfo};
use flac_native::{Failures, Fault, Place, Profile, Sink, SinkFault};
use flac_ogg::decode_any;
use std::alloc::Global;

/// How many bytes are read first: most metadata has fewer.
const FEW: usize = 1 << 16;

/// How many bytes are read next: most metadata with a picture has fewer.
const MORE: usize = 1 << 21;

/// Keeps STREAMINFO and the comments of a stream.
#[derive(Drop)]
pub(crate) struct Head {
    pub(crate) info: Option<StreamInfo>,
    pub(crate) comments: Option<Comments>,
    /// Whether a frame was read, so that no block comes any more.
    pub(crate) is_over: bool,
    pub(crate) failures: Failures,
}

impl Head {
    pub(crate) fn new() -> Head
        ensures info { result.info ≡ None }
        ensures comments { result.comments ≡ None }
        ensures over { result.is_over ≡ false }
        ensures failures { result.failures.count ≡ 0 }
    {
        Head {
            info: None,
            comments: None,
            is_over: false,
            failures: Failures::new(),
        }
    }
}

impl Sink for Head {
    ghost takes = { λ old item new. record {
      info : new.info ≡ info_after_item old.info item;
      comments : new.comments ≡ comments_after_item old.comments item;
      over : new.is_over ≡ frames_after_item old.is_over item;
    } };

    ghost known = { λ s. nat_lt s.failures.count 18446744073709551615 };

    ghost errors = { λ s. s.failures.count };

    ghost names = { λ _. [] };

    fn block(&mut self, block: &Block) -> Result<(), SinkFault> {
        match block {
            Block::StreamInfo(info) => {
                self.info = Some(*info);
                Ok(())
            }
            Block::VorbisComment(comments) => match comments.clone() {
                Ok(comments) => {
                    self.comments = Some(comments);
                    Ok(())
                }
                Err(_) => self.failures.fail(),
            },
            _ => Ok(()),
        }
    }

    fn frame(&mut self, _frame: &FrameView<'_>) -> Result<(), SinkFault> {
        self.is_over = true;
        Ok(())
    }
}

/// Reads a stream, and keeps STREAMINFO and the comments.
fn decode_head(alloc: Global, bytes: &[u8], head: &mut Head) -> Result<(), Fault>
    requires info { head.old.info ≡ None }
    requires comments { head.old.comments ≡ None }
    requires over { head.old.is_over ≡ false }
    requires failures { head.old.failures.count ≡ 0 }
    ensures begun { head.new.failures.count ≡ 0 → BeginsBy bytes.now head.new.is_over head.new.info head.new.comments }
    ensures ended { head.new.failures.count ≡ 0 → OnOk result (EndsIn bytes.now head.new) }
    ensures stopped { head.new.failures.count ≡ 0 → IfErr result (λ f. f.why ≢ Why.Memory → EndsIn bytes.now head.new) }
    ensures refused { head.new.failures.count ≡ 0 → IfErr result (IsRefusedFor bytes.now) }
    ensures whole { OnOk result (HasInfo bytes.now head.new) }
{
    let mut source = Memory::new(bytes);
    decode_any(alloc, &mut source, Profile::Subset, head)
}

/// Reads the head of the first `most` bytes, and returns whether it is whole: a frame was read after all blocks.
fn read_front(alloc: Global, bytes: &[u8], most: usize, head: &mut Head) -> bool
    ensures begun { result ≡ true → Begins bytes.now head.new.info head.new.comments }
    ensures found { result ≡ true → is_some head.new.info ≡ true }
{
    if bytes.len() <= most {
        return false;
    }
    *head = Head::new();
    let _outcome = decode_head(alloc, &bytes[..most], head);
    head.failures.count() == 0 && head.is_over && head.info.is_some()
}

/// Reads the head of all bytes.
///
/// # Errors
/// `Memory`; and where no STREAMINFO is found, what is wrong with the bytes.
fn read_all(alloc: Global, bytes: &[u8], head: &mut Head) -> Result<(), Fault>
    ensures begun { OnOk result (Begins bytes.now head.new.info head.new.comments) }
    ensures found { OnOk result (is_some head.new.info ≡ true) }
    ensures refused { IfErr result (λ f. Lacks bytes.now (Some (fault_pair f))) }
{
    *head = Head::new();
    let outcome = decode_head(alloc, bytes, head);
    if head.failures.count() != 0 {
        return Err(Fault {
            at: Place::Marker,
            why: Why::Memory,
        });
    }
    if let Err(fault) = outcome {
        if is_memory(fault.why) || head.info.is_none() {
            return Err(fault);
        }
        return Ok(());
    }
    if head.info.is_some() {
        return Ok(());
    }
    Err(Fault {
        at: Place::Marker,
        why: Why::NotStreamInfoFirst,
    })
}

/// Whether memory ran out.
fn is_memory(why: Why) -> bool
    ensures other { result ≡ false → why ≢ Why.Memory }
{
    matches!(why, Why::Memory)
}

/// Reads STREAMINFO and the comments at the start of a stream.
pub(crate) fn read_head(alloc: Global, bytes: &[u8], head: &mut Head) -> Result<(), Fault>
    ensures begun { OnOk result (Begins bytes.now head.new.info head.new.comments) }
    ensures found { OnOk result (is_some head.new.info ≡ true) }
    ensures refused { IfErr result (λ f. Lacks bytes.now (Some (fault_pair f))) }
{
    if read_front(alloc, bytes, FEW, head) {
        return Ok(());
    }
    if read_front(alloc, bytes, MORE, head) {
        return Ok(());
    }
    read_all(alloc, bytes, head)
}
