//! The blocks after STREAMINFO.

ghost use Rattle.flac_meta.specs.Valid.{AllAre, FitsFields};
ghost use Rattle.std.specs.Prelude.{◌≡◌, ◌⊎◌, ◌∷◌, [], MatchResult, IfOk, IfErr, OnOk, None, Some};
ghost use Rattle.std.specs.Cmp.{partial_equiv_from_equiv};
ghost use Rattle.std.specs.Cmp.Lexicographic.{pointwise, lists_equiv};
ghost use Rattle.flac_meta.specs.Listed.{fault_after, list_fault, info_seen, only_comments};

use crate::block::{Block, Seen, fault_of, is_of_forbidden_kind};
use crate::comments::Comments;
use crate::fits::blocks_fit;
use flac_bits::Why;
use std::alloc::{AllocError, Global};
use std::marker::Model;

/// The blocks after STREAMINFO, in their order. Each can be written, none is a STREAMINFO, and at most one is a seek
/// table and at most one a Vorbis comment.
#[derive(Debug)]
pub struct BlockList {
    blocks: Vec<Block>,
}

impl Drop for BlockList {
    fn drop(self) {
        let BlockList { blocks: _ } = self;
    }
}

impl Model for BlockList {
    ghost use Rattle.std.specs.Prelude.{List};
    ghost use Rattle.flac_meta.specs.declared.block.Block.{Block};

    ghost Value = { List Block };

    ghost use Rattle.std.specs.Prelude.{◌≡◌, None};
    ghost use Rattle.flac_meta.specs.Listed.{list_fault, info_seen};
    ghost use Rattle.flac_meta.specs.Valid.{AllAre, FitsFields};

    ghost view = { λ b. b.blocks.items };

    ghost invariant = { λ b. (list_fault info_seen b.blocks.items ≡ None) × AllAre FitsFields b.blocks.items };
}

impl Clone for BlockList {
    ghost is_clone = { λ a b. b ≡ a };

    fn clone(&self) -> Result<BlockList, AllocError> {
        Ok(BlockList {
            blocks: self.blocks.clone()?,
        })
    }
}

impl PartialEq for BlockList {
    ghost use Rattle.flac_meta.specs.contracts.block.BlockPartialEq.TheImpl as item;
    ghost use Rattle.flac_meta.specs.contracts.block.BlockEq.TheImpl.Laws.{laws-law};

    ghost eq = { pointwise (item.ghosts).eq };

    ghost laws = { partial_equiv_from_equiv (lists_equiv laws-law) };

    fn eq(&self, other: &BlockList) -> bool {
        self.blocks == other.blocks
    }
}

impl Eq for BlockList {
    ghost use Rattle.flac_meta.specs.contracts.block.BlockEq.TheImpl.Laws.{laws-law};

    ghost laws = { lists_equiv laws-law };
}

/// Why a block may not come after those seen, or `None` if it may.
#[tactic(auto, using(crate::proofs::Repeated::came_allowed, crate::proofs::Repeated::came_forbidden))]
fn fault_after(seen: Seen, block: &Block) -> Option<Why>
    ensures { result ≡ fault_after seen block.now }
{
    if !is_of_forbidden_kind(block) && seen.has(block.kind()) {
        return Some(Why::RepeatedBlock);
    }
    fault_of(block)
}

/// The reason of the first block that may not come after STREAMINFO and the blocks before it; `None` if all may.
fn first_fault(blocks: &[Block]) -> Option<Why>
    ensures { result ≡ list_fault info_seen blocks.now }
{
    let mut seen = Seen {
        stream_info: true,
        seek_table: false,
        comments: false,
    };
    for block in blocks {
        if let Some(why) = fault_after(seen, block) {
            return Some(why);
        }
        seen.note(block);
    }
    None
}

impl BlockList {
    /// Makes a list of these blocks, if all of them can be written after a STREAMINFO.
    ///
    /// ```
    /// let mut blocks = Vec::new(rt.alloc());
    /// blocks.push(Block::VorbisComment(comments))?;
    /// blocks.push(Block::Padding(8192))?;
    /// let list = BlockList::new(blocks)?;
    /// ```
    ///
    /// # Errors
    /// That of the first block that has one: [`Why::RepeatedBlock`] for a STREAMINFO, or a second seek table or Vorbis
    /// comment; else that of [`crate::write_block`].
    pub fn new(blocks: Vec<Block>) -> Result<BlockList, Why>
        ensures found { MatchResult result (λ b. b ≡ blocks.items) (λ e. list_fault info_seen blocks.items ≡ Some e) }
        ensures good { OnOk result (list_fault info_seen blocks.items ≡ None) }
    {
        match first_fault(&blocks) {
            Some(why) => Err(why),
            None => {
                blocks_fit(&blocks);
                Ok(BlockList { blocks })
            }
        }
    }

    /// Makes a list of the tags alone: of one Vorbis comment (RFC 9639, section 8.6).
    ///
    /// ```
    /// let comments = Comments::new(rt.alloc(), b"my program 1.0")?;
    /// let list = BlockList::of_comments(rt.alloc(), comments)?;
    /// ```
    ///
    /// # Errors
    /// [`Why::BlockLength`] if the comments have more bytes than a block may have; [`Why::Memory`] if an allocation
    /// fails.
    pub fn of_comments(alloc: Global, comments: Comments) -> Result<BlockList, Why>
        ensures list { IfOk result (λ list. list ≡ only_comments comments) }
        ensures good { OnOk result (list_fault info_seen (only_comments comments) ≡ None) }
        ensures refused { IfErr result (λ e. (e ≡ Why.Memory) ⊎
            (list_fault info_seen (only_comments comments) ≡ Some e)) }
    {
        let mut blocks = Vec::with_capacity(alloc, 1)?;
        blocks.push(Block::VorbisComment(comments))?;
        BlockList::new(blocks)
    }

    /// Returns the blocks as a vector.
    pub fn into_blocks(self) -> Vec<Block>
        ensures items { result.items ≡ self }
        ensures good { list_fault info_seen self ≡ None }
        ensures fits { AllAre FitsFields self }
    {
        let BlockList { blocks } = self;
        blocks
    }

    /// The blocks.
    pub fn blocks(&self) -> &[Block]
        ensures items { result.now ≡ self.now }
        ensures good { list_fault info_seen self.now ≡ None }
        ensures fits { AllAre FitsFields self.now }
    {
        self.blocks.as_slice()
    }
}
