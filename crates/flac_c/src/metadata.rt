//! Reads the metadata of a native stream up to its first frame.

ghost use Rattle.std.specs.Prelude.{◌≡◌, true, [], None, Some, OnOk, IfOk, IfErr};
ghost use Rattle.flac_header.specs.declared.subset.Profile.{Profile};
ghost use Rattle.flac_c.specs.inner.Blocks.{Noted, IsFound, BlockRead, NoBlock, PartsFound, IsRefusedIn};

use flac_bits::{BitReader, Memory, Why};
use flac_meta::{Block, SeekPoint, Seen, StreamInfo, read_block};
use flac_native::{Fault, Place, read_marker};
use std::alloc::Global;

/// What a cursor needs of the metadata.
#[derive(Drop)]
pub(crate) struct Metadata {
    pub(crate) info: Option<StreamInfo>,
    /// How many comments there are.
    pub(crate) comments: u64,
    /// The number of the sample that is sought.
    pub(crate) sample: u64,
    /// The last seek point at or before it.
    pub(crate) point: Option<SeekPoint>,
}

impl Metadata {
    pub(crate) fn new(sample: u64) -> Metadata
        ensures { result ≡ record { info = None; comments = 0; sample = sample; point = None } }
    {
        Metadata {
            info: None,
            comments: 0,
            sample,
            point: None,
        }
    }

    /// Keeps what a cursor needs of a block.
    fn note(&mut self, block: &Block)
        ensures { Noted self.old block.now self.new }
    {
        match block {
            Block::StreamInfo(info) => self.info = Some(*info),
            Block::VorbisComment(comments) => self.comments = comments.len() as u64,
            Block::SeekTable(table) => self.point = table.before(self.sample).or(self.point),
            _ => {}
        }
    }
}

/// Reads the next block, and returns whether it is marked last.
fn next_block(
    alloc: Global,
    bits: &mut BitReader<Memory<'_>>,
    seen: &mut Seen,
    found: &mut Metadata,
) -> Result<bool, Why>
    requires { bits.old.known ≡ true }
    ensures read { IfOk result (BlockRead seen.old seen.new bits.old bits.new (λ b. Noted found.old b found.new)) }
    ensures refused { IfErr result (NoBlock seen.old bits.old bits.new) }
{
    bits.start_checks();
    match read_block(alloc, bits, seen) {
        Ok(read) => {
            found.note(&read.1);
            Ok(read.0)
        }
        Err(why) => Err(why),
    }
}

/// Reads the marker and all blocks, which are the same in each profile.
pub(crate) fn read_parts(
    alloc: Global,
    bits: &mut BitReader<Memory<'_>>,
    found: &mut Metadata,
) -> Result<(), Fault>
    requires known { bits.old.known ≡ true }
    requires none { (profile : Profile) → IsFound profile found.old.sample [] found.old }
    ensures read { OnOk result (PartsFound bits.old bits.new found.old.sample found.new) }
    ensures refused { IfErr result (λ f. (profile : Profile) → IsRefusedIn profile bits.old bits.new f) }
{
    bits.start_checks();
    match read_marker(bits) {
        Ok(()) => {}
        Err(why) => {
            return Err(Fault {
                at: Place::Marker,
                why,
            });
        }
    }
    let mut seen = Seen::new();
    for index in 0..u64::MAX {
        match next_block(alloc, bits, &mut seen, found) {
            Ok(true) => return Ok(()),
            Ok(false) => {}
            Err(why) => {
                return Err(Fault {
                    at: Place::Block(index),
                    why,
                });
            }
        }
    }
    Err(Fault {
        at: Place::Block(u64::MAX),
        why: Why::Memory,
    })
}
