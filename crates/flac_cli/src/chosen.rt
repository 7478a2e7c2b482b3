//! Which metadata blocks of a file are listed.

ghost use Rattle.std.specs.Prelude.{◌≡◌, map};
ghost use Rattle.flac_edit.specs.BlockEdits.{is_application, is_meant, is_named};
ghost use Rattle.flac_cli.specs.Editing.{removal_of};
ghost use Rattle.flac_cli.specs.ListedJson.{is_chosen};

use flac_jobs::BlockName;
use flac_meta::Block;

/// A file whose metadata blocks are listed.
#[derive(Clone, Copy, Debug)]
pub struct ListedFile<'a> {
    /// Its path.
    pub path: &'a str,
    /// Which blocks are listed, STREAMINFO being block 0; none for all of them.
    pub names: &'a [BlockName],
}

/// Whether a block is that of an application of this identifier (RFC 9639, section 8.4).
fn is_application(id: &[u8; 4], block: &Block) -> bool
    ensures { result ≡ is_application id.now block.now }
{
    match block {
        Block::Application {
            id: other,
            bytes: _,
        } => other[..] == id[..],
        _ => false,
    }
}

/// Whether a name means the block of this number.
fn is_meant(name: &BlockName, number: u64, block: &Block) -> bool
    ensures { result ≡ is_meant (removal_of name.now) number block.now }
{
    match name {
        BlockName::Number(n) => u64::from(*n) == number,
        BlockName::Kind(kind) => *kind == block.kind(),
        BlockName::Application(id) => is_application(id, block),
    }
}

/// Whether one of the names means the block of this number.
fn is_named(names: &[BlockName], number: u64, block: &Block) -> bool
    ensures { result ≡ is_named (map removal_of names.now) number block.now }
{
    for name in names {
        if is_meant(name, number, block) {
            return true;
        }
    }
    false
}

/// Whether the block of this number is listed: one of the names means it, or there are none.
pub(crate) fn is_chosen(names: &[BlockName], number: u64, block: &Block) -> bool
    ensures { result ≡ is_chosen names.now number block.now }
{
    names.is_empty() || is_named(names, number, block)
}
