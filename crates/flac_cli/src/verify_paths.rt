//! Paths in the lines of `flac verify`.

ghost use Rattle.std.specs.Prelude.{◌++◌};
ghost use Rattle.flac_shelf.specs.Shown.{shown_byte, shown};
ghost use Rattle.flac_cli.specs.inner.Lines.{AddsTo};

use crate::lines::Lines;
use flac_bits::{Target, Why};
use flac_shelf::escape_of;

impl<W: Target> Lines<W> {
    /// Adds a byte of a path.
    fn put_path_byte(&mut self, byte: u8) -> Result<(), Why>
        ensures { AddsTo W.Target (shown_byte byte) self.old self.new result }
    {
        match escape_of(byte) {
            Some(escape) => self.put_bytes(&escape),
            None => self.put_bytes(&[byte]),
        }
    }

    /// Adds the bytes of a path.
    fn put_path_bytes(&mut self, path: &[u8]) -> Result<(), Why>
        ensures { AddsTo W.Target (shown path.now) self.old self.new result }
    {
        for byte in path {
            self.put_path_byte(*byte)?;
        }
        Ok(())
    }

    /// Adds a text and a path.
    ///
    /// # Errors
    /// [`Why::Write`] if the target fails.
    pub(crate) fn put_path(&mut self, name: &str, path: &str) -> Result<(), Why>
        ensures { AddsTo W.Target (name.now ++ shown path.now) self.old self.new result }
    {
        self.put(name)?;
        self.put_path_bytes(path.as_bytes())
    }
}
