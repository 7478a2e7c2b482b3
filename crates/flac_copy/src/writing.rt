//! Writes a stream that was opened, with given metadata blocks.

ghost use Rattle.std.specs.Prelude.{◌≡◌, true, OnOk, IfOk, IfErr};
ghost use Rattle.flac_bits.specs.Forms.{IsBytes};
ghost use Rattle.flac_ogg.specs.Headers.{AreHeadersOf};
ghost use Rattle.flac_copy.specs.Blocks.{ogg_blocks};
ghost use Rattle.flac_copy.specs.Outgoing.{pending_in};
ghost use Rattle.flac_copy.specs.Written.{StartsWith, BeginsOgg, WritesNative, WritesOgg};
ghost use Rattle.flac_copy.specs.Written.{WritesAs, WritesAlike, IsUntouched};

use crate::blocks::ogg_blocks;
use crate::copying::copy_frames;
use crate::fault::CopyFault;
use crate::given::{given_head, head_bytes, is_given};
use crate::opened::Copying;
use crate::outgoing::Outgoing;
use crate::output::Output;
use flac_bits::{Source, Target, Why, bytes_fit, send_all};
use flac_meta::{Block, BlockList, StreamInfo};
use flac_ogg::{Headers, headers_of};
use std::alloc::Global;
use std::mem::drop;

/// The header packets of STREAMINFO and of these blocks as an Ogg stream has them.
fn given_headers(
    alloc: Global,
    serial: u32,
    info: StreamInfo,
    blocks: &[Block],
) -> Result<Headers, Why>
    requires { IsBytes 16 info.digest }
    ensures made { IfOk result (λ h. AreHeadersOf info (ogg_blocks blocks.now) h) }
    ensures serial { IfOk result (λ h. h.serial ≡ serial) }
{
    let others = ogg_blocks(alloc, blocks)?;
    let list = BlockList::new(others)?;
    let head = head_bytes(alloc, info, &list)?;
    if head.as_slice().len() < 42 {
        return Err(Why::NotStreamInfoFirst);
    }
    headers_of(alloc, serial, head.as_slice(), &list)
}

/// Whether the first of these blocks is this STREAMINFO.
fn starts_with(blocks: &[Block], info: StreamInfo) -> bool
    ensures { result ≡ true → StartsWith info blocks.now }
{
    match blocks.split_first() {
        Some((first, _)) => is_given(first, info),
        None => false,
    }
}

/// Writes the header packets but the last, which is held back.
fn begin_ogg<W: Target>(
    alloc: Global,
    serial: u32,
    info: StreamInfo,
    blocks: &[Block],
    target: &mut W,
) -> Result<Outgoing, CopyFault>
    ensures begins { IfOk result (λ out.
        BeginsOgg W.Target serial info blocks.now (pending_in out) target.old target.new) }
    ensures blocks { IfErr result (λ e. IsUntouched e target.old target.new) }
{
    let digest = info.digest();
    bytes_fit(&digest); // for its clause alone
    let headers = match given_headers(alloc, serial, info, blocks) {
        Ok(headers) => headers,
        Err(why) => return Err(CopyFault::Blocks(why)),
    };
    match send_all(target, headers.sent.as_slice()) {
        Ok(()) => Ok(Outgoing {
            alloc,
            serial: headers.serial,
            held: headers.held,
            samples: 0,
        }),
        Err(_) => Err(CopyFault::Write),
    }
}

impl<S: Source> Copying<S> {
    /// What [`Copying::write_native`] does.
    fn send_native<W: Target>(&mut self, blocks: &[Block], target: &mut W) -> Result<(), CopyFault>
        ensures written { OnOk result (WritesNative S.Source W.Target self.old blocks.now target.old target.new) }
        ensures blocks { IfErr result (λ e. IsUntouched e target.old target.new) }
    {
        let head = match given_head(self.alloc, self.info, blocks) {
            Ok(head) => head,
            Err(why) => return Err(CopyFault::Blocks(why)),
        };
        let sent = send_all(target, head.as_slice());
        drop(head);
        match sent {
            Ok(()) => copy_frames(
                self.alloc,
                &mut self.input,
                &mut self.track,
                &mut Output::Native,
                target,
            ),
            Err(_) => Err(CopyFault::Write),
        }
    }

    /// What [`Copying::write_ogg`] does.
    fn send_ogg<W: Target>(
        &mut self,
        serial: u32,
        blocks: &[Block],
        target: &mut W,
    ) -> Result<(), CopyFault>
        ensures written { OnOk result (WritesOgg S.Source W.Target serial self.old blocks.now target.old target.new) }
        ensures blocks { IfErr result (λ e. IsUntouched e target.old target.new) }
    {
        if !starts_with(blocks, self.info) {
            return Err(CopyFault::Blocks(Why::NotStreamInfoFirst));
        }
        match begin_ogg(self.alloc, serial, self.info, blocks, target) {
            Ok(out) => copy_frames(
                self.alloc,
                &mut self.input,
                &mut self.track,
                &mut Output::Ogg(out),
                target,
            ),
            Err(fault) => Err(fault),
        }
    }

    /// What [`Copying::write`] does.
    fn send_as<W: Target>(
        &mut self,
        serial: Option<u32>,
        blocks: &[Block],
        target: &mut W,
    ) -> Result<(), CopyFault>
        ensures written { OnOk result (WritesAs S.Source W.Target serial self.old blocks.now target.old target.new) }
        ensures blocks { IfErr result (λ e. IsUntouched e target.old target.new) }
    {
        match serial {
            Some(serial) => self.send_ogg(serial, blocks, target),
            None => self.send_native(blocks, target),
        }
    }
}

impl<S: Source + Drop> Copying<S> {
    /// Writes a native stream: the marker, these blocks, of which the last is marked, and the bytes of each frame (RFC
    /// 9639, section 6). The frames are decoded, and the number of samples and the digest are compared with STREAMINFO.
    ///
    /// It holds the new metadata as bytes, and one frame.
    ///
    /// # Errors
    /// - [`CopyFault::Blocks`]: the first block is not the stream's own STREAMINFO ([`Why::NotStreamInfoFirst`]), or
    ///   the others may not follow it, or an allocation failed. Nothing was written.
    /// - [`CopyFault::Input`]: the stream is refused at this place, or the source returned an error there
    ///   ([`Why::Read`]), or an allocation failed ([`Why::Memory`]). A prefix was written.
    /// - [`CopyFault::Write`]: the target returned an error. A prefix was written.
    pub fn write_native<W: Target>(self, blocks: &[Block], target: &mut W) -> Result<(), CopyFault>
        // Ok only if frames and then the end were left, and the target was sent a native stream of these blocks and of
        // these frames, byte by byte.
        ensures written { OnOk result (WritesNative S.Source W.Target self blocks.now target.old target.new) }
        // If the blocks cannot be written, nothing was done to the target.
        ensures blocks { IfErr result (λ e. IsUntouched e target.old target.new) }
    {
        let mut copying = self;
        copying.send_native(blocks, target)
    }

    /// Writes an Ogg stream with this serial number: header packets, and then each frame's bytes as a packet, whose
    /// last page has the number of samples so far as its granule position (RFC 9639, section 10.1). The frames are
    /// decoded, and the number of samples and the digest are compared with STREAMINFO.
    ///
    /// Of these blocks STREAMINFO comes first, then the comments, empty ones if there are none, and then the others in
    /// their order, without a seek table, since its offsets have no meaning in Ogg.
    ///
    /// It holds the header packets with their pages, and two frames with the pages of one.
    ///
    /// # Errors
    /// - [`CopyFault::Blocks`]: the first block is not the stream's own STREAMINFO ([`Why::NotStreamInfoFirst`]), or
    ///   the others may not follow it, or an allocation failed. Nothing was written.
    /// - [`CopyFault::Input`]: the stream is refused at this place, or the source returned an error there
    ///   ([`Why::Read`]), or an allocation failed ([`Why::Memory`]). A prefix was written.
    /// - [`CopyFault::Write`]: the target returned an error. A prefix was written.
    pub fn write_ogg<W: Target>(
        self,
        serial: u32,
        blocks: &[Block],
        target: &mut W,
    ) -> Result<(), CopyFault>
        // Ok only if frames and then the end were left, and the target was sent the pages of an Ogg stream of these
        // blocks and of these frames, byte by byte.
        ensures written { OnOk result (WritesOgg S.Source W.Target serial self blocks.now target.old target.new) }
        // If the blocks cannot be written, nothing was done to the target.
        ensures blocks { IfErr result (λ e. IsUntouched e target.old target.new) }
    {
        let mut copying = self;
        copying.send_ogg(serial, blocks, target)
    }

    /// Writes the stream in this container: an Ogg stream with this serial number, as [`Copying::write_ogg`] does, or a
    /// native stream if there is none, as [`Copying::write_native`] does.
    ///
    /// # Errors
    /// Those of these calls.
    pub fn write<W: Target>(
        self,
        serial: Option<u32>,
        blocks: &[Block],
        target: &mut W,
    ) -> Result<(), CopyFault>
        // Ok only if frames and then the end were left, and the target was sent a stream of these blocks and of these
        // frames, byte by byte, in this container.
        ensures written { OnOk result (WritesAs S.Source W.Target serial self blocks.now target.old target.new) }
        // If the blocks cannot be written, nothing was done to the target.
        ensures blocks { IfErr result (λ e. IsUntouched e target.old target.new) }
    {
        let mut copying = self;
        copying.send_as(serial, blocks, target)
    }

    /// Writes the stream in the container in which it was read: an Ogg stream with the same serial number, as
    /// [`Copying::write_ogg`] does, or a native stream, as [`Copying::write_native`] does.
    ///
    /// # Errors
    /// Those of these calls.
    pub fn write_alike<W: Target>(self, blocks: &[Block], target: &mut W) -> Result<(), CopyFault>
        // Ok only if frames and then the end were left, and the target was sent a stream of these blocks and of these
        // frames, byte by byte, in the same container, an Ogg stream with the same serial number.
        ensures written { OnOk result (WritesAlike S.Source W.Target self blocks.now target.old target.new) }
        // If the blocks cannot be written, nothing was done to the target.
        ensures blocks { IfErr result (λ e. IsUntouched e target.old target.new) }
    {
        let mut copying = self;
        let same = copying.serial();
        copying.send_as(same, blocks, target)
    }
}
