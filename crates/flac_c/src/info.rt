//! Stream information, the comments, and the name of the program that wrote a stream.

ghost use Rattle.std.specs.Prelude.{◌≡◌, ◌≢◌, Option, None};
ghost use Rattle.flac_meta.specs.declared.comments.Comments.{Comments as Listed};
ghost use Rattle.flac_c.specs.Answers.{IsAnswered, IsCopied, in_c};
ghost use Rattle.flac_c.specs.Heads.{BeginsSo, WritesText, Lacks, count_of, comment_of, vendor_of, info_in_c};

use crate::fault::{FlacProvedFault, in_c};
use crate::head::{Head, read_head};
use crate::texts::copy;
use flac_meta::{Comments, StreamInfo};
use std::alloc::Global;

/// STREAMINFO (RFC 9639, section 8.2), and the number of comments (section 8.6).
#[repr(C)]
#[derive(Clone, Copy, Drop)]
pub struct FlacProvedInfo {
    /// Samples of each channel, 0 if unknown.
    pub total: u64,
    /// How many comments there are.
    pub comments: u64,
    /// The sample rate in Hz.
    pub rate: u32,
    /// How many channels there are, 1 to 8.
    pub channels: u32,
    /// Bits per sample, 4 to 32.
    pub bits: u32,
    /// The smallest block size in samples.
    pub least_block: u32,
    /// The largest block size in samples.
    pub greatest_block: u32,
    /// The smallest frame size in bytes, 0 if unknown.
    pub least_frame: u32,
    /// The largest frame size in bytes, 0 if unknown.
    pub greatest_frame: u32,
    /// The MD5 of all samples, zeros if unknown.
    pub digest: [u8; 16],
}

/// How many comments there are.
fn count_of(comments: &Option<Comments>) -> u64
    ensures { result ≡ count_of comments.now }
{
    match comments {
        Some(comments) => comments.len() as u64,
        None => 0,
    }
}

/// STREAMINFO and this number of comments.
pub(crate) fn info_counted(info: &StreamInfo, comments: u64) -> FlacProvedInfo
    ensures { (found : Option Listed) → comments ≡ count_of found → result ≡ info_in_c info.now found }
{
    FlacProvedInfo {
        total: info.total(),
        comments,
        rate: info.rate(),
        channels: u32::from(info.channels()),
        bits: u32::from(info.depth()),
        least_block: u32::from(info.least_block()),
        greatest_block: u32::from(info.greatest_block()),
        least_frame: info.least_frame(),
        greatest_frame: info.greatest_frame(),
        digest: info.digest(),
    }
}

/// STREAMINFO and the number of these comments.
fn info_in_c(info: &StreamInfo, comments: &Option<Comments>) -> FlacProvedInfo
    ensures { result ≡ info_in_c info.now comments.now }
{
    info_counted(info, count_of(comments))
}

/// Copies a comment, as far as there is room, and returns its length.
fn copy_comment(comments: &Option<Comments>, index: usize, out: &mut [u8]) -> usize
    ensures { IsCopied (comment_of comments.now index) out.old out.new result }
{
    match comments {
        Some(comments) => copy(comments.get(index).unwrap_or(&[]), out),
        None => copy(&[], out),
    }
}

/// Copies the vendor, as far as there is room, and returns its length.
fn copy_vendor(comments: &Option<Comments>, out: &mut [u8]) -> usize
    ensures { IsCopied (vendor_of comments.now) out.old out.new result }
{
    match comments {
        Some(comments) => copy(comments.vendor(), out),
        None => copy(&[], out),
    }
}

/// Reads STREAMINFO at the start of a stream, native or Ogg, and counts the comments (RFC 9639, sections 8.2 and 8.6).
/// The stream is not verified, and `bytes` may be a prefix of it.
///
/// Returns 0, or the number of the fault for which there is no STREAMINFO, or 2 if an allocation fails; `info` is
/// unchanged then.
#[unsafe(no_mangle)]
pub extern "C" fn flac_proved_info(
    alloc: Global,
    bytes: &[u8],
    info: &mut FlacProvedInfo,
    fault: &mut FlacProvedFault,
) -> u32
    ensures found { result ≡ 0 → BeginsSo bytes.now (λ i comments. info.new ≡ info_in_c i comments) }
    ensures refused { result ≢ 0 → IsAnswered (Lacks bytes.now) fault.new }
    ensures kept { result ≢ 0 → info.new ≡ info.old }
    ensures number { result ≡ fault.new.number }
    ensures clear { result ≡ 0 → fault.new ≡ in_c None }
{
    let mut head = Head::new();
    if let Err(refusal) = read_head(alloc, bytes, &mut head) {
        *fault = in_c(Err(refusal));
        return fault.number;
    }
    *fault = in_c(Ok(()));
    match &head.info {
        Some(found) => *info = info_in_c(found, &head.comments),
        None => unreachable!(),
    }
    0
}

/// Copies the comment of this index, counted from 0, to the front of `out`, as far as there is room: `NAME=VALUE` (RFC
/// 9639, section 8.6). `len` becomes its length in bytes. It is empty if there is no such comment.
///
/// Returns 0, or the number of the fault for which there is no STREAMINFO, or 2 if an allocation fails; `out` and `len`
/// are unchanged then.
#[unsafe(no_mangle)]
pub extern "C" fn flac_proved_comment(
    alloc: Global,
    bytes: &[u8],
    index: usize,
    out: &mut [u8],
    len: &mut usize,
    fault: &mut FlacProvedFault,
) -> u32
    ensures found { result ≡ 0 → WritesText bytes.now (λ comments. comment_of comments index) out.old out.new len.new }
    ensures refused { result ≢ 0 → IsAnswered (Lacks bytes.now) fault.new }
    ensures kept { result ≢ 0 → (out.new ≡ out.old) × (len.new ≡ len.old) }
    ensures number { result ≡ fault.new.number }
    ensures clear { result ≡ 0 → fault.new ≡ in_c None }
{
    let mut head = Head::new();
    if let Err(refusal) = read_head(alloc, bytes, &mut head) {
        *fault = in_c(Err(refusal));
        return fault.number;
    }
    *fault = in_c(Ok(()));
    *len = copy_comment(&head.comments, index, out);
    0
}

/// Copies the name of the program that wrote the stream to the front of `out`, as far as there is room (RFC 9639,
/// section 8.6). `len` becomes its length in bytes, 0 if the stream has no comments.
///
/// Returns 0, or the number of the fault for which there is no STREAMINFO, or 2 if an allocation fails; `out` and `len`
/// are unchanged then.
#[unsafe(no_mangle)]
pub extern "C" fn flac_proved_vendor(
    alloc: Global,
    bytes: &[u8],
    out: &mut [u8],
    len: &mut usize,
    fault: &mut FlacProvedFault,
) -> u32
    ensures found { result ≡ 0 → WritesText bytes.now vendor_of out.old out.new len.new }
    ensures refused { result ≢ 0 → IsAnswered (Lacks bytes.now) fault.new }
    ensures kept { result ≢ 0 → (out.new ≡ out.old) × (len.new ≡ len.old) }
    ensures number { result ≡ fault.new.number }
    ensures clear { result ≡ 0 → fault.new ≡ in_c None }
{
    let mut head = Head::new();
    if let Err(refusal) = read_head(alloc, bytes, &mut head) {
        *fault = in_c(Err(refusal));
        return fault.number;
    }
    *fault = in_c(Ok(()));
    *len = copy_vendor(&head.comments, out);
    0
}
