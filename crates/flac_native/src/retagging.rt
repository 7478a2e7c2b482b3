//! Replaces the comments of a stream.

ghost use Rattle.std.specs.Prelude.{◌≡◌, ◌≢◌, ◌≤◌, ◌+◌, ◌++◌, [], true, false, OnOk, IfOk, IfErr, Some, None, ◌<◌, OnErr, IfSome, Err, is_some, ◌⊎◌};
ghost use Rattle.flac_bits.specs.Fencing.{lifted};
ghost use Rattle.flac_bits.specs.Reading.{Counts};
ghost use Rattle.flac_bits.specs.Reasons.{of_output};
ghost use Rattle.flac_bits.specs.Handing.{reason_of};
ghost use Rattle.flac_native.specs.Stream.{place_in};
ghost use Rattle.flac_native.specs.Track.{is_after_blocks};
ghost use Rattle.flac_native.specs.Item.{fault_pair};
ghost use Rattle.flac_native.specs.Places.{retag_text};
ghost use Rattle.flac_native.specs.Retag.{is_before_frames, IsPlaceAt, AreReadFrom, is_comment, HasHeadAt, RefusalIsDue, RefusalIsDueOf, EarlyRefusalIsDue, RefusesWhatIsDue, IsPlaceIn, OnlyTargetFails, SendsRetaggedOf, SendsEachRetagged, SendsPrefixOf, SendsHeadAndPartOf, IsOfDevice, IsBeforeOrOutside, not_read, not_written, too_long, IfOfDevice, IfUnread, IsTooLong};
ghost use Rattle.flac_native.specs.inner.Retag.{piece_in, kept_one, keeps, MayBeHead, new_head, ReadsNext, MovesOn, RefusesNext, AreKeptFrom, CalmRefusalIsDue, RefusalIsDueEarly, CopiesAll, CopiesPrefix, SendsRetaggedFrom, SendsPrefixFrom, SendsHeadAndPartFrom, FailsInHead, KeepsOne, IsPlaceFrom};
ghost use Rattle.flac_native.specs.Sent.{TargetFailed};
ghost use Rattle.flac_bits.specs.Bits.{bits_of};
ghost use Rattle.flac_bits.specs.Written.{Adds};
ghost use Rattle.flac_bits.specs.State.{Rises};
ghost use Rattle.flac_meta.specs.Spelling.{comments_length};
ghost use Rattle.flac_bits.specs.declared.why.Why.{Why};
ghost use Rattle.flac_native.specs.declared.fault.Place.{Place};
ghost use Rattle.flac_native.specs.Decoding.{SourceFailed};

use crate::encoding::write_each;
use crate::fault::{Fault, Place};
use crate::native::{MARKER, read_marker};
use crate::position::Position;
use crate::track::Phase;
use flac_bits::{BitReader, BitWriter, Collected, Source, Target, Why, send_all};
use flac_meta::{Block, Comments, MOST_BYTES, write_block, write_comments};
use std::alloc::Global;
use std::fmt;

/// Why a stream was not retagged, and where, if there is a place.
///
/// It prints as its place, if it has one, and its reason: `block 0: 8 BadStreamInfo`, `7 BlockLength`.
#[derive(Clone, Copy, Debug, PartialEq, Eq)]
pub struct RetagFault {
    /// Where the stream is refused, or where the source or an allocation failed. `None` if the comments are too long,
    /// or if the target failed; and in the program `flac`, if an allocation for the comments failed.
    pub at: Option<Place>,
    /// The reason.
    pub why: Why,
}

impl fmt::Display for RetagFault {
    ghost output = { λ fault. Some (retag_text fault) };

    fn fmt<W: fmt::Write>(&self, f: &mut fmt::Formatter<W>) -> fmt::Result {
        let why = self.why;
        match self.at {
            Some(at) => write!(f, "{at}: {why}"),
            None => write!(f, "{why}"),
        }
    }
}

impl std::error::Error for RetagFault {}

/// Whether this is a comment block.
fn is_comment(block: &Block) -> bool
    ensures { result ≡ is_comment block.now }
{
    matches!(block, Block::VorbisComment(_))
}

/// Keeps a block; comments only if `all` says so. Its only error is `Memory`: an allocation failed.
fn keep_block(kept: &mut Vec<Block>, block: Block, all: bool) -> Result<(), Why>
    ensures keeps { OnOk result (kept.new.items ≡ kept.old.items ++ kept_one all block) }
    ensures memory { IfErr result (λ e. e ≡ Why.Memory) }
{
    if !all && is_comment(&block) {
        drop(block);
        return Ok(());
    }
    kept.push(block)?;
    Ok(())
}

/// Keeps the block of a part, if it has one; comments only if `all` says so. Its only error is `Memory`: an allocation
/// failed.
fn keep(kept: &mut Vec<Block>, part: Option<(bool, Block)>, all: bool) -> Result<(), Why>
    ensures keeps { OnOk result (keeps all kept.old.items (piece_in part) kept.new.items) }
    ensures memory { IfErr result (λ e. e ≡ Why.Memory) }
    ensures none { IfErr result (λ _. is_some part ≡ true) }
{
    match part {
        None => Ok(()),
        Some((_, block)) => keep_block(kept, block, all),
    }
}

/// Reads the marker, which is `None`, or the next block, beside whether it is marked last.
#[tactic(auto, unfolding(crate::specs::Stream::layout))]
fn read_next<R: Source>(
    alloc: Global,
    reader: &mut BitReader<R>,
    position: &mut Position,
) -> Result<Option<(bool, Block)>, Why>
    requires { is_after_blocks position.old.phase ≡ false }
    // proof only
    ensures spends { OnOk result (reader.new.most + 32 ≤ reader.old.most) }
    ensures counts { Counts (lifted reader.old) reader.new result }
    ensures reads { ReadsNext position.old reader.old reader.new result }
    ensures next { IfOk result (λ part. MovesOn position.old part position.new) }
    ensures first { position.old.phase ≡ Phase.Opening → IfOk result (λ part. is_some part ≡ false) }
    ensures memory { position.old.phase ≡ Phase.Opening → IfErr result (λ e. e ≢ Why.Memory) }
{
    reader.lift();
    reader.start_checks();
    match position.phase {
        Phase::Opening => {
            read_marker(reader)?;
            position.phase = Phase::Blocks;
            Ok(None)
        }
        Phase::Blocks => {
            let part = position.read_block(alloc, reader)?;
            Ok(Some(part))
        }
        Phase::Frames => unreachable!(),
    }
}

/// Reads the marker or the next block, and keeps a block; comments only if `all` says so.
fn keep_next<R: Source>(
    alloc: Global,
    reader: &mut BitReader<R>,
    position: &mut Position,
    kept: &mut Vec<Block>,
    all: bool,
) -> Result<(), Fault>
    requires { is_after_blocks position.old.phase ≡ false }
    // proof only
    ensures spends { OnOk result (reader.new.most + 32 ≤ reader.old.most) }
    ensures counts { Counts (lifted reader.old) reader.new (reason_of fault_pair result) }
    ensures keeps { KeepsOne all position.old position.new reader.old reader.new kept.old.items kept.new.items result }
    ensures refused { IfErr result (λ f. RefusesNext position.old reader.old reader.new f) }
    ensures place { IfErr result (λ f. f.at ≡ place_in position.old.phase position.old.index) }
    ensures at { IfErr result (λ f. is_before_frames f.at ≡ true) }
    ensures memory { IfErr result (λ f. f.why ≡ Why.Memory → f.at ≢ Place.Marker) }
{
    let at = position.place();
    match read_next(alloc, reader, position) {
        Ok(part) => match keep(kept, part, all) {
            Ok(()) => Ok(()),
            Err(why) => Err(Fault { at, why }),
        },
        Err(why) => Err(Fault { at, why }),
    }
}

/// Reads the marker and all blocks, and keeps them in their order; comments only if `all` says so.
fn keep_all<R: Source>(
    alloc: Global,
    reader: &mut BitReader<R>,
    kept: &mut Vec<Block>,
    all: bool,
) -> Result<(), Fault>
    requires whole { reader.old.cursor.mark.unread ≡ 0 }
    requires none { kept.old.items ≡ [] }
    // proof only
    ensures counts { Counts (lifted reader.old) reader.new (reason_of fault_pair result) }
    ensures whole { OnOk result (reader.new.cursor.mark.unread ≡ 0) }
    ensures kept { OnOk result (AreKeptFrom all reader.old kept.new.items reader.new) }
    ensures refused { IfErr result (λ f. RefusalIsDue reader.old reader.new f.at f.why) }
    ensures placed { IfErr result (λ f. reader.old.known ≡ true → IsPlaceAt (lifted reader.old).cursor f.at) }
    ensures at { IfErr result (λ f. reader.old.known ≡ true → is_before_frames f.at ≡ true) }
    ensures memory { IfErr result (λ f. f.why ≡ Why.Memory → f.at ≢ Place.Marker) }
{
    let mut position = Position::start();
    while !position.is_past_metadata() {
        keep_next(alloc, reader, &mut position, kept, all)?;
    }
    reader.lift();
    if reader.unread() != 0 {
        return Err(Fault {
            at: position.place(),
            why: Why::Truncated,
        });
    }
    Ok(())
}

/// Reads the marker and all blocks, and keeps those that are no comment blocks, in their order. The reader is at a
/// whole byte, and no fence is left after the blocks.
pub(crate) fn read_kept<R: Source>(
    alloc: Global,
    reader: &mut BitReader<R>,
) -> Result<Vec<Block>, Fault>
    requires { reader.old.cursor.mark.unread ≡ 0 }
    // proof only
    ensures counts { Counts (lifted reader.old) reader.new (reason_of fault_pair result) }
    ensures whole { OnOk result (reader.new.cursor.mark.unread ≡ 0) }
    ensures kept { IfOk result (λ kept. AreKeptFrom false reader.old kept.items reader.new) }
    ensures refused { IfErr result (λ f. RefusalIsDue reader.old reader.new f.at f.why) }
    ensures placed { IfErr result (λ f. reader.old.known ≡ true → IsPlaceAt (lifted reader.old).cursor f.at) }
    ensures at { IfErr result (λ f. reader.old.known ≡ true → is_before_frames f.at ≡ true) }
    ensures memory { IfErr result (λ f. f.why ≡ Why.Memory → f.at ≢ Place.Marker) }
{
    let mut kept = Vec::new(alloc);
    match keep_all(alloc, reader, &mut kept, false) {
        Ok(()) => Ok(kept),
        Err(fault) => Err(fault),
    }
}

/// Reads the marker and all metadata blocks of a native stream, and stops before the first frame (RFC 9639, sections 6
/// and 8). STREAMINFO is the first of them. No frame is read, and no memory is taken for one.
///
/// ```
/// let mut reader = BitReader::new(source);
/// let blocks = read_blocks(rt.alloc(), &mut reader)?;
/// ```
///
/// # Errors
/// A reason of the marker or of a metadata block, at its place, as [`crate::decode`] refuses it; [`Why::Read`] there if
/// the source returned an error, [`Why::Memory`] at a block if an allocation failed.
pub fn read_blocks<R: Source>(alloc: Global, reader: &mut BitReader<R>) -> Result<Vec<Block>, Fault>
    requires { reader.old.cursor.mark.unread ≡ 0 }
    ensures counts { Counts (lifted reader.old) reader.new (reason_of fault_pair result) }
    // The reader is at the first frame.
    ensures whole { OnOk result (reader.new.cursor.mark.unread ≡ 0) }
    // Ok only if the input begins with a marker and these blocks; what is left to read comes after them.
    ensures read { IfOk result (λ list. AreReadFrom reader.old list.items reader.new) }
    // Refused only as the marker and the blocks are, at that place and for that reason.
    ensures refused { IfErr result (λ f. RefusalIsDue reader.old reader.new f.at f.why) }
    ensures placed { IfErr result (λ f. reader.old.known ≡ true → IsPlaceAt (lifted reader.old).cursor f.at) }
    ensures at { IfErr result (λ f. reader.old.known ≡ true → is_before_frames f.at ≡ true) }
    // No allocation fails at the marker.
    ensures memory { IfErr result (λ f. f.why ≡ Why.Memory → f.at ≢ Place.Marker) }
{
    let mut kept = Vec::new(alloc);
    match keep_all(alloc, reader, &mut kept, true) {
        Ok(()) => Ok(kept),
        Err(fault) => Err(fault),
    }
}

/// Writes the marker fLaC, STREAMINFO, which is the first of these blocks, the comments, and the other blocks (RFC
/// 9639, section 6). If all of them can be written, only the target can fail.
fn write_renewed<W: Target>(
    kept: &[Block],
    comments: &Comments,
    writer: &mut BitWriter<W>,
) -> Result<(), Why>
    // proof only
    ensures added { OnOk result (Adds (new_head comments.now kept.now) writer.old writer.new) }
    ensures unread { IfErr result (λ e. e ≢ Why.Read) }
    ensures sink { IfErr result (λ e. e ≢ Why.Sink) }
    ensures failed { IfErr result (λ e. FailsInHead comments.now kept.now writer.old writer.new e) }
{
    let Some((info, others)) = kept.split_first() else {
        return Err(Why::NotStreamInfoFirst);
    };
    writer.put(32, MARKER)?;
    write_block(info, false, writer)?;
    write_comments(comments, others.is_empty(), writer)?;
    write_each(others, others.len(), writer)
}

/// The same bytes in memory. If all blocks can be written, the only error is `Memory`: an allocation failed.
pub(crate) fn renewed(alloc: Global, kept: &[Block], comments: &Comments) -> Result<Vec<u8>, Why>
    ensures head { IfOk result (λ head. bits_of head.items ≡ new_head comments.now kept.now) }
    ensures unread { IfErr result (λ e. e ≢ Why.Read) }
    ensures output { IfErr result (λ e. of_output e ≡ false) }
    ensures memory { IfErr result (λ e. MayBeHead comments.now kept.now → e ≡ Why.Memory) }
{
    let mut writer = BitWriter::new(Collected::new(alloc));
    match write_renewed(kept, comments, &mut writer) {
        Ok(()) => writer.into_bytes(),
        Err(why) => Err(why.in_memory()),
    }
}

/// The most bytes that are copied at once.
const PIECE: usize = 4096;

/// Sends the bytes that are still to come. After an error a prefix of them was sent.
pub(crate) fn copy_rest<R: Source, W: Target>(
    reader: &mut BitReader<R>,
    target: &mut W,
) -> Result<(), RetagFault>
    requires { reader.old.cursor.mark.unread ≡ 0 }
    // proof only
    ensures copied { OnOk result (CopiesAll W.Target reader.old target.old target.new) }
    ensures begun { OnErr result (CopiesPrefix W.Target reader.old target.old target.new) }
    ensures fault { IfErr result IsOfDevice }
    ensures read { IfErr result (λ f. f.why ≡ Why.Read
        → reader.old.known ≡ true → reader.old.raised < reader.new.raised) }
    ensures write { IfErr result (λ f. f.why ≡ Why.Write → TargetFailed W.Target target.old target.new) }
    ensures read_risen { IfErr result (λ f. f.why ≡ Why.Read → Rises reader.old.raised reader.new.raised) }
    ensures write_risen { IfErr result (λ f. f.why ≡ Why.Write → Rises (W.errors target.old) (W.errors target.new)) }
    ensures errors { (reader.old.errors ≤ reader.new.errors) × (W.errors target.old ≤ W.errors target.new) }
    ensures names { (reader.new.names ≡ reader.old.names) × (W.names target.new ≡ W.names target.old) }
{
    let mut piece = [0u8; PIECE];
    loop {
        let count = match reader.take_bytes(&mut piece) {
            Ok(count) => count,
            Err(_) => {
                return Err(RetagFault {
                    at: Some(Place::Frame(0)),
                    why: Why::Read,
                });
            }
        };
        match send_all(target, &piece[..count]) {
            Ok(()) => {}
            Err(_) => {
                return Err(RetagFault {
                    at: None,
                    why: Why::Write,
                });
            }
        }
        if count < PIECE {
            return Ok(());
        }
    }
}

/// Writes what is still to come with these comments, which are not too long.
fn retag_from<R: Source, W: Target>(
    alloc: Global,
    reader: &mut BitReader<R>,
    comments: &Comments,
    target: &mut W,
) -> Result<(), RetagFault>
    requires whole { reader.old.cursor.mark.unread ≡ 0 }
    requires short { comments_length comments.now ≤ 16777215 }
    // proof only
    ensures written { OnOk result (SendsRetaggedFrom W.Target reader.old comments.now target.old target.new) }
    ensures refused { IfErr result (λ f. IfSome f.at (λ at. CalmRefusalIsDue reader.old reader.new at f.why)) }
    ensures foretold { IfErr result (λ f. IfSome f.at (λ at. RefusalIsDueEarly reader.old reader.new at f.why)) }
    ensures placed { IfErr result (λ f. IsPlaceFrom reader.old f) }
    ensures memory { IfErr result (λ f. f.why ≡ Why.Memory → f.at ≢ Some Place.Marker) }
    ensures after { IfErr result (λ f. IfSome f.at (λ at. reader.old.known ≡ true → IsBeforeOrOutside f at)) }
    ensures head { OnOk result (reader.old.known ≡ true → HasHeadAt (lifted reader.old).cursor) }
    ensures found { IfErr result (λ f. IsOfDevice f → reader.old.known ≡ true → HasHeadAt (lifted reader.old).cursor) }
    ensures nothing { IfErr result (λ f. f ≢ not_read → f ≢ not_written → target.new ≡ target.old) }
    ensures begun { IfOfDevice result (SendsPrefixFrom W.Target reader.old comments.now target.old target.new) }
    ensures copied { IfUnread result (SendsHeadAndPartFrom W.Target reader.old comments.now target.old target.new) }
    ensures output { IfErr result (λ f. IfSome f.at (λ _. of_output f.why ≡ false)) }
    ensures placeless { IfErr result (λ f. f.at ≡ None → f ≡ not_written) }
    ensures read { IfErr result (λ f. f.why ≡ Why.Read
        → reader.old.known ≡ true → reader.old.raised < reader.new.raised) }
    ensures write { IfErr result (λ f. f ≡ not_written → TargetFailed W.Target target.old target.new) }
    ensures read_risen { IfErr result (λ f. f.why ≡ Why.Read → Rises reader.old.raised reader.new.raised) }
    ensures write_risen { IfErr result (λ f. f ≡ not_written → Rises (W.errors target.old) (W.errors target.new)) }
    ensures errors { reader.old.errors ≤ reader.new.errors }
    ensures names { (reader.new.names ≡ reader.old.names) × (W.names target.new ≡ W.names target.old) }
{
    let kept = match read_kept(alloc, reader) {
        Ok(kept) => kept,
        Err(fault) => {
            return Err(RetagFault {
                at: Some(fault.at),
                why: fault.why,
            });
        }
    };
    let made = renewed(alloc, kept.as_slice(), comments);
    drop(kept);
    let head = match made {
        Ok(head) => head,
        Err(why) => {
            return Err(RetagFault {
                at: Some(Place::Frame(0)),
                why,
            });
        }
    };
    let sent = send_all(target, head.as_slice());
    drop(head);
    match sent {
        Ok(()) => copy_rest(reader, target),
        Err(_) => Err(RetagFault {
            at: None,
            why: Why::Write,
        }),
    }
}

/// Replaces the comments of a native stream (RFC 9639, sections 6 and 8.6). It writes the marker, the same STREAMINFO,
/// a Vorbis comment block of these comments, the other metadata blocks in their order without an old comment block, and
/// then all bytes that follow the metadata. These are copied as they are, and not verified.
///
/// It holds the metadata blocks and the new metadata as bytes. The rest is copied 4096 bytes at a time.
///
/// ```
/// let mut target = Counted::new(file);
/// retag(rt.alloc(), &mut source, &comments, &mut target)?;
/// ```
///
/// # Errors
/// - [`Why::BlockLength`] without a place: the content of the comments is longer than 16777215 bytes
///   ([`Comments::length`]). Nothing was read and nothing written.
/// - A reason of the marker or of a metadata block, at its place, as [`crate::decode`] refuses it. Nothing was written.
/// - [`Why::Read`] at the marker or at a block: the source returned an error there. Nothing was written.
/// - [`Why::Memory`] at a block or at frame 0: an allocation failed there. Nothing was written.
/// - [`Why::Read`] at frame 0: the source returned an error after the metadata. The new metadata and a prefix of the
///   rest were written.
/// - [`Why::Write`] without a place: the target returned an error. A prefix of the output was written.
pub fn retag<R: Source, W: Target>(
    alloc: Global,
    source: &mut R,
    comments: &Comments,
    target: &mut W,
) -> Result<(), RetagFault>
    // Comments that are too long are refused before anything is read, and nothing else is refused so.
    ensures long { 16777215 < comments_length comments.now →
        IsTooLong source.old source.new target.old target.new result }
    ensures short { result ≡ Err too_long → 16777215 < comments_length comments.now }
    // Ok only if the input begins with a marker and blocks; what was written is exactly these with the comments, and
    // the rest.
    ensures written { OnOk result
        (SendsRetaggedOf R.Source W.Target source.old comments.now target.old target.new) }
    // That is so for each way in which the input begins.
    ensures exact { OnOk result
        (SendsEachRetagged R.Source W.Target source.old comments.now target.old target.new) }
    // Refused only as the marker and the blocks are, at that place and for that reason.
    ensures refused { IfErr result (λ f. IfSome f.at (λ at.
        RefusalIsDueOf R.Source source.old source.new at f.why)) }
    // So is an error of the source that is foretold: before the frames it is at the item in which the bytes end.
    ensures foretold { IfErr result (λ f. IfSome f.at (λ at.
        EarlyRefusalIsDue R.Source source.old source.new at f.why)) }
    // Each place, also that of an error of the source or of an allocation, is that of the item after some with which
    // the input begins.
    ensures placed { IfErr result (λ f. IfSome f.at (λ at. IsPlaceIn R.Source source.old at)) }
    // No allocation fails at the marker, whatever is known of the source: none is needed there.
    ensures memory { IfErr result (λ f. f.why ≡ Why.Memory → f.at ≢ Some Place.Marker) }
    // After the blocks only an error of the source or of an allocation is returned: no block that was read is refused
    // in writing.
    ensures after { IfErr result (λ f. IfSome f.at (λ at. R.known source.old ≡ true → IsBeforeOrOutside f at)) }
    // An input that begins with a marker and blocks is refused only for the comments, the target and memory.
    ensures accepted { IfErr result (λ f. f ≢ too_long → OnlyTargetFails R.Source source.old source.new f) }
    // An input of which the marker or a block is to be refused is refused exactly so.
    ensures shown { comments_length comments.now ≤ 16777215
        → RefusesWhatIsDue R.Source source.old source.new result }
    // At any error but that of a device after the blocks, nothing was written.
    ensures nothing { IfErr result (λ f. f ≢ not_read → f ≢ not_written → target.new ≡ target.old) }
    // If a device failed after the blocks, a prefix of the output was written.
    ensures begun { IfOfDevice result (SendsPrefixOf R.Source W.Target source.old comments.now target.old target.new) }
    // An error of the source is reported after the blocks only when the new blocks were written whole: the target's
    // bytes say so, and which prefix of the rest was copied.
    ensures copied { IfUnread result
        (SendsHeadAndPartOf R.Source W.Target source.old comments.now target.old target.new) }
    // Only faults of the comments and of the target have no place. A device's error that is returned is counted.
    ensures placeless { IfErr result (λ f. f.at ≡ None → (f ≡ too_long) ⊎ (f ≡ not_written)) }
    // So an error of a target is never at a place, and none is of a sink.
    ensures output { IfErr result (λ f. IfSome f.at (λ _. of_output f.why ≡ false)) }
    ensures read { IfErr result (λ f. f.why ≡ Why.Read → SourceFailed R.Source source.old source.new) }
    ensures write { IfErr result (λ f. f ≡ not_written → TargetFailed W.Target target.old target.new) }
    // An error of a device is counted, if the count can rise, whatever is known of it.
    ensures read_risen { IfErr result (λ f. f.why ≡ Why.Read → Rises (R.raised source.old) (R.raised source.new)) }
    ensures write_risen { IfErr result (λ f. f ≡ not_written → Rises (W.errors target.old) (W.errors target.new)) }
    ensures kept { R.errors source.old ≤ R.errors source.new }
    ensures names { W.names target.new ≡ W.names target.old }
{
    if comments.length() > MOST_BYTES {
        return Err(RetagFault {
            at: None,
            why: Why::BlockLength,
        });
    }
    let mut reader = BitReader::new(source);
    let outcome = retag_from(alloc, &mut reader, comments, target);
    let _source = reader.into_source(); // for its clauses alone
    outcome
}
