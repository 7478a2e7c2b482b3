//! `flac list --head`: the lines of the metadata blocks, and no frame is read.

ghost use Rattle.std.specs.Prelude.{◌≡◌, ◌≤◌, true, false, OnOk, IfErr};
ghost use Rattle.flac_native.specs.Track.{is_going};
ghost use Rattle.flac_native.specs.Giving.{stage_of};
ghost use Rattle.flac_cli.specs.inner.Heading.{RefusesBlocks, EndsBlocks, ReadsHead, RefusesHead, DecoderReads, TakesHead, RefusesAnyHead};
ghost use Rattle.flac_cli.specs.Calls.{IfServed};
ghost use Rattle.flac_cli.specs.Headed.{HasHead, IsFaultOf, any_reading, ReportsHead};

use crate::chosen::ListedFile;
use crate::list::Listing;
use crate::report::refuse;
use flac_bits::{Source, Target, Why};
use flac_native::{Container, Decoder, Fault, Item, Place, Profile, Sink};
use flac_ogg::{Fronted, begins_page, ogg_decoder_returning, pull_front};
use std::alloc::Global;

/// Memory ran out at this block.
fn no_memory_at(index: u64) -> Fault
    ensures { result.why ≡ Why.Memory }
{
    Fault {
        at: Place::Block(index),
        why: Why::Memory,
    }
}

/// Reads the next block, and passes it to the sink. It returns no item but a block, as none comes before the last one.
fn pass_block<C: Container, S: Sink>(
    decoder: &mut Decoder<C>,
    index: u64,
    sink: &mut S,
) -> Result<(), Fault>
    requires { is_going (stage_of decoder.old).course ≡ true }
    // proof only
    ensures going { OnOk result (is_going (stage_of decoder.new).course ≡ true) }
    ensures names { C.names (stage_of decoder.new).container ≡ C.names (stage_of decoder.old).container }
    ensures reads { OnOk result (DecoderReads C.Container S.known S.takes decoder.old decoder.new sink.old sink.new) }
    ensures refused { IfErr result (RefusesBlocks C.Container (stage_of decoder.old) (stage_of decoder.new)) }
{
    match decoder.step() {
        Ok(()) => {}
        Err(fault) => return Err(fault),
    }
    let passed = match decoder.view() {
        Item::Block(block) => sink.block(block),
        Item::Frame(_) => return Err(no_memory_at(index)),
        Item::End => return Err(no_memory_at(index)),
    };
    match passed {
        Ok(()) => Ok(()),
        Err(_) => Err(Fault {
            at: Place::Block(index),
            why: Why::Sink,
        }),
    }
}

/// Passes the blocks that a decoder gives up to the last one to the sink.
fn pass_blocks<C: Container, S: Sink>(decoder: &mut Decoder<C>, sink: &mut S) -> Result<(), Fault>
    requires { is_going (stage_of decoder.old).course ≡ true }
    // proof only
    ensures names { C.names (stage_of decoder.new).container ≡ C.names (stage_of decoder.old).container }
    ensures ends { OnOk result
        (EndsBlocks C.Container S.known S.takes (stage_of decoder.old) sink.old sink.new) }
    ensures refused { IfErr result (RefusesBlocks C.Container (stage_of decoder.old) (stage_of decoder.new)) }
{
    for index in 0..u64::MAX {
        if decoder.is_past_metadata() {
            return Ok(());
        }
        match pass_block(decoder, index, sink) {
            Ok(()) => {}
            Err(fault) => return Err(fault),
        }
    }
    Err(no_memory_at(u64::MAX))
}

/// Passes the blocks of a native stream to the sink.
fn pass_native<R: Source, S: Sink>(alloc: Global, source: &mut R, sink: &mut S) -> Result<(), Fault>
    // proof only
    ensures head { OnOk result (ReadsHead R.Source S.known S.takes false source.old sink.old sink.new) }
    ensures refused { IfErr result (RefusesHead R.Source false source.old source.new) }
    ensures names { R.names source.new ≡ R.names source.old }
{
    let mut decoder = Decoder::new(alloc, source, Profile::Lax);
    let outcome = pass_blocks(&mut decoder, sink);
    let _source = decoder.into_source(); // for its clauses alone
    outcome
}

/// Passes the blocks of an Ogg stream to the sink.
fn pass_ogg<R: Source, S: Sink>(alloc: Global, source: &mut R, sink: &mut S) -> Result<(), Fault>
    // proof only
    ensures head { OnOk result (ReadsHead R.Source S.known S.takes true source.old sink.old sink.new) }
    ensures refused { IfErr result (RefusesHead R.Source true source.old source.new) }
    ensures names { R.names source.new ≡ R.names source.old }
{
    let decoder = match ogg_decoder_returning(alloc, source, Profile::Lax) {
        Ok(decoder) => decoder,
        Err(refused) => return Err(refused.fault),
    };
    let mut decoder = decoder;
    let outcome = pass_blocks(&mut decoder, sink);
    let packets = decoder.into_container();
    let _source = packets.into_source(); // for its clauses alone
    outcome
}

/// Passes the blocks of an Ogg stream or of a native one to the sink.
fn pass_as<R: Source, S: Sink>(
    alloc: Global,
    is_ogg: bool,
    source: &mut R,
    sink: &mut S,
) -> Result<(), Fault>
    // proof only
    ensures head { OnOk result (ReadsHead R.Source S.known S.takes is_ogg source.old sink.old sink.new) }
    ensures refused { IfErr result (RefusesHead R.Source is_ogg source.old source.new) }
    ensures names { R.names source.new ≡ R.names source.old }
{
    if is_ogg {
        pass_ogg(alloc, source, sink)
    } else {
        pass_native(alloc, source, sink)
    }
}

/// Reads the blocks of a stream, native or Ogg, and passes them to the sink. No frame is read.
///
/// # Errors
/// The place and the reason: the stream is refused before its last block; [`Why::Sink`] at the block that the sink did
/// not take; an error of the source; out of memory.
pub(crate) fn pass_head<R: Source, S: Sink>(
    alloc: Global,
    source: &mut R,
    sink: &mut S,
) -> Result<(), Fault>
    ensures head { OnOk result (TakesHead R.Source S.known S.takes source.old sink.old sink.new) }
    ensures refused { IfErr result (λ f. RefusesAnyHead R.Source source.old source.new f) }
{
    let front = match pull_front(source) {
        Ok(front) => front,
        Err(fault) => return Err(fault),
    };
    let mut fronted = Fronted { front, source };
    let outcome = pass_as(alloc, begins_page(front), &mut fronted, sink);
    let Fronted {
        front: _,
        source: _source,
    } = fronted;
    outcome
}

/// Lists the chosen metadata blocks of a stream, native or Ogg, as `flac list` does, and stops after the last block. No
/// frame is read, so none is verified. Returns the exit status: 0 if the marker and all blocks were read and listed,
/// else 1.
///
/// - `file`: the path of the file that `source` is, and which blocks are listed.
/// - `out`, `err`: standard output and standard error.
///
/// After status 1 the lines of the chosen blocks before the fault were written to `out`, and the line of the fault to
/// `err`, if that could be written.
pub fn list_head<R: Source, O: Target, E: Target>(
    alloc: Global,
    file: &ListedFile<'_>,
    source: &mut R,
    out: &mut O,
    err: &mut E,
) -> u8
    ensures status { result ≤ 1 }
    // After status 0 the input begins with the marker and blocks up to a last one.
    ensures head { result ≡ 0 → R.known source.old ≡ true → HasHead (any_reading R.Source source.old) }
    // After status 1 it is refused before that, and the line of this refusal was added to standard error, if that did
    // not fail; or the line says that memory ran out, or that standard output took no more.
    ensures refused { result ≡ 1 →
        ReportsHead R.Source E.Target file.now.path.now source.old source.new err.old err.new }
    // After status 1 the line of a fault of this file was added, whatever failed.
    ensures named { result ≡ 1 → IfServed E.Target err.old err.new (IsFaultOf file.now.path.now) }
    // After status 0 nothing was added to standard error.
    ensures silent { result ≡ 0 → err.new ≡ err.old }
{
    let mut listing = Listing::new(out, file.names);
    match pass_head(alloc, source, &mut listing) {
        Ok(()) => 0,
        Err(fault) => refuse(err, file.path, Some(fault.at), fault.why),
    }
}
