//! Compares two streams.

ghost use Rattle.std.specs.Prelude.{◌≡◌, Ok, None};
ghost use Rattle.flac_compare.specs.Streams.{ComparesBoth, AreBothSame};
ghost use Rattle.flac_compare.specs.inner.Stepping.{Stays};
ghost use Rattle.flac_compare.specs.inner.Opening.{ComparesWithInput};

use crate::comparing::compare;
use crate::difference::{Difference, Unread};
use flac_ogg::Fronted;
use flac_reader::{Container, Keep, Opened, Profile, Reader, Source, open};
use std::alloc::Global;

/// Compares what a reader has to give with a stream in either container.
fn compare_with<C: Container, S: Source>(
    alloc: Global,
    first: &mut Reader<C>,
    second: &mut S,
    profile: Profile,
) -> Result<Option<Difference>, Unread>
    // proof only
    ensures stays { Stays first.old first.new }
    ensures names { S.names second.new ≡ S.names second.old }
    ensures says { ComparesWithInput S.Source profile first.old first.new second.old second.new result }
{
    let opened = match open(alloc, second, profile, Keep::Tags) {
        Ok(opened) => opened,
        Err(refused) => return Err(Unread::Second(refused.fault)),
    };
    match opened {
        Opened::Native(reader) => {
            let mut reader = reader;
            let outcome = compare(first, &mut reader);
            let decoder = reader.into_decoder();
            let fronted = decoder.into_source();
            let Fronted {
                front: _,
                source: _source, // for its clauses alone
            } = fronted;
            outcome
        }
        Opened::Ogg(reader) => {
            let mut reader = reader;
            let outcome = compare(first, &mut reader);
            let decoder = reader.into_decoder();
            let packets = decoder.into_container();
            let fronted = packets.into_source();
            let Fronted {
                front: _,
                source: _source, // for its clauses alone
            } = fronted;
            outcome
        }
    }
}

/// Compares two streams, each in either container: an Ogg stream if its first byte is `O` (RFC 9639, section 10.1), a
/// native one otherwise (section 6). Returns the first difference of sample rate, channels, bits per sample, samples
/// and their number; `None` if there is none: then both were read to their ends, and verified. After any other
/// difference than that of numbers of samples neither stream is read further.
///
/// ```
/// match compare_streams(rt.alloc(), &mut first, &mut second, Profile::Lax)? {
///     None => println!(rt; "same")?,
///     Some(Difference::Sample(number, channel)) => println!(rt; "differ at sample {number}")?,
///     Some(_) => println!(rt; "another format or length")?,
/// }
/// ```
///
/// # Errors
/// The fault at which one of the streams is refused, before any difference: those of [`open`], and of
/// [`Reader::next`]. [`Why::Memory`](flac_native::Why::Memory) comes also after 2^64 - 1 frames.
pub fn compare_streams<R: Source, S: Source>(
    alloc: Global,
    first: &mut R,
    second: &mut S,
    profile: Profile,
) -> Result<Option<Difference>, Unread>
    // If the bytes of both sources are known, and they returned no error in the call: of what these bytes are.
    ensures compares { ComparesBoth R.Source S.Source profile first.old first.new second.old second.new result }
    // So if there is no difference, both are streams, of the same format and the same samples.
    ensures same { result ≡ Ok None → AreBothSame R.Source S.Source profile first.old first.new second.old second.new }
    ensures names { R.names first.new ≡ R.names first.old }
    ensures second_names { S.names second.new ≡ S.names second.old }
{
    let opened = match open(alloc, first, profile, Keep::Tags) {
        Ok(opened) => opened,
        Err(refused) => return Err(Unread::First(refused.fault)),
    };
    match opened {
        Opened::Native(reader) => {
            let mut reader = reader;
            let outcome = compare_with(alloc, &mut reader, second, profile);
            let decoder = reader.into_decoder();
            let fronted = decoder.into_source();
            let Fronted {
                front: _,
                source: _source, // for its clauses alone
            } = fronted;
            outcome
        }
        Opened::Ogg(reader) => {
            let mut reader = reader;
            let outcome = compare_with(alloc, &mut reader, second, profile);
            let decoder = reader.into_decoder();
            let packets = decoder.into_container();
            let fronted = packets.into_source();
            let Fronted {
                front: _,
                source: _source, // for its clauses alone
            } = fronted;
            outcome
        }
    }
}
