//! Decodes one stream of a chain.

ghost use Rattle.std.specs.Prelude.{◌≡◌, ◌≢◌, ◌<◌, ◌≤◌, OnOk, OnErr, IfErr};
ghost use Rattle.flac_chain.specs.inner.Linked.{IsPassedTo, RisesTo};
ghost use Rattle.flac_around.specs.inner.Walking.{IsCalm};
ghost use Rattle.flac_chain.specs.Calls.{ReadsLink, KeepsLater, RefusesLink};

use flac_around::{ChainLink, Trimmed};
use flac_bits::{Source, Why};
use flac_native::{Fault, Place, Profile, Sink};
use flac_ogg::decode_any;
use std::alloc::Global;

/// What was read of a stream, and the source after it.
#[derive(Drop)]
pub(crate) struct LinkRead<R> {
    pub(crate) source: R,
    pub(crate) outcome: Result<(), Fault>,
}

/// Skips what is left of a stream.
fn end_link<R: Source>(link: ChainLink<R>) -> LinkRead<R>
    ensures over { OnOk result.outcome (IsPassedTo link result.source) }
    ensures counted { OnOk result.outcome (IsCalm R.Source link.source result.source) }
    ensures rises { OnErr result.outcome (RisesTo link result.source) }
    ensures kept { R.errors link.began.value ≤ R.errors result.source }
    ensures names { R.names result.source ≡ R.names link.source }
{
    let mut link = link;
    match link.pass() {
        Ok(()) => LinkRead {
            source: link.into_source(),
            outcome: Ok(()),
        },
        Err(_) => LinkRead {
            source: link.into_source(),
            outcome: Err(Fault {
                at: Place::End,
                why: Why::Read,
            }),
        },
    }
}

/// Decodes the first stream that comes from a source, without the empty packets at its end.
pub(crate) fn decode_link<R: Source, S: Sink>(
    alloc: Global,
    source: R,
    profile: Profile,
    sink: &mut S,
) -> LinkRead<R>
    ensures takes { ReadsLink R.Source S.Sink profile source sink.old sink.new result }
    ensures later { KeepsLater R.Source source result }
    ensures refused { RefusesLink R.Source S.Sink profile source sink.old sink.new result }
    ensures counted { OnOk result.outcome (IsCalm R.Source source result.source) }
    ensures names { S.names sink.new ≡ S.names sink.old }
    ensures source_names { R.names result.source ≡ R.names source }
{
    let mut trimmed = Trimmed::new(ChainLink::new(source));
    match decode_any(alloc, &mut trimmed, profile, sink) {
        Ok(()) => end_link(trimmed.into_source()),
        Err(fault) => {
            let link = trimmed.into_source();
            LinkRead {
                source: link.into_source(),
                outcome: Err(fault),
            }
        }
    }
}
