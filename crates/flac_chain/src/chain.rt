//! Decodes Ogg streams one after another.

ghost use Rattle.std.specs.Prelude.{◌≡◌, OnOk};
ghost use Rattle.flac_around.specs.inner.Walking.{IsCalm};
ghost use Rattle.flac_chain.specs.inner.Rounds.{ReadsRound, RefusesRound, FollowsRound};
ghost use Rattle.flac_chain.specs.Chaining.{ReadsChain, RefusesChain};

use crate::following::{Follows, look_on};
use crate::link::{LinkRead, decode_link};
use flac_bits::{Source, Why};
use flac_native::{Fault, Place, Profile, Sink};
use flac_ogg::Fronted;
use std::alloc::Global;

/// Where and why a chain is refused, or where reading was broken off.
#[derive(Clone, Copy)]
pub struct ChainFault {
    /// Which stream of the chain it is, counted from 0.
    pub stream: u64,
    /// The place in this stream, and the reason.
    pub fault: Fault,
}

/// The outcome of reading a chain, and its source.
#[derive(Drop)]
pub struct ChainRead<R> {
    /// The source, after the bytes that were read.
    pub source: R,
    /// The fault, if the chain is refused.
    pub outcome: Result<(), ChainFault>,
}

/// What was read of a stream of a chain, and what follows it.
#[derive(Drop)]
pub(crate) struct Round<R: Source> {
    fronted: Fronted<R>,
    outcome: Result<Follows, Fault>,
}

/// Decodes the next stream, and looks at what follows.
fn decode_round<R: Source, S: Sink>(
    alloc: Global,
    fronted: Fronted<R>,
    profile: Profile,
    sink: &mut S,
) -> Round<R>
    ensures takes { ReadsRound R.Source S.Sink profile fronted sink.old sink.new result }
    ensures follows { FollowsRound R.Source fronted result }
    ensures refused { RefusesRound R.Source S.Sink profile fronted sink.old sink.new result }
    ensures counted { OnOk result.outcome (IsCalm R.Source fronted.source result.fronted.source) }
    ensures names { S.names sink.new ≡ S.names sink.old }
    ensures source_names { R.names result.fronted.source ≡ R.names fronted.source }
{
    let LinkRead { source, outcome } = decode_link(alloc, fronted, profile, sink);
    let mut fronted = source;
    match outcome {
        Ok(()) => {
            let outcome = look_on(&mut fronted);
            Round { fronted, outcome }
        }
        Err(fault) => Round {
            fronted,
            outcome: Err(fault),
        },
    }
}

/// Decodes Ogg streams one after another (RFC 3533, section 4), and passes the metadata blocks and frames of each to
/// the sink: STREAMINFO is the first block of a stream. Each stream is read without the empty packets that other
/// programs write at its end. A source of one stream is read as by [`decode_any`], native or Ogg.
///
/// ```
/// let ChainRead { source: _, outcome } = decode_chain(rt.alloc(), source, Profile::Lax, &mut sink);
/// outcome?;
/// ```
///
/// # Errors
/// That of [`decode_any`] for the first stream that is refused; [`Why::BadPage`] at page 0 of a stream if bytes that
/// begin no page follow the one before; [`Why::Read`] at the end of a stream if the source fails there.
///
/// [`decode_any`]: flac_ogg::decode_any
pub fn decode_chain<R: Source, S: Sink>(
    alloc: Global,
    source: R,
    profile: Profile,
    sink: &mut S,
) -> ChainRead<R>
    // Ok only if the bytes are streams one after another, whose items the sink took, in order.
    ensures takes { ReadsChain R.Source S.Sink profile source sink.old sink.new result }
    // Refused only as the bytes are: in which stream, where and why.
    ensures refused { RefusesChain R.Source S.Sink profile source sink.old sink.new result }
    // Ok only if the source returned no error.
    ensures counted { OnOk result.outcome (IsCalm R.Source source result.source) }
    ensures names { S.names sink.new ≡ S.names sink.old }
    ensures source_names { R.names result.source ≡ R.names source }
{
    let mut fronted = Fronted {
        front: None,
        source,
    };
    for stream in 0..u64::MAX {
        let round = decode_round(alloc, fronted, profile, sink);
        fronted = round.fronted;
        let next = match round.outcome {
            Ok(next) => next,
            Err(fault) => {
                return ChainRead {
                    source: fronted.source,
                    outcome: Err(ChainFault { stream, fault }),
                };
            }
        };
        match next {
            Follows::Page => {}
            Follows::Nothing => {
                return ChainRead {
                    source: fronted.source,
                    outcome: Ok(()),
                };
            }
            Follows::Other => {
                let fault = Fault {
                    at: Place::Page(0),
                    why: Why::BadPage,
                };
                return ChainRead {
                    source: fronted.source,
                    outcome: Err(ChainFault {
                        stream: stream + 1,
                        fault,
                    }),
                };
            }
        }
    }
    let fault = Fault {
        at: Place::End,
        why: Why::Memory,
    };
    ChainRead {
        source: fronted.source,
        outcome: Err(ChainFault {
            stream: u64::MAX,
            fault,
        }),
    }
}
