//! What `flac verify` reports of a stream, or of several.

ghost use Rattle.std.specs.Prelude.{◌≡◌, true, false, [], None, IfOk};
ghost use Rattle.flac_native.specs.Stream.{info_after, is_unknown};
ghost use Rattle.flac_cli.specs.Changes.{stated, digest_of};
ghost use Rattle.flac_cli.specs.inner.Taking.{frames_after, samples_after, info_of, AreNone, Learns, DescribesStream, NamesContainer, CountsFlaw};

use crate::test::Counts;
use flac_bits::Source;
use flac_chain::{ChainFault, ChainRead, decode_chain};
use flac_frame::FrameView;
use flac_meta::{Block, StreamInfo};
use flac_native::{Fault, Profile, Sink, SinkFault};
use flac_ogg::{Fronted, begins_page, pull_front};
use std::alloc::Global;

/// What a stream is, or Ogg streams one after another (RFC 3533, section 4).
#[derive(Drop)]
pub(crate) struct Facts {
    /// How many frames and samples they have together.
    pub(crate) counts: Counts,
    /// The STREAMINFO of the first one (RFC 9639, section 8.2); `None` before it is read.
    pub(crate) info: Option<StreamInfo>,
    /// How many streams there are, up to 2^64 - 1.
    pub(crate) streams: u64,
    /// Whether one of them states no digest of its samples.
    pub(crate) no_digest: bool,
    /// Whether one of them does not state how many samples it has.
    pub(crate) no_total: bool,
    /// Whether they are in Ogg (section 10.1); else there is one, which is native (section 6).
    pub(crate) is_ogg: bool,
    /// Whether one of them is known not to be in the streamable subset (section 7).
    pub(crate) outside: bool,
}

/// What is wrong with a file.
#[derive(Clone, Copy)]
pub(crate) struct Flaw {
    /// Which of the streams is refused, counted from 0.
    pub(crate) stream: u64,
    /// Where and why it is refused.
    pub(crate) fault: Fault,
    /// How many samples each channel has of the frames before, of all streams, up to 2^64 - 1.
    pub(crate) samples: u64,
}

/// The STREAMINFO of a block, if it is one.
fn info_of(block: &Block) -> Option<StreamInfo>
    ensures { result ≡ info_after None block.now }
{
    match block {
        Block::StreamInfo(found) => Some(*found),
        _ => None,
    }
}

/// Whether a digest of STREAMINFO is unknown: all its bytes are 0.
fn is_unknown(digest: &[u8]) -> bool
    ensures { result ≡ is_unknown digest.now }
{
    digest.iter().all(|byte| *byte == 0)
}

/// A digest, if it is stated.
fn stated(digest: [u8; 16]) -> Option<[u8; 16]>
    ensures { result ≡ stated digest }
{
    if is_unknown(&digest) {
        return None;
    }
    Some(digest)
}

impl Facts {
    /// Of nothing.
    fn none() -> Facts
        ensures { AreNone result }
    {
        Facts {
            counts: Counts {
                frames: 0,
                samples: 0,
            },
            info: None,
            streams: 0,
            no_digest: false,
            no_total: false,
            is_ogg: false,
            outside: false,
        }
    }

    /// The digest of all samples: it is stated if there is one stream, which states it.
    pub(crate) fn digest(&self) -> Option<[u8; 16]>
        ensures { result ≡ digest_of self.now }
    {
        if self.streams > 1 {
            return None;
        }
        match self.info {
            Some(info) => stated(info.digest()),
            None => None,
        }
    }

    /// Takes the STREAMINFO with which a stream begins, if it is there.
    fn learn(&mut self, info: Option<StreamInfo>)
        ensures counts { self.new.counts ≡ self.old.counts }
        ensures learns { Learns self.old info self.new }
    {
        if let Some(info) = info {
            self.info = Some(self.info.unwrap_or(info));
            self.streams = self.streams.saturating_add(1);
            self.no_digest = self.no_digest || is_unknown(&info.digest());
            self.no_total = self.no_total || info.total() == 0;
        }
    }
}

impl Sink for Facts {
    ghost takes = { λ old item new. record {
      frames : new.counts.frames ≡ frames_after old.counts.frames item;
      samples : new.counts.samples ≡ samples_after old.counts.samples item;
      learns : Learns old (info_of item) new;
    } };

    ghost known = { λ _. true };

    ghost errors = { λ _. 0 };

    ghost names = { λ _. [] };

    fn block(&mut self, block: &Block) -> Result<(), SinkFault> {
        self.learn(info_of(block));
        Ok(())
    }

    fn frame(&mut self, frame: &FrameView<'_>) -> Result<(), SinkFault> {
        self.counts.frame(frame)
    }
}

/// What was read of a source, and the source after it.
#[derive(Drop)]
pub(crate) struct FactsRead<R> {
    pub(crate) source: R,
    pub(crate) outcome: Result<Facts, Flaw>,
}

/// Decodes a stream, or Ogg streams one after another, and returns what they are; `is_ogg` says in which container.
fn count_facts<R: Source>(alloc: Global, is_ogg: bool, source: R, profile: Profile) -> FactsRead<R>
    ensures facts { DescribesStream R.Source profile source result.source result.outcome }
    ensures container { IfOk result.outcome (λ facts. facts.is_ogg ≡ is_ogg) }
    ensures flaw { CountsFlaw R.Source profile source result.source result.outcome }
    ensures outside { IfOk result.outcome (λ facts. facts.outside ≡ false) }
{
    let mut facts = Facts::none();
    let ChainRead { source, outcome } = decode_chain(alloc, source, profile, &mut facts);
    match outcome {
        Ok(()) => FactsRead {
            source,
            outcome: Ok(Facts {
                is_ogg,
                outside: false,
                ..facts
            }),
        },
        Err(ChainFault { stream, fault }) => FactsRead {
            source,
            outcome: Err(Flaw {
                stream,
                fault,
                samples: facts.counts.samples,
            }),
        },
    }
}

/// Decodes a stream in either container, or Ogg streams one after another, and returns what they are.
pub(crate) fn read_facts<R: Source>(alloc: Global, source: R, profile: Profile) -> FactsRead<R>
    ensures facts { DescribesStream R.Source profile source result.source result.outcome }
    ensures container { NamesContainer R.Source source result.source result.outcome }
    ensures flaw { CountsFlaw R.Source profile source result.source result.outcome }
    ensures outside { IfOk result.outcome (λ facts. facts.outside ≡ false) }
{
    let mut source = source;
    match pull_front(&mut source) {
        Ok(front) => {
            let found = count_facts(
                alloc,
                begins_page(front),
                Fronted { front, source },
                profile,
            );
            let FactsRead {
                source: Fronted { front: _, source },
                outcome,
            } = found;
            FactsRead { source, outcome }
        }
        Err(fault) => FactsRead {
            source,
            outcome: Err(Flaw {
                stream: 0,
                fault,
                samples: 0,
            }),
        },
    }
}
