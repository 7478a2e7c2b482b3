//! Recodings: what `flac recode` is asked for.

ghost use Rattle.std.specs.Prelude.{◌≡◌, Some, option_map};
ghost use Rattle.flac_jobs.specs.Asks.{input_of, list_of, output_of};

use crate::formats::ContainerKind;
use crate::jobs::Job;
use crate::search_effort::SearchEffort;
use std::alloc::Global;

/// A stream whose samples are encoded anew, with its metadata blocks.
#[derive(Debug, Drop)]
pub struct Recoding<'a> {
    /// The path of the stream.
    pub input: &'a str,
    /// The path of the new stream.
    pub output: &'a str,
    /// Block size in inter-channel samples.
    pub block: u32,
    /// Inter-channel samples from one seek point to the next; 0 for no seek table.
    pub seek_every: u32,
    /// The container of the new stream.
    pub container: ContainerKind,
    /// Whether the new stream may be outside the streamable subset (RFC 9639, section 7).
    pub lax: bool,
    /// The path of a list of linear predictors, which the encoder tries too; `None` if there is none.
    pub predictors: Option<&'a str>,
    /// How far the encoder seeks others for each block.
    pub effort: SearchEffort,
    /// Whether the new stream replaces the file of its path, whatever that is.
    pub force: bool,
}

impl<'a> Recoding<'a> {
    /// The encoding of a WAV file with the same paths and options, but without comments: it has the files of the
    /// recoding, and may replace the same ones.
    pub fn to_encoding(&self, alloc: Global) -> Job<'a>
        ensures input { input_of result ≡ self.now.input.now }
        ensures output { output_of result ≡ Some self.now.output.now }
        ensures list { list_of result ≡ option_map (λ path. path.now) self.now.predictors }
    {
        Job::EncodeWave {
            input: self.input,
            output: self.output,
            block: self.block,
            seek_every: self.seek_every,
            container: self.container,
            comments: Vec::new(alloc),
            lax: self.lax,
            predictors: self.predictors,
            effort: self.effort,
            keep: false,
            to_end: false,
        }
    }
}
