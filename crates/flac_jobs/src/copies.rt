//! Copies: what `flac recode --copy` is asked for.

ghost use Rattle.std.specs.Prelude.{◌≡◌, Some, None};
ghost use Rattle.flac_jobs.specs.Asks.{input_of, list_of, output_of};

use crate::formats::ContainerKind;
use crate::jobs::Job;
use crate::search_effort::SearchEffort;
use std::alloc::Global;

/// A stream whose frames are copied as they are, with its metadata blocks.
#[derive(Clone, Copy, Debug, PartialEq, Eq)]
pub struct StreamCopy<'a> {
    /// The path of the stream.
    pub input: &'a str,
    /// The path of the new stream.
    pub output: &'a str,
    /// The container of the new stream.
    pub container: ContainerKind,
    /// Whether the new stream replaces the file of its path, whatever that is.
    pub force: bool,
}

impl<'a> StreamCopy<'a> {
    /// The encoding of a WAV file with the same paths and the same container, but without comments: it has the files of
    /// the copy, and may replace the same ones.
    pub fn to_encoding(&self, alloc: Global) -> Job<'a>
        ensures input { input_of result ≡ self.now.input.now }
        ensures output { output_of result ≡ Some self.now.output.now }
        ensures list { list_of result ≡ None }
    {
        Job::EncodeWave {
            input: self.input,
            output: self.output,
            block: 4096,
            seek_every: 0,
            container: self.container,
            comments: Vec::new(alloc),
            lax: true,
            predictors: None,
            effort: SearchEffort::None,
            keep: false,
            to_end: false,
        }
    }
}
