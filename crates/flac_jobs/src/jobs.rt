//! Jobs: what the program is asked for.

ghost use Rattle.std.specs.Prelude.{◌≡◌, option_map};
ghost use Rattle.flac_jobs.specs.Asks.{input_of, list_of, output_of};

use crate::formats::{ContainerKind, RawFormat};
use crate::search_effort::SearchEffort;

/// What the program is asked for: one variant for each command, with what was given on the command line.
///
/// `input` is the path of the file that is read, `output` that of the file that is written. A comment is a text
/// `NAME=VALUE`. With `lax` streams outside the streamable subset (RFC 9639, section 7) are accepted too, and written.
#[derive(Debug, Drop)]
pub enum Job<'a> {
    /// Decodes a stream, and prints how many frames and samples it has.
    Test {
        input: &'a str,
        lax: bool,
    },
    /// Decodes a stream, and writes its samples.
    Decode {
        input: &'a str,
        output: &'a str,
        lax: bool,
    },
    /// Decodes a stream, and lists its metadata.
    List {
        input: &'a str,
        lax: bool,
    },
    /// Encodes raw samples of this format to a native or an Ogg stream with these comments.
    ///
    /// `predictors` is the path of a list of linear predictors, which the encoder tries too; `None` if there is none.
    /// `effort` is how far it seeks others for each block. With `raw` any bytes are samples, also those that begin as a
    /// file of another kind ([`file_kind`]).
    ///
    /// [`file_kind`]: crate::file_kind
    Encode {
        input: &'a str,
        output: &'a str,
        format: RawFormat,
        container: ContainerKind,
        comments: Vec<&'a str>,
        lax: bool,
        predictors: Option<&'a str>,
        effort: SearchEffort,
        raw: bool,
    },
    /// Decodes a stream, and writes the WAV file that its blocks keep.
    DecodeWave {
        input: &'a str,
        output: &'a str,
        lax: bool,
    },
    /// Encodes a WAV file to a native or an Ogg stream with these comments, which with `keep` keeps all of the file.
    /// With `to_end`, samples that are longer than the file are those up to its end.
    ///
    /// `block` is the block size in inter-channel samples; `seek_every` the inter-channel samples from one seek point
    /// to the next, 0 for no seek table; `predictors` and `effort` as for `Encode`.
    EncodeWave {
        input: &'a str,
        output: &'a str,
        block: u32,
        seek_every: u32,
        container: ContainerKind,
        comments: Vec<&'a str>,
        lax: bool,
        predictors: Option<&'a str>,
        effort: SearchEffort,
        keep: bool,
        to_end: bool,
    },
    /// Writes a stream with these comments in place of its own.
    Retag {
        input: &'a str,
        output: &'a str,
        comments: Vec<&'a str>,
    },
}

/// What a command line asks for.
#[derive(Debug, Drop)]
pub struct CommandLine<'a> {
    /// The job.
    pub job: Job<'a>,
    /// Whether it replaces the file that it writes, whatever that is.
    pub force: bool,
    /// Whether it reads the stream between the tags that other programs put around one. It reads a stream then.
    pub any: bool,
}

impl<'a> Job<'a> {
    /// The path of the file that is read.
    pub fn input(&self) -> &'a str
        ensures { result.now ≡ input_of self.now }
    {
        match self {
            Job::Test { input, .. } | Job::List { input, .. } => input,
            Job::Decode { input, .. } | Job::Encode { input, .. } => input,
            Job::DecodeWave { input, .. } | Job::EncodeWave { input, .. } => input,
            Job::Retag { input, .. } => input,
        }
    }

    /// The path of the file that is written; `None` if the job writes none.
    pub fn output(&self) -> Option<&'a str>
        ensures { option_map (λ path. path.now) result ≡ output_of self.now }
    {
        match self {
            Job::Test { .. } | Job::List { .. } => None,
            Job::Decode { output, .. } | Job::Encode { output, .. } => Some(output),
            Job::DecodeWave { output, .. } | Job::EncodeWave { output, .. } => Some(output),
            Job::Retag { output, .. } => Some(output),
        }
    }

    /// The path of the list of predictors; `None` if the job reads none.
    pub fn predictors(&self) -> Option<&'a str>
        ensures { option_map (λ path. path.now) result ≡ list_of self.now }
    {
        match self {
            Job::Encode { predictors, .. } | Job::EncodeWave { predictors, .. } => *predictors,
            _ => None,
        }
    }
}
