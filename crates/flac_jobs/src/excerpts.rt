//! Excerpts: what `flac decode` is asked for with `--from` or `--to`.

ghost use Rattle.std.specs.Prelude.{◌≡◌, true, false, Some, None};
ghost use Rattle.flac_jobs.specs.Asks.{AsksDecode, AsksDecodeWave, asks_lax, input_of, output_of};
ghost use Rattle.flac_jobs.specs.Moments.{sample_at};

use crate::jobs::Job;

/// A point of a stream, between two inter-channel samples.
#[derive(Clone, Copy, Debug, PartialEq, Eq)]
pub enum Moment {
    /// Before the inter-channel sample of this number; the first has number 0.
    Sample(u64),
    /// So many nanoseconds after the beginning.
    Time(u64),
}

impl Moment {
    /// How many inter-channel samples are before this point at a sample rate in Hz: those that end at it or before it,
    /// up to 2^64 - 1.
    #[tactic(auto, unfolding(crate::specs::Moments::sample_at))]
    pub fn sample_at(self, rate: u32) -> u64
        ensures { result ≡ sample_at self rate }
    {
        match self {
            Moment::Sample(number) => number,
            Moment::Time(nanoseconds) => {
                let samples = u128::from(nanoseconds) * u128::from(rate) / 1_000_000_000;
                samples.min(u128::from(u64::MAX)) as u64
            }
        }
    }
}

/// A part of the samples of a stream that is decoded.
#[derive(Debug, Drop)]
pub struct Excerpt<'a> {
    /// The path of the stream.
    pub input: &'a str,
    /// The path of the file that is written.
    pub output: &'a str,
    /// Where the part begins.
    pub from: Moment,
    /// Where it ends; `None` if at the end of the stream. It may be before `from` if one is a time and the other is
    /// not.
    pub to: Option<Moment>,
    /// Whether a plain WAV file is written; else raw samples are.
    pub wave: bool,
    /// Whether streams outside the streamable subset (RFC 9639, section 7) are accepted too.
    pub lax: bool,
    /// Whether the stream is read between the tags that other programs put around one.
    pub any: bool,
    /// Whether the file that is written is replaced, whatever it is.
    pub force: bool,
}

impl<'a> Excerpt<'a> {
    /// The decoding of the whole stream with the same paths: it has the files of the excerpt, and may replace the same
    /// ones.
    pub fn to_job(&self) -> Job<'a>
        ensures input { input_of result ≡ self.now.input.now }
        ensures output { output_of result ≡ Some self.now.output.now }
        ensures wave { self.now.wave ≡ true → AsksDecodeWave result }
        ensures raw { self.now.wave ≡ false → AsksDecode result }
        ensures lax { asks_lax result ≡ self.now.lax }
    {
        let (input, output, lax) = (self.input, self.output, self.lax);
        if self.wave {
            Job::DecodeWave { input, output, lax }
        } else {
            Job::Decode { input, output, lax }
        }
    }
}
