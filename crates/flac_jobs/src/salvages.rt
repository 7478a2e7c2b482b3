//! Salvages: what `flac salvage` is asked for.

ghost use Rattle.std.specs.Prelude.{◌≡◌};
ghost use Rattle.flac_jobs.specs.Salvages.{recoding_for};

use crate::formats::ContainerKind;
use crate::recodings::Recoding;
use crate::search_effort::SearchEffort;

/// What a salvaged stream has in place of samples that are lost.
#[derive(Clone, Copy, Debug, PartialEq, Eq)]
pub enum Filling {
    /// As many zeros.
    Silence,
    /// None: what is after them follows at once.
    Nothing,
}

/// A damaged stream whose whole frames are encoded anew.
#[derive(Debug, Drop)]
pub struct Salvage<'a> {
    /// The path of the damaged stream.
    pub input: &'a str,
    /// The path of the new stream.
    pub output: &'a str,
    /// What takes the place of samples that are lost.
    pub filling: Filling,
    /// Whether the new stream may be outside the streamable subset (RFC 9639, section 7).
    pub lax: bool,
    /// Whether the new stream replaces the file of its path, whatever that is.
    pub force: bool,
}

impl<'a> Salvage<'a> {
    /// How the samples that are found are encoded: as a recoding of the same paths encodes those of a whole stream,
    /// native, in blocks of 4096 samples, without a seek table and without a list of predictors.
    pub fn to_recoding(&self) -> Recoding<'a>
        ensures { result ≡ recoding_for self.now }
    {
        Recoding {
            input: self.input,
            output: self.output,
            block: 4096,
            seek_every: 0,
            container: ContainerKind::Native,
            lax: self.lax,
            predictors: None,
            effort: SearchEffort::Quick,
            force: self.force,
        }
    }
}
