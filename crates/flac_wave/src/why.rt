//! Why a file is no WAV file.

ghost use Rattle.std.specs.Prelude.{◌≡◌};
ghost use Rattle.flac_wave.specs.Reasons.{number_of, text_of};

/// Why a file is refused as a WAV file.
#[derive(Clone, Copy, Debug, PartialEq, Eq)]
pub enum WaveWhy {
    /// The file does not begin with `RIFF`, `RF64` or `BW64`, a length and `WAVE`.
    NotWave,
    /// The file ends inside a chunk before the samples.
    ChunkCut,
    /// A chunk before the samples is longer than a metadata block can keep: than 16777211 bytes with its header.
    ChunkLength,
    /// The samples come before a chunk `fmt `.
    NoFormat,
    /// There is a second chunk `fmt `.
    RepeatedFormat,
    /// The chunk `fmt ` has fewer than 16 bytes.
    FormatLength,
    /// The samples are not PCM: floating point, or compressed.
    Coding,
    /// The fields of the chunk `fmt ` do not fit one another, or there are more than 8 channels or 32 bits.
    FormatFields,
    /// There is no chunk `data`.
    NoData,
    /// The chunk `data` is longer than what is left of the file.
    DataCut,
    /// The last inter-channel sample is not whole.
    PartSample,
    /// The chunk `data` states 0 bytes, and what follows it is no chunk: the writer ended before it stated the length.
    DataUnstated,
}

impl WaveWhy {
    /// The number of the reason, 60 to 70 or 92.
    pub fn number(self) -> u32
        ensures { result ≡ number_of self }
    {
        match self {
            WaveWhy::NotWave => 60,
            WaveWhy::ChunkCut => 61,
            WaveWhy::ChunkLength => 62,
            WaveWhy::NoFormat => 63,
            WaveWhy::RepeatedFormat => 64,
            WaveWhy::FormatLength => 65,
            WaveWhy::Coding => 66,
            WaveWhy::FormatFields => 67,
            WaveWhy::NoData => 68,
            WaveWhy::DataCut => 69,
            WaveWhy::PartSample => 70,
            WaveWhy::DataUnstated => 92,
        }
    }

    /// The number and the name of the reason, as `60 NotWave`.
    pub fn as_str(self) -> &'static str
        ensures { result.now ≡ text_of self }
    {
        match self {
            WaveWhy::NotWave => "60 NotWave",
            WaveWhy::ChunkCut => "61 ChunkCut",
            WaveWhy::ChunkLength => "62 ChunkLength",
            WaveWhy::NoFormat => "63 NoFormat",
            WaveWhy::RepeatedFormat => "64 RepeatedFormat",
            WaveWhy::FormatLength => "65 FormatLength",
            WaveWhy::Coding => "66 Coding",
            WaveWhy::FormatFields => "67 FormatFields",
            WaveWhy::NoData => "68 NoData",
            WaveWhy::DataCut => "69 DataCut",
            WaveWhy::PartSample => "70 PartSample",
            WaveWhy::DataUnstated => "92 DataUnstated",
        }
    }
}
