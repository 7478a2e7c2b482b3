//! Why bytes are no samples of a format, and why they are not encoded.

ghost use Rattle.std.specs.Prelude.{Some, ◌≡◌};
ghost use Rattle.flac_raw.specs.Faults.{raw_text};
ghost use Rattle.flac_raw.specs.Encoded.{encode_text};
ghost use Rattle.flac_raw.specs.declared.raw_fault.RawFault.TheVariants.{Input, Setup};
ghost use Rattle.flac_raw.specs.declared.raw_fault.RawEncodeFault.TheVariants.{Raw, Encode};

use flac_bits::Why;
use flac_frame::SetupFault;
use flac_native::EncodeFault;
use std::fmt;

/// Why the bytes of a source are no samples of a format.
///
/// It prints as its number and its name: `48 RawLength`.
#[derive(Clone, Copy, Debug, PartialEq, Eq)]
pub enum RawFault {
    /// The source returned an error, or an allocation fails.
    Input(Why),
    /// The format or the samples cannot be encoded.
    Setup(SetupFault),
    /// The bytes are not a whole number of inter-channel samples.
    RawLength,
}

impl From<Why> for RawFault {
    ghost from_gives = { λ why e. e ≡ Input why };

    fn from(why: Why) -> RawFault {
        RawFault::Input(why)
    }
}

impl From<SetupFault> for RawFault {
    ghost from_gives = { λ fault e. e ≡ Setup fault };

    fn from(fault: SetupFault) -> RawFault {
        RawFault::Setup(fault)
    }
}

impl RawFault {
    /// The number and the name of the reason: `48 RawLength`.
    pub fn as_str(self) -> &'static str
        ensures { result.now ≡ raw_text self }
    {
        match self {
            RawFault::Input(why) => why.as_str(),
            RawFault::Setup(fault) => fault.as_str(),
            RawFault::RawLength => "48 RawLength",
        }
    }
}

impl fmt::Display for RawFault {
    ghost output = { λ fault. Some (raw_text fault) };

    fn fmt<W: fmt::Write>(&self, f: &mut fmt::Formatter<W>) -> fmt::Result {
        f.write_str(self.as_str())
    }
}

impl std::error::Error for RawFault {}

/// Why raw samples are not encoded block by block.
///
/// It prints as its number and its name: `94 Changed`.
#[derive(Clone, Copy, Debug, PartialEq, Eq)]
pub enum RawEncodeFault {
    /// The bytes are no samples of the format, or these cannot be divided into blocks; or the source failed, or an
    /// allocation.
    Raw(RawFault),
    /// The stream cannot be written.
    Encode(EncodeFault),
    /// The second time other bytes were read than the first time: another number of samples, or one that does not fit.
    Changed,
}

impl From<Why> for RawEncodeFault {
    ghost from_gives = { λ why e. e ≡ Raw (Input why) };

    fn from(why: Why) -> RawEncodeFault {
        RawEncodeFault::Raw(RawFault::Input(why))
    }
}

impl From<SetupFault> for RawEncodeFault {
    ghost from_gives = { λ fault e. e ≡ Raw (Setup fault) };

    fn from(fault: SetupFault) -> RawEncodeFault {
        RawEncodeFault::Raw(RawFault::Setup(fault))
    }
}

impl From<RawFault> for RawEncodeFault {
    ghost from_gives = { λ fault e. e ≡ Raw fault };

    fn from(fault: RawFault) -> RawEncodeFault {
        RawEncodeFault::Raw(fault)
    }
}

impl From<EncodeFault> for RawEncodeFault {
    ghost from_gives = { λ fault e. e ≡ Encode fault };

    fn from(fault: EncodeFault) -> RawEncodeFault {
        RawEncodeFault::Encode(fault)
    }
}

impl RawEncodeFault {
    /// The number and the name of the reason: `94 Changed`.
    pub fn as_str(self) -> &'static str
        ensures { result.now ≡ encode_text self }
    {
        match self {
            RawEncodeFault::Raw(fault) => fault.as_str(),
            RawEncodeFault::Encode(fault) => fault.as_str(),
            RawEncodeFault::Changed => "94 Changed",
        }
    }
}

impl fmt::Display for RawEncodeFault {
    ghost output = { λ fault. Some (encode_text fault) };

    fn fmt<W: fmt::Write>(&self, f: &mut fmt::Formatter<W>) -> fmt::Result {
        f.write_str(self.as_str())
    }
}

impl std::error::Error for RawEncodeFault {}
