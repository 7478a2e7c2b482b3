//! Parts of a stream and salvages, as they are asked for.

use flac_jobs::{ContainerKind, Excerpt, Filling, Moment, Recoding, Salvage, SearchEffort};
use std::process::Abort;
use std::test::Fail;

/// Moments, rates in Hz, and how many samples are before them.
const MOMENTS: [(Moment, u32, u64); 9] = [
    (Moment::Sample(0), 44100, 0),
    (Moment::Sample(u64::MAX), 1, u64::MAX),
    (Moment::Time(0), 44100, 0),
    (Moment::Time(90_000_000_000), 44100, 3_969_000),
    // the sample after the first begins after 22675.7 nanoseconds
    (Moment::Time(22_675), 44100, 0),
    (Moment::Time(22_676), 44100, 1),
    (Moment::Time(1_000_000_000), 1_048_575, 1_048_575),
    (Moment::Time(u64::MAX), 1_000_000_000, u64::MAX),
    (Moment::Time(u64::MAX), u32::MAX, u64::MAX),
];

#[test]
fn moments(rt: HostRuntime) -> Result<(), Fail> {
    for (moment, rate, sample) in MOMENTS {
        assert!(rt; moment.sample_at(rate) == sample);
    }
    Ok(())
}

/// The job whose files an excerpt has.
#[test]
fn excerpt_jobs(rt: HostRuntime) -> Result<(), Fail> {
    let rows = [
        (
            true,
            "DecodeWave { input: \"a.flac\", output: \"b\", lax: true }",
        ),
        (
            false,
            "Decode { input: \"a.flac\", output: \"b\", lax: true }",
        ),
    ];
    for (wave, wanted) in rows {
        let excerpt = Excerpt {
            input: "a.flac",
            output: "b",
            from: Moment::Sample(5),
            to: None,
            wave,
            lax: true,
            any: false,
            force: false,
        };
        let found = format!(in rt.alloc(); "{:?}", excerpt.to_job())?;
        assert!(rt; found.as_str() == wanted, "{found}");
    }
    Ok(())
}

/// The recoding that encodes what a salvage finds.
#[test]
fn salvage_recoding(rt: HostRuntime) -> Result<(), Fail> {
    let salvage = Salvage {
        input: "a.flac",
        output: "b.flac",
        filling: Filling::Nothing,
        lax: true,
        force: true,
    };
    let found = format!(in rt.alloc(); "{:?}", salvage.to_recoding())?;
    let wanted = Recoding {
        input: "a.flac",
        output: "b.flac",
        block: 4096,
        seek_every: 0,
        container: ContainerKind::Native,
        lax: true,
        predictors: None,
        effort: SearchEffort::Quick,
        force: true,
    };
    let wanted = format!(in rt.alloc(); "{wanted:?}")?;
    assert!(rt; found.as_str() == wanted.as_str(), "{found}");
    Ok(())
}
