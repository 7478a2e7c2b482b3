//! Wasted bits: the lowest bits that are zero in all samples (RFC 9639, section 9.2.2).

ghost use Rattle.std.specs.Prelude.{◌≡◌, ◌<◌, ◌≤◌, ◌+ℤ◌, ℕ, length, All, IsTrue, map};
ghost use Rattle.std.specs.Int.{int_shr};
ghost use Rattle.flac_bits.specs.Signed.{FitsBits};
ghost use Rattle.flac_subframe.specs.format.Numbers.{sample_at};
ghost use Rattle.flac_subframe.specs.format.Wasted.{IsWasted, times_power};
ghost use Rattle.flac_subframe.specs.format.inner.Writing.{AreEven};

/// Whether each sample is even.
fn all_even(samples: &[i64]) -> bool
    requires { All (FitsBits 33) samples.now }
    ensures even { IsTrue result → AreEven samples.now }
    ensures odd { AreEven samples.now → IsTrue result }
{
    for sample in samples {
        let half = *sample >> 1;
        if half + half != *sample {
            return false;
        }
    }
    true
}

/// Halves each sample, rounded down.
fn halve(samples: &mut [i64])
    requires { All (FitsBits 33) samples.old }
    // proof only
    ensures long { length samples.new ≡ length samples.old }
    ensures half { (i : ℕ) → i < length samples.old → sample_at samples.new i ≡ int_shr (sample_at samples.old i) 1 }
    ensures fits { All (FitsBits 33) samples.new }
{
    for sample in samples.iter_mut() {
        *sample = *sample >> 1;
    }
}

/// Counts the wasted bits, and writes the samples without them to `shortened`.
fn drop_wasted(samples: &[i64], bits: u32, shortened: &mut [i64]) -> u32
    requires positive { 1 ≤ bits }
    requires bits { bits ≤ 33 }
    requires fits { All (FitsBits bits) samples.now }
    requires places { length shortened.old ≡ length samples.now }
    ensures wasted { IsWasted result samples.now }
    ensures some { result < bits }
    ensures shortened { samples.now ≡ map (times_power result) shortened.new }
    ensures fits { All (FitsBits 33) shortened.new }
{
    shortened.copy_from_slice(samples);
    for wasted in 0..bits {
        if !all_even(shortened) {
            return wasted;
        }
        halve(shortened);
    }
    0
}

/// Counts the wasted bits. The samples without them are the samples themselves if there are none, and otherwise they
/// are written to `places`.
pub(crate) fn without_wasted<'a>(
    samples: &'a [i64],
    bits: u32,
    places: &'a mut [i64],
) -> (u32, &'a [i64])
    requires positive { 1 ≤ bits }
    requires bits { bits ≤ 33 }
    requires fits { All (FitsBits bits) samples.now }
    requires places { length places.old ≡ length samples.now }
    ensures wasted { IsWasted result.0 samples.now }
    ensures some { result.0 < bits }
    ensures shortened { samples.now ≡ map (times_power result.0) result.1.now }
    ensures fits { All (FitsBits 33) result.1.now }
{
    if !all_even(samples) {
        return (0, samples);
    }
    let wasted = drop_wasted(samples, bits, places);
    (wasted, places)
}
