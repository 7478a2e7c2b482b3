//! The subframe of a choice, written.

ghost use Rattle.std.specs.Prelude.{◌≡◌, ◌<◌, ◌≤◌, length, All};
ghost use Rattle.flac_bits.specs.Signed.{FitsBits};
ghost use Rattle.flac_bits.specs.Written.{Writes};
ghost use Rattle.flac_subframe.specs.search.Choices.{form_of, IsMadeOf, IsMadeWith, spelling_with};
ghost use Rattle.flac_subframe.specs.format.Spelling.{subframe_spelling};

use crate::format::linear::LinearPredictor;
use crate::format::numbers::APART;
use crate::format::writing::write_chosen;
use crate::search::chosen::{Choice, MOST_SAMPLES};
use crate::search::tables::filled;
use flac_bits::{BitWriter, Target, Why};

/// Writes the subframe that was chosen for samples of a depth (RFC 9639, section 9.2).
///
/// The choice is one that was made of these samples at this depth. The work is done in arrays of 1 MB on the stack; for
/// many blocks [`crate::write_subframe_in`] takes arrays that are used again.
///
/// # Errors
/// [`Why::Write`] if the target fails.
pub fn write_subframe<W: Target>(
    choice: &Choice,
    samples: &[i64],
    depth: u32,
    bits: &mut BitWriter<W>,
) -> Result<(), Why>
    requires some { 0 < length samples.now }
    requires few { length samples.now ≤ 65535 }
    requires depth { (1 ≤ depth) × (depth ≤ 33) }
    requires fits { All (FitsBits depth) samples.now }
    requires made { IsMadeOf choice.now samples.now }
    ensures { Writes (subframe_spelling depth (form_of choice.now samples.now)) bits.old bits.new result }
{
    write_subframe_with(choice, &[], samples, depth, bits)
}

/// Writes the subframe that was chosen for samples of a depth with linear predictors beside the fixed ones (RFC 9639,
/// section 9.2).
///
/// The choice is one that was made of these samples at this depth with just these predictors. The work is done in
/// arrays of 1 MB on the stack; for many blocks [`crate::write_subframe_in`] takes arrays that are used again.
///
/// # Errors
/// [`Why::Write`] if the target fails.
pub fn write_subframe_with<W: Target>(
    choice: &Choice,
    predictors: &[LinearPredictor],
    samples: &[i64],
    depth: u32,
    bits: &mut BitWriter<W>,
) -> Result<(), Why>
    requires some { 0 < length samples.now }
    requires few { length samples.now ≤ 65535 }
    requires depth { (1 ≤ depth) × (depth ≤ 33) }
    requires fits { All (FitsBits depth) samples.now }
    requires made { IsMadeWith predictors.now choice.now samples.now }
    ensures { Writes (spelling_with predictors.now choice.now depth samples.now) bits.old bits.new result }
{
    let mut places: [i64; 2 * MOST_SAMPLES + APART] = filled(0);
    write_chosen(
        &choice.lent(),
        predictors,
        samples,
        depth,
        &mut places,
        &mut [],
        bits,
    )
}
