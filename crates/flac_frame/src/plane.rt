//! A channel as a frame has it, and its shortest subframe.

ghost use Rattle.std.specs.Prelude.{◌≡◌, ◌<◌, ◌≤◌, ◌^◌, length, vec_len, All};
ghost use Rattle.flac_bits.specs.Signed.{FitsBits};
ghost use Rattle.flac_subframe.specs.search.Choices.{IsMadeIn};
ghost use Rattle.flac_frame.specs.Encoding.{partition_limit};
ghost use Rattle.flac_frame.specs.PlaneLists.{lists_of};
ghost use Rattle.flac_frame.specs.inner.Subject.{HasOrders, IsPlaneChoice};

use crate::limits::limits_at;
use crate::subject::Subject;
use flac_subframe::{WideChoice, Workspace, choose_in};

/// Chooses a shortest subframe of the samples of a plane, of a depth, under the profile of a subject and with the
/// predictors that it has for the plane.
pub(crate) fn choose_plane(
    samples: &[i64],
    depth: u32,
    plane: usize,
    subject: &Subject<'_>,
    workspace: &mut Workspace,
    choice: &mut WideChoice,
)
    requires some { 0 < length samples.now }
    requires block { length samples.now ≤ workspace.old.block }
    requires depth { (1 ≤ depth) × (depth ≤ 33) }
    requires fits { All (FitsBits depth) samples.now }
    requires partition { partition_limit subject.now.audio.now ≤ workspace.old.most }
    requires places { 2 ^ partition_limit subject.now.audio.now ≤ vec_len choice.old.codings }
    requires orders { HasOrders subject.now }
    ensures chosen { IsPlaneChoice subject.now plane depth samples.now choice.new }
    ensures made { IsMadeIn (lists_of subject.now.predictors.now plane) choice.new samples.now }
    // proof only
    ensures small { choice.new.bits ≤ 2 ^ 61 }
    ensures places { vec_len choice.new.codings ≡ vec_len choice.old.codings }
    ensures room { workspace.new ≡ workspace.old }
{
    let audio = subject.audio;
    let limits = limits_at(audio.profile(), audio.rate());
    let predictors = subject.predictors.list(plane);
    choose_in(samples, depth, &limits, predictors, workspace, choice);
}
