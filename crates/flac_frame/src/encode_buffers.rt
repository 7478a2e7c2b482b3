//! The working arrays of encoding.

ghost use Rattle.std.specs.Prelude.{◌≡◌, ◌≤◌, IfOk, IfErr};
ghost use Rattle.flac_frame.specs.Encoding.{most_in};

use crate::frame_choice::FrameChoice;
use crate::limits::limits_at;
use crate::pair_choices::PairChoices;
use flac_bits::Why;
use flac_header::Profile;
use flac_subframe::Workspace;
use std::alloc::Global;
use std::marker::Model;

/// The working arrays of encoding, which are allocated once.
///
/// ```
/// let mut buffers = EncodeBuffers::new(alloc, plan.block_size())?;
/// ```
pub struct EncodeBuffers {
    pub(crate) places: Vec<i64>,
    pub(crate) choices: PairChoices,
    pub(crate) choice: FrameChoice,
    pub(crate) workspace: Workspace,
}

impl Drop for EncodeBuffers {
    fn drop(self) {
        let EncodeBuffers {
            places: _,
            choices: _,
            choice: _,
            workspace: _,
        } = self;
    }
}

impl Model for EncodeBuffers {
    ghost use Rattle.std.specs.Prelude.{◌≡◌, ◌≤◌, ◌*◌, vec_len};
    ghost use Rattle.flac_subframe.specs.search.Capacity.{Capacity};
    ghost use Rattle.flac_frame.specs.Chosen.{HasPlaces};
    ghost use Rattle.flac_frame.specs.Pair.{HaveCodings};

    ghost Value = { Capacity };

    ghost view = { λ b. b.workspace };

    ghost invariant = { λ b. record {
      places : vec_len b.places ≡ 4 * b.workspace.block;
      choices : HaveCodings b.workspace.most b.choices;
      choice : HasPlaces 8 b.workspace.most b.choice;
      block : b.workspace.block ≤ 65535;
    } };
}

impl EncodeBuffers {
    /// Allocates arrays for frames of the streamable subset, of at most `max_block` samples of each channel, at most
    /// 65535: as [`EncodeBuffers::new_in`] does for [`Profile::Subset`].
    ///
    /// # Errors
    /// [`Why::Memory`] if an allocation fails.
    pub fn new(alloc: Global, max_block: u32) -> Result<EncodeBuffers, Why>
        requires { max_block ≤ 65535 }
        ensures ok { IfOk result (λ b. b ≡ record { block = max_block; most = 8 }) }
        ensures err { IfErr result (λ e. e ≡ Why.Memory) }
    {
        EncodeBuffers::new_in(alloc, Profile::Subset, max_block)
    }

    /// Allocates arrays for frames of a profile, of at most `max_block` samples of each channel, at most 65535. In
    /// [`Profile::Lax`] they take 2.1 MB beside those for the samples.
    ///
    /// # Errors
    /// [`Why::Memory`] if an allocation fails.
    pub fn new_in(alloc: Global, profile: Profile, max_block: u32) -> Result<EncodeBuffers, Why>
        requires { max_block ≤ 65535 }
        ensures ok { IfOk result (λ b. b ≡ record { block = max_block; most = most_in profile }) }
        ensures err { IfErr result (λ e. e ≡ Why.Memory) }
    {
        let limits = limits_at(profile, 0);
        let places = vec![in alloc; 0i64; 4 * max_block as usize]?;
        let choices = PairChoices::new(alloc, &limits)?;
        let choice = FrameChoice::new(alloc, profile, 8)?;
        let workspace = Workspace::new(alloc, max_block, &limits)?;
        Ok(EncodeBuffers {
            places,
            choices,
            choice,
            workspace,
        })
    }
}
