//! A file as an edit in place sees it: what a read returns, and what a crash may leave.

ghost use Rattle.std.specs.Prelude.{◌≡◌, ◌≤◌, ◌+◌, Bool, true, List, ℕ, length, OnOk};
ghost use Rattle.flac_edit.specs.Device.{Timeline, Fits, Only, Follows, FollowsWhole, Torn, Holds, Elapses, HasCause};

/// Why a device did not do what it was asked for.
#[derive(Clone, Copy, Debug, PartialEq, Eq)]
pub enum DeviceError {
    /// An allocation failed.
    Memory,
    /// The device failed.
    Failed,
}

/// A file of a fixed length that is written in place.
///
/// What is not synced may be stored or not, in any order, and torn at any byte; but four bytes that are in one sector
/// of 512 bytes are stored as a whole or not at all. What the contracts say holds if the bytes of the file are known to
/// a proof (`known`): those of a file of the system are not. The ghost fields exist for proofs only.
pub trait Device {
    /// Whether the bytes are known to a proof.
    ghost known: { Self → Bool };

    /// The bytes that a read returns, if they are known.
    ghost seen: { Self → List ℕ };

    /// What a crash may leave, now and since an earlier moment.
    ghost time: { Self → Timeline };

    /// How often the device has failed.
    ghost faults: { Self → ℕ };

    /// Writes over bytes that are there, from the offset `at` on, in bytes.
    ///
    /// # Errors
    /// [`DeviceError::Failed`] if the device failed, [`DeviceError::Memory`] if an allocation failed. The bytes may
    /// have been written or not, each by itself.
    fn write_at(&mut self, at: usize, bytes: &[u8]) -> Result<(), DeviceError>
        requires { known self.old ≡ true → Fits at bytes.now (seen self.old) }
        ensures known { known self.new ≡ known self.old }
        ensures written { OnOk result (known self.old ≡ true → Holds (seen self.old) at bytes.now (seen self.new)) }
        ensures crash { known self.old ≡ true → Follows (Torn at (length bytes.now)) (time self.old) (time self.new) }
        ensures whole { known self.old ≡ true → FollowsWhole at bytes.now (time self.old) (time self.new) }
        ensures time { known self.old ≡ true → Elapses (time self.old) (time self.new) }
        ensures cause { known self.old ≡ true → HasCause (faults self.old) (faults self.new) result };

    /// Stores what was written: after it, a crash leaves what a read returns.
    ///
    /// # Errors
    /// [`DeviceError::Failed`] if the device failed. What was written may be stored or not.
    fn sync(&mut self) -> Result<(), DeviceError>
        ensures known { known self.new ≡ known self.old }
        ensures durable { OnOk result (known self.old ≡ true → Only (seen self.old) (time self.new)) }
        ensures seen { known self.old ≡ true → seen self.new ≡ seen self.old }
        ensures crash { known self.old ≡ true → (c : List ℕ) → (time self.new).may_leave c →
            (time self.old).may_leave c }
        ensures time { known self.old ≡ true → Elapses (time self.old) (time self.new) }
        ensures cause { known self.old ≡ true → HasCause (faults self.old) (faults self.new) result };

    /// This moment is one of those since an earlier one.
    ghost counts_now: { (file : Self) (t : ℕ) (c : List ℕ) → known file ≡ true → t ≤ (time file).moment
        → (time file).may_leave c → (time file).left_since t c };

    /// Since this moment there is no other.
    ghost only_now: { (file : Self) (c : List ℕ) → known file ≡ true
        → (time file).left_since (time file).moment c → (time file).may_leave c };

    /// A crash may leave all that was written.
    ghost leaves_seen: { (file : Self) → known file ≡ true → (time file).may_leave (seen file) };
}
