//! Targets of bytes.

ghost use Rattle.std.specs.Prelude.{◌≡◌, ◌<◌, ◌≤◌, ◌++◌, ◌∷◌, [], ◌-◌, ◌^◌, ℕ, Bool, List, true, nat_lt, length, take, IfOk, OnOk, OnErr};
ghost use Rattle.std.specs.Borrow.{GName};
ghost use Rattle.flac_bits.specs.State.{Rises};

use std::alloc::Global;
use std::io;
use std::io::Write;

/// Takes bytes in pieces: what a [`crate::BitWriter`] writes to.
///
/// [`Collected`] is a target in memory, [`crate::Counted`] one over any `std::io::Write`, and `&mut` of a target is a
/// target. The ghost fields exist for proofs only. What a contract says of the bytes that were sent holds if they are
/// known to a proof (`known`).
pub trait Target {
    /// Whether the bytes that were sent are known.
    ghost known: { Self → Bool };

    /// The bytes that were sent, if they are known.
    ghost sent: { Self → List ℕ };

    /// How many errors were returned. Each counts, as long as the count can rise; if it cannot, the bytes count as
    /// unknown.
    ghost errors: { Self → ℕ };

    /// The references that the target goes through.
    ghost names: { Self → List GName };

    /// Sends some of the bytes, from the first on, and returns how many: at least one, if there are any.
    ///
    /// # Errors
    /// The target's own. No byte counts as sent then.
    fn send(&mut self, bytes: &[u8]) -> io::Result<usize>
        ensures names { names self.new ≡ names self.old }
        ensures count { IfOk result (λ n. n ≤ length bytes.now) }
        ensures some { IfOk result (λ n. 0 < length bytes.now → 0 < n) }
        ensures known { OnOk result (known self.old ≡ true → known self.new ≡ true) }
        ensures bytes { IfOk result (λ n. known self.old ≡ true → sent self.new ≡ sent self.old ++ take n bytes.now) }
        ensures nothing { OnErr result (known self.old ≡ true → sent self.new ≡ sent self.old) }
        ensures counted { OnOk result (errors self.new ≡ errors self.old) }
        ensures kept { errors self.old ≤ errors self.new }
        ensures rises { OnErr result (known self.old ≡ true → errors self.old < errors self.new) }
        ensures risen { OnErr result (Rises (errors self.old) (errors self.new)) };
}

impl<W: Target> Target for &mut W {
    ghost known = { λ w. W.known w.now };

    ghost sent = { λ w. W.sent w.now };

    ghost errors = { λ w. W.errors w.now };

    ghost names = { λ w. w.ghost_name ∷ W.names w.now };

    fn send(&mut self, bytes: &[u8]) -> io::Result<usize> {
        (**self).send(bytes)
    }
}

/// A target that keeps the bytes in memory. It fails only if an allocation fails.
///
/// ```
/// let mut target = Collected::new(rt.alloc());
/// send_all(&mut target, b"fLaC")?;
/// let bytes = target.into_bytes(); // b"fLaC"
/// ```
#[derive(Drop)]
pub struct Collected {
    bytes: Vec<u8>,
    errors: u64,
}

impl Collected {
    /// Makes a target without bytes, which allocates by `alloc`.
    pub fn new(alloc: Global) -> Collected
        ensures sent { result.bytes.items ≡ [] }
        ensures errors { result.errors ≡ 0 }
    {
        Collected {
            bytes: Vec::new(alloc),
            errors: 0,
        }
    }

    /// Returns the bytes that were sent.
    pub fn into_bytes(self) -> Vec<u8>
        ensures { result ≡ self.bytes }
    {
        self.bytes
    }

    /// The bytes that were sent so far.
    pub fn bytes(&self) -> &[u8]
        ensures { result.now ≡ self.now.bytes.items }
    {
        self.bytes.as_slice()
    }
}

impl Target for Collected {
    ghost known = { λ c. nat_lt c.errors (2 ^ 64 - 1) };

    ghost sent = { λ c. c.bytes.items };

    ghost errors = { λ c. c.errors };

    ghost names = { λ _. [] };

    fn send(&mut self, bytes: &[u8]) -> io::Result<usize> {
        match self.bytes.write(bytes) {
            Ok(n) => Ok(n),
            Err(e) => {
                self.errors = self.errors.saturating_add(1);
                Err(e)
            }
        }
    }
}
