//! A source or a target that fails once, for tests.

ghost use Rattle.std.specs.Prelude.{◌≡◌, ◌<◌, ◌≤◌, ◌+◌, ◌-◌, ◌^◌, true, length, take, min, nat_lt, nat_eq, ◌&&◌, cond, IfOk, OnOk, OnErr};
ghost use Rattle.flac_bits.specs.State.{Rises};
ghost use Rattle.flac_bits.specs.Failing.{failed, with_failure, SameCount, HasRisen, FailsOnce, IsForeseenBelow, SameEndBelow};
ghost use Rattle.flac_bits.specs.Sources.{HasGiven, Ended, Sent, SentNone};
ghost use Rattle.std.specs.Io.{ReadsAtMost};

use crate::source::Source;
use crate::target::Target;
use std::io;

/// A source or a target of which one call fails, and which is otherwise the device below. It is for tests of what a
/// reader or a writer does then.
///
/// ```
/// let mut source = FailAt::new(Memory::new(&stream), 2);
/// let outcome = decode(rt.alloc(), &mut source, Profile::Subset, &mut sink);
/// ```
#[derive(Drop)]
pub struct FailAt<T> {
    device: T,
    at: u64,
    calls: u64,
}

impl<T> FailAt<T> {
    /// Makes a source or a target of the device, whose call number `at` fails, counted from 0. With `u64::MAX` none
    /// fails.
    pub fn new(device: T, at: u64) -> FailAt<T>
        ensures { (result.device ≡ device) × (result.at ≡ at) × (result.calls ≡ 0) }
    {
        FailAt {
            device,
            at,
            calls: 0,
        }
    }

    /// How many calls there were so far, with the one that failed; at most 2^64 - 1.
    pub fn calls(&self) -> u64
        ensures { result ≡ self.now.calls }
    {
        self.calls
    }

    /// Returns the device.
    pub fn into_inner(self) -> T
        ensures { result ≡ self.device }
    {
        let FailAt {
            device,
            at: _,
            calls: _,
        } = self;
        device
    }

    /// Counts a call, and returns whether it is the one that fails.
    fn fails(&mut self) -> bool
        ensures answer { result ≡ nat_eq self.old.calls self.old.at && nat_lt self.old.calls (2 ^ 64 - 1) }
        ensures device { self.new.device ≡ self.old.device }
        ensures at { self.new.at ≡ self.old.at }
        ensures calls { self.new.calls ≡ min (self.old.calls + 1) (2 ^ 64 - 1) }
        ensures once { failed self.new.at self.new.calls ≡ failed self.old.at self.old.calls + cond result 1 0 }
    {
        if self.calls == u64::MAX {
            return false;
        }
        self.calls += 1;
        self.calls - 1 == self.at
    }
}

impl<S: Source> Source for FailAt<S> {
    ghost known = { λ s. S.known s.device };

    ghost coming = { λ s. S.coming s.device };

    ghost after = { λ s. S.after s.device };

    ghost errors = { λ s. S.errors s.device + failed s.at s.calls };

    ghost raised = { λ s. S.raised s.device + failed s.at s.calls };

    ghost most = { λ s. S.most s.device };

    ghost names = { λ s. S.names s.device };

    /// Pulls some bytes from the device. In the call that fails the device is not asked.
    fn pull(&mut self, buf: &mut [u8]) -> io::Result<usize>
        ensures names { S.names self.new.device ≡ S.names self.old.device }
        ensures bound { ReadsAtMost result buf.new }
        ensures known { OnOk result (S.known self.old.device ≡ true → S.known self.new.device ≡ true) }
        ensures bytes { IfOk result (λ n. HasGiven S.known S.coming (take n buf.new) self.old.device self.new.device) }
        ensures end { IfOk result (λ n. n ≡ 0 → 0 < length buf.new → Ended S.known S.coming S.after self.old.device) }
        ensures most { IfOk result (λ n. S.most self.new.device + n ≤ S.most self.old.device) }
        ensures counted { OnOk result (SameCount S.errors self.old self.new × SameCount S.raised self.old self.new) }
        ensures kept { with_failure S.errors self.old ≤ with_failure S.errors self.new }
        ensures foreseen { OnErr result (IsForeseenBelow S.known S.errors S.coming S.after self.old self.new) }
        ensures foretold { SameEndBelow S.known S.errors S.after self.old self.new }
        ensures rises { OnErr result (HasRisen S.known S.raised self.old self.new) }
        ensures risen { OnErr result (Rises (with_failure S.raised self.old) (with_failure S.raised self.new)) }
        ensures calls { (self.new.at ≡ self.old.at) × (self.new.calls ≡ min (self.old.calls + 1) (2 ^ 64 - 1)) }
        ensures once { FailsOnce self.old self.new result }
    {
        if self.fails() {
            return Err(io::Error::from(io::ErrorKind::Other));
        }
        self.device.pull(buf)
    }
}

impl<W: Target> Target for FailAt<W> {
    ghost known = { λ w. W.known w.device };

    ghost sent = { λ w. W.sent w.device };

    ghost errors = { λ w. W.errors w.device + failed w.at w.calls };

    ghost names = { λ w. W.names w.device };

    /// Sends some of the bytes to the device. In the call that fails the device gets none.
    fn send(&mut self, bytes: &[u8]) -> io::Result<usize>
        ensures names { W.names self.new.device ≡ W.names self.old.device }
        ensures count { IfOk result (λ n. n ≤ length bytes.now) }
        ensures some { IfOk result (λ n. 0 < length bytes.now → 0 < n) }
        ensures known { OnOk result (W.known self.old.device ≡ true → W.known self.new.device ≡ true) }
        ensures bytes { IfOk result (λ n. Sent W.known W.sent (take n bytes.now) self.old.device self.new.device) }
        ensures nothing { OnErr result (SentNone W.known W.sent self.old.device self.new.device) }
        ensures counted { OnOk result (SameCount W.errors self.old self.new) }
        ensures kept { with_failure W.errors self.old ≤ with_failure W.errors self.new }
        ensures rises { OnErr result (HasRisen W.known W.errors self.old self.new) }
        ensures risen { OnErr result (Rises (with_failure W.errors self.old) (with_failure W.errors self.new)) }
        ensures calls { (self.new.at ≡ self.old.at) × (self.new.calls ≡ min (self.old.calls + 1) (2 ^ 64 - 1)) }
        ensures once { FailsOnce self.old self.new result }
    {
        if self.fails() {
            return Err(io::Error::from(io::ErrorKind::Other));
        }
        self.device.send(bytes)
    }
}
