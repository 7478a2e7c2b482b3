//! What follows after a stream of a chain.

ghost use Rattle.std.specs.Prelude.{◌≡◌, ◌<◌, true, IfOk, OnOk, OnErr};
ghost use Rattle.flac_ogg.specs.Fronts.{front_bytes};
ghost use Rattle.flac_around.specs.inner.Walking.{IsCalm};

use flac_bits::{Source, Why};
use flac_native::{Fault, Place};
use flac_ogg::{Fronted, begins_page, pull_front};

/// What follows after a stream.
#[derive(Clone, Copy)]
pub(crate) enum Follows {
    /// The end.
    Nothing,
    /// A byte that begins a page.
    Page,
    /// Another byte.
    Other,
}

ghost use Rattle.flac_chain.specs.inner.Going.{follows_in, bytes_of};

/// What follows if this is the next byte.
fn follows_by(front: Option<u8>) -> Follows
    ensures { result ≡ follows_in (front_bytes front) }
{
    match front {
        None => Follows::Nothing,
        Some(_) => {
            if begins_page(front) {
                Follows::Page
            } else {
                Follows::Other
            }
        }
    }
}

/// Pulls the next byte, if there is one and it was not pulled yet, and keeps it in front.
fn hold_front<R: Source>(fronted: &mut Fronted<R>) -> Result<(), Fault>
    ensures known { OnOk result (R.known fronted.old.source ≡ true → R.known fronted.new.source ≡ true) }
    ensures bytes { OnOk result (R.known fronted.old.source ≡ true
        → bytes_of R.Source fronted.new ≡ bytes_of R.Source fronted.old) }
    ensures follows { OnOk result (R.known fronted.old.source ≡ true
        → follows_in (front_bytes fronted.new.front) ≡ follows_in (bytes_of R.Source fronted.old)) }
    ensures counted { OnOk result (IsCalm R.Source fronted.old.source fronted.new.source) }
    ensures rises { OnErr result (R.known fronted.old.source ≡ true
        → R.raised fronted.old.source < R.raised fronted.new.source) }
    ensures names { R.names fronted.new.source ≡ R.names fronted.old.source }
{
    if fronted.front.is_some() {
        return Ok(());
    }
    match pull_front(&mut fronted.source) {
        Ok(front) => {
            fronted.front = front;
            Ok(())
        }
        Err(_) => Err(Fault {
            at: Place::End,
            why: Why::Read,
        }),
    }
}

/// Looks at what follows. The next byte stays in front.
pub(crate) fn look_on<R: Source>(fronted: &mut Fronted<R>) -> Result<Follows, Fault>
    ensures known { OnOk result (R.known fronted.old.source ≡ true → R.known fronted.new.source ≡ true) }
    ensures bytes { OnOk result (R.known fronted.old.source ≡ true
        → bytes_of R.Source fronted.new ≡ bytes_of R.Source fronted.old) }
    ensures follows { IfOk result (λ f. R.known fronted.old.source ≡ true
        → f ≡ follows_in (bytes_of R.Source fronted.old)) }
    ensures counted { OnOk result (IsCalm R.Source fronted.old.source fronted.new.source) }
    ensures rises { OnErr result (R.known fronted.old.source ≡ true
        → R.raised fronted.old.source < R.raised fronted.new.source) }
    ensures names { R.names fronted.new.source ≡ R.names fronted.old.source }
{
    match hold_front(fronted) {
        Ok(()) => Ok(follows_by(fronted.front)),
        Err(fault) => Err(fault),
    }
}
