//! Compares what two readers have to give.

ghost use Rattle.std.specs.Prelude.{◌≡◌, ◌≤◌, ◌&&◌, false, IfOk, IfSome, OnOk};
ghost use Rattle.flac_reader.specs.Coming.{size_of};
ghost use Rattle.flac_reader.specs.Giving.{last_frame};
ghost use Rattle.flac_compare.specs.Format.{SaysFormat, is_of_format};
ghost use Rattle.flac_compare.specs.inner.Stepping.{Stays, MeetsNone, ComparesInCalm};
ghost use Rattle.flac_compare.specs.inner.Comparing.{EntersBoth, FindsDifference, ComparesRest};

use crate::difference::{Difference, Unread, format_difference};
use crate::frames::first_difference;
use crate::stepping::{count_rest, enter};
use flac_native::{Fault, Place, Why};
use flac_reader::{Container, Reader};

/// Whether both hold.
fn both(first: bool, second: bool) -> bool
    ensures { result ≡ (first && second) }
{
    first && second
}

/// Goes to the next frame in each reader of whose last frame nothing is left. False if one of them is at its end.
fn enter_both<C: Container, D: Container>(
    first: &mut Reader<C>,
    left: &mut usize,
    second: &mut Reader<D>,
    other: &mut usize,
) -> Result<bool, Unread>
    requires first { left.old ≤ size_of (last_frame first.old) }
    requires second { other.old ≤ size_of (last_frame second.old) }
    ensures first_within { OnOk result (left.new ≤ size_of (last_frame first.new)) }
    ensures second_within { OnOk result (other.new ≤ size_of (last_frame second.new)) }
    // proof only
    ensures first_stays { Stays first.old first.new }
    ensures second_stays { Stays second.old second.new }
    ensures first_met { OnOk result (MeetsNone first.old first.new) }
    ensures second_met { OnOk result (MeetsNone second.old second.new) }
    ensures enters { EntersBoth first.old left.old second.old other.old first.new left.new second.new other.new result }
{
    let more = match enter(first, left) {
        Ok(more) => more,
        Err(fault) => return Err(Unread::First(fault)),
    };
    match enter(second, other) {
        Ok(others) => Ok(both(more, others)),
        Err(fault) => Err(Unread::Second(fault)),
    }
}

/// The first difference among the next `n` inter-channel samples, of which `left` and `other` are left of the frames
/// that were read last: how many are equal before it, and its channel.
fn held_difference<C: Container, D: Container>(
    first: &Reader<C>,
    left: usize,
    second: &Reader<D>,
    other: usize,
    n: usize,
) -> Option<(usize, usize)>
    requires first { left ≤ size_of (last_frame first.now) }
    requires second { other ≤ size_of (last_frame second.now) }
    requires n { (n ≤ left) × (n ≤ other) }
    ensures { FindsDifference (last_frame first.now) left (last_frame second.now) other n result }
{
    match first.frame() {
        Some(a) => match second.frame() {
            Some(b) => first_difference(&a, a.len() - left, &b, b.len() - other, n),
            None => None,
        },
        None => None,
    }
}

/// Compares how many inter-channel samples are still to come, if one of the readers has none. `count` were equal
/// before.
fn compare_rest<C: Container, D: Container>(
    first: &mut Reader<C>,
    left: usize,
    second: &mut Reader<D>,
    other: usize,
    count: u64,
) -> Result<Option<Difference>, Unread>
    requires first { left ≤ size_of (last_frame first.old) }
    requires second { other ≤ size_of (last_frame second.old) }
    // proof only
    ensures first_stays { Stays first.old first.new }
    ensures second_stays { Stays second.old second.new }
    ensures first_met { OnOk result (MeetsNone first.old first.new) }
    ensures second_met { OnOk result (MeetsNone second.old second.new) }
    ensures kind { IfOk result (λ found. IfSome found (λ d. is_of_format d ≡ false)) }
    ensures rest { ComparesRest first.old left second.old other count first.new second.new result }
{
    let rest = match count_rest(first, left) {
        Ok(rest) => rest,
        Err(fault) => return Err(Unread::First(fault)),
    };
    let others = match count_rest(second, other) {
        Ok(others) => others,
        Err(fault) => return Err(Unread::Second(fault)),
    };
    if rest == others {
        return Ok(None);
    }
    let lengths = Difference::Length(count.saturating_add(rest), count.saturating_add(others));
    Ok(Some(lengths))
}

/// Compares the samples that two readers have to give.
fn compare_samples<C: Container, D: Container>(
    first: &mut Reader<C>,
    second: &mut Reader<D>,
) -> Result<Option<Difference>, Unread>
    // proof only
    ensures first_stays { Stays first.old first.new }
    ensures second_stays { Stays second.old second.new }
    ensures kind { IfOk result (λ found. IfSome found (λ d. is_of_format d ≡ false)) }
    ensures samples { ComparesInCalm first.old first.new second.old second.new result }
{
    let mut left = 0;
    let mut other = 0;
    let mut count: u64 = 0;
    'frames: for _ in 0..u64::MAX {
        match enter_both(first, &mut left, second, &mut other) {
            Ok(true) => {}
            Ok(false) => return compare_rest(first, left, second, other, count),
            Err(unread) => return Err(unread),
        }
        let n = left.min(other);
        match held_difference(first, left, second, other, n) {
            Some((k, channel)) => {
                let sample = count.saturating_add(k as u64);
                return Ok(Some(Difference::Sample(sample, channel)));
            }
            None => {}
        }
        left -= n;
        other -= n;
        count = count.saturating_add(n as u64);
    }
    Err(Unread::First(Fault {
        at: Place::Frame(u64::MAX),
        why: Why::Memory,
    }))
}

/// Compares the formats of two streams, and the samples of the frames that two readers have not lent yet, whatever the
/// sizes of their blocks (RFC 9639, sections 8.2 and 9). Returns the first difference, or `None` if there is none: then
/// both streams were read to their ends, and verified. After a difference of a sample neither is read further.
///
/// ```
/// let mut first = open_native(alloc, Counted::new(file), Profile::Subset, Keep::Tags)?;
/// let mut second = open_ogg(alloc, Counted::new(other), Profile::Subset, Keep::Tags)?;
/// let same = compare(&mut first, &mut second)? == None;
/// ```
///
/// # Errors
/// The fault at which one of the streams is refused, before any difference. A fault [`Why::Memory`] comes only of a
/// reader's call, or after 2^64 - 1 frames.
pub fn compare<C: Container, D: Container>(
    first: &mut Reader<C>,
    second: &mut Reader<D>,
) -> Result<Option<Difference>, Unread>
    ensures format { IfOk result (λ d. SaysFormat first.old.info second.old.info d) }
    // If neither source returned an error in the call: of the frames that come, and of the ends after them.
    ensures samples { ComparesInCalm first.old first.new second.old second.new result }
    // The metadata of the readers, and the references that they go through, stay.
    ensures first_stays { Stays first.old first.new }
    ensures second_stays { Stays second.old second.new }
{
    match format_difference(first.info(), second.info()) {
        Some(difference) => Ok(Some(difference)),
        None => compare_samples(first, second),
    }
}
