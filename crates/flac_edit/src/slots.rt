//! The blocks of a file, by what they are and how long.

ghost use Rattle.std.specs.Prelude.{◌≡◌, ◌∷◌, IfSome, ◌≤◌, ◌<◌, ◌+◌, ◌^◌, length};
ghost use Rattle.flac_edit.specs.Places.{slot_of, size_of, total_of, are_paddings, is_run};
ghost use Rattle.flac_edit.specs.declared.slots.Slot.TheVariants as slot;

/// A metadata block of a file, by the length of its content in bytes (RFC 9639, section 8.1).
#[derive(Clone, Copy, Debug)]
pub enum Slot {
    /// Padding (section 8.3).
    Padding(u32),
    /// The Vorbis comments (section 8.6).
    Comments(u32),
    /// Another block.
    Other(u32),
}

impl Slot {
    /// The length of the content in bytes.
    pub fn size(&self) -> u32
        ensures { result ≡ size_of self.now }
    {
        match self {
            Slot::Padding(size) | Slot::Comments(size) | Slot::Other(size) => *size,
        }
    }

    /// The length of padding.
    fn padding(&self) -> Option<u32>
        ensures { IfSome result (λ n. self.now ≡ slot.Padding n) }
    {
        match self {
            Slot::Padding(size) => Some(*size),
            _ => None,
        }
    }
}

/// The length of the padding that comes first, and the blocks after it.
pub(crate) fn leading_padding(slots: &[Slot]) -> Option<(u32, &[Slot])>
    ensures { IfSome result (λ r. slots.now ≡ slot.Padding r.0 ∷ r.1.now) }
{
    let (first, others) = slots.split_first()?;
    let padding = first.padding()?;
    Some((padding, others))
}

/// How many bytes these blocks take.
pub(crate) fn total(slots: &[Slot]) -> usize
    requires { total_of slots.now < 2 ^ 64 }
    ensures { result ≡ total_of slots.now }
{
    let mut sum = 0;
    for slot in slots {
        sum += 4 + slot.size() as usize;
    }
    sum
}

/// Whether these are padding alone.
fn are_paddings(slots: &[Slot]) -> bool
    ensures { result ≡ are_paddings slots.now }
{
    let mut rest = slots;
    while let [Slot::Padding(_), others @ ..] = rest {
        rest = others;
    }
    rest.is_empty()
}

/// Whether these are padding, one comment block, and padding.
pub(crate) fn is_run(slots: &[Slot]) -> bool
    ensures { result ≡ is_run slots.now }
{
    let mut rest = slots;
    while let [Slot::Padding(_), others @ ..] = rest {
        rest = others;
    }
    match rest {
        [Slot::Comments(_), others @ ..] => are_paddings(others),
        _ => false,
    }
}

/// How many bytes the marker and these blocks take, if the number fits.
pub(crate) fn head_size(slots: &[Slot]) -> Option<usize>
    ensures fits { IfSome result (λ n. 4 + total_of slots.now < 2 ^ 64) }
{
    let mut sum: usize = 4;
    for slot in slots {
        sum = sum.checked_add(4 + slot.size() as usize)?;
    }
    Some(sum)
}

/// The index of the comments.
pub(crate) fn comments_at(slots: &[Slot]) -> Option<usize>
    ensures { IfSome result (λ k. k < length slots.now) }
{
    for (k, slot) in slots.iter().enumerate() {
        if let Slot::Comments(_) = slot {
            return Some(k);
        }
    }
    None
}

/// How many blocks of padding come first.
pub(crate) fn leading_paddings(slots: &[Slot]) -> usize
    ensures { result ≤ length slots.now }
{
    for (count, slot) in slots.iter().enumerate() {
        if slot.padding().is_none() {
            return count;
        }
    }
    slots.len()
}

/// The index of the first block from which on all are padding.
pub(crate) fn last_paddings(slots: &[Slot]) -> usize
    ensures { result ≤ length slots.now }
{
    let mut start = 0;
    for (i, slot) in slots.iter().enumerate() {
        if slot.padding().is_none() {
            start = i + 1;
        }
    }
    start
}

/// The index of the first padding of at least `size` bytes.
pub(crate) fn first_with_room(slots: &[Slot], size: u64) -> Option<usize>
    ensures { IfSome result (λ i. i < length slots.now) }
{
    for (i, slot) in slots.iter().enumerate() {
        if slot.padding().is_some_and(|n| n as u64 >= size) {
            return Some(i);
        }
    }
    None
}
