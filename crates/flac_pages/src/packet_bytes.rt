//! The bytes of one packet.

ghost use Rattle.std.specs.Prelude.{◌≡◌, ◌≢◌, ◌+◌, ◌^◌, ◌-◌, ◌&&◌, ◌∷◌, ◌++◌, true, nat_lt, length, IfSome, None};
ghost use Rattle.std.specs.Option.{ForSome};
ghost use Rattle.flac_bits.specs.declared.why.Why.TheVariants.{Memory};
ghost use Rattle.flac_pages.specs.Items.{numbers_of};
ghost use Rattle.flac_pages.specs.Packets.{BreaksAt, Met, after_of, left_of, after_left, on_page};
ghost use Rattle.flac_pages.specs.inner.Packets.{Follows};

use crate::page::PageFault;
use crate::pages::Pages;
use flac_bits::{Source, Why};
use std::io;
use std::snapshot::Snapshot;

/// A source of the bytes of one packet: the one that was begun in these pages, which it borrows. A refused page is an
/// error of a read; [`PacketBytes::why`] has its reason.
#[derive(Drop)]
pub struct PacketBytes<'a, R: Source> {
    pages: &'a mut Pages<R>,
    /// The pages as they were borrowed, for clauses only.
    lent: Snapshot<Pages<R>>,
    fault: Option<PageFault>,
    errors: u64,
    ghost quiet: { fault ≡ None → errors ≡ 0 },
    ghost counted: { errors ≡ 0 → fault ≡ None },
    ghost calm: { fault ≡ None → pages.now.raised ≡ lent.value.raised },
    ghost met: { ForSome fault (λ f. Met f.1 lent.value.raised pages.now.raised) },
    ghost memory: { ForSome fault (λ f. f.1 ≢ Memory) },
    ghost page: { ForSome fault (λ f. f.0 ≡ pages.now.count) },
    ghost follows: { fault ≡ None → Follows lent.value pages.now },
    ghost same: { fault ≡ None → lent.value.known ≡ true → after_of pages.now ≡ after_of lent.value },
    ghost breaks: { ForSome fault (λ f. lent.value.known ≡ true → BreaksAt (on_page lent.value) f.0) },
}

impl<'a, R: Source> PacketBytes<'a, R> {
    /// Makes a source of the bytes that are left of the packet that was begun.
    pub fn over(pages: &'a mut Pages<R>) -> PacketBytes<'a, R>
        ensures same { result.pages.ghost_name ≡ pages.entry.ghost_name }
        ensures pages { result.pages.now ≡ pages.old }
        ensures lent { result.lent.value ≡ pages.old }
        ensures unread { (result.fault ≡ None) × (result.errors ≡ 0) }
    {
        let lent = Snapshot::of(&*pages);
        PacketBytes {
            pages,
            lent,
            fault: None,
            errors: 0,
        }
    }

    /// If a page was refused: how many pages came before it, and the error.
    pub fn why(&self) -> Option<PageFault>
        ensures fault { result ≡ self.now.fault }
        ensures memory { IfSome result (λ f. f.1 ≢ Why.Memory) }
    {
        self.fault
    }

    /// Returns the pages, after the bytes that were pulled.
    pub fn into_pages(self) -> &'a mut Pages<R>
        ensures same { result.ghost_name ≡ self.entry.pages.ghost_name }
        ensures pages { result.now ≡ self.entry.pages.now }
    {
        let PacketBytes {
            pages,
            lent: _,
            fault: _,
            errors: _,
        } = self;
        pages
    }
}

impl<R: Source> Source for PacketBytes<'_, R> {
    ghost known = { λ p. p.pages.now.known && nat_lt p.errors (2 ^ 64 - 1) };

    ghost coming = { λ p. left_of p.fault p.pages.now };

    ghost after = { λ p. after_left p.fault p.pages.now };

    ghost errors = { λ p. p.pages.now.errors };

    ghost raised = { λ p. p.errors };

    ghost most = { λ p. p.pages.now.most + length p.pages.now.body };

    // The numbers between them are how many errors the device had returned when the pages were borrowed, and the page
    // on which they stood. They stay, too.
    ghost names = { λ p. p.pages.ghost_name ∷ p.lent.value.raised ∷ (numbers_of (on_page p.lent.value) ++ p.pages.now.names) };

    fn pull(&mut self, buf: &mut [u8]) -> io::Result<usize> {
        if self.fault.is_some() {
            self.errors = self.errors.saturating_add(1);
            return Err(io::Error::from(io::ErrorKind::InvalidData));
        }
        match self.pages.find() {
            Ok(true) => Ok(self.pages.copy_in_page(buf)),
            Ok(false) => Ok(0),
            Err(why) => {
                self.fault = Some((self.pages.count(), why));
                self.errors = self.errors.saturating_add(1);
                Err(io::Error::from(io::ErrorKind::InvalidData))
            }
        }
    }
}
