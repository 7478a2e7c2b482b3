//! All whole pages in bytes.

ghost use Rattle.std.specs.Prelude.{◌≡◌, ◌≤◌, ◌<◌, length, IfOk, IfErr, IfSome, Ok, None};
ghost use Rattle.flac_whole_pages.specs.Standing.{IsNextWhole, NoneStands};
ghost use Rattle.flac_whole_pages.specs.Found.{FoundIn};
ghost use Rattle.flac_whole_pages.specs.inner.Adding.{IsSpentAt};

use crate::page_at::{WholePage, page_at};
use std::alloc::{AllocError, Global};

/// The whole pages of bytes, one after another.
#[derive(Drop, Debug)]
pub struct WholePages {
    /// In the order of the bytes. None begins inside another.
    pub pages: Vec<WholePage>,
    /// Where the search ended because its budget was used up: up to that offset no other page stands.
    pub cut: Option<usize>,
}

/// The page that stands whole at the least offset from `from` on. `None` if there is none.
///
/// Each place with a capture pattern takes the bytes that were looked at there off the budget, so that hostile bytes,
/// in which each page is refused only by its checksum, cannot hold the search up.
///
/// # Errors
/// The offset at which the search ended, if the budget is used up: no whole page stands before it.
pub fn next_whole_page(
    bytes: &[u8],
    from: usize,
    budget: &mut u64,
) -> Result<Option<WholePage>, usize>
    ensures found { IfOk result (λ o. IfSome o (IsNextWhole bytes.now from)) }
    ensures none { result ≡ Ok None → NoneStands bytes.now from }
    ensures spent { IfErr result (IsSpentAt bytes.now from budget.new) }
{
    let mut at = from;
    'looking: while at < bytes.len() {
        if *budget == 0 {
            return Err(at);
        }
        if let Some(page) = page_at(bytes, at, budget) {
            return Ok(Some(page));
        }
        at += 1;
    }
    Ok(None)
}

/// Finds all whole pages from an offset on, whatever streams they are of: each is the first that stands from the end of
/// the one before it on. So each page that stands whole is found, or begins inside a found one
/// ([`whole_pages_are_found`](crate::whole_pages_are_found)).
///
/// `budget` is how many bytes may be looked at where a capture pattern is; undamaged streams take 1 for each byte. See
/// [`next_whole_page`].
///
/// # Errors
/// An allocation fails.
pub fn whole_pages(
    alloc: Global,
    bytes: &[u8],
    from: usize,
    budget: &mut u64,
) -> Result<WholePages, AllocError>
    requires { from ≤ length bytes.now }
    ensures found { IfOk result (λ found. FoundIn bytes.now from found.cut found.pages.items) }
    ensures spent { IfOk result (λ found. IfSome found.cut (λ _. budget.new ≡ 0)) }
{
    let mut pages = Vec::new(alloc);
    let mut at = from;
    let mut cut = None;
    'looking: while at < bytes.len() {
        match next_whole_page(bytes, at, budget) {
            Ok(next) => match next {
                Some(page) => {
                    pages.push(page)?;
                    at = page.end;
                }
                None => break 'looking,
            },
            Err(end) => {
                cut = Some(end);
                break 'looking;
            }
        }
    }
    Ok(WholePages { pages, cut })
}
