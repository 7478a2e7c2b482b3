//! Whole pages in what is left of a damaged Ogg stream, and the native stream that is left in them (RFC 3533, section
//! 6; RFC 9639, section 10.1).
#![tactic(auto)]

mod find;
mod laws;
mod left;
mod native;
mod page_at;
mod part;

pub use find::{WholePages, next_whole_page, whole_pages};
pub use laws::whole_pages_are_found;
pub use left::Left;
pub use native::left_of;
pub use page_at::{WholePage, whole_page_at};
pub use part::{Part, Reached, none_reached};
