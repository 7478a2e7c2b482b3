//! Pages and packets of an Ogg stream: reading and writing (RFC 3533).
//!
//! | To | Use |
//! |---|---|
//! | read packets | [`Pages`], with [`read_packet`], or [`PacketBytes`], [`packet_bits`] and [`end_item`] |
//! | allocate room for a page first | [`PageBuffer`] and [`Pages::over`] |
//! | write packets | [`write_packet`] or [`write_packets`] |
//! | read or write single pages, as these do and as tests do | [`next_page`], [`write_page`], [`page_checksum`] |
#![tactic(auto)]

mod fields;
mod item;
mod laws;
mod packet_bytes;
mod page;
mod page_buffer;
mod pages;
mod writing;

pub use item::{end_item, packet_bits, read_packet};
pub use laws::{
    packet_list_is_given, packets_are_given, packets_are_placed, packets_tell_one, pages_are_runs,
    pages_are_spelled, pages_have_packets, written_pages_are_good,
};
pub use packet_bytes::PacketBytes;
pub use page::{Before, CAPTURE_PATTERN, Head, MOST_BODY, MOST_PAGE, PacketFault, PageFault};
pub use page_buffer::{PageBuffer, next_page};
pub use pages::Pages;
pub use writing::{
    PacketAt, PacketKind, PacketMarks, page_checksum, write_packet, write_packets, write_page,
};
