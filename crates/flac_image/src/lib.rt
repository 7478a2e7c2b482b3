//! The sizes of a PNG or JPEG picture, read from its first bytes, as a picture block states them (RFC 9639, section 8.8).
#![tactic(auto)]

mod image;
mod jpeg;
mod png;

pub use image::{Image, ImageKind, image_of};
