//! Pictures of either format.

ghost use Rattle.std.specs.Prelude.{◌≡◌, codes};
ghost use Rattle.flac_image.specs.Images.{image_of, media_of};

use crate::jpeg::jpeg_of;
use crate::png::png_of;

/// The format of a picture.
#[derive(Clone, Copy, Debug, PartialEq, Eq)]
pub enum ImageKind {
    /// PNG (ISO/IEC 15948).
    Png,
    /// JPEG (ITU-T T.81).
    Jpeg,
}

/// The format and the sizes of a picture, as a picture block has them (RFC 9639, section 8.8).
#[derive(Clone, Copy, Debug, PartialEq, Eq)]
pub struct Image {
    /// Its format.
    pub kind: ImageKind,
    /// Width in pixels.
    pub width: u32,
    /// Height in pixels.
    pub height: u32,
    /// Bits per pixel.
    pub depth: u32,
    /// How many colours an indexed picture has, 0 for others.
    pub colours: u32,
}

impl ImageKind {
    /// The media type (RFC 9639, section 8.8): `image/png` or `image/jpeg`.
    pub fn media(self) -> &'static str
        ensures { result.now ≡ media_of self }
    {
        match self {
            ImageKind::Png => "image/png",
            ImageKind::Jpeg => "image/jpeg",
        }
    }
}

/// The format and the sizes of a PNG or JPEG picture, from its header; `None` if it begins as neither, or if what states
/// the sizes is not there. No other part of the picture is read, and no checksum is verified.
///
/// ```
/// if let Some(image) = image_of(&bytes) {
///     println!(rt; "{} by {} pixels", image.width, image.height)?;
/// }
/// ```
pub fn image_of(bytes: &[u8]) -> Option<Image>
    ensures { result ≡ image_of bytes.now }
{
    match png_of(bytes) {
        Some(image) => Some(image),
        None => jpeg_of(bytes),
    }
}
