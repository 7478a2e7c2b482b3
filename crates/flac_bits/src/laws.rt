//! Laws of the definitions.

ghost use Rattle.flac_bits.specs.Coded.{NumbersAreSpelled, NumbersAreReadAgain};
ghost use Rattle.flac_bits.specs.Meant.{FieldsAreMeant};

/// Law: each number that fits has exactly one encoding as a coded number, its shortest form; and what encodes a number
/// is read as it, whatever follows.
pub fn numbers_are_spelled()
    ensures spelled { NumbersAreSpelled }
    ensures again { NumbersAreReadAgain }
{}

/// Law: what the calls of [`crate::BitReader`] that read a field promise by the reading of its layout, they promise by
/// its meaning too.
pub fn fields_are_meant()
    ensures { FieldsAreMeant }
{}
