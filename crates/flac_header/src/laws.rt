//! Laws of the definitions.

ghost use Rattle.flac_header.specs.Choice.{CodesAreInverse};
ghost use Rattle.flac_header.specs.Spelling.{HeadersAreSpelled, HeadersAreReadAgain};

/// Law: bits encode exactly the headers whose codes can state their values, each in one way; and what encodes a header
/// is read as it, whatever follows.
pub fn headers_are_spelled()
    ensures spelled { HeadersAreSpelled }
    ensures again { HeadersAreReadAgain }
{}

/// Law: each code that names a rate or a depth is the one that is chosen for it (RFC 9639, sections 9.1.2 and 9.1.4).
pub fn codes_are_inverse()
    ensures { CodesAreInverse }
{}
