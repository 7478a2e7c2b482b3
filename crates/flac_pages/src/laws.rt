//! Laws of the definitions.

ghost use Rattle.flac_pages.specs.Given.{PacketListIsGiven, PacketsAreGiven};
ghost use Rattle.flac_pages.specs.Items.{PacketsTellOne};
ghost use Rattle.flac_pages.specs.Placed.{BytesArePlaced, PacketsArePlaced, WrittenPagesAreGood};
ghost use Rattle.flac_pages.specs.Runs.{PagesAreRuns};
ghost use Rattle.flac_pages.specs.Written.{PagesAreSpelled, PagesAreReadAgain, PagesHavePackets};

/// Law: if pages have packets (RFC 3533, section 6), the bytes of the packet that was begun are to come, and after it
/// the other packets.
pub fn packets_are_given()
    ensures { PacketsAreGiven }
{}

/// Law: calls one after another give the packets that the pages have, in their order: the bytes of each, until none is
/// left.
pub fn packet_list_is_given()
    ensures { PacketListIsGiven }
{}

/// Law: after given pages, bits encode exactly the pages that may come there, each in one way; and what is encoded is
/// read again, whatever follows.
pub fn pages_are_spelled()
    ensures spelled { PagesAreSpelled }
    ensures again { PagesAreReadAgain }
{}

/// Law: the pages of a packet, as [`crate::write_packet`] writes them, have just this packet.
pub fn pages_have_packets()
    ensures { PagesHavePackets }
{}

/// Law: a packet is one item, or is none for one reason, and this is what reading it gives. It is stated for packets of
/// n bytes.
pub fn packets_tell_one()
    ensures { PacketsTellOne }
{}

/// Law: an input begins with one list of good pages, up to the one marked last or to a refused one, and this is what
/// reading pages gives.
pub fn pages_are_runs()
    ensures { PagesAreRuns }
{}

/// Law: packets written one after another, as [`crate::write_packets`] writes them, are good pages, of which only the
/// final one is marked last; they have just these packets, and are read again. The first packet has 51 bytes.
pub fn written_pages_are_good()
    ensures { WrittenPagesAreGood }
{}

/// Law: bytes that are added after the end of the last packet are the next packet of [`crate::write_packets`]; and
/// packets that are parts of a slice of bytes can be written.
pub fn packets_are_placed()
    ensures next { PacketsArePlaced }
    ensures bytes { BytesArePlaced }
{}
