//! The tables of the tests of the program.

/// Pieces of streams, by name, in hex. Whole streams have their names in `test_vectors`.
pub(crate) const PIECES: &str =
    "# The marker and STREAMINFO of 44100 Hz, one or two channels of 16 bits, blocks of 16 to 4096 (or 4608) samples; total and digest unknown.
MONO 664c614380000022001010000000000000000ac440f00000000000000000000000000000000000000000
STEREO 664c614380000022001010000000000000000ac442f00000000000000000000000000000000000000000
MONO_4608 664c614380000022001012000000000000000ac440f00000000000000000000000000000000000000000
# The same as MONO, and more blocks after it.
MORE 664c614300000022001010000000000000000ac440f00000000000000000000000000000000000000000
# The raw samples 0 to 15 in one channel, and in each of two.
RISING 00000100020003000400050006000700080009000a000b000c000d000e000f00
RISING_TWICE 000000000100010002000200030003000400040005000500060006000700070008000800090009000a000a000b000b000c000c000d000d000e000e000f000f00
# The program's comment block without comments, the last block.
COMMENTS 840000160e000000666c61632070726f66696c65203100000000
# The same with TITLE=x.
TITLE_X 840000210e000000666c61632070726f66696c65203101000000070000005449544c453d78
# STREAMINFO of one sample of two channels, its digest stated, and the frame that is written.
ONE_INFO 664c6143000000221000100000000f00000f0ac442f0000000013e84b41807dc690307586a3dad1a2e0f
ONE_FRAME fff869180000bf0158fd01128b5ab2
# Pages of Ogg. The mapping packet with STREAMINFO of one sample of two channels; a comment block of no vendor and no comments, the last block; the frame of that sample, on the page marked last.
MAPPING 4f67675300020000000000000000010000000000000018597d8f01337f464c414301000001664c6143000000221000100000000f00000f0ac442f0000000013e84b41807dc690307586a3dad1a2e0f
COMMENT 4f67675300000000000000000000010000000100000060d1f601010c840000080000000000000000
FRAME 4f67675300040100000000000000010000000200000049872f1f010ffff869180000bf0158fd01128b5ab2
# The frame on a page that is not marked last; a packet of no bytes; the comment block on a page of another stream, on one marked first, and on one marked as going on.
OPEN_FRAME 4f67675300000100000000000000010000000200000044af28c6010ffff869180000bf0158fd01128b5ab2
NO_BYTES 4f67675300040100000000000000010000000200000042c88ac20100
OTHER_SERIAL 4f67675300000000000000000000020000000100000009290325010c840000080000000000000000
FIRST_AGAIN 4f67675300020000000000000000010000000100000047c81eb7010c840000080000000000000000
CONTINUED 4f6767530001000000000000000001000000010000002853e2d8010c840000080000000000000000
# A mapping packet of version 2.0, and one on a page not marked first; the frame and a byte after it; the frame without its last byte; the mapping and the comment block on pages marked last.
VERSION_2 4f676753000200000000000000000100000000000000862d042301337f464c414302000001664c6143000000221000100000000f00000f0ac442f0000000013e84b41807dc690307586a3dad1a2e0f
NOT_FIRST 4f676753000000000000000000000100000000000000138b544b01337f464c414301000001664c6143000000221000100000000f00000f0ac442f0000000013e84b41807dc690307586a3dad1a2e0f
LONG_FRAME 4f676753000401000000000000000100000002000000d13b8bfb0110fff869180000bf0158fd01128b5ab200
SHORT_FRAME 4f676753000401000000000000000100000002000000bebfc95c010efff869180000bf0158fd01128b5a
LAST_MAPPING 4f676753000600000000000000000100000000000000b9e0ef0301337f464c414301000001664c6143000000221000100000000f00000f0ac442f0000000013e84b41807dc690307586a3dad1a2e0f
LAST_COMMENT 4f67675300040000000000000000010000000100000099fee768010c840000080000000000000000
# A page without segments, number 2, and the frame on page 3.
NO_SEGMENTS 4f6767530000000000000000000001000000020000006fbac59600
FRAME_3 4f676753000401000000000000000100000003000000fcd3a3d2010ffff869180000bf0158fd01128b5ab2
# The start of a block of 296 zeros, of which 251 follow; the same on a page marked last; the page of the other 45; that page not marked as going on; what comes after.
PADDING 4f6767530000ffffffffffffffff0100000001000000ddebfd6401ff01000128
LAST_PADDING 4f6767530004ffffffffffffffff0100000001000000acd9ce5801ff01000128
PADDING_GOES_ON 4f676753000100000000000000000100000002000000411b4d40012d
PADDING_BEGUN_ANEW 4f676753000000000000000000000100000002000000231e0274012d
COMMENT_3 4f67675300000000000000000000010000000300000033a332e2010c840000080000000000000000
FRAME_4 4f676753000401000000000000000100000004000000994784bb010ffff869180000bf0158fd01128b5ab2
# The mapping packet with STREAMINFO of one channel in blocks of 16 samples, the last block; frames 0 to 3 of sixteen zeros, a page each; all four on one page.
ZEROS_MAPPING 4f676753000200000000000000000100000000000000b381634601337f464c414301000000664c614380000022001000100000000000000ac440f00000000000000000000000000000000000000000
ZEROS_0 4f6767530000100000000000000001000000010000007175b08c010cfff86908000f300000004680
ZEROS_1 4f67675300002000000000000000010000000200000072d8dcb9010cfff86908010f25000000ba85
ZEROS_2 4f67675300003000000000000000010000000300000080e9f487010cfff86908020f1a0000003e8f
ZEROS_3 4f676753000440000000000000000100000004000000f9b2852e010cfff86908030f0f000000c28a
ZEROS_TOGETHER 4f676753000440000000000000000100000001000000fab58f43040c0c0c0cfff86908000f300000004680fff86908010f25000000ba85fff86908020f1a0000003e8ffff86908030f0f000000c28a
# The program's comment block on page 1.
VENDOR 4f67675300000000000000000000010000000100000050e32f54011a840000160e000000666c61632070726f66696c65203100000000
# STREAMINFO of 48 samples of one channel in blocks of 16, its three frames, the last one and the second one with another byte; STREAMINFO without the number of samples and their digest.
PART_INFO 664c6143800000220010001000001e00001f0ac440f00000003089cc5a1a79ef4a2036c1fe81a38a3bb2
PART_0 fff86908000f3012000001e660a7ae89ef2192aa632b5fc5e96c42d08012d2
PART_1 fff86908010f2512011001d6295f9eac1a589927b650f141279aad6025d7
PART_2 fff86908020f1a1200e405cc92ab25ea7f2f542c84d29bc6a89d8bf04582
PART_BAD fff86908020f1a1200e405cc93ab25ea7f2f542c84d29bc6a89d8bf04582
PART_1_BAD fff86908010f2512011001d6285f9eac1a589927b650f141279aad6025d7
PART_OPEN 664c6143800000220010001000001e00001f0ac440f00000000000000000000000000000000000000000
# Sixteen zeros at 65537 Hz, of 5 bits: STREAMINFO and the frame; in Ogg the mapping packet and the frame's page.
LAX 664c6143000000220010001000000b00000b10001040000000104ae71336e44bf9bf79d2752e234818a5
LAX_FRAME fff86000000fc700000572
LAX_MAPPING 4f67675300020000000000000000010000000000000029c2183b01337f464c414301000001664c6143000000220010001000000b00000b10001040000000104ae71336e44bf9bf79d2752e234818a5
LAX_PAGE 4f676753000410000000000000000100000002000000aa3cdb8e010bfff86000000fc700000572
# 1001 and -1001 in turn: the frame by a linear predictor of the coefficient -1, STREAMINFO of such a stream, and in Ogg; STREAMINFO and the frame by a fixed predictor of order 0, with residuals of 11 bits.
PREDICTED_FRAME fff86908000f304003e90040f000b5aa
PREDICTED 664c614300000022001000100000100000100ac440f000000010d1f223132b5d8ea4d06feffa79868854
PREDICTED_MAPPING 4f67675300020000000000000000010000000000000029bebf0b01337f464c414301000001664c614300000022001000100000100000100ac440f000000010d1f223132b5d8ea4d06feffa79868854
PREDICTED_PAGE 4f6767530004100000000000000001000000020000000ecc45b30110fff86908000f304003e90040f000b5aa
PLAIN 664c614300000022001000100000220000220ac440f000000010d1f223132b5d8ea4d06feffa79868854
PLAIN_FRAME fff86908000f301003d6fa60bbe982efa60bbe982efa60bbe982efa60bbe982eb03d";

/// Native streams: a command, its input, its status, and what it writes to its file, to standard output and to standard
/// error. The frames were made bit by bit; the answers are those of RFC 9639 and of its streamable subset.
pub(crate) const NATIVE: &str = "# The example of RFC 9639, appendix D.1.
test a.flac | EXAMPLE | 0 |  | frames 1 samples 1;
decode a.flac a.raw | EXAMPLE | 0 | f463b028
list a.flac | EXAMPLE | 0 |  | block 0 STREAMINFO 34;  blocks 4096 4096 frames 15 15 rate 44100 channels 2 depth 16 samples 1;  md5 00000000000000000000000000000000;
# Sixteen zeros of 65537 Hz and 5 bits, which STREAMINFO alone states: outside the streamable subset.
test a.flac | 664c614380000022001000100000000000001000104000000010 00*16 fff86000000fc700000572 | 1 |  |  | flac: a.flac: frame 0: 14 NotSubset;
test --lax a.flac | 664c614380000022001000100000000000001000104000000010 00*16 fff86000000fc700000572 | 0 |  | frames 1 samples 16;
decode --lax a.flac a.raw | 664c614380000022001000100000000000001000104000000010 00*16 fff86000000fc700000572 | 0 | 00*16
list a.flac --lax | 664c614380000022001000100000000000001000104000000010 00*16 fff86000000fc700000572 | 0 |  | block 0 STREAMINFO 34;  blocks 16 16 frames 0 0 rate 65537 channels 1 depth 5 samples 16;  md5 00000000000000000000000000000000;
# Cut, with another check, and followed by one byte and by two.
test a.flac | EXAMPLE_INFO fff869180000bf0358fd03128baa | 1 |  |  | flac: a.flac: frame 0: 3 Truncated;
decode a.flac a.raw | EXAMPLE_INFO fff869180000bf0358fd03128baa9b | 1 |  |  | flac: a.flac: frame 0: 26 FrameCheck;
decode a.flac a.raw | EXAMPLE 00 | 1 | f463b028 |  | flac: a.flac: frame 1: 3 Truncated;
decode a.flac a.raw | EXAMPLE 0000 | 1 | f463b028 |  | flac: a.flac: frame 1: 12 BadSync;
# Sixteen zeros in one channel after a STREAMINFO of two channels, and of one.
test a.flac | EXAMPLE_INFO fff86908000f300000004680 | 1 |  |  | flac: a.flac: frame 0: 17 HeaderMismatch;
test a.flac | 664c6143800000221000100000000f00000f0ac440f000000010 00*16 fff86908000f300000004680 | 0 |  | frames 1 samples 16;
decode a.flac a.raw | 664c6143800000221000100000000f00000f0ac440f000000010 00*16 fff86908000f300000004680 | 0 | 00*32
# A header of other block size and rate, whose check holds.
test a.flac | EXAMPLE_INFO fff858180000bf0358fd03128baa9a | 1 |  |  | flac: a.flac: frame 0: 17 HeaderMismatch;
# A short block before another, and the last one short.
test a.flac | MONO fff8c908009500000021bd fff86908010f25000000ba85 fff8c908029b000000f94d | 1 |  |  | flac: a.flac: frame 2: 19 BlockSize;
test a.flac | MONO fff8c908009500000021bd fff8c90801920000004dc5 fff86908020f1a0000003e8f | 0 |  | frames 3 samples 8208;
# Numbers of first samples: one that follows on, and one that does not.
test a.flac | MONO_4608 fff95908002a000000248e fff9c908e18880bb000000f2a2 | 0 |  | frames 2 samples 8704;
test a.flac | MONO_4608 fff9c908008300000009bd fff9c908e18880bb000000f2a2 | 1 |  |  | flac: a.flac: frame 1: 18 Sequence;
# The blocking strategy changes.
test a.flac | MONO fff9c908008300000009bd fff8c90801920000004dc5 | 1 |  |  | flac: a.flac: frame 1: 18 Sequence;
# What is decoded of four kinds of subframe, and of samples at the ends of 32 bits that the reference encoder wrote as mid and side.
decode a.flac a.raw | RISING_ALONE | 0 | RISING
decode a.flac a.raw | SILENT_ALONE | 0 | 00*32
decode a.flac a.raw | ALTERNATING | 0 | e90317fc*8
decode a.flac a.raw | LEFT_SIDE | 0 | RISING_TWICE
decode a.flac a.raw | 664c614380000022001010000000000000000ac443f0 00*20 fff869ae000f05100015555555501ffffffff8c88021c7ffffff480000003ffffffa40000001ffffffd20000000ffffffe900000007ffffff480000003ffffffa40000001ffffffd20000000ffffffe89a26 | 0 | ffffff7f0000008000000080ffffff7f*8
# A quotient of 262143 zeros is read on under the parameter 14; the next zero makes the value too large.
test a.flac | MONO fff86908000f301003 80 00*32767 40 | 1 |  |  | flac: a.flac: frame 0: 3 Truncated;
test a.flac | MONO fff86908000f301003 80 00*32767 20 | 1 |  |  | flac: a.flac: frame 0: 23 ResidualRange;
# Two rules broken at the end of a header: the check goes before the subset, the format, the sequence and the size.
# a depth as in STREAMINFO, 48000 Hz, number 5, 32 samples, each with a wrong check
test a.flac | SILENT_ALONE fff86900010f75 | 1 |  |  | flac: a.flac: frame 1: 16 HeaderCheck;
test a.flac | SILENT_ALONE fff86a08010f1e | 1 |  |  | flac: a.flac: frame 1: 16 HeaderCheck;
test a.flac | SILENT_ALONE fff86908050f70 | 1 |  |  | flac: a.flac: frame 1: 16 HeaderCheck;
test a.flac | SILENT_ALONE fff86908011f54 | 1 |  |  | flac: a.flac: frame 1: 16 HeaderCheck;
# a depth as in STREAMINFO, with two channels, number 5, 32 samples
test a.flac | SILENT_ALONE fff86910010fd6 | 1 |  |  | flac: a.flac: frame 1: 14 NotSubset;
test a.flac | SILENT_ALONE fff86900050f20 | 1 |  |  | flac: a.flac: frame 1: 14 NotSubset;
test a.flac | SILENT_ALONE fff86900011f04 | 1 |  |  | flac: a.flac: frame 1: 14 NotSubset;
# 48000 Hz, with number 5, 32 samples
test a.flac | SILENT_ALONE fff86a08050f4b | 1 |  |  | flac: a.flac: frame 1: 17 HeaderMismatch;
test a.flac | SILENT_ALONE fff86a08011f6f | 1 |  |  | flac: a.flac: frame 1: 17 HeaderMismatch;
# number 5 with 32 samples, and 32 samples alone
test a.flac | SILENT_ALONE fff86908051f01 | 1 |  |  | flac: a.flac: frame 1: 18 Sequence;
test a.flac | SILENT_ALONE fff86908011f55 | 1 |  |  | flac: a.flac: frame 1: 19 BlockSize;
# -1 of 12 bits, -2 of 20, 127 of 8: the digest right, wrong, and wrong after a wrong total.
decode a.flac a.raw | 664c614380000022001010000000000000000ac440b000000001ab2a0d28de6b77ffdd6c72afead099ab fff869040000e700fff064e0 | 0 | ffff
decode a.flac a.raw | 664c614380000022001010000000000000000ac440b000000001ab2a0d28de6b77ffdd6c72afead099aa fff869040000e700fff064e0 | 1 | ffff |  | flac: a.flac: end: 29 Md5Mismatch;
decode a.flac a.raw | 664c614380000022001010000000000000000ac440b000000002ab2a0d28de6b77ffdd6c72afead099aa fff869040000e700fff064e0 | 1 | ffff |  | flac: a.flac: end: 28 TotalMismatch;
decode a.flac a.raw | 664c614380000022001010000000000000000ac441300000000196f87e53160ad1412550050a1e6f57d1 fff8690a0000cb00ffffe0ac1f | 0 | feffff
decode a.flac a.raw | 664c614380000022001010000000000000000ac441300000000196f87e53160ad1412550050a1e6f57d0 fff8690a0000cb00ffffe0ac1f | 1 | feffff |  | flac: a.flac: end: 29 Md5Mismatch;
decode a.flac a.raw | 664c614380000022001010000000000000000ac441300000000296f87e53160ad1412550050a1e6f57d0 fff8690a0000cb00ffffe0ac1f | 1 | feffff |  | flac: a.flac: end: 28 TotalMismatch;
decode a.flac a.raw | 664c614380000022001010000000000000000ac440700000000183acb6e67e50e31db6ed341dd2de1595 fff8690200009a007fb547 | 0 | 7f
decode a.flac a.raw | 664c614380000022001010000000000000000ac440700000000183acb6e67e50e31db6ed341dd2de1594 fff8690200009a007fb547 | 1 | 7f |  | flac: a.flac: end: 29 Md5Mismatch;
decode a.flac a.raw | 664c614380000022001010000000000000000ac440700000000283acb6e67e50e31db6ed341dd2de1594 fff8690200009a007fb547 | 1 | 7f |  | flac: a.flac: end: 28 TotalMismatch;";

/// Streams that `test` refuses at their last byte, and by which line.
pub(crate) const LAST_BYTE: &str = "# First frames.
# A lead byte of variable blocking.
MONO fff86908fe | frame 0: 15 BadNumber
# A stored block size of 65535.
MONO fff8790800ffff | frame 0: 13 ReservedCode
# A folded number of 2^32 - 1 under the parameter 30.
MONO fff86908000f301043c3fffffff8 | frame 0: 23 ResidualRange
# Partition order 3 of 16 samples under a predictor of order 2.
MONO fff86908000f3014000000000c | frame 0: 22 BadPartition
# Partition order 9.
MONO fff86908000f301024 | frame 0: 14 NotSubset
# A precision of ones, and a negative shift.
MONO fff86908000f30400000f0 | frame 0: 21 BadPredictor
MONO fff86908000f304000000800 | frame 0: 21 BadPredictor
# A linear predictor of order 13 over 13 samples.
MONO fff86908000c3958 | frame 0: 14 NotSubset
# A predictor of order 4 over 4 samples.
MONO fff8690800031418 | frame 0: 22 BadPartition
# A right sample of 32768, and the same with another check.
STEREO fff86988000f3b007fff00ffff806f48 | frame 0: 27 SampleRange
STEREO fff86988000f3b007fff00ffff806f49 | frame 0: 26 FrameCheck
# The fifteenth wasted zero of 16 bits.
MONO fff86908000f30010000 | frame 0: 20 BadSubframe
# Second blocks: a forbidden type; lengths that a table and an application cannot have; a second STREAMINFO, whose length is wrong too; a point of
# sample 0 after a placeholder; a count of comments, and the length of a media type, that the block cannot hold; a table of which no point came.
MORE ff000000 | block 1: 6 ForbiddenType
MORE 83000011 | block 1: 7 BlockLength
MORE 82000003 | block 1: 7 BlockLength
MORE 80000021 | block 1: 9 RepeatedBlock
MORE 83000024ffffffffffffffff 00*28 | block 1: 10 SeekOrder
MORE 8400000800000000ffffffff | block 1: 7 BlockLength
MORE 8600002000000000ffffffff | block 1: 7 BlockLength
MORE 83fffff6 | block 1: 3 Truncated";

/// Prefixes of streams: the stream, the range of their lengths in bytes, and the line that answers each.
pub(crate) const PREFIXES: &str = "EXAMPLE | 0 4 | marker: 3 Truncated
EXAMPLE | 4 42 | block 0: 3 Truncated
EXAMPLE | 42 43 | end: 28 TotalMismatch
EXAMPLE | 43 57 | frame 0: 3 Truncated
LEFT_SIDE | 0 4 | marker: 3 Truncated
LEFT_SIDE | 4 42 | block 0: 3 Truncated
LEFT_SIDE | 42 43 | frames 0 samples 0
LEFT_SIDE | 43 61 | frame 0: 3 Truncated";

/// Changed bytes of streams: the stream, the range of the bytes, and the lines that answer a change of the lowest bit,
/// of the highest bit and of all bits.
pub(crate) const CHANGES: &str =
    "EXAMPLE | 0 4 | marker: 4 BadMarker | marker: 4 BadMarker | marker: 4 BadMarker
EXAMPLE | 4 5 | block 0: 5 NotStreamInfoFirst | block 1: 6 ForbiddenType | block 0: 5 NotStreamInfoFirst
EXAMPLE | 5 8 | block 0: 7 BlockLength | block 0: 7 BlockLength | block 0: 7 BlockLength
EXAMPLE | 8 10 | block 0: 8 BadStreamInfo | block 0: 8 BadStreamInfo | block 0: 8 BadStreamInfo
EXAMPLE | 10 18 | frames 1 samples 1 | frames 1 samples 1 | frames 1 samples 1
EXAMPLE | 18 21 | frame 0: 17 HeaderMismatch | frame 0: 17 HeaderMismatch | frame 0: 17 HeaderMismatch
EXAMPLE | 21 22 | end: 28 TotalMismatch | frame 0: 17 HeaderMismatch | block 0: 8 BadStreamInfo
EXAMPLE | 22 25 | end: 28 TotalMismatch | end: 28 TotalMismatch | end: 28 TotalMismatch
EXAMPLE | 25 26 | frames 1 samples 1 | end: 28 TotalMismatch | end: 28 TotalMismatch
EXAMPLE | 26 42 | end: 29 Md5Mismatch | end: 29 Md5Mismatch | end: 29 Md5Mismatch
EXAMPLE | 42 43 | frame 0: 12 BadSync | frame 0: 12 BadSync | frame 0: 12 BadSync
EXAMPLE | 43 44 | frame 0: 16 HeaderCheck | frame 0: 12 BadSync | frame 0: 12 BadSync
EXAMPLE | 44 45 | frame 0: 16 HeaderCheck | frame 0: 16 HeaderCheck | frame 0: 16 HeaderCheck
EXAMPLE | 45 46 | frame 0: 13 ReservedCode | frame 0: 16 HeaderCheck | frame 0: 13 ReservedCode
EXAMPLE | 46 47 | frame 0: 16 HeaderCheck | frame 0: 15 BadNumber | frame 0: 15 BadNumber
EXAMPLE | 47 49 | frame 0: 16 HeaderCheck | frame 0: 16 HeaderCheck | frame 0: 16 HeaderCheck
EXAMPLE | 49 50 | frame 0: 26 FrameCheck | frame 0: 20 BadSubframe | frame 0: 20 BadSubframe
EXAMPLE | 50 52 | frame 0: 26 FrameCheck | frame 0: 26 FrameCheck | frame 0: 26 FrameCheck
EXAMPLE | 52 53 | frame 0: 26 FrameCheck | frame 0: 20 BadSubframe | frame 0: 20 BadSubframe
EXAMPLE | 53 57 | frame 0: 26 FrameCheck | frame 0: 26 FrameCheck | frame 0: 26 FrameCheck
LEFT_SIDE | 0 4 | marker: 4 BadMarker | marker: 4 BadMarker | marker: 4 BadMarker
LEFT_SIDE | 4 5 | block 0: 5 NotStreamInfoFirst | block 1: 6 ForbiddenType | block 0: 5 NotStreamInfoFirst
LEFT_SIDE | 5 8 | block 0: 7 BlockLength | block 0: 7 BlockLength | block 0: 7 BlockLength
LEFT_SIDE | 8 9 | frames 1 samples 16 | block 0: 8 BadStreamInfo | block 0: 8 BadStreamInfo
LEFT_SIDE | 9 18 | frames 1 samples 16 | frames 1 samples 16 | frames 1 samples 16
LEFT_SIDE | 18 21 | frame 0: 17 HeaderMismatch | frame 0: 17 HeaderMismatch | frame 0: 17 HeaderMismatch
LEFT_SIDE | 21 22 | end: 28 TotalMismatch | frame 0: 17 HeaderMismatch | block 0: 8 BadStreamInfo
LEFT_SIDE | 22 25 | end: 28 TotalMismatch | end: 28 TotalMismatch | end: 28 TotalMismatch
LEFT_SIDE | 25 26 | end: 28 TotalMismatch | end: 28 TotalMismatch | end: 28 TotalMismatch
LEFT_SIDE | 26 42 | end: 29 Md5Mismatch | end: 29 Md5Mismatch | end: 29 Md5Mismatch
LEFT_SIDE | 42 43 | frame 0: 12 BadSync | frame 0: 12 BadSync | frame 0: 12 BadSync
LEFT_SIDE | 43 44 | frame 0: 16 HeaderCheck | frame 0: 12 BadSync | frame 0: 12 BadSync
LEFT_SIDE | 44 45 | frame 0: 16 HeaderCheck | frame 0: 16 HeaderCheck | frame 0: 16 HeaderCheck
LEFT_SIDE | 45 46 | frame 0: 13 ReservedCode | frame 0: 16 HeaderCheck | frame 0: 13 ReservedCode
LEFT_SIDE | 46 47 | frame 0: 16 HeaderCheck | frame 0: 15 BadNumber | frame 0: 15 BadNumber
LEFT_SIDE | 47 49 | frame 0: 16 HeaderCheck | frame 0: 16 HeaderCheck | frame 0: 16 HeaderCheck
LEFT_SIDE | 49 50 | frame 0: 20 BadSubframe | frame 0: 20 BadSubframe | frame 0: 20 BadSubframe
LEFT_SIDE | 50 54 | frame 0: 26 FrameCheck | frame 0: 26 FrameCheck | frame 0: 26 FrameCheck
LEFT_SIDE | 54 55 | frame 0: 3 Truncated | frame 0: 22 BadPartition | frame 0: 22 BadPartition
LEFT_SIDE | 55 56 | frame 0: 20 BadSubframe | frame 0: 3 Truncated | frame 0: 3 Truncated
LEFT_SIDE | 56 57 | frame 0: 22 BadPartition | frame 0: 3 Truncated | frame 0: 14 NotSubset
LEFT_SIDE | 57 58 | frame 0: 3 Truncated | frame 0: 23 ResidualRange | frame 0: 14 NotSubset
LEFT_SIDE | 58 59 | frame 0: 24 NonzeroPadding | frame 0: 3 Truncated | frame 0: 3 Truncated
LEFT_SIDE | 59 61 | frame 0: 26 FrameCheck | frame 0: 26 FrameCheck | frame 0: 26 FrameCheck";

/// Streams of one frame, which begins at byte 42.
pub(crate) const SWEPT: &str = "EXAMPLE
RISING_ALONE
ALTERNATING
LEFT_SIDE";

/// Streams of which each prefix is read, and each stream with the lowest bit, the highest bit or all bits of one byte
/// changed; and how many of both are accepted, as a model of the format answers that shares no code with this project
/// (`conformance/model/model.py`).
pub(crate) const STRANGE: &str =
    "# The example, the same as this project writes it, no samples, four frames after a STREAMINFO of their format, the example with a comment.
EXAMPLE | 0 25
ONE_SAMPLE | 0 25
NO_SAMPLES | 0 34
RISING_ALONE | 1 28
SILENT_ALONE | 1 28
ALTERNATING | 1 28
LEFT_SIDE | 1 28
EXAMPLE_TAGGED | 0 88
# A block of every kind, and a stream in pages.
MORE 02000006616243ff0102 03000036 00*16 1000000000000000100000000000000001020010ffffffffffffffff00000000000000070001 0400001c03000000615c620200000009000000583d7f7e20c3a90a5b00000000 0600002e0000000300000009696d6167652f706e6700000003610a62000000020000000500000018000000000000000200ff 7e000003616263 010000020007 850001e031005c 00*130 01588880 00*258 0200000000000000000141420000000000000000000040 00*13 01000000000000024c010000000000000000000930aa 00*12 80 00*14 | 0 917
PAGES | 0 0";

/// The lines of `list`, in rows as those of native streams.
pub(crate) const LISTS: &str =
    r#"# An identifier that is no text; a table whose last point is a placeholder; texts with a backslash, a delete, a letter of two bytes and the end of a
# line, and none; a picture; bytes of a type without a name; padding; no vendor and no comments.
list a.flac | MORE 82000006616243ff0102 | 0 |  | block 0 STREAMINFO 34;  blocks 16 4096 frames 0 0 rate 44100 channels 1 depth 16 samples 0;  md5 00000000000000000000000000000000;block 1 APPLICATION 6;  id 616243ff;
list a.flac | MORE 83000036 00*16 1000000000000000100000000000000001020010ffffffffffffffff00000000000000070001 | 0 |  | block 0 STREAMINFO 34;  blocks 16 4096 frames 0 0 rate 44100 channels 1 depth 16 samples 0;  md5 00000000000000000000000000000000;block 1 SEEKTABLE 54;  point 0 0 4096;  point 4096 258 16;  placeholder;
list a.flac | MORE 8400001c03000000615c620200000009000000583d7f7e20c3a90a5b00000000 | 0 |  | block 0 STREAMINFO 34;  blocks 16 4096 frames 0 0 rate 44100 channels 1 depth 16 samples 0;  md5 00000000000000000000000000000000;block 1 VORBIS_COMMENT 28;  vendor a\x5cb;  comment X=\x7f~ \xc3\xa9\x0a[;  comment ;
list a.flac | MORE 8600002e0000000300000009696d6167652f706e6700000003610a62000000020000000500000018000000000000000200ff | 0 |  | block 0 STREAMINFO 34;  blocks 16 4096 frames 0 0 rate 44100 channels 1 depth 16 samples 0;  md5 00000000000000000000000000000000;block 1 PICTURE 46;  type 3 media image/png text a\x0ab size 2x5 depth 24 colours 0 data 2;
list a.flac | MORE fe000003616263 | 0 |  | block 0 STREAMINFO 34;  blocks 16 4096 frames 0 0 rate 44100 channels 1 depth 16 samples 0;  md5 00000000000000000000000000000000;block 1 TYPE_126 3;
list a.flac | MORE 810000020007 | 0 |  | block 0 STREAMINFO 34;  blocks 16 4096 frames 0 0 rate 44100 channels 1 depth 16 samples 0;  md5 00000000000000000000000000000000;block 1 PADDING 2;
list a.flac | MORE 840000080000000000000000 | 0 |  | block 0 STREAMINFO 34;  blocks 16 4096 frames 0 0 rate 44100 channels 1 depth 16 samples 0;  md5 00000000000000000000000000000000;block 1 VORBIS_COMMENT 8;  vendor ;
# A cue sheet of a disc: a zero inside its catalogue stays, those at the ends of texts do not.
list a.flac | MORE 850001e031005c 00*130 01588880 00*258 0200000000000000000141420000000000000000000040 00*13 01000000000000024c010000000000000000000930aa 00*12 80 00*14 | 0 |  | block 0 STREAMINFO 34;  blocks 16 4096 frames 0 0 rate 44100 channels 1 depth 16 samples 0;  md5 00000000000000000000000000000000;block 1 CUESHEET 480;  catalogue 1\x00\x5c lead_in 88200 cd 1;  track 1 offset 0 isrc AB type audio pre 1;  index 1 offset 588;  track 170 offset 2352 isrc  type data pre 0;
# A block of every kind.
list a.flac | MORE 02000006616243ff0102 03000036 00*16 1000000000000000100000000000000001020010ffffffffffffffff00000000000000070001 0400001c03000000615c620200000009000000583d7f7e20c3a90a5b00000000 0600002e0000000300000009696d6167652f706e6700000003610a62000000020000000500000018000000000000000200ff 7e000003616263 010000020007 850001e031005c 00*130 01588880 00*258 0200000000000000000141420000000000000000000040 00*13 01000000000000024c010000000000000000000930aa 00*12 80 00*14 | 0 |  | block 0 STREAMINFO 34;  blocks 16 4096 frames 0 0 rate 44100 channels 1 depth 16 samples 0;  md5 00000000000000000000000000000000;block 1 APPLICATION 6;  id 616243ff;block 2 SEEKTABLE 54;  point 0 0 4096;  point 4096 258 16;  placeholder;block 3 VORBIS_COMMENT 28;  vendor a\x5cb;  comment X=\x7f~ \xc3\xa9\x0a[;  comment ;block 4 PICTURE 46;  type 3 media image/png text a\x0ab size 2x5 depth 24 colours 0 data 2;block 5 TYPE_126 3;block 6 PADDING 2;block 7 CUESHEET 480;  catalogue 1\x00\x5c lead_in 88200 cd 1;  track 1 offset 0 isrc AB type audio pre 1;  index 1 offset 588;  track 170 offset 2352 isrc  type data pre 0;"#;

/// Streams of which the blocks alone are listed: the stream, the status, and what is written to its file (nothing), to
/// standard output and to standard error.
pub(crate) const HEADS: &str =
    "# A frame, one that is cut, none, and bytes that are none; in Ogg pages that are no frames, and none.
EXAMPLE | 0 |  | block 0 STREAMINFO 34;  blocks 4096 4096 frames 15 15 rate 44100 channels 2 depth 16 samples 1;  md5 00000000000000000000000000000000;
EXAMPLE_INFO fff869180000bf0358fd03128baa | 0 |  | block 0 STREAMINFO 34;  blocks 4096 4096 frames 15 15 rate 44100 channels 2 depth 16 samples 1;  md5 00000000000000000000000000000000;
EXAMPLE_INFO | 0 |  | block 0 STREAMINFO 34;  blocks 4096 4096 frames 15 15 rate 44100 channels 2 depth 16 samples 1;  md5 00000000000000000000000000000000;
EXAMPLE_INFO 00*64 | 0 |  | block 0 STREAMINFO 34;  blocks 4096 4096 frames 15 15 rate 44100 channels 2 depth 16 samples 1;  md5 00000000000000000000000000000000;
PAGES | 0 |  | block 0 STREAMINFO 34;  blocks 4096 4096 frames 15 15 rate 44100 channels 2 depth 16 samples 1;  md5 3e84b41807dc690307586a3dad1a2e0f;block 1 VORBIS_COMMENT 8;  vendor ;
MAPPING COMMENT | 0 |  | block 0 STREAMINFO 34;  blocks 4096 4096 frames 15 15 rate 44100 channels 2 depth 16 samples 1;  md5 3e84b41807dc690307586a3dad1a2e0f;block 1 VORBIS_COMMENT 8;  vendor ;
MAPPING COMMENT 00 | 0 |  | block 0 STREAMINFO 34;  blocks 4096 4096 frames 15 15 rate 44100 channels 2 depth 16 samples 1;  md5 3e84b41807dc690307586a3dad1a2e0f;block 1 VORBIS_COMMENT 8;  vendor ;
MAPPING COMMENT SHORT_FRAME | 0 |  | block 0 STREAMINFO 34;  blocks 4096 4096 frames 15 15 rate 44100 channels 2 depth 16 samples 1;  md5 3e84b41807dc690307586a3dad1a2e0f;block 1 VORBIS_COMMENT 8;  vendor ;
# Outside the streamable subset, without --lax.
664c614380000022001000100000000000001000104000000010 00*16 fff86000000fc700000572 | 0 |  | block 0 STREAMINFO 34;  blocks 16 16 frames 0 0 rate 65537 channels 1 depth 5 samples 16;  md5 00000000000000000000000000000000;
# Refused at the marker, and at blocks.
 | 1 |  |  | flac: a.flac: marker: 3 Truncated;
664c61 | 1 |  |  | flac: a.flac: marker: 3 Truncated;
664c6142 | 1 |  |  | flac: a.flac: marker: 4 BadMarker;
664c614381000000 | 1 |  |  | flac: a.flac: block 0: 5 NotStreamInfoFirst;
MORE | 1 |  | block 0 STREAMINFO 34;  blocks 16 4096 frames 0 0 rate 44100 channels 1 depth 16 samples 0;  md5 00000000000000000000000000000000; | flac: a.flac: block 1: 3 Truncated;
MORE ff000000 | 1 |  | block 0 STREAMINFO 34;  blocks 16 4096 frames 0 0 rate 44100 channels 1 depth 16 samples 0;  md5 00000000000000000000000000000000; | flac: a.flac: block 1: 6 ForbiddenType;
MORE 82000003 | 1 |  | block 0 STREAMINFO 34;  blocks 16 4096 frames 0 0 rate 44100 channels 1 depth 16 samples 0;  md5 00000000000000000000000000000000; | flac: a.flac: block 1: 7 BlockLength;
MORE 80000021 | 1 |  | block 0 STREAMINFO 34;  blocks 16 4096 frames 0 0 rate 44100 channels 1 depth 16 samples 0;  md5 00000000000000000000000000000000; | flac: a.flac: block 1: 9 RepeatedBlock;";

/// Streams that are listed as lines of JSON, or of which some blocks are: the command line, the stream, the status, and
/// what is written to its file (nothing), to standard output and to standard error. The lines of JSON are by a program in
/// Python.
pub(crate) const LISTINGS: &str =
    r#"# All blocks, some, and none: of streams without frames, with one, and in Ogg.
list a.flac --json | MORE 02000006616243ff0102 03000036 00*16 1000000000000000100000000000000001020010ffffffffffffffff00000000000000070001 0400002a050000006122625c0103000000090000005449544c453d783d79040000006e6f6e6504000000413dff0a 0600002e0000000300000009696d6167652f706e6700000003610a62000000020000000500000018000000000000000200ff 7e000003616263 010000020007 850001e031005c 00*130 01588880 00*258 0200000000000000000141420000000000000000000040 00*13 01000000000000024c010000000000000000000930aa 00*12 80 00*14 | 0 |  | {"path":"a.flac","blocks":[{"number":0,"type":"STREAMINFO","length":34,"min_block_size":16,"max_block_size":4096,"min_frame_size":0,"max_frame_size":0,"rate":44100,"channels":1,"depth":16,"samples":0,"md5":"00000000000000000000000000000000"},{"number":1,"type":"APPLICATION","length":6,"id":"616243ff","data_length":2,"data_md5":"0cb988d042a7f28dd5fe2b55b3f5ac7a"},{"number":2,"type":"SEEKTABLE","length":54,"points":[{"sample":0,"offset":0,"samples":4096},{"sample":4096,"offset":258,"samples":16},{"placeholder":true,"offset":7,"samples":1}]},{"number":3,"type":"VORBIS_COMMENT","length":42,"vendor":"a\u0022b\u005c\u0001","comments":[{"name":"TITLE","value":"x=y"},{"text":"none"},{"name":"A","value":{"hex":"ff0a"}}]},{"number":4,"type":"PICTURE","length":46,"picture_type":3,"media_type":"image/png","description":"a\u000ab","width":2,"height":5,"depth":24,"colors":0,"data_length":2,"data_md5":"d07d34efac6328007ad67c7e0a985e00"},{"number":5,"type":"TYPE_126","length":3,"data_length":3,"data_md5":"900150983cd24fb0d6963f7d28e17f72"},{"number":6,"type":"PADDING","length":2},{"number":7,"type":"CUESHEET","length":480,"catalog":"1\u0000\u005c","lead_in":88200,"cd":true,"tracks":[{"number":1,"offset":0,"isrc":"AB","audio":true,"pre_emphasis":true,"indices":[{"number":1,"offset":588}]},{"number":170,"offset":2352,"isrc":"","audio":false,"pre_emphasis":false,"indices":[]}]}]};
list a.flac --json --head | MORE 02000006616243ff0102 03000036 00*16 1000000000000000100000000000000001020010ffffffffffffffff00000000000000070001 0400002a050000006122625c0103000000090000005449544c453d783d79040000006e6f6e6504000000413dff0a 0600002e0000000300000009696d6167652f706e6700000003610a62000000020000000500000018000000000000000200ff 7e000003616263 010000020007 850001e031005c 00*130 01588880 00*258 0200000000000000000141420000000000000000000040 00*13 01000000000000024c010000000000000000000930aa 00*12 80 00*14 | 0 |  | {"path":"a.flac","blocks":[{"number":0,"type":"STREAMINFO","length":34,"min_block_size":16,"max_block_size":4096,"min_frame_size":0,"max_frame_size":0,"rate":44100,"channels":1,"depth":16,"samples":0,"md5":"00000000000000000000000000000000"},{"number":1,"type":"APPLICATION","length":6,"id":"616243ff","data_length":2,"data_md5":"0cb988d042a7f28dd5fe2b55b3f5ac7a"},{"number":2,"type":"SEEKTABLE","length":54,"points":[{"sample":0,"offset":0,"samples":4096},{"sample":4096,"offset":258,"samples":16},{"placeholder":true,"offset":7,"samples":1}]},{"number":3,"type":"VORBIS_COMMENT","length":42,"vendor":"a\u0022b\u005c\u0001","comments":[{"name":"TITLE","value":"x=y"},{"text":"none"},{"name":"A","value":{"hex":"ff0a"}}]},{"number":4,"type":"PICTURE","length":46,"picture_type":3,"media_type":"image/png","description":"a\u000ab","width":2,"height":5,"depth":24,"colors":0,"data_length":2,"data_md5":"d07d34efac6328007ad67c7e0a985e00"},{"number":5,"type":"TYPE_126","length":3,"data_length":3,"data_md5":"900150983cd24fb0d6963f7d28e17f72"},{"number":6,"type":"PADDING","length":2},{"number":7,"type":"CUESHEET","length":480,"catalog":"1\u0000\u005c","lead_in":88200,"cd":true,"tracks":[{"number":1,"offset":0,"isrc":"AB","audio":true,"pre_emphasis":true,"indices":[{"number":1,"offset":588}]},{"number":170,"offset":2352,"isrc":"","audio":false,"pre_emphasis":false,"indices":[]}]}]};
list a.flac --json --block picture --block 0 | MORE 02000006616243ff0102 03000036 00*16 1000000000000000100000000000000001020010ffffffffffffffff00000000000000070001 0400002a050000006122625c0103000000090000005449544c453d783d79040000006e6f6e6504000000413dff0a 0600002e0000000300000009696d6167652f706e6700000003610a62000000020000000500000018000000000000000200ff 7e000003616263 010000020007 850001e031005c 00*130 01588880 00*258 0200000000000000000141420000000000000000000040 00*13 01000000000000024c010000000000000000000930aa 00*12 80 00*14 | 0 |  | {"path":"a.flac","blocks":[{"number":0,"type":"STREAMINFO","length":34,"min_block_size":16,"max_block_size":4096,"min_frame_size":0,"max_frame_size":0,"rate":44100,"channels":1,"depth":16,"samples":0,"md5":"00000000000000000000000000000000"},{"number":4,"type":"PICTURE","length":46,"picture_type":3,"media_type":"image/png","description":"a\u000ab","width":2,"height":5,"depth":24,"colors":0,"data_length":2,"data_md5":"d07d34efac6328007ad67c7e0a985e00"}]};
list a.flac --json --head --block application:0x616243ff --block 6 --block 6 | MORE 02000006616243ff0102 03000036 00*16 1000000000000000100000000000000001020010ffffffffffffffff00000000000000070001 0400002a050000006122625c0103000000090000005449544c453d783d79040000006e6f6e6504000000413dff0a 0600002e0000000300000009696d6167652f706e6700000003610a62000000020000000500000018000000000000000200ff 7e000003616263 010000020007 850001e031005c 00*130 01588880 00*258 0200000000000000000141420000000000000000000040 00*13 01000000000000024c010000000000000000000930aa 00*12 80 00*14 | 0 |  | {"path":"a.flac","blocks":[{"number":1,"type":"APPLICATION","length":6,"id":"616243ff","data_length":2,"data_md5":"0cb988d042a7f28dd5fe2b55b3f5ac7a"},{"number":6,"type":"PADDING","length":2}]};
list a.flac --json --block application:abcd --block 8 | MORE 02000006616243ff0102 03000036 00*16 1000000000000000100000000000000001020010ffffffffffffffff00000000000000070001 0400002a050000006122625c0103000000090000005449544c453d783d79040000006e6f6e6504000000413dff0a 0600002e0000000300000009696d6167652f706e6700000003610a62000000020000000500000018000000000000000200ff 7e000003616263 010000020007 850001e031005c 00*130 01588880 00*258 0200000000000000000141420000000000000000000040 00*13 01000000000000024c010000000000000000000930aa 00*12 80 00*14 | 0 |  | {"path":"a.flac","blocks":[]};
list a.flac --json | EXAMPLE | 0 |  | {"path":"a.flac","blocks":[{"number":0,"type":"STREAMINFO","length":34,"min_block_size":4096,"max_block_size":4096,"min_frame_size":15,"max_frame_size":15,"rate":44100,"channels":2,"depth":16,"samples":1,"md5":"00000000000000000000000000000000"}]};
list a.flac --json --head | PAGES | 0 |  | {"path":"a.flac","blocks":[{"number":0,"type":"STREAMINFO","length":34,"min_block_size":4096,"max_block_size":4096,"min_frame_size":15,"max_frame_size":15,"rate":44100,"channels":2,"depth":16,"samples":1,"md5":"3e84b41807dc690307586a3dad1a2e0f"},{"number":1,"type":"VORBIS_COMMENT","length":8,"vendor":"","comments":[]}]};
list a.flac --json --block vorbis_comment | PAGES | 0 |  | {"path":"a.flac","blocks":[{"number":1,"type":"VORBIS_COMMENT","length":8,"vendor":"","comments":[]}]};
# As text: the lines that the list of all blocks has for them.
list a.flac --block vorbis_comment --block type_126 | MORE 02000006616243ff0102 03000036 00*16 1000000000000000100000000000000001020010ffffffffffffffff00000000000000070001 0400002a050000006122625c0103000000090000005449544c453d783d79040000006e6f6e6504000000413dff0a 0600002e0000000300000009696d6167652f706e6700000003610a62000000020000000500000018000000000000000200ff 7e000003616263 010000020007 850001e031005c 00*130 01588880 00*258 0200000000000000000141420000000000000000000040 00*13 01000000000000024c010000000000000000000930aa 00*12 80 00*14 | 0 |  | block 3 VORBIS_COMMENT 42;  vendor a"b\x5c\x01;  comment TITLE=x=y;  comment none;  comment A=\xff\x0a;block 5 TYPE_126 3;
list a.flac --head --block 3 | MORE 02000006616243ff0102 03000036 00*16 1000000000000000100000000000000001020010ffffffffffffffff00000000000000070001 0400002a050000006122625c0103000000090000005449544c453d783d79040000006e6f6e6504000000413dff0a 0600002e0000000300000009696d6167652f706e6700000003610a62000000020000000500000018000000000000000200ff 7e000003616263 010000020007 850001e031005c 00*130 01588880 00*258 0200000000000000000141420000000000000000000040 00*13 01000000000000024c010000000000000000000930aa 00*12 80 00*14 | 0 |  | block 3 VORBIS_COMMENT 42;  vendor a"b\x5c\x01;  comment TITLE=x=y;  comment none;  comment A=\xff\x0a;
list a.flac --block padding | EXAMPLE | 0 |  | 
# Refused streams have no line of JSON: without --head also those whose frames are. As text the blocks before are listed.
list a.flac --json | EXAMPLE_INFO 00*64 | 1 |  |  | flac: a.flac: frame 0: 12 BadSync;
list a.flac --json --head | EXAMPLE_INFO 00*64 | 0 |  | {"path":"a.flac","blocks":[{"number":0,"type":"STREAMINFO","length":34,"min_block_size":4096,"max_block_size":4096,"min_frame_size":15,"max_frame_size":15,"rate":44100,"channels":2,"depth":16,"samples":1,"md5":"00000000000000000000000000000000"}]};
list a.flac --json --head | MORE 82000003 | 1 |  |  | flac: a.flac: block 1: 7 BlockLength;
list a.flac --json --head --block 0 | 664c6142 | 1 |  |  | flac: a.flac: marker: 4 BadMarker;
list a.flac --block 0 | MORE 82000003 | 1 |  | block 0 STREAMINFO 34;  blocks 16 4096 frames 0 0 rate 44100 channels 1 depth 16 samples 0;  md5 00000000000000000000000000000000; | flac: a.flac: block 1: 7 BlockLength;
list a.flac --head --block 1 | MORE 82000003 | 1 |  |  | flac: a.flac: block 1: 7 BlockLength;"#;

/// Raw samples that are encoded, in rows as those of native streams. The streams were put together by hand, with checks
/// and digests that were worked out apart from this project.
pub(crate) const ENCODINGS: &str =
    "# One sample of two channels, without comments and with one; no samples. Each is listed or decoded again.
encode a.raw a.flac --rate 44100 --channels 2 --bits 16 | f463b028 | 0 | ONE_INFO COMMENTS ONE_FRAME
decode a.flac a.raw | ONE_INFO COMMENTS ONE_FRAME | 0 | f463b028
encode a.raw a.flac --rate 44100 --channels 2 --bits 16 TITLE=x | f463b028 | 0 | ONE_INFO TITLE_X ONE_FRAME
encode a.raw a.flac --rate 44100 --channels 2 --bits 16 |  | 0 | 664c614300000022100010000000000000000ac442f000000000d41d8cd98f00b204e9800998ecf8427e COMMENTS
test a.flac | 664c614300000022100010000000000000000ac442f000000000d41d8cd98f00b204e9800998ecf8427e COMMENTS | 0 |  | frames 0 samples 0;
test a.flac | NO_SAMPLES | 0 |  | frames 0 samples 0;
list a.flac | NO_SAMPLES | 0 |  | block 0 STREAMINFO 34;  blocks 4096 4096 frames 0 0 rate 44100 channels 2 depth 16 samples 0;  md5 d41d8cd98f00b204e9800998ecf8427e;
# No samples have no seek table.
encode a.raw a.flac --rate 44100 --channels 2 --bits 16 --seek-every 1 |  | 0 | 664c614300000022100010000000000000000ac442f000000000d41d8cd98f00b204e9800998ecf8427e COMMENTS
# One sample of 12, 20 and 8 bits: -1, -2 with its wasted bit left out and by a fixed predictor of order 0, 127.
encode a.raw a.flac --rate 44100 --channels 1 --bits 12 --block 16 | ffff | 0 | 664c6143000000220010001000000c00000c0ac440b000000001ab2a0d28de6b77ffdd6c72afead099ab COMMENTS fff869040000e700fff064e0
encode a.raw a.flac --rate 44100 --channels 1 --bits 20 --block 16 | feffff | 0 | 664c6143000000220010001000000c00000c0ac441300000000196f87e53160ad1412550050a1e6f57d1 COMMENTS fff8690a0000cb1180081b4e
encode a.raw a.flac --rate 44100 --channels 1 --bits 8 --block 16 | 7f | 0 | 664c6143000000220010001000000b00000b0ac440700000000183acb6e67e50e31db6ed341dd2de1595 COMMENTS fff8690200009a007fb547
# What is refused of three samples of 16 bits.
encode a.raw a.flac --rate 65537 --channels 1 --bits 16 --block 4096 | 000000080000 | 1 |  |  | flac: a.raw: 40 BadRate;
encode a.raw a.flac --rate 44100 --channels 1 --bits 17 --block 4096 | 000000080000 | 1 |  |  | flac: a.raw: 41 BadDepth;
encode a.raw a.flac --rate 44100 --channels 9 --bits 16 --block 4096 | 000000080000 | 1 |  |  | flac: a.raw: 42 BadChannels;
encode a.raw a.flac --rate 44100 --channels 2 --bits 16 --block 4096 | 000000080000 | 1 |  |  | flac: a.raw: 48 RawLength;
encode a.raw a.flac --rate 44100 --channels 1 --bits 12 --block 4096 | 000000080000 | 1 |  |  | flac: a.raw: 44 SampleTooLarge;
encode a.raw a.flac --rate 44100 --channels 1 --bits 16 --block 15 | 000000080000 | 1 |  |  | flac: a.raw: 46 BadBlockSize;
# Files of sound are no raw samples: a stream, a page of Ogg, WAV files, an AIFF file, an ID3v2 tag. Other bytes are, and with --raw these.
encode a.raw a.flac --rate 44100 --channels 2 --bits 16 | 664c6143 | 1 |  |  | flac: a.raw: 56 NotRaw;
encode a.raw a.flac --rate 44100 --channels 2 --bits 16 | 4f676753 | 1 |  |  | flac: a.raw: 56 NotRaw;
encode a.raw a.flac --rate 44100 --channels 2 --bits 16 | 52494646 | 1 |  |  | flac: a.raw: 56 NotRaw;
encode a.raw a.flac --rate 44100 --channels 2 --bits 16 | 52463634 | 1 |  |  | flac: a.raw: 56 NotRaw;
encode a.raw a.flac --rate 44100 --channels 2 --bits 16 | 42573634 | 1 |  |  | flac: a.raw: 56 NotRaw;
encode a.raw a.flac --rate 44100 --channels 2 --bits 16 | 464f524d | 1 |  |  | flac: a.raw: 56 NotRaw;
encode a.raw a.flac --rate 44100 --channels 2 --bits 16 | 4944330400000000 | 1 |  |  | flac: a.raw: 56 NotRaw;
encode a.raw a.flac --rate 44100 --channels 2 --bits 16 --ogg | 664c6143 00*40000 | 1 |  |  | flac: a.raw: 56 NotRaw;
encode a.raw a.flac --rate 44100 --channels 2 --bits 16 --raw | 664c6143 | 0 | 664c6143000000221000100000000f00000f0ac442f000000001b9352a6d56387967644df531f187bd44 COMMENTS fff869180000bf01a6330043614eae
# The format goes before, the number of bytes after. No file of sound begins so.
encode a.raw a.flac --rate 44100 --channels 9 --bits 16 | 664c6143 | 1 |  |  | flac: a.raw: 42 BadChannels;
encode a.raw a.flac --rate 44100 --channels 2 --bits 16 | 494433 | 1 |  |  | flac: a.raw: 56 NotRaw;
encode a.raw a.flac --rate 44100 --channels 2 --bits 16 --raw | 494433 | 1 |  |  | flac: a.raw: 48 RawLength;
encode a.raw a.flac --rate 44100 --channels 2 --bits 16 | 664c61 | 1 |  |  | flac: a.raw: 48 RawLength;
encode a.raw a.flac --rate 44100 --channels 2 --bits 16 | 4944 | 1 |  |  | flac: a.raw: 48 RawLength;
# Ten thousand zeros in blocks of 4096: a seek point for each frame that holds a multiple, and one only.
encode a.raw a.flac --rate 44100 --channels 1 --bits 16 --seek-every 0 | 00*20000 | 0 | 664c6143000000221000100000000b00000d0ac440f000002710b2fe457348de243a579a1591d3815170 COMMENTS fff8c90800951003c0a87efff8c90801921003c0c406fff8790802070ff11003c0f27e
list a.flac | 664c6143000000221000100000000b00000d0ac440f000002710b2fe457348de243a579a1591d3815170 COMMENTS fff8c90800951003c0a87efff8c90801921003c0c406fff8790802070ff11003c0f27e | 0 |  | block 0 STREAMINFO 34;  blocks 4096 4096 frames 11 13 rate 44100 channels 1 depth 16 samples 10000;  md5 b2fe457348de243a579a1591d3815170;block 1 VORBIS_COMMENT 22;  vendor flac profile 1;
encode a.raw a.flac --rate 44100 --channels 1 --bits 16 --seek-every 5000 | 00*20000 | 0 | 664c6143000000221000100000000b00000d0ac440f000002710b2fe457348de243a579a1591d3815170 040000160e000000666c61632070726f66696c65203100000000 83000024 00*16 10000000000000001000000000000000000b1000 fff8c90800951003c0a87efff8c90801921003c0c406fff8790802070ff11003c0f27e
list a.flac | 664c6143000000221000100000000b00000d0ac440f000002710b2fe457348de243a579a1591d3815170 040000160e000000666c61632070726f66696c65203100000000 83000024 00*16 10000000000000001000000000000000000b1000 fff8c90800951003c0a87efff8c90801921003c0c406fff8790802070ff11003c0f27e | 0 |  | block 0 STREAMINFO 34;  blocks 4096 4096 frames 11 13 rate 44100 channels 1 depth 16 samples 10000;  md5 b2fe457348de243a579a1591d3815170;block 1 VORBIS_COMMENT 22;  vendor flac profile 1;block 2 SEEKTABLE 36;  point 0 0 4096;  point 4096 11 4096;
encode a.raw a.flac --rate 44100 --channels 1 --bits 16 --seek-every 1000 | 00*20000 | 0 | 664c6143000000221000100000000b00000d0ac440f000002710b2fe457348de243a579a1591d3815170 040000160e000000666c61632070726f66696c65203100000000 83000036 00*16 10000000000000001000000000000000000b1000000000000000200000000000000000160710 fff8c90800951003c0a87efff8c90801921003c0c406fff8790802070ff11003c0f27e
list a.flac | 664c6143000000221000100000000b00000d0ac440f000002710b2fe457348de243a579a1591d3815170 040000160e000000666c61632070726f66696c65203100000000 83000036 00*16 10000000000000001000000000000000000b1000000000000000200000000000000000160710 fff8c90800951003c0a87efff8c90801921003c0c406fff8790802070ff11003c0f27e | 0 |  | block 0 STREAMINFO 34;  blocks 4096 4096 frames 11 13 rate 44100 channels 1 depth 16 samples 10000;  md5 b2fe457348de243a579a1591d3815170;block 1 VORBIS_COMMENT 22;  vendor flac profile 1;block 2 SEEKTABLE 54;  point 0 0 4096;  point 4096 11 4096;  point 8192 22 1808;
# In Ogg: the mapping, the comment block and the frame, a page each. A seek table is refused.
encode a.raw a.oga --rate 44100 --channels 2 --bits 16 --ogg --serial 1 | f463b028 | 0 | MAPPING VENDOR FRAME
decode a.flac a.raw | MAPPING VENDOR FRAME | 0 | f463b028";

/// Raw samples that are encoded outside the streamable subset, in rows as those of [`ENCODINGS`].
pub(crate) const LAX: &str = "# Sixteen zeros at 65537 Hz, of 5 bits: a byte for each sample.
encode a.raw a.flac --rate 65537 --channels 1 --bits 5 --block 16 --lax | 00*16 | 0 | LAX COMMENTS LAX_FRAME
encode a.raw a.flac --rate 65537 --channels 1 --bits 5 --block 16 | 00*16 | 1 |  |  | flac: a.raw: 40 BadRate;
decode --lax a.flac a.raw | LAX COMMENTS LAX_FRAME | 0 | 00*16
test --lax a.flac | LAX COMMENTS LAX_FRAME | 0 |  | frames 1 samples 16;
test a.flac | LAX COMMENTS LAX_FRAME | 1 |  |  | flac: a.flac: frame 0: 14 NotSubset;
# The same in Ogg.
encode a.raw a.oga --rate 65537 --channels 1 --bits 5 --block 16 --lax --ogg | 00*16 | 0 | LAX_MAPPING VENDOR LAX_PAGE
decode --lax a.flac a.raw | LAX_MAPPING VENDOR LAX_PAGE | 0 | 00*16
test a.flac | LAX_MAPPING VENDOR LAX_PAGE | 1 |  |  | flac: a.flac: frame 0: 14 NotSubset;
# The greatest rate, the smallest depth, and the greatest block.
encode a.raw a.flac --rate 1048575 --channels 1 --bits 8 --block 16 --lax | 00*16 | 0 | 664c6143000000220010001000000b00000bfffff070000000104ae71336e44bf9bf79d2752e234818a5 COMMENTS fff86002000f110000fb4a
encode a.raw a.flac --rate 44100 --channels 1 --bits 4 --block 16 --lax | ff*16 | 0 | 664c6143000000220010001000000b00000b0ac44030000000108d79cbc9a4ecdde112fc91ba625b13c2 COMMENTS fff86900000f6100f0063a
encode a.raw a.flac --rate 44100 --channels 1 --bits 8 --block 65535 --lax | 00*65535 | 0 | 664c614300000022ffffffff00000c00000c0ac440700000ffffc9ed338456e973b2c5440047aa2ead0b COMMENTS fff8790200fffede0000b07c
encode a.raw a.flac --rate 44100 --channels 1 --bits 8 --block 65535 | 00*65535 | 1 |  |  | flac: a.raw: 46 BadBlockSize;
# What is refused in both profiles, of three samples of 16 bits or six of 8; a number of 4 bits is below 8.
encode a.raw a.flac --rate 1048576 --channels 1 --bits 16 --lax | 000000080000 | 1 |  |  | flac: a.raw: 40 BadRate;
encode a.raw a.flac --rate 0 --channels 1 --bits 16 --lax | 000000080000 | 1 |  |  | flac: a.raw: 40 BadRate;
encode a.raw a.flac --rate 44100 --channels 1 --bits 33 --lax | 000000080000 | 1 |  |  | flac: a.raw: 41 BadDepth;
encode a.raw a.flac --rate 44100 --channels 1 --bits 3 --lax | 000000080000 | 1 |  |  | flac: a.raw: 41 BadDepth;
encode a.raw a.flac --rate 44100 --channels 9 --bits 16 --lax | 000000080000 | 1 |  |  | flac: a.raw: 42 BadChannels;
encode a.raw a.flac --rate 44100 --channels 1 --bits 4 --lax | 000000080000 | 1 |  |  | flac: a.raw: 44 SampleTooLarge;
encode a.raw a.flac --rate 44100 --channels 1 --bits 16 --block 15 --lax | 000000080000 | 1 |  |  | flac: a.raw: 46 BadBlockSize;
encode a.raw a.flac --rate 44100 --channels 1 --bits 16 --block 65536 --lax | 000000080000 | 1 |  |  | flac: a.raw: 46 BadBlockSize;";

/// Samples that are encoded with a list of predictors: the options, the text of the list, in which `;` ends a line, and
/// the rest as in [`ENCODINGS`]. The input is 1001 and -1001 in turn, at 44100 Hz in one channel of 16 bits.
pub(crate) const PREDICTED: &str =
    "# Without a list, and with one of no predictors: by a fixed predictor of order 0, each sample in 11 bits.
--block 16 |  | 0 | PLAIN COMMENTS PLAIN_FRAME
--block 16 --predictors a.txt |  | 0 | PLAIN COMMENTS PLAIN_FRAME
--block 16 --predictors a.txt | # no predictor;;\t \r; | 0 | PLAIN COMMENTS PLAIN_FRAME
# The predictor that the samples follow: its residual is zeros.
--block 16 --predictors a.txt | 1 0 -1 | 0 | PREDICTED COMMENTS PREDICTED_FRAME
--block 16 --predictors a.txt | 1 0 -1; | 0 | PREDICTED COMMENTS PREDICTED_FRAME
--block 16 --predictors a.txt | # the last one;3 0 2 -1;\t01  0\t-1 # right\r;15 15 -16384 16383 | 0 | PREDICTED COMMENTS PREDICTED_FRAME
--block 16 --predictors a.txt --lax | 1 0 -1 | 0 | PREDICTED COMMENTS PREDICTED_FRAME
--block 16 --predictors a.txt --ogg | 1 0 -1 | 0 | PREDICTED_MAPPING VENDOR PREDICTED_PAGE
# An order of 16, which a block of 16 samples does not use: above 12 in the subset at this rate.
--block 16 --predictors a.txt | 2 0 1 0 0 0 0 0 0 0 0 0 0 0 0 0 0 1 | 1 |  |  | flac: a.txt: 51 PredictorOrder;
--block 16 --predictors a.txt | 2 0 1 0 0 0 0 0 0 0 0 0 0 0 1 | 1 |  |  | flac: a.txt: 51 PredictorOrder;
--block 16 --predictors a.txt | 2 0 1 0 0 0 0 0 0 0 0 0 0 1 | 0 | PLAIN COMMENTS PLAIN_FRAME
--block 16 --predictors a.txt --lax | 2 0 1 0 0 0 0 0 0 0 0 0 0 0 0 0 0 1 | 0 | PLAIN COMMENTS PLAIN_FRAME
# Lines that are no predictor, of which the first is named.
--block 16 --predictors a.txt | 1 0 -1;;1 0 1;1 0 | 1 |  |  | flac: a.txt: line 3: 53 PredictorLine;
--block 16 --predictors a.txt | 1 | 1 |  |  | flac: a.txt: line 1: 53 PredictorLine;
--block 16 --predictors a.txt | 1 0 | 1 |  |  | flac: a.txt: line 1: 53 PredictorLine;
--block 16 --predictors a.txt | ;0 0 0 | 1 |  |  | flac: a.txt: line 2: 53 PredictorLine;
--block 16 --predictors a.txt | 16 0 1 | 1 |  |  | flac: a.txt: line 1: 53 PredictorLine;
--block 16 --predictors a.txt | 3 16 1 | 1 |  |  | flac: a.txt: line 1: 53 PredictorLine;
--block 16 --predictors a.txt | 3 -1 1 | 1 |  |  | flac: a.txt: line 1: 53 PredictorLine;
--block 16 --predictors a.txt | 3 0 4 | 1 |  |  | flac: a.txt: line 1: 53 PredictorLine;
--block 16 --predictors a.txt | 3 0 -5 | 1 |  |  | flac: a.txt: line 1: 53 PredictorLine;
--block 16 --predictors a.txt | 3 0 1.0 | 1 |  |  | flac: a.txt: line 1: 53 PredictorLine;
--block 16 --predictors a.txt | 3 0 - | 1 |  |  | flac: a.txt: line 1: 53 PredictorLine;
--block 16 --predictors a.txt | 3 0 4294967297 | 1 |  |  | flac: a.txt: line 1: 53 PredictorLine;
--block 16 --predictors a.txt | 2 0 0 0 0 0 0 0 0 0 0 0 0 0 0 0 0 0 0 0 0 0 0 0 0 0 0 0 0 0 0 0 0 0 0 | 1 |  |  | flac: a.txt: line 1: 53 PredictorLine;
# A wrong line goes before all other reasons, and a wrong order goes after those of the samples and the block size.
--block 15 --predictors a.txt | 3 | 1 |  |  | flac: a.txt: line 1: 53 PredictorLine;
--block 15 --predictors a.txt | 2 0 1 0 0 0 0 0 0 0 0 0 0 0 1 | 1 |  |  | flac: a.raw: 46 BadBlockSize;
--block 16 --seek-every 1 --predictors a.txt | 2 0 1 0 0 0 0 0 0 0 0 0 0 0 1 | 1 |  |  | flac: a.txt: 51 PredictorOrder;";

/// Formats of raw samples, and the number of bytes of seventeen samples of each channel.
pub(crate) const COME_BACK: &str = "--bits 8 --channels 1 | 17
--bits 8 --channels 2 | 34
--bits 8 --channels 8 | 136
--bits 16 --channels 1 | 34
--bits 16 --channels 2 | 68
--bits 16 --channels 8 | 272
--bits 24 --channels 1 | 51
--bits 24 --channels 2 | 102
--bits 24 --channels 8 | 408
--bits 32 --channels 1 | 68
--bits 32 --channels 2 | 136
--bits 32 --channels 8 | 544
--bits 16 --channels 1 --search quick | 34
--bits 16 --channels 2 --search full | 68
--bits 24 --channels 8 --search full | 408";

/// Streams that are decoded to WAV files, in rows as those of native streams: those that keep none become plain ones.
pub(crate) const WAVES: &str =
    "# One sample of two channels of 16 bits: RIFF and a length, a chunk `fmt ` of 16 bytes, and the samples.
decode a.flac a.wav | EXAMPLE | 0 | 52494646 28000000 57415645 666d7420 10000000 0100 0200 44ac0000 10b10200 0400 1000 64617461 04000000 f463b028
# The same stream by an option, and in Ogg.
decode --wav a.flac a.raw | EXAMPLE | 0 | 52494646 28000000 57415645 666d7420 10000000 0100 0200 44ac0000 10b10200 0400 1000 64617461 04000000 f463b028
decode a.oga a.wav | PAGES | 0 | 52494646 28000000 57415645 666d7420 10000000 0100 0200 44ac0000 10b10200 0400 1000 64617461 04000000 f463b028
# 127 of 8 bits, which is 255 in the file, and a zero after it.
decode a.flac a.wav | 664c614380000022001010000000000000000ac440700000000183acb6e67e50e31db6ed341dd2de1595 fff8690200009a007fb547 | 0 | 52494646 26000000 57415645 666d742010000000 0100 0100 44ac0000 44ac0000 0100 0800 64617461 01000000 ff 00
# STREAMINFO does not state the number of samples: then both lengths are FFFFFFFF, and no zero follows.
decode a.flac a.wav | 664c614380000022001010000000000000000ac4407000000000 00*16 fff8690200009a007fb547 | 0 | 52494646 ffffffff 57415645 666d742010000000 0100 0100 44ac0000 44ac0000 0100 0800 64617461 ffffffff ff
# 16 samples of two channels of 32 bits, whose format takes 40 bytes.
decode a.flac a.wav | 664c614380000022001010000000000000000ac443f0 00*20 fff869ae000f05100015555555501ffffffff8c88021c7ffffff480000003ffffffa40000001ffffffd20000000ffffffe900000007ffffff480000003ffffffa40000001ffffffd20000000ffffffe89a26 | 0 | 52494646 ffffffff 57415645 666d7420 28000000 feff 0200 44ac0000 20620500 0800 2000 1600 2000 03000000 0100000000001000800000aa00389b71 64617461 ffffffff ffffff7f0000008000000080ffffff7f*8
# 2^36 - 1 samples are stated: the front of an RF64 file, and the sample that came.
decode a.flac a.wav | 664c614380000022001010000000000000000ac4407fffffffff83acb6e67e50e31db6ed341dd2de1595 fff8690200009a007fb547 | 1 | 52463634 ffffffff 57415645 64733634 1c000000 4800000010000000 ffffffff0f000000 ffffffff0f000000 00000000 666d742010000000 0100 0100 44ac0000 44ac0000 0100 0800 64617461 ffffffff ff |  | flac: a.flac: end: 28 TotalMismatch;
# The header of a WAV file is kept, and no header of its samples: a plain file is written.
decode a.flac a.wav | 664c614300000022001010000000000000000ac440700000000183acb6e67e50e31db6ed341dd2de1595 82000010 72696666 524946460000000057415645 fff8690200009a007fb547 | 0 | 52494646 26000000 57415645 666d742010000000 0100 0100 44ac0000 44ac0000 0100 0800 64617461 01000000 ff 00
# The header of the file is not kept, or its format is not: another program removed the block. A plain file is written.
decode a.flac a.wav | 664c614300000022001010000000000000000ac440700000000183acb6e67e50e31db6ed341dd2de1595 0200001c 72696666 666d742010000000 0100 0100 401f0000 401f0000 0100 0800 8200000c 72696666 6461746101000000 fff8690200009a007fb547 | 0 | 52494646 26000000 57415645 666d742010000000 0100 0100 44ac0000 44ac0000 0100 0800 64617461 01000000 ff 00
decode a.flac a.wav | 664c614300000022001010000000000000000ac440700000000183acb6e67e50e31db6ed341dd2de1595 02000010 72696666 524946460000000057415645 8200000c 72696666 6461746101000000 fff8690200009a007fb547 | 0 | 52494646 26000000 57415645 666d742010000000 0100 0100 44ac0000 44ac0000 0100 0800 64617461 01000000 ff 00
# Both are kept, with another rate and another length: they are written as they are.
decode a.flac a.wav | 664c614300000022001010000000000000000ac440700000000183acb6e67e50e31db6ed341dd2de1595 02000010 72696666 524946460000000057415645 0200001c 72696666 666d742010000000 0100 0100 401f0000 401f0000 0100 0800 8200000c 72696666 6461746101000000 fff8690200009a007fb547 | 0 | 52494646 00000000 57415645 666d742010000000 0100 0100 401f0000 401f0000 0100 0800 64617461 01000000 ff 00
# A file of samples of 16 bits is kept, and the stream has 8: 127 is the highest bits of two bytes.
decode a.flac a.wav | 664c614300000022001010000000000000000ac440700000000183acb6e67e50e31db6ed341dd2de1595 02000010 72696666 524946460000000057415645 0200001c 72696666 666d742010000000 0100 0100 401f0000 803e0000 0200 1000 8200000c 72696666 6461746101000000 fff8690200009a007fb547 | 0 | 52494646 00000000 57415645 666d742010000000 0100 0100 401f0000 803e0000 0200 1000 64617461 01000000 007f
# One of 8 bits is kept, in which samples of 16 have no room.
decode a.flac a.wav | 664c614300000022 100010000000 0f00000f 0ac442f0000000013e84b41807dc690307586a3dad1a2e0f 02000010 72696666 524946460000000057415645 0200001c 72696666 666d742010000000 0100 0200 44ac0000 88580100 0200 0800 8200000c 72696666 6461746102000000 fff869180000bf0358fd03128baa9a | 1 |  |  | flac: a.flac: 72 OtherBits;
# A file that says that 12 of 16 bits count, and whose low bits are zeros, becomes a stream of 12 bits, and comes back.
encode a.wav a.flac --block 16 --search none | 52494646 3e000000 57415645 666d742028000000 feff 0100 44ac0000 88580100 0200 1000 1600 0c00 04000000 0100000000001000800000aa00389b71 64617461 02000000 f0ff | 0 | 664c6143000000220010001000000c00000c0ac440b000000001ab2a0d28de6b77ffdd6c72afead099ab 04000016 0e000000 666c61632070726f66696c652031 00000000 02000010 72696666 52494646 3e000000 57415645 02000034 72696666 666d742028000000 feff 0100 44ac0000 88580100 0200 1000 1600 0c00 04000000 0100000000001000800000aa00389b71 8200000c 72696666 64617461 02000000 fff869040000e700fff064e0
decode a.flac a.wav | 664c6143000000220010001000000c00000c0ac440b000000001ab2a0d28de6b77ffdd6c72afead099ab 04000016 0e000000 666c61632070726f66696c652031 00000000 02000010 72696666 52494646 3e000000 57415645 02000034 72696666 666d742028000000 feff 0100 44ac0000 88580100 0200 1000 1600 0c00 04000000 0100000000001000800000aa00389b71 8200000c 72696666 64617461 02000000 fff869040000e700fff064e0 | 0 | 52494646 3e000000 57415645 666d742028000000 feff 0100 44ac0000 88580100 0200 1000 1600 0c00 04000000 0100000000001000800000aa00389b71 64617461 02000000 f0ff
# The same file with --no-keep: its sample alone. And one whose channel is for another speaker, which a comment says.
encode a.wav a.flac --block 16 --search none --no-keep | 52494646 3e000000 57415645 666d742028000000 feff 0100 44ac0000 88580100 0200 1000 1600 0c00 04000000 0100000000001000800000aa00389b71 64617461 02000000 f0ff | 0 | 664c6143000000220010001000000c00000c0ac440b000000001ab2a0d28de6b77ffdd6c72afead099ab COMMENTS fff869040000e700fff064e0
encode a.wav a.flac --block 16 --search none --no-keep | 52494646 3e000000 57415645 666d742028000000 feff 0100 44ac0000 88580100 0200 1000 1600 0c00 01000000 0100000000001000800000aa00389b71 64617461 02000000 f0ff | 0 | 664c6143000000220010001000000c00000c0ac440b000000001ab2a0d28de6b77ffdd6c72afead099ab 84000046 0e000000 666c61632070726f66696c652031 01000000 2c000000 57415645464f524d4154455854454e5349424c455f4348414e4e454c5f4d41534b3d30783030303030303031 fff869040000e700fff064e0
encode a.wav a.flac --block 16 --search none | 52494646 3e000000 57415645 666d742028000000 feff 0100 44ac0000 88580100 0200 1000 1600 0c00 01000000 0100000000001000800000aa00389b71 64617461 02000000 f0ff | 0 | 664c6143000000220010001000000c00000c0ac440b000000001ab2a0d28de6b77ffdd6c72afead099ab 04000046 0e000000 666c61632070726f66696c652031 01000000 2c000000 57415645464f524d4154455854454e5349424c455f4348414e4e454c5f4d41534b3d30783030303030303031 02000010 72696666 52494646 3e000000 57415645 02000034 72696666 666d742028000000 feff 0100 44ac0000 88580100 0200 1000 1600 0c00 01000000 0100000000001000800000aa00389b71 8200000c 72696666 64617461 02000000 fff869040000e700fff064e0
# The same file, cut after its first sample: it is refused, or ends there; and cut inside the second sample.
encode a.wav a.flac --block 16 --search none --no-keep | 52494646 3e000000 57415645 666d742028000000 feff 0100 44ac0000 88580100 0200 1000 1600 0c00 04000000 0100000000001000800000aa00389b71 64617461 04000000 f0ff | 1 |  |  | flac: a.wav: chunk 1: 69 DataCut;
encode a.wav a.flac --block 16 --search none --no-keep --to-end | 52494646 3e000000 57415645 666d742028000000 feff 0100 44ac0000 88580100 0200 1000 1600 0c00 04000000 0100000000001000800000aa00389b71 64617461 04000000 f0ff | 0 | 664c6143000000220010001000000c00000c0ac440b000000001ab2a0d28de6b77ffdd6c72afead099ab COMMENTS fff869040000e700fff064e0
encode a.wav a.flac --block 16 --search none --no-keep --to-end | 52494646 3e000000 57415645 666d742028000000 feff 0100 44ac0000 88580100 0200 1000 1600 0c00 04000000 0100000000001000800000aa00389b71 64617461 04000000 f0fff0 | 1 |  |  | flac: a.wav: chunk 1: 70 PartSample;
# The same of a file that states no samples, though one is there: its writer did not end.
encode a.wav a.flac --block 16 --search none --no-keep | 52494646 3e000000 57415645 666d742028000000 feff 0100 44ac0000 88580100 0200 1000 1600 0c00 04000000 0100000000001000800000aa00389b71 64617461 00000000 f0ff | 1 |  |  | flac: a.wav: chunk 1: 92 DataUnstated;
encode a.wav a.flac --block 16 --search none --no-keep --to-end | 52494646 3e000000 57415645 666d742028000000 feff 0100 44ac0000 88580100 0200 1000 1600 0c00 04000000 0100000000001000800000aa00389b71 64617461 00000000 f0ff | 0 | 664c6143000000220010001000000c00000c0ac440b000000001ab2a0d28de6b77ffdd6c72afead099ab COMMENTS fff869040000e700fff064e0
# The speakers of such a comment are those of a plain file; of other values those of n channels are.
decode a.flac a.wav | 664c6143000000220010001000000c00000c0ac440b000000001ab2a0d28de6b77ffdd6c72afead099ab 84000046 0e000000 666c61632070726f66696c652031 01000000 2c000000 57415645464f524d4154455854454e5349424c455f4348414e4e454c5f4d41534b3d30783030303030303031 fff869040000e700fff064e0 | 0 | 52494646 3e000000 57415645 666d742028000000 feff 0100 44ac0000 88580100 0200 1000 1600 0c00 01000000 0100000000001000800000aa00389b71 64617461 02000000 f0ff
decode a.flac a.wav | 664c6143000000220010001000000c00000c0ac440b000000001ab2a0d28de6b77ffdd6c72afead099ab 84000041 0e000000 666c61632070726f66696c652031 01000000 27000000 57617665466f726d6174457874656e7369626c655f4368616e6e656c5f4d61736b3d3078363046 fff869040000e700fff064e0 | 0 | 52494646 3e000000 57415645 666d742028000000 feff 0100 44ac0000 88580100 0200 1000 1600 0c00 0f060000 0100000000001000800000aa00389b71 64617461 02000000 f0ff
decode a.flac a.wav | 664c6143000000220010001000000c00000c0ac440b000000001ab2a0d28de6b77ffdd6c72afead099ab 8400003e 0e000000 666c61632070726f66696c652031 01000000 24000000 57415645464f524d4154455854454e5349424c455f4348414e4e454c5f4d41534b3d3078 fff869040000e700fff064e0 | 0 | 52494646 3e000000 57415645 666d742028000000 feff 0100 44ac0000 88580100 0200 1000 1600 0c00 04000000 0100000000001000800000aa00389b71 64617461 02000000 f0ff
decode a.flac a.wav | 664c6143000000220010001000000c00000c0ac440b000000001ab2a0d28de6b77ffdd6c72afead099ab 84000040 0e000000 666c61632070726f66696c652031 01000000 26000000 57415645464f524d4154455854454e5349424c455f4348414e4e454c5f4d41534b3d30783167 fff869040000e700fff064e0 | 0 | 52494646 3e000000 57415645 666d742028000000 feff 0100 44ac0000 88580100 0200 1000 1600 0c00 04000000 0100000000001000800000aa00389b71 64617461 02000000 f0ff
decode a.flac a.wav | 664c6143000000220010001000000c00000c0ac440b000000001ab2a0d28de6b77ffdd6c72afead099ab 8400003d 0e000000 666c61632070726f66696c652031 01000000 23000000 57415645464f524d4154455854454e5349424c455f4348414e4e454c5f4d41534b3d31 fff869040000e700fff064e0 | 0 | 52494646 3e000000 57415645 666d742028000000 feff 0100 44ac0000 88580100 0200 1000 1600 0c00 04000000 0100000000001000800000aa00389b71 64617461 02000000 f0ff
# -1 of 12 bits, -2 of 20 and zeros of 5 are the highest bits of 2, 3 and 1 bytes.
decode a.flac a.wav | 664c614380000022001010000000000000000ac440b000000001ab2a0d28de6b77ffdd6c72afead099ab fff869040000e700fff064e0 | 0 | 52494646 3e000000 57415645 666d7420 28000000 feff 0100 44ac0000 88580100 0200 1000 1600 0c00 04000000 0100000000001000800000aa00389b71 64617461 02000000 f0ff
decode a.flac a.wav | 664c614380000022001010000000000000000ac441300000000196f87e53160ad1412550050a1e6f57d1 fff8690a0000cb00ffffe0ac1f | 0 | 52494646 40000000 57415645 666d7420 28000000 feff 0100 44ac0000 cc040200 0300 1800 1600 1400 04000000 0100000000001000800000aa00389b71 64617461 03000000 e0ffff 00
decode --lax a.flac a.wav | 664c614380000022001000100000000000001000104000000010 00*16 fff86000000fc700000572 | 0 | 52494646 4c000000 57415645 666d7420 28000000 feff 0100 01000100 01000100 0100 0800 1600 0500 04000000 0100000000001000800000aa00389b71 64617461 10000000 80*16";

/// Streams that are given other comments, in rows as those of native streams.
pub(crate) const RETAGGINGS: &str =
    "# A comment is added, and replaced; a second STREAMINFO; a stream that is cut in the first.
retag a.flac b.flac TITLE=x | EXAMPLE | 0 | EXAMPLE_TAGGED
retag a.flac b.flac TITLE=y | EXAMPLE_TAGGED | 0 | 664c6143000000221000100000000f00000f0ac442f000000001 00*16 840000210e000000666c61632070726f66696c65203101000000070000005449544c453d79 fff869180000bf0358fd03128baa9a
retag a.flac b.flac TITLE=x | TWO_INFOS | 1 |  |  | flac: a.flac: block 1: 9 RepeatedBlock;
retag a.flac b.flac TITLE=x | 664c6143800000221000100000000f00000f0ac442f000000001 00*15 | 1 |  |  | flac: a.flac: block 0: 3 Truncated;";

/// Ogg streams, page by page, in rows as those of native streams. The sums of the pages were worked out apart from this
/// project.
pub(crate) const OGG: &str = "test a.flac | PAGES | 0 |  | frames 1 samples 1;
test a.flac | MAPPING COMMENT NO_SEGMENTS FRAME_3 | 0 |  | frames 1 samples 1;
test a.flac | MAPPING PADDING 00*251 PADDING_GOES_ON 00*45 COMMENT_3 FRAME_4 | 0 |  | frames 1 samples 1;
test a.flac | ZEROS_MAPPING ZEROS_0 ZEROS_1 ZEROS_2 ZEROS_3 | 0 |  | frames 4 samples 64;
test a.flac | ZEROS_MAPPING ZEROS_TOGETHER | 0 |  | frames 4 samples 64;
test a.flac | MAPPING COMMENT NO_BYTES | 1 |  |  | flac: a.flac: frame 0: 35 PacketLength;
test a.flac | MAPPING COMMENT LONG_FRAME | 1 |  |  | flac: a.flac: frame 0: 35 PacketLength;
test a.flac | MAPPING COMMENT SHORT_FRAME | 1 |  |  | flac: a.flac: frame 0: 35 PacketLength;
test a.flac | PAGES 4f | 1 |  |  | flac: a.flac: page 3: 33 PageOrder;
test a.flac | MAPPING COMMENT OPEN_FRAME | 1 |  |  | flac: a.flac: end: 36 NoEndPage;
test a.flac | MAPPING COMMENT | 1 |  |  | flac: a.flac: end: 36 NoEndPage;
test a.flac | MAPPING LAST_COMMENT | 1 |  |  | flac: a.flac: end: 28 TotalMismatch;
test a.flac | LAST_MAPPING | 1 |  |  | flac: a.flac: block 1: 35 PacketLength;
test a.flac | LAST_MAPPING 4f | 1 |  |  | flac: a.flac: block 1: 35 PacketLength;
test a.flac | MAPPING LAST_PADDING 00*251 | 1 |  |  | flac: a.flac: block 1: 35 PacketLength;
test a.flac | MAPPING LAST_PADDING 00*251 4f | 1 |  |  | flac: a.flac: block 1: 35 PacketLength;
test a.flac | MAPPING PADDING 00*251 | 1 |  |  | flac: a.flac: end: 36 NoEndPage;
test a.flac | MAPPING PADDING 00*251 PADDING_BEGUN_ANEW 00*45 | 1 |  |  | flac: a.flac: page 2: 33 PageOrder;
test a.flac | MAPPING OTHER_SERIAL FRAME | 1 |  |  | flac: a.flac: page 1: 34 OtherStream;
test a.flac | MAPPING COMMENT FRAME_3 | 1 |  |  | flac: a.flac: page 2: 33 PageOrder;
test a.flac | MAPPING FIRST_AGAIN FRAME | 1 |  |  | flac: a.flac: page 1: 33 PageOrder;
test a.flac | MAPPING CONTINUED FRAME | 1 |  |  | flac: a.flac: page 1: 33 PageOrder;
test a.flac | VERSION_2 COMMENT FRAME | 1 |  |  | flac: a.flac: marker: 37 BadMapping;
test a.flac | NOT_FIRST COMMENT FRAME | 1 |  |  | flac: a.flac: marker: 37 BadMapping;
test a.flac | 4f | 1 |  |  | flac: a.flac: page 0: 3 Truncated;
decode a.flac a.raw | PAGES | 0 | f463b028
list a.flac | PAGES | 0 |  | block 0 STREAMINFO 34;  blocks 4096 4096 frames 15 15 rate 44100 channels 2 depth 16 samples 1;  md5 3e84b41807dc690307586a3dad1a2e0f;block 1 VORBIS_COMMENT 8;  vendor ;
# A page is missing: the frames whose packets ended before it are written.
decode a.flac a.raw | ZEROS_MAPPING ZEROS_0 ZEROS_1 ZEROS_3 | 1 | 00*64 |  | flac: a.flac: page 3: 33 PageOrder;
# A wrong sum, and a page that does not begin as one.
decode a.flac a.raw | MAPPING COMMENT 4f67675300040100000000000000010000000200000048872f1f010ffff869180000bf0158fd01128b5ab2 | 1 |  |  | flac: a.flac: page 2: 32 PageCheck;
test a.flac | MAPPING 4e67675300000000000000000000010000000100000060d1f601010c840000080000000000000000 FRAME | 1 |  |  | flac: a.flac: page 1: 31 BadPage;
# A page whose 255 lacing values are 255, and whose body is cut.
test a.flac | MAPPING COMMENT 4f6767530000 ff*8 010000000200000000000000ff ff*255 fff869180000bf0158fd01128b5ab2 00*65009 | 1 |  |  | flac: a.flac: page 2: 3 Truncated;";

/// Command lines, what IN and what OUT begins with, and whether OUT may be replaced.
pub(crate) const REPLACED: &str = "# A stream, a page of Ogg, WAV files, an AIFF file, an ID3v2 tag.
decode a.flac a.raw |  | 664c6143 00*8 | no
decode a.flac a.raw |  | 4f676753 00*8 | no
decode a.flac a.raw |  | 52494646 00*8 | no
decode a.flac a.raw |  | 52463634 00*8 | no
decode a.flac a.raw |  | 42573634 00*8 | no
decode a.flac a.raw |  | 464f524d 00*8 | no
decode a.flac a.raw |  | 494433 00*8 | no
decode a.flac a.wav |  | 664c6143 00*8 | no
decode a.flac a.wav |  | 4f676753 00*8 | no
decode a.flac a.wav |  | 52494646 00*8 | yes
decode a.flac a.wav |  | 52463634 00*8 | yes
decode a.flac a.wav |  | 42573634 00*8 | yes
decode a.flac a.wav |  | 464f524d 00*8 | no
decode a.flac a.wav |  | 494433 00*8 | no
encode a.wav a.flac |  | 664c6143 00*8 | yes
encode a.wav a.flac |  | 4f676753 00*8 | yes
encode a.wav a.flac |  | 52494646 00*8 | no
encode a.wav a.flac |  | 52463634 00*8 | no
encode a.wav a.flac |  | 42573634 00*8 | no
encode a.wav a.flac |  | 464f524d 00*8 | no
encode a.wav a.flac |  | 494433 00*8 | no
encode a.raw a.flac --rate 44100 --channels 2 --bits 16 |  | 664c6143 00*8 | yes
encode a.raw a.flac --rate 44100 --channels 2 --bits 16 |  | 4f676753 00*8 | yes
encode a.raw a.flac --rate 44100 --channels 2 --bits 16 |  | 52494646 00*8 | no
encode a.raw a.flac --rate 44100 --channels 2 --bits 16 |  | 52463634 00*8 | no
encode a.raw a.flac --rate 44100 --channels 2 --bits 16 |  | 42573634 00*8 | no
encode a.raw a.flac --rate 44100 --channels 2 --bits 16 |  | 464f524d 00*8 | no
encode a.raw a.flac --rate 44100 --channels 2 --bits 16 |  | 494433 00*8 | no
# No file of sound begins so.
decode a.flac a.raw |  | 664c6144 | yes
decode a.flac a.raw |  | 4944 | yes
decode a.flac a.raw |  | 524946 | yes
decode a.flac a.raw |  | 00 | yes
decode a.flac a.raw |  | 20664c6143 | yes
decode a.flac a.wav |  | 664c6144 | yes
decode a.flac a.wav |  | 4944 | yes
decode a.flac a.wav |  | 524946 | yes
decode a.flac a.wav |  | 00 | yes
decode a.flac a.wav |  | 20664c6143 | yes
encode a.wav a.flac |  | 664c6144 | yes
encode a.wav a.flac |  | 4944 | yes
encode a.wav a.flac |  | 524946 | yes
encode a.wav a.flac |  | 00 | yes
encode a.wav a.flac |  | 20664c6143 | yes
encode a.raw a.flac --rate 44100 --channels 2 --bits 16 |  | 664c6144 | yes
encode a.raw a.flac --rate 44100 --channels 2 --bits 16 |  | 4944 | yes
encode a.raw a.flac --rate 44100 --channels 2 --bits 16 |  | 524946 | yes
encode a.raw a.flac --rate 44100 --channels 2 --bits 16 |  | 00 | yes
encode a.raw a.flac --rate 44100 --channels 2 --bits 16 |  | 20664c6143 | yes
# Jobs that write nothing replace nothing.
test a.flac |  | 664c6143 | yes
list a.flac |  | 664c6143 | yes
# A native stream of the same STREAMINFO, with the other flag, and with more after it; another digest; a cut one; no stream; IN that is none.
retag a.flac b.flac | EXAMPLE | EXAMPLE | yes
retag a.flac b.flac | EXAMPLE | EXAMPLE_TAGGED | yes
retag a.flac b.flac | EXAMPLE_TAGGED | EXAMPLE 00*100 | yes
retag a.flac b.flac | EXAMPLE | ONE_INFO | no
retag a.flac b.flac | EXAMPLE | 664c61438000002210001000 | no
retag a.flac b.flac | EXAMPLE | PAGES | no
retag a.flac b.flac | EXAMPLE | 00*42 | no
retag a.flac b.flac | 00*42 | 00*42 | no
retag a.flac b.flac | PAGES | PAGES | no";

/// Command lines, and the jobs that they are read as, or the status and the text of the refusal, of which `;` ends a
/// line.
pub(crate) const JOBS: &str = r#"flac test a.flac | Test { input: "a.flac", lax: false }
flac test --lax a.flac | Test { input: "a.flac", lax: true }
flac decode a.flac a.raw | Decode { input: "a.flac", output: "a.raw", lax: false }
flac decode a.flac a.raw --lax | Decode { input: "a.flac", output: "a.raw", lax: true }
flac decode a.flac a.raw --force | force Decode { input: "a.flac", output: "a.raw", lax: false }
flac decode a.flac a.wav | DecodeWave { input: "a.flac", output: "a.wav", lax: false }
flac decode a.flac a.WAV | DecodeWave { input: "a.flac", output: "a.WAV", lax: false }
flac decode a.flac .wAv | DecodeWave { input: "a.flac", output: ".wAv", lax: false }
flac decode a.flac a.wave | Decode { input: "a.flac", output: "a.wave", lax: false }
flac decode a.flac wav | Decode { input: "a.flac", output: "wav", lax: false }
flac decode - - | Decode { input: "-", output: "-", lax: false }
flac decode - --wav - | DecodeWave { input: "-", output: "-", lax: false }
flac test - | Test { input: "-", lax: false }
flac decode --wav a.flac a.raw --force | force DecodeWave { input: "a.flac", output: "a.raw", lax: false }
flac list a.flac | List { input: "a.flac", lax: false }
flac list a.flac --lax | List { input: "a.flac", lax: true }
flac list a.flac b.flac a.flac --lax | ListFiles(Listing { inputs: ["a.flac", "b.flac", "a.flac"], lax: true, any: false, head: false, json: false, blocks: Some([]) })
flac test --any a.flac | any Test { input: "a.flac", lax: true }
flac decode a.flac a.raw --any --lax | any Decode { input: "a.flac", output: "a.raw", lax: true }
flac decode a.flac a.wav --any | any DecodeWave { input: "a.flac", output: "a.wav", lax: true }
flac list --any a.flac | any List { input: "a.flac", lax: true }
flac list --any --head a.flac | ListFiles(Listing { inputs: ["a.flac"], lax: true, any: true, head: true, json: false, blocks: Some([]) })
flac list --head a.flac | ListFiles(Listing { inputs: ["a.flac"], lax: false, any: false, head: true, json: false, blocks: Some([]) })
flac list --json a.flac | ListFiles(Listing { inputs: ["a.flac"], lax: false, any: false, head: false, json: true, blocks: Some([]) })
flac list a.flac --block 0 --block 4294967295 --block picture | ListFiles(Listing { inputs: ["a.flac"], lax: false, any: false, head: false, json: false, blocks: Some([Number(0), Number(4294967295), Kind(6)]) })
flac list a.flac --block StreamInfo --block type_126 --block application:0x41424344 | ListFiles(Listing { inputs: ["a.flac"], lax: false, any: false, head: false, json: false, blocks: Some([Kind(0), Kind(126), Application([65, 66, 67, 68])]) })
flac list a.flac --block 4294967296 | 2 flac: command: --block takes the number of a block, or a type;
flac list a.flac b.flac --json --block pictures | 2 flac: command: --block takes the number of a block, or a type;
flac list a.flac --block picture:3 | 2 flac: command: --block takes the number of a block, or a type;
flac verify Music --all | Verify(Verification { paths: ["Music"], subset: false, report: None, resume: None, against: None, all: true })
flac verify Music a.flac | Verify(Verification { paths: ["Music", "a.flac"], subset: false, report: None, resume: None, against: None, all: false })
flac decode a.flac a.raw --from 44100 | Excerpt(Excerpt { input: "a.flac", output: "a.raw", from: Sample(44100), to: None, wave: false, lax: false, any: false, force: false })
flac decode a.flac a.WAV --to 0:00.5 | Excerpt(Excerpt { input: "a.flac", output: "a.WAV", from: Sample(0), to: Some(Time(500000000)), wave: true, lax: false, any: false, force: false })
flac decode a.flac - --wav --from 90:00 --to 1:30:00.000000001 --any --force | Excerpt(Excerpt { input: "a.flac", output: "-", from: Time(5400000000000), to: Some(Time(5400000000001)), wave: true, lax: true, any: true, force: true })
flac decode a.flac a.raw --from 18446744073709551615 --to 1:00 --lax | Excerpt(Excerpt { input: "a.flac", output: "a.raw", from: Sample(18446744073709551615), to: Some(Time(60000000000)), wave: false, lax: true, any: false, force: false })
flac decode a.flac a.raw --from 5 --to 5 | Excerpt(Excerpt { input: "a.flac", output: "a.raw", from: Sample(5), to: Some(Sample(5)), wave: false, lax: false, any: false, force: false })
flac decode a.flac a.raw --to 5124095:34:33.709551615 | Excerpt(Excerpt { input: "a.flac", output: "a.raw", from: Sample(0), to: Some(Time(18446744073709551615)), wave: false, lax: false, any: false, force: false })
flac decode a.flac a.raw --from 6 --to 5 | 2 flac: command: --to is before --from;
flac decode a.flac a.raw --from 0:01 --to 0:00.999999999 | 2 flac: command: --to is before --from;
flac decode a.flac a.raw --to 5124095:34:33.709551616 | 2 flac: command: --from and --to take*
flac decode a.flac a.raw --from 18446744073709551616 | 2 flac: command: --from and --to take*
flac decode a.flac a.raw --from +5 | 2 flac: command: --from and --to take*
flac decode a.flac a.raw --from 1.5 | 2 flac: command: --from and --to take*
flac decode a.flac a.raw --from :05 | 2 flac: command: --from and --to take*
flac decode a.flac a.raw --from 1:5 | 2 flac: command: --from and --to take*
flac decode a.flac a.raw --from 1:60 | 2 flac: command: --from and --to take*
flac decode a.flac a.raw --from 1:60:00 | 2 flac: command: --from and --to take*
flac decode a.flac a.raw --from 1:5:00 | 2 flac: command: --from and --to take*
flac decode a.flac a.raw --from 1:00:00:00 | 2 flac: command: --from and --to take*
flac decode a.flac a.raw --from 1:00. | 2 flac: command: --from and --to take*
flac decode a.flac a.raw --from 1:00.0123456789 | 2 flac: command: --from and --to take*
flac decode a.flac a.raw --from 1:00.5s | 2 flac: command: --from and --to take*
flac decode a.flac a.raw --from=-5 | 2 flac: command: --from and --to take*
flac decode a.flac a.raw --from 5 --from 6 | 2 error: the argument '--from <MOMENT>' cannot be used multiple times*
flac decode a.flac --from 5 | 2 error: the following required arguments were not provided:*
flac test a.flac --from 5 | 2 error: unexpected argument '--from' found*
flac salvage a.flac b.flac | Salvage(Salvage { input: "a.flac", output: "b.flac", filling: Silence, lax: false, force: false })
flac salvage - - --silence --lax | Salvage(Salvage { input: "-", output: "-", filling: Silence, lax: true, force: false })
flac salvage a.flac b.flac --gap --force | Salvage(Salvage { input: "a.flac", output: "b.flac", filling: Nothing, lax: false, force: true })
flac salvage a.flac b.flac --gap --silence | 2 flac: command: --silence with --gap;
flac salvage a.flac | 2 error: the following required arguments were not provided:*
flac salvage a.flac b.flac --ogg | 2 error: unexpected argument '--ogg' found*
flac recode a.flac b.flac | Recode(Recoding { input: "a.flac", output: "b.flac", block: 4096, seek_every: 0, container: Native, lax: false, predictors: None, effort: Quick, force: false })
flac recode a.flac b.oga --ogg --serial 7 --lax --force --block 16 --predictors a.txt --search full | Recode(Recoding { input: "a.flac", output: "b.oga", block: 16, seek_every: 0, container: Ogg { serial: 7 }, lax: true, predictors: Some("a.txt"), effort: Full, force: true })
flac recode - - --seek-every 5 | Recode(Recoding { input: "-", output: "-", block: 4096, seek_every: 5, container: Native, lax: false, predictors: None, effort: Quick, force: false })
flac recode a.flac b.oga --ogg --seek-every 5 | 2 flac: command: --ogg with --seek-every;
flac recode a.flac b.oga --copy --ogg --serial 7 | Copy(StreamCopy { input: "a.flac", output: "b.oga", container: Ogg { serial: 7 }, force: false })
flac recode --copy --lax a.oga - --force | Copy(StreamCopy { input: "a.oga", output: "-", container: Native, force: true })
flac recode a.flac b.flac --copy --block 4096 | 2 flac: command: --copy with --block, --seek-every, --search or --predictors;
flac recode a.flac b.flac --copy --seek-every 0 | 2 flac: command: --copy with --block, --seek-every, --search or --predictors;
flac recode a.flac b.flac --copy --search none | 2 flac: command: --copy with --block, --seek-every, --search or --predictors;
flac recode a.flac b.flac --copy --predictors a.txt | 2 flac: command: --copy with --block, --seek-every, --search or --predictors;
flac recode --copy a.flac | 2 error: the following required arguments were not provided:*
flac recode a.flac b.flac A=b | 2 error: unexpected argument 'A=b' found*
flac recode a.flac | 2 error: the following required arguments were not provided:*
flac retag a.flac b.flac A=b | Retag { input: "a.flac", output: "b.flac", comments: ["A=b"] }
flac retag --force a.flac b.flac A=b | force Retag { input: "a.flac", output: "b.flac", comments: ["A=b"] }
flac retag a.flac ./TITLE=New | Retag { input: "a.flac", output: "./TITLE=New", comments: [] }
flac retag a.flac b/TITLE=New A=b | Retag { input: "a.flac", output: "b/TITLE=New", comments: ["A=b"] }
flac retag a.flac TITLE=New | 2 flac: command: OUT has the form of a comment; a file of that name is ./TITLE=New;
flac retag a.flac TITLE=New/b A=b --force | 2 flac: command: OUT has the form of a comment; a file of that name is ./TITLE=New/b;
flac retag a.flac =b | 2 flac: command: OUT has the form of a comment; a file of that name is ./=b;
flac retag a.flac TITLE=New none | 2 flac: command: comment without =;
flac encode a.wav TITLE=New A=b | 2 flac: command: OUT has the form of a comment; a file of that name is ./TITLE=New;
flac encode a.raw TITLE=New --rate 44100 --channels 2 --bits 16 | 2 flac: command: OUT has the form of a comment; a file of that name is ./TITLE=New;
flac encode a.wav ./TITLE=New | EncodeWave { input: "a.wav", output: "./TITLE=New", block: 4096, seek_every: 0, container: Native, comments: [], lax: false, predictors: None, effort: Quick, keep: true, to_end: false }
flac encode - - A=b | EncodeWave { input: "-", output: "-", block: 4096, seek_every: 0, container: Native, comments: ["A=b"], lax: false, predictors: None, effort: Quick, keep: true, to_end: false }
flac decode a.flac A=b | Decode { input: "a.flac", output: "A=b", lax: false }
flac encode a.raw a.flac --rate 44100 --channels 2 --bits 16 --seek-every 5 A=b | Encode { input: "a.raw", output: "a.flac", format: RawFormat { rate: 44100, channels: 2, bits: 16, block: 4096, seek_every: 5 }, container: Native, comments: ["A=b"], lax: false, predictors: None, effort: None, raw: false }
flac encode a.raw a.oga --rate 44100 --channels 2 --bits 16 --ogg --serial 7 | Encode { input: "a.raw", output: "a.oga", format: RawFormat { rate: 44100, channels: 2, bits: 16, block: 4096, seek_every: 0 }, container: Ogg { serial: 7 }, comments: [], lax: false, predictors: None, effort: None, raw: false }
flac encode a.raw a.oga --rate 44100 --channels 2 --bits 16 --ogg --block 4096 | Encode { input: "a.raw", output: "a.oga", format: RawFormat { rate: 44100, channels: 2, bits: 16, block: 4096, seek_every: 0 }, container: Ogg { serial: 1 }, comments: [], lax: false, predictors: None, effort: None, raw: false }
flac encode a.raw a.oga --rate 44100 --channels 2 --bits 16 --seek-every=0 --serial 7 | Encode { input: "a.raw", output: "a.oga", format: RawFormat { rate: 44100, channels: 2, bits: 16, block: 4096, seek_every: 0 }, container: Native, comments: [], lax: false, predictors: None, effort: None, raw: false }
flac encode a.raw a.flac --rate 44100 --channels 2 --bits 5 --lax | Encode { input: "a.raw", output: "a.flac", format: RawFormat { rate: 44100, channels: 2, bits: 5, block: 4096, seek_every: 0 }, container: Native, comments: [], lax: true, predictors: None, effort: None, raw: false }
flac encode a.raw a.flac --rate 44100 --channels 2 --bits 16 --predictors a.txt | Encode { input: "a.raw", output: "a.flac", format: RawFormat { rate: 44100, channels: 2, bits: 16, block: 4096, seek_every: 0 }, container: Native, comments: [], lax: false, predictors: Some("a.txt"), effort: None, raw: false }
flac encode a.raw a.flac --rate 44100 --channels 2 --bits 16 --raw | Encode { input: "a.raw", output: "a.flac", format: RawFormat { rate: 44100, channels: 2, bits: 16, block: 4096, seek_every: 0 }, container: Native, comments: [], lax: false, predictors: None, effort: None, raw: true }
flac encode a.raw a.flac --rate 44100 --channels 2 --bits 16 --force | force Encode { input: "a.raw", output: "a.flac", format: RawFormat { rate: 44100, channels: 2, bits: 16, block: 4096, seek_every: 0 }, container: Native, comments: [], lax: false, predictors: None, effort: None, raw: false }
flac encode a.wav a.flac --force A=b | force EncodeWave { input: "a.wav", output: "a.flac", block: 4096, seek_every: 0, container: Native, comments: ["A=b"], lax: false, predictors: None, effort: Quick, keep: true, to_end: false }
flac encode a.wav a.oga --ogg --block 16 --lax | EncodeWave { input: "a.wav", output: "a.oga", block: 16, seek_every: 0, container: Ogg { serial: 1 }, comments: [], lax: true, predictors: None, effort: Quick, keep: true, to_end: false }
flac encode a.raw a.flac --rate 44100 --channels 2 --bits 16 --search none | Encode { input: "a.raw", output: "a.flac", format: RawFormat { rate: 44100, channels: 2, bits: 16, block: 4096, seek_every: 0 }, container: Native, comments: [], lax: false, predictors: None, effort: None, raw: false }
flac encode a.raw a.flac --rate 44100 --channels 2 --bits 16 --search quick | Encode { input: "a.raw", output: "a.flac", format: RawFormat { rate: 44100, channels: 2, bits: 16, block: 4096, seek_every: 0 }, container: Native, comments: [], lax: false, predictors: None, effort: Quick, raw: false }
flac encode a.raw a.flac --rate 44100 --channels 2 --bits 16 --search full | Encode { input: "a.raw", output: "a.flac", format: RawFormat { rate: 44100, channels: 2, bits: 16, block: 4096, seek_every: 0 }, container: Native, comments: [], lax: false, predictors: None, effort: Full, raw: false }
flac encode a.wav a.flac --no-keep | EncodeWave { input: "a.wav", output: "a.flac", block: 4096, seek_every: 0, container: Native, comments: [], lax: false, predictors: None, effort: Quick, keep: false, to_end: false }
flac encode a.wav a.flac --to-end | EncodeWave { input: "a.wav", output: "a.flac", block: 4096, seek_every: 0, container: Native, comments: [], lax: false, predictors: None, effort: Quick, keep: true, to_end: true }
flac encode a.wav a.flac --search none | EncodeWave { input: "a.wav", output: "a.flac", block: 4096, seek_every: 0, container: Native, comments: [], lax: false, predictors: None, effort: None, keep: true, to_end: false }
flac encode a.wav a.flac --search quick | EncodeWave { input: "a.wav", output: "a.flac", block: 4096, seek_every: 0, container: Native, comments: [], lax: false, predictors: None, effort: Quick, keep: true, to_end: false }
flac encode a.wav a.flac --search full | EncodeWave { input: "a.wav", output: "a.flac", block: 4096, seek_every: 0, container: Native, comments: [], lax: false, predictors: None, effort: Full, keep: true, to_end: false }
flac encode a.wav a.flac --search best | 2 error: invalid value 'best' for '--search <EFFORT>';  [possible values: none, quick, full];;For more information, try '--help'.;
flac encode a.raw a.flac --rate 44100 --channels 2 --bits 16 --search 1 | 2 error: invalid value '1' for '--search <EFFORT>';  [possible values: none, quick, full];;For more information, try '--help'.;
flac decode a.flac a.raw --search quick | 2 error: unexpected argument '--search' found*
flac encode a.raw a.flac --search quick --raw | 2 flac: command: raw samples need --rate, --channels and --bits;
flac encode a.wav a.flac none | 2 flac: command: comment without =;
flac encode a.wav a.oga --ogg --seek-every 5 | 2 flac: command: --ogg with --seek-every;
flac encode a.raw a.flac --rate 44100 --channels 2 | 2 flac: command: raw samples need --rate, --channels and --bits;
flac encode a.raw a.flac --bits 16 | 2 flac: command: raw samples need --rate, --channels and --bits;
flac encode a.raw a.flac --raw | 2 flac: command: raw samples need --rate, --channels and --bits;
flac encode a.raw a.flac --rate 44100 --channels 2 --bits 16 none | 2 flac: command: comment without =;
flac encode a.raw a.flac --rate 44100 --channels 2 --bits 16 --ogg --seek-every 5 | 2 flac: command: --ogg with --seek-every;
flac encode a.raw a.flac --rate 44100 --channels 2 --bits 16 --ogg --seek-every 5 none | 2 flac: command: comment without =;
flac | 2 error: 'flac' requires a subcommand but one was not provided;  [subcommands: test, decode, list, encode, retag, tag, edit, export, verify, same, recode, salvage, help];;Usage: flac <COMMAND>;;For more information, try '--help'.;
flac test | 2 error: the following required arguments were not provided:;  <IN>;;Usage: flac test <IN>;;For more information, try '--help'.;
flac list | 2 error: the following required arguments were not provided:;  <IN>...;;Usage: flac list <IN>...;;For more information, try '--help'.;
flac retag a.flac b.flac --lax | 2 error: unexpected argument '--lax' found*
flac test a.flac --force | 2 error: unexpected argument '--force' found*
flac retag a.flac b.flac --raw | 2 error: unexpected argument '--raw' found*
flac decode a.flac | 2 error: the following required arguments were not provided:;  <OUT>;;Usage: flac decode <IN> <OUT>;;For more information, try '--help'.;
flac -t a.flac | 2 flac: command: to test a stream: flac test IN;
flac --test | 2 flac: command: to test a stream: flac test IN;
flac -d a.flac | 2 flac: command: to decode a stream: flac decode IN OUT;
flac --decode a.flac a.raw | 2 flac: command: to decode a stream: flac decode IN OUT;
flac --verify a.wav | 2 flac: command: to encode a stream and test it: flac encode IN OUT && flac test OUT;
flac -8 a.wav | 2 flac: command: to encode a stream, smaller: flac encode IN OUT --search full;
flac --best a.wav | 2 flac: command: to encode a stream, smaller*
flac -9 a.wav | 2 error: unexpected argument '-9' found*
flac encode a.wav a.flac -8 | 2 flac: command: in place of levels --search none, quick or full: the last is the smallest;
flac recode --verify a.flac b.flac | 2 flac: command: to test what was encoded: flac test OUT;
flac encode -- -8 a.flac | EncodeWave { input: "-8", output: "a.flac", block: 4096, seek_every: 0, container: Native, comments: [], lax: false, predictors: None, effort: Quick, keep: true, to_end: false }
flac --version | 0 flac (proved) 1.0.0;
flac tag a.flac --set TITLE | 2 flac: command: comment without =;
flac tag a.flac --from a.txt --add =x | 2 flac: command: 55 FieldName;
flac tag a.flac --from a.txt --from b.txt | 2 error: the argument '--from <LINES>' cannot be used multiple times*
flac tag a.flac | 2 flac: command: tag needs --clear, --from, --remove, --set, --set-file, --add or --rewrite;
flac tag a.flac --remove GENRE=Other --remove X --set-file L=l.txt --set-file l=m=.txt --set K=k --out b.flac | Tag(Tagging { inputs: ["a.flac"], edits: [RemovePair("GENRE=Other"), Remove("X"), Set("K=k"), SetFile("L=l.txt"), AddFile("l=m=.txt")], lines: None, output: Some("b.flac"), mode: Some(Either), padding: 8192, keep_times: false, verbose: false })
flac tag a.flac b.flac --set A=b --out c.flac | 2 flac: command: --out with several files;
flac tag a.flac --out c.flac --in-place | 2 flac: command: --in-place with --out;
flac tag a.flac --out c.flac --keep-times | 2 flac: command: --keep-times with --out;
flac tag a.flac --set-file L | 2 flac: command: comment without =;
flac tag a.flac --remove =x | 2 flac: command: 55 FieldName;
flac tag a.flac --padding 0 | 2 flac: command: to set the padding alone: flac edit --padding N FILE;
flac tag a.flac --padding 8192 --in-place | 2 flac: command: tag needs --clear, --from, --remove, --set, --set-file, --add or --rewrite;
flac tag TITLE=x a.flac | 2 flac: command: to set a comment: flac tag --set NAME=VALUE FILE;
flac tag a=b/c.flac --in-place | 2 flac: command: to set a comment: flac tag --set NAME=VALUE FILE;
flac tag ./a=b.flac | 2 flac: command: tag needs --clear, --from, --remove, --set, --set-file, --add or --rewrite;
flac edit a.flac | 2 flac: command: edit needs --remove-block, --picture, --cuesheet, --seek-every or --padding;
flac edit a.flac --cuesheet a.cue --cuesheet b.cue | 2 error: the argument '--cuesheet <SHEET>' cannot be used multiple times*
flac edit a.flac --remove-block 0 | 2 flac: command: --remove-block takes a number from 1 on, or a type other than STREAMINFO;
flac edit a.flac --remove-block streaminfo | 2 flac: command: --remove-block takes a number from 1 on, or a type other than STREAMINFO;
flac edit a.flac --picture 21:b.png | 2 flac: command: --picture takes [TYPE:]FILE or TYPE:MEDIA:WIDTHxHEIGHTxDEPTH:FILE, the type 0 to 20;
flac edit a.flac --picture 3:image/png:64x64:b.png | 2 flac: command: --picture takes*
flac edit a.flac --picture 3:image/png:64x64x24/:b.png | 2 flac: command: --picture takes*
flac export a.flac pictures b | 2 flac: command: export takes tags, picture, cuesheet or the number of a block;
flac play a.flac | 2 error: unrecognized subcommand 'play';;Usage: flac <COMMAND>;;For more information, try '--help'.;
flac --help | 0 Tests*
flac test --help | 0 Decodes a stream, and prints how many frames*
flac decode --help | 0 Decodes a stream to a WAV file, or to raw samples*
flac list --help | 0 Decodes a stream, and lists its metadata blocks;*
flac encode --help | 0 Encodes a WAV file, or raw samples*
flac tag --help | 0 Edits the comments of streams*
flac edit --help | 0 Removes metadata blocks of streams*
flac salvage --help | 0 Encodes the whole frames of a damaged stream*
flac retag --help | 0 Writes a stream with other comments;*"#;

/// What IN and what OUT of `recode` and of `salvage` begin with, and whether OUT may be replaced.
pub(crate) const RECODED: &str =
    "# Native streams of the same samples in blocks and frames of other sizes, STREAMINFO the last block or not.
664c6143 00000022 10001000 00*6 0ac442f000000100 11*16 | 664c6143 80000022 12001200 00000e00010f 0ac442f000000100 11*16 | yes
664c6143 80000022 10001000 00*6 0ac442f000000000 ff*16 66 | 664c6143 00000022 10001000 00*6 0ac442f000000000 ff*16 84 | yes
# Another digest, in its first and its last byte; another total, rate, depth.
664c6143 00000022 10001000 00*6 0ac442f000000100 11*16 | 664c6143 00000022 10001000 00*6 0ac442f000000100 10 11*15 | no
664c6143 00000022 10001000 00*6 0ac442f000000100 11*16 | 664c6143 00000022 10001000 00*6 0ac442f000000100 11*15 10 | no
664c6143 00000022 10001000 00*6 0ac442f000000100 11*16 | 664c6143 00000022 10001000 00*6 0ac442f000000101 11*16 | no
664c6143 00000022 10001000 00*6 0ac442f000000100 11*16 | 664c6143 00000022 10001000 00*6 0bb802f000000100 11*16 | no
664c6143 00000022 10001000 00*6 0ac442f000000100 11*16 | 664c6143 00000022 10001000 00*6 0ac4437000000100 11*16 | no
# A digest that is not known, a stream that is cut, pages of Ogg, other files of sound.
664c6143 00000022 10001000 00*6 0ac442f000000100 00*16 | 664c6143 00000022 10001000 00*6 0ac442f000000100 00*16 | no
664c6143 00000022 10001000 00*6 0ac442f000000100 11*16 | 664c6143 00000022 10001000 00*6 0ac442f000000100 11*15 | no
664c6143 00000022 10001000 00*6 0ac442f000000100 11*15 | 664c6143 00000022 10001000 00*6 0ac442f000000100 11*15 | no
4f676753 00*38 | 4f676753 00*38 | no
4f676753 00*38 | 664c6143 00000022 10001000 00*6 0ac442f000000100 11*16 | no
664c6143 00000022 10001000 00*6 0ac442f000000100 11*16 | 52494646 00*38 | no
664c6143 00000022 10001000 00*6 0ac442f000000100 11*16 | 494433 00*39 | no
 | 664c6143 00*38 | no
# No file of sound begins so.
664c6143 00000022 10001000 00*6 0ac442f000000100 11*16 | 00 | yes
4f676753 00*38 | 664c6144 | yes
 | 68656c6c6f | yes";
