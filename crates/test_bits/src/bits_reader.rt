use flac_bits::{
    BitReader, Counted, FailAt, Memory, Pieces, Source, Why, bytes_fit, crc8, crc16, crc32,
    page_sum, read_bytes, read_little_32, read_little_64, read_number, read_unchecked,
};
use std::alloc::Global;
use std::fmt::Debug;
use std::io;
use std::io::{ErrorKind, Read};
use std::process::Abort;
use std::test::Fail;
use test_vectors::bytes_of;

/// Bytes, and calls of a reader over them: the name, its number (0 if it takes none), and what it returns.
const CALLS: &str = "# Coded numbers of at most 36 and 31 bits: RFC 9639, section 9.1.5.
7f | number 36 127
c280 | number 36 128
efbfbf | number 36 65535
f0908080 | number 36 65536
fdbfbfbfbfbf | number 36 2147483647
febfbfbfbfbfbf | number 36 68719476735
c1bf | number 36 BadNumber
c1 | number 36 Truncated
fdbfbfbfbfbffe | number 31 2147483647 | number 31 BadNumber
# A quotient of four million zeros is a value.
00*500000 80 | rice 0 2000000 | taken 0 500001
# 167 zeros and a one: all of them, from within a byte, one more than the limit, in two parts, and without the one.
00*20 01 | unary 167 Some(167) | at_end 0 true | taken 0 21
00*20 01 | take 3 0 | unary 200 Some(164) | check16 0 32773
00*20 01 | unary 166 None | take 1 1 | at_end 0 true
00*20 01 | unary 63 None | unary 103 Some(103) | at_end 0 true
00*9 | unary 71 None | at_end 0 true
00*9 | unary 72 Truncated
# Residual values: two under parameters, two of three bits, and two that are too large under the parameter 30.
4cf0 | rice 0 -1 | rice 2 5 | align 0 true | plain 3 [-1, -4] | align 0 true | at_end 0 true
1fffffffc0 | rice 30 ResidualRange
0000 | rice 30 ResidualRange | taken 0 1
# Fields of many kinds.
0123456789abcdef00010203 | take 12 18 | signed 4 3 | unary 5 Some(1) | take 46 5942249508335 | four 0 [0, 1, 2, 3] | at_end 0 true
# Fewer bytes than there are places.
010203 | take 8 1 | some 0 (2, [2, 3, 0, 0]) | short 0 Truncated
010203 | four 0 Truncated
# A fence one byte on, one where the reader is, and one beyond the last byte.
abcdef | take 4 10 | fence 1 () | take 12 3021 | at_end 0 true | lift 0 () | at_end 0 false | fence 0 () | take 1 FrameTooLong | lift 0 () | take 8 239 | fence 1 () | take 1 Truncated
# Both checks of 123456789 after another byte.
78313233343536373839 | take 8 120 | start 0 () | take 36 13205975875 | take 36 22384425017 | check8 0 244 | check16 0 65256 | taken 0 10
# The same checks, after four bytes that are read without them; and such bytes that begin within a byte.
78010203313233343536373839 | unchecked 0 [120, 1, 2, 3] | take 36 13205975875 | take 36 22384425017 | check8 0 244 | check16 0 65256 | taken 0 13
abcdef0123 | take 4 10 | unchecked 0 [188, 222, 240, 18] | take 4 3 | at_end 0 true
# Numbers of four and of eight bytes, the lowest first.
785634120102030405060708 | little_32 0 305419896 | little_64 0 578437695752307201 | little_32 0 Truncated";

/// What a call returned, in text.
fn told<T: Debug + Copy>(alloc: Global, outcome: Result<T, Why>) -> Result<String, Fail> {
    match outcome {
        Ok(value) => Ok(format!(in alloc; "{value:?}")?),
        Err(why) => Ok(format!(in alloc; "{why:?}")?),
    }
}

/// A residual value under a parameter.
fn rice<R: Source>(bits: &mut BitReader<R>, parameter: u32) -> Result<i64, Why> {
    let mut one = [0i64; 1];
    bits.rice_partition(parameter.min(30), &mut one)?;
    Ok(one[0])
}

/// Two values of n bits.
fn plain<R: Source>(bits: &mut BitReader<R>, n: u32) -> Result<[i64; 2], Why> {
    let mut two = [0i64; 2];
    bits.signed_partition(n.max(1).min(64), &mut two)?;
    Ok(two)
}

/// The next four bytes.
fn four<R: Source>(bits: &mut BitReader<R>) -> Result<[u8; 4], Why> {
    let mut places = [0; 4];
    read_bytes(bits, &mut places)?;
    Ok(places)
}

/// The same, and the checks begin anew after them.
fn unchecked<R: Source>(bits: &mut BitReader<R>) -> Result<[u8; 4], Why> {
    let mut places = [0; 4];
    read_unchecked(bits, &mut places)?;
    Ok(places)
}

/// How many of four bytes come at a whole byte, and these, with zeros in the other places.
fn some<R: Source>(bits: &mut BitReader<R>) -> Result<(usize, [u8; 4]), Why> {
    let mut places = [0; 4];
    let mut count = 0;
    if bits.unread() == 0 {
        count = bits.take_bytes(&mut places)?;
    }
    Ok((count, places))
}

/// Calls a reader for bytes that it reads, or for its place.
fn read_whole<R: Source>(
    alloc: Global,
    bits: &mut BitReader<R>,
    name: &str,
) -> Result<String, Fail> {
    match name {
        "four" => told(alloc, four(bits)),
        "unchecked" => told(alloc, unchecked(bits)),
        "some" => told(alloc, some(bits)),
        "little_32" => told(alloc, read_little_32(bits)),
        "little_64" => told(alloc, read_little_64(bits)),
        "align" => told(alloc, bits.align()),
        _ => told(alloc, bits.at_end()),
    }
}

/// Calls a reader for one thing that it reads.
fn read<R: Source>(
    alloc: Global,
    bits: &mut BitReader<R>,
    name: &str,
    n: u32,
) -> Result<String, Fail> {
    match name {
        "take" => told(alloc, bits.take(n.min(64))),
        "signed" => told(alloc, bits.take_signed(n.max(1).min(64))),
        "unary" => told(alloc, bits.unary(u64::from(n))),
        "rice" => told(alloc, rice(bits, n)),
        "plain" => told(alloc, plain(bits, n)),
        "number" => told(alloc, read_number(bits, n)),
        _ => read_whole(alloc, bits, name),
    }
}

/// Calls a reader by name and number.
fn call<R: Source>(
    alloc: Global,
    bits: &mut BitReader<R>,
    name: &str,
    n: u32,
) -> Result<String, Fail> {
    match name {
        "fence" => told(alloc, Ok(bits.fence(u64::from(n)))),
        "lift" => told(alloc, Ok(bits.lift())),
        "start" => told(alloc, Ok(bits.start_checks())),
        "check8" => told(alloc, Ok(bits.check8())),
        "check16" => told(alloc, Ok(bits.check16())),
        "taken" => told(alloc, Ok(bits.bytes_taken())),
        "short" => told(alloc, Ok(bits.short())),
        _ => read(alloc, bits, name, n),
    }
}

/// The name of a call, its number and what it is to return.
fn parts_of<'a>(step: &'a str) -> (&'a str, &'a str, &'a str) {
    let (name, rest) = step.split_once(' ').unwrap_or((step, ""));
    let (number, wanted) = rest.split_once(' ').unwrap_or(("", ""));
    (name, number, wanted)
}

/// Whether a call returns what is wanted.
fn answers<R: Source>(alloc: Global, bits: &mut BitReader<R>, step: &str) -> Result<bool, Fail> {
    let (name, number, wanted) = parts_of(step);
    let found = call(alloc, bits, name, number.parse::<u32>()?)?;
    Ok(found.as_str() == wanted)
}

/// Makes a call of a row, and compares what it returns.
fn check_call<R: Source>(
    rt: &impl Abort,
    alloc: Global,
    bits: &mut BitReader<R>,
    step: &str,
) -> Result<(), Fail> {
    let same = answers(alloc, bits, step)?;
    assert!(rt; same, "{step} at byte {}", bits.bytes_taken());
    Ok(())
}

/// Makes the calls of a row, and compares what each returns.
fn check_calls<R: Source + Drop>(
    rt: &impl Abort,
    alloc: Global,
    source: R,
    calls: &str,
) -> Result<(), Fail> {
    let mut bits = BitReader::new(source);
    for step in calls.split(" | ") {
        check_call(rt, alloc, &mut bits, step)?;
    }
    Ok(())
}

/// Makes the calls of a row over bytes that come in pieces of 1, 2, 3 and 4096 bytes.
fn check_pieces(rt: &impl Abort, alloc: Global, bytes: &[u8], calls: &str) -> Result<(), Fail> {
    for most in [1, 2, 3, 4096] {
        check_calls(rt, alloc, Pieces::new(Memory::new(bytes), most), calls)?;
    }
    Ok(())
}

/// Makes the calls of a row over its bytes.
fn check_row(rt: &impl Abort, alloc: Global, row: &str) -> Result<(), Fail> {
    let (words, calls) = row.split_once(" | ").unwrap_or((row, ""));
    let bytes = bytes_of(alloc, words)?;
    check_pieces(rt, alloc, &bytes, calls)
}

#[test]
fn calls(rt: HostRuntime) -> Result<(), Fail> {
    for row in CALLS.lines() {
        if !row.starts_with('#') {
            check_row(&rt, rt.alloc(), row)?;
        }
    }
    Ok(())
}

/// The three checks of some bytes.
fn checks_of(bytes: &[u8]) -> (u8, u16, u32) {
    (crc8(bytes), crc16(bytes), crc32(bytes))
}

#[test]
fn checks(rt: HostRuntime) {
    assert!(rt; checks_of(b"123456789") == (0xF4, 0xFEE8, 0x89A1_897F));
    assert!(rt; checks_of(&[1]) == (0x07, 0x8005, 0x04C1_1DB7));
    assert!(rt; page_sum(b"123456789") == 0x89A1_897F);
}

/// Numbers that repeat themselves after 65536.
fn put_numbers(bytes: &mut [u8]) {
    for i in 0..bytes.len() {
        bytes[i] = ((i % 256 * 7 + i / 256) % 256) as u8;
    }
}

/// The three checks of the first bytes.
fn checks_of_first(bytes: &[u8], n: usize) -> (u8, u16, u32) {
    checks_of(&bytes[..n.min(bytes.len())])
}

/// Bytes that are divided at once in part, in one piece, and in several. The checks are those of a program that goes
/// bit by bit.
#[test]
fn checks_of_many(rt: HostRuntime) -> Result<(), Fail> {
    let mut many = vec![in rt.alloc(); 0u8; 9000]?;
    put_numbers(many.as_mut_slice());
    let bytes = many.as_slice();
    bytes_fit(bytes);
    assert!(rt; checks_of_first(bytes, 639) == (0xC4, 0x80A6, 0xBC4F_12B9));
    assert!(rt; checks_of_first(bytes, 640) == (0x34, 0x2419, 0x0CDF_799C));
    assert!(rt; checks_of_first(bytes, 4066) == (0x4F, 0x7819, 0x3470_AEE0));
    assert!(rt; checks_of_first(bytes, 4096) == (0x09, 0x7133, 0xE03B_F1FE));
    assert!(rt; checks_of_first(bytes, 9000) == (0x92, 0x411C, 0x27A7_78D8));
    Ok(())
}

/// A reader of one byte, which then fails once.
#[derive(Drop)]
struct Once {
    given: bool,
}

impl Read for Once {
    fn read(&mut self, buf: &mut [u8]) -> io::Result<usize> {
        if self.given {
            return Err(io::Error::from(ErrorKind::Other));
        }
        match buf.first_mut() {
            Some(place) => {
                *place = 0xA5;
                self.given = true;
                Ok(1)
            }
            None => Ok(0),
        }
    }
}

#[test]
fn a_failing_source(rt: HostRuntime) -> Result<(), Fail> {
    for calls in ["take 4 10 | take 8 Read", "take 8 165 | at_end 0 Read"] {
        let source = Counted::new(Once { given: false });
        check_calls(&rt, rt.alloc(), source, calls)?;
    }
    Ok(())
}

#[test]
fn reasons(rt: HostRuntime) -> Result<(), Fail> {
    let numbers = [
        Why::Read.number(),
        Why::FrameCheck.number(),
        Why::Write.number(),
    ];
    assert!(rt; numbers == [1, 26, 39]);
    let text = format!(in rt.alloc(); "{}", Why::FrameCheck)?;
    assert!(rt; text.as_str() == "26 FrameCheck");
    assert!(rt; Why::Write.as_str() == "39 Write");
    Ok(())
}

/// How many bytes a source gives for these places, 255 if it fails.
fn pulled<R: Source>(source: &mut R, places: &mut [u8]) -> usize {
    source.pull(places).unwrap_or(255)
}

#[test]
fn sources_are_given_back(rt: HostRuntime) {
    let mut pieces = Pieces::new(Memory::new(b"abc"), 1);
    let mut room = [0; 3];
    assert!(rt; pulled(&mut pieces, &mut room) == 1);
    let mut left = pieces.into_inner();
    assert!(rt; pulled(&mut left, &mut room) == 2);
    assert!(rt; room == [b'b', b'c', 0]);
    let counted = Counted::new(b"xyz".as_slice());
    assert!(rt; counted.into_inner() == b"xyz".as_slice());
}

/// The kind and the number of the error that a reader's source kept.
fn last_of<T>(source: &Counted<T>) -> Option<(ErrorKind, Option<i32>)> {
    let error = source.last_error()?;
    Some((error.kind(), error.raw_os_error()))
}

/// The error of a reader is kept, also where another is given after it.
#[test]
fn the_last_error_of_a_reader(rt: HostRuntime) {
    let mut source = Counted::new(Once { given: false });
    let mut place = [0];
    assert!(rt; pulled(&mut source, &mut place) == 1);
    assert!(rt; last_of(&source).is_none());
    assert!(rt; pulled(&mut source, &mut place) == 255);
    assert!(rt; last_of(&source) == Some((ErrorKind::Other, None)));
}

/// The second call fails, and the byte that it was asked for comes in the third.
#[test]
fn a_source_that_fails_once(rt: HostRuntime) {
    let mut source = FailAt::new(Memory::new(b"abc"), 1);
    let mut place = [0];
    assert!(rt; pulled(&mut source, &mut place) == 1);
    assert!(rt; pulled(&mut source, &mut place) == 255);
    assert!(rt; place == [b'a']);
    assert!(rt; pulled(&mut source, &mut place) == 1);
    assert!(rt; place == [b'b']);
    assert!(rt; source.calls() == 3);
    let mut below = source.into_inner();
    assert!(rt; pulled(&mut below, &mut place) == 1);
    assert!(rt; place == [b'c']);
}
