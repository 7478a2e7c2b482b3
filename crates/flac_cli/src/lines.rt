//! Lines of text for a target.

ghost use Rattle.std.specs.Prelude.{◌≡◌, ◌≤◌, ◌<◌, ◌+◌, ◌++◌, true, [], length, take, decimal, Some, OnOk, OnErr};
ghost use Rattle.flac_native.specs.Places.{place_text};
ghost use Rattle.flac_cli.specs.Calls.{HasSent};
ghost use Rattle.flac_cli.specs.Lined.{text_at};
ghost use Rattle.flac_cli.specs.inner.Lined.{Adds, at_place, Prints};
ghost use Rattle.flac_cli.specs.Reports.{fault_line};

use flac_bits::{Target, Why, send_all};
use flac_native::Place;
use hex::encode_to_slice;
use itoa::Buffer;

/// How many bytes are held before they are sent.
const ROOM: usize = 1024;

/// Where in a file a reason applies.
#[derive(Clone, Copy)]
pub(crate) enum At {
    /// To the whole file.
    Whole,
    /// At a place of a stream.
    Place(Place),
    /// In the line of this number, counted from 1.
    Line(u64),
    /// At the chunk of a WAV file of this number, counted from 0.
    Chunk(u64),
}

impl At {
    /// At a place, if there is one; else the whole file.
    pub(crate) fn place(at: Option<Place>) -> At
        ensures { result ≡ at_place at }
    {
        match at {
            Some(place) => At::Place(place),
            None => At::Whole,
        }
    }
}

/// A buffer of text for a target. It allocates no memory, and sends what it holds when it is full.
#[derive(Drop)]
pub(crate) struct Lines<W: Target> {
    target: W,
    bytes: [u8; ROOM],
    held: usize,
    ghost within: { held ≤ 1024 },
}

impl<W: Target> Lines<W> {
    ghost use Rattle.flac_cli.specs.inner.Lines.{AddsTo};

    /// An empty buffer over the target.
    pub(crate) fn new(target: W) -> Lines<W>
        ensures target { result.target ≡ target }
        ensures held { result.held ≡ 0 }
    {
        Lines {
            target,
            bytes: [0; ROOM],
            held: 0,
        }
    }

    /// Returns the target. What is held is lost.
    pub(crate) fn into_target(self) -> W
        ensures { result ≡ self.target }
    {
        let Lines {
            target,
            bytes: _,
            held: _,
        } = self;
        target
    }

    /// Sends what is held.
    ///
    /// # Errors
    /// [`Why::Write`] if the target fails.
    pub(crate) fn send(&mut self) -> Result<(), Why>
        ensures names { W.names self.new.target ≡ W.names self.old.target }
        ensures known { OnOk result (W.known self.old.target ≡ true → W.known self.new.target ≡ true) }
        ensures sent { HasSent W.Target self.old.target self.new.target (take self.old.held self.old.bytes) result }
        ensures held { self.new.held ≡ 0 }
        ensures kept { W.errors self.old.target ≤ W.errors self.new.target }
        ensures failed { OnErr result (W.known self.old.target ≡ true →
            W.errors self.old.target < W.errors self.new.target) }
    {
        let held = self.held;
        self.held = 0;
        send_all(&mut self.target, &self.bytes[..held])
    }

    /// Holds a text that there is room for.
    fn hold(&mut self, text: &[u8])
        requires { self.old.held + length text.now ≤ 1024 }
        ensures target { self.new.target ≡ self.old.target }
        ensures held { self.new.held ≡ self.old.held + length text.now }
        ensures bytes { take self.new.held self.new.bytes ≡ take self.old.held self.old.bytes ++ text.now }
    {
        let end = self.held + text.len();
        self.bytes[self.held..end].copy_from_slice(text);
        self.held = end;
    }

    /// Adds bytes: they are held if there is room, and sent otherwise.
    ///
    /// # Errors
    /// [`Why::Write`] if the target fails.
    pub(crate) fn put_bytes(&mut self, text: &[u8]) -> Result<(), Why>
        ensures { AddsTo W.Target text.now self.old self.new result }
    {
        if text.len() <= ROOM - self.held {
            self.hold(text);
            return Ok(());
        }
        self.send()?;
        if text.len() <= ROOM {
            self.hold(text);
            return Ok(());
        }
        send_all(&mut self.target, text)
    }

    /// Adds a text.
    ///
    /// # Errors
    /// [`Why::Write`] if the target fails.
    pub(crate) fn put(&mut self, text: &str) -> Result<(), Why>
        ensures { AddsTo W.Target text.now self.old self.new result }
    {
        self.put_bytes(text.as_bytes())
    }

    /// Adds two texts.
    ///
    /// # Errors
    /// [`Why::Write`] if the target fails.
    pub(crate) fn put_both(&mut self, first: &str, second: &str) -> Result<(), Why>
        ensures { AddsTo W.Target (first.now ++ second.now) self.old self.new result }
    {
        self.put(first)?;
        self.put(second)
    }

    /// Adds a number in decimal digits.
    ///
    /// # Errors
    /// [`Why::Write`] if the target fails.
    pub(crate) fn put_number(&mut self, number: u64) -> Result<(), Why>
        ensures { AddsTo W.Target (decimal number) self.old self.new result }
    {
        let mut buffer = Buffer::new();
        self.put(buffer.format(number))
    }

    /// Adds a text and a number.
    ///
    /// # Errors
    /// [`Why::Write`] if the target fails.
    pub(crate) fn put_counted(&mut self, name: &str, number: u64) -> Result<(), Why>
        ensures { AddsTo W.Target (name.now ++ decimal number) self.old self.new result }
    {
        self.put(name)?;
        self.put_number(number)
    }

    /// Adds a place as it is printed: `frame 3`.
    ///
    /// # Errors
    /// [`Why::Write`] if the target fails.
    fn put_place(&mut self, place: Place) -> Result<(), Why>
        ensures { AddsTo W.Target (place_text place) self.old self.new result }
    {
        self.put(place.kind_name())?;
        match place {
            Place::Block(index) => self.put_counted(" ", index),
            Place::Frame(index) => self.put_counted(" ", index),
            Place::Page(index) => self.put_counted(" ", index),
            Place::Marker => Ok(()),
            Place::End => Ok(()),
        }
    }

    /// Adds the text of a reason, after that of its place or line, if it has one: `frame 3: TEXT`, `line 3: TEXT`.
    ///
    /// # Errors
    /// [`Why::Write`] if the target fails.
    pub(crate) fn put_reason(&mut self, at: At, text: &str) -> Result<(), Why>
        ensures { AddsTo W.Target (text_at at text.now) self.old self.new result }
    {
        match at {
            At::Whole => self.put(text),
            At::Place(place) => {
                self.put_place(place)?;
                self.put_both(": ", text)
            }
            At::Line(number) => {
                self.put_counted("line ", number)?;
                self.put_both(": ", text)
            }
            At::Chunk(number) => {
                self.put_counted("chunk ", number)?;
                self.put_both(": ", text)
            }
        }
    }
}

/// Sends the line of an error through a buffer.
fn put_line<W: Target>(lines: &mut Lines<W>, path: &str, at: At, text: &str) -> Result<(), Why>
    requires { lines.old.held ≡ 0 }
    ensures { Adds W.Target (fault_line path.now (text_at at text.now)) lines.old.target lines.new.target [] [] result }
{
    lines.put_both("flac: ", path)?;
    lines.put(": ")?;
    lines.put_reason(at, text)?;
    lines.put("\n")?;
    lines.send()
}

/// Sends the line of an error: `flac: PATH: TEXT`, or `flac: PATH: PLACE: TEXT` if it has a place or a line.
///
/// # Errors
/// [`Why::Write`] if the target fails.
pub(crate) fn write_line<E: Target>(err: &mut E, path: &str, at: At, text: &str) -> Result<(), Why>
    ensures sent { HasSent E.Target err.old err.new (fault_line path.now (text_at at text.now)) result }
    ensures kept { E.errors err.old ≤ E.errors err.new }
    ensures known { OnOk result (E.known err.old ≡ true → E.known err.new ≡ true) }
    ensures failed { OnErr result (E.known err.old ≡ true → E.errors err.old < E.errors err.new) }
{
    let mut lines = Lines::new(err);
    put_line(&mut lines, path, at, text)
}

/// A part of a line: a text, mostly with a value after it.
#[derive(Clone, Copy)]
pub(crate) enum Part<'a> {
    /// A text alone.
    Text(&'a str),
    /// With a number, in decimal digits.
    Number(&'a str, u64),
    /// With bytes as a text: those from 20 to 7E (hexadecimal) except the backslash as themselves, all others as `\x`
    /// and two digits.
    Escaped(&'a str, &'a [u8]),
    /// With bytes as hexadecimal digits, two lower-case ones for each byte.
    Hex(&'a str, &'a [u8]),
}

/// A byte as two hexadecimal digits.
fn digits_of(byte: u8) -> [u8; 2] {
    let mut digits = [0; 2];
    let Ok(()) = encode_to_slice([byte], &mut digits) else {
        unreachable!()
    };
    digits
}

impl<W: Target> Lines<W> {
    /// Adds a byte of a text.
    fn put_byte(&mut self, byte: u8) -> Result<(), Why>
        ensures { Prints W.Target self.old.target self.new.target result }
    {
        match byte {
            b' '..=b'[' | b']'..=b'~' => self.put_bytes(&[byte]),
            byte => {
                let [high, low] = digits_of(byte);
                self.put_bytes(&[b'\\', b'x', high, low])
            }
        }
    }

    /// Adds a text, and bytes as one.
    fn put_escaped(&mut self, name: &str, bytes: &[u8]) -> Result<(), Why>
        ensures { Prints W.Target self.old.target self.new.target result }
    {
        self.put(name)?;
        for byte in bytes {
            self.put_byte(*byte)?;
        }
        Ok(())
    }

    /// Adds a text, and bytes as hexadecimal digits.
    fn put_hex(&mut self, name: &str, bytes: &[u8]) -> Result<(), Why>
        ensures { Prints W.Target self.old.target self.new.target result }
    {
        self.put(name)?;
        for byte in bytes {
            self.put_bytes(&digits_of(*byte))?;
        }
        Ok(())
    }

    /// Adds a part of a line.
    fn put_part(&mut self, part: Part<'_>) -> Result<(), Why>
        ensures { Prints W.Target self.old.target self.new.target result }
    {
        match part {
            Part::Text(text) => self.put(text),
            Part::Number(name, number) => self.put_counted(name, number),
            Part::Escaped(name, bytes) => self.put_escaped(name, bytes),
            Part::Hex(name, bytes) => self.put_hex(name, bytes),
        }
    }

    /// Adds a line of these parts.
    ///
    /// # Errors
    /// [`Why::Write`] if the target fails.
    pub(crate) fn put_parts(&mut self, parts: &[Part<'_>]) -> Result<(), Why>
        ensures { Prints W.Target self.old.target self.new.target result }
    {
        for part in parts {
            self.put_part(*part)?;
        }
        self.put("\n")
    }
}
