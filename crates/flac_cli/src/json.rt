//! Lines of JSON (RFC 8259).

ghost use Rattle.std.specs.Prelude.{◌≡◌, ◌<◌, ◌≤◌, ◌++◌, true, [], codes, OnOk, OnErr};
ghost use Rattle.flac_json.specs.Texts.{is_special, hex_digit, hex_digits, escape, escapes, quoted, all_digits};
ghost use Rattle.flac_json.specs.Json.{truth, json_text};
ghost use Rattle.flac_cli.specs.Objects.{given_line, value_of, member_of, known_members};
ghost use Rattle.flac_cli.specs.Calls.{HasSent};
ghost use Rattle.flac_cli.specs.inner.Lined.{Adds};
ghost use Rattle.flac_cli.specs.inner.Objects.{text_of, more_text, next_text};

use crate::lines::Lines;
use flac_bits::{Target, Why};

/// The value of a member of an object.
#[derive(Clone, Copy)]
pub(crate) enum Value<'a> {
    /// A number, in decimal digits.
    Number(u64),
    /// A text.
    Text(&'a [u8]),
    /// Bytes, as a text of their hexadecimal digits, two lower-case ones for each byte.
    Digits(&'a [u8]),
    /// A truth value.
    Truth(bool),
}

/// A member of an object.
#[derive(Clone, Copy)]
pub(crate) struct Member<'a> {
    pub(crate) name: &'a str,
    pub(crate) value: Value<'a>,
}

/// A hexadecimal digit, in lower case.
fn hex_digit(number: u8) -> u8
    requires { number < 16 }
    ensures { result ≡ hex_digit number }
{
    if number < 10 {
        48 + number
    } else {
        87 + number
    }
}

/// Whether a byte of a text is not written as itself.
fn is_special(byte: u8) -> bool
    ensures { result ≡ is_special byte }
{
    byte < 32 || byte == b'"' || byte == b'\\'
}

/// The word for a truth value.
fn truth_text(holds: bool) -> &'static str
    ensures { result.now ≡ json_text (truth holds) }
{
    if holds { "true" } else { "false" }
}

impl<W: Target> Lines<W> {
    ghost use Rattle.flac_cli.specs.inner.Lines.{AddsTo};

    /// Adds the hexadecimal digits of a byte.
    fn put_digits(&mut self, byte: u8) -> Result<(), Why>
        ensures { AddsTo W.Target (hex_digits byte) self.old self.new result }
    {
        self.put_bytes(&[hex_digit(byte / 16), hex_digit(byte % 16)])
    }

    /// Adds a byte that is not written as itself.
    fn put_special(&mut self, byte: u8) -> Result<(), Why>
        ensures { AddsTo W.Target (codes "\\u00" ++ hex_digits byte) self.old self.new result }
    {
        self.put("\\u00")?;
        self.put_digits(byte)
    }

    /// Adds a byte of a text.
    fn put_escape(&mut self, byte: u8) -> Result<(), Why>
        ensures { AddsTo W.Target (escape byte) self.old self.new result }
    {
        if is_special(byte) {
            return self.put_special(byte);
        }
        self.put_bytes(&[byte])
    }

    /// Adds the bytes of a text.
    fn put_escapes(&mut self, text: &[u8]) -> Result<(), Why>
        ensures { AddsTo W.Target (escapes text.now) self.old self.new result }
    {
        for byte in text {
            self.put_escape(*byte)?;
        }
        Ok(())
    }

    /// Adds a text between quotation marks.
    fn put_quoted(&mut self, text: &[u8]) -> Result<(), Why>
        ensures { AddsTo W.Target (quoted text.now) self.old self.new result }
    {
        self.put("\"")?;
        self.put_escapes(text)?;
        self.put("\"")
    }

    /// Adds the hexadecimal digits of bytes.
    fn put_all_digits(&mut self, bytes: &[u8]) -> Result<(), Why>
        ensures { AddsTo W.Target (all_digits bytes.now) self.old self.new result }
    {
        for byte in bytes {
            self.put_digits(*byte)?;
        }
        Ok(())
    }

    /// Adds the hexadecimal digits of bytes between quotation marks.
    fn put_quoted_digits(&mut self, bytes: &[u8]) -> Result<(), Why>
        ensures { AddsTo W.Target (quoted (all_digits bytes.now)) self.old self.new result }
    {
        self.put("\"")?;
        self.put_all_digits(bytes)?;
        self.put("\"")
    }

    /// Adds a value.
    fn put_value(&mut self, value: Value<'_>) -> Result<(), Why>
        ensures { AddsTo W.Target (json_text (value_of value.entry)) self.old self.new result }
    {
        match value {
            Value::Number(number) => self.put_number(number),
            Value::Text(text) => self.put_quoted(text),
            Value::Digits(bytes) => self.put_quoted_digits(bytes),
            Value::Truth(holds) => self.put(truth_text(holds)),
        }
    }

    /// Adds a member.
    fn put_member(&mut self, member: Member<'_>) -> Result<(), Why>
        ensures { AddsTo W.Target (text_of (member_of member.entry)) self.old self.new result }
    {
        self.put_quoted(member.name.as_bytes())?;
        self.put(":")?;
        self.put_value(member.value)
    }

    /// Adds a member after a comma, if there is one.
    fn put_next(&mut self, member: Option<Member<'_>>) -> Result<(), Why>
        ensures { AddsTo W.Target (next_text member.entry) self.old self.new result }
    {
        match member {
            Some(member) => {
                self.put(",")?;
                self.put_member(member)
            }
            None => Ok(()),
        }
    }

    /// Adds those members that there are, each after a comma.
    fn put_more(&mut self, members: &[Option<Member<'_>>]) -> Result<(), Why>
        ensures { AddsTo W.Target (more_text (known_members members.now)) self.old self.new result }
    {
        for member in members {
            self.put_next(*member)?;
        }
        Ok(())
    }

    /// Adds the line of an object of these members, and sends what is held.
    ///
    /// # Errors
    /// [`Why::Write`] if the target fails.
    fn put_object(&mut self, first: Member<'_>, members: &[Option<Member<'_>>]) -> Result<(), Why>
        requires { self.old.held ≡ 0 }
        ensures { Adds W.Target (given_line first.entry members.now) self.old.target self.new.target [] [] result }
    {
        self.put("{")?;
        self.put_member(first)?;
        self.put_more(members)?;
        self.put("}\n")?;
        self.send()
    }
}

/// Sends the line of an object of these members: the first, and those of the others that there are.
///
/// # Errors
/// [`Why::Write`] if the target fails.
pub(crate) fn write_object<W: Target>(
    target: &mut W,
    first: Member<'_>,
    members: &[Option<Member<'_>>],
) -> Result<(), Why>
    ensures kept { W.errors target.old ≤ W.errors target.new }
    ensures known { OnOk result (W.known target.old ≡ true → W.known target.new ≡ true) }
    ensures sent { HasSent W.Target target.old target.new (given_line first.entry members.now) result }
    ensures failed { OnErr result (W.known target.old ≡ true → W.errors target.old < W.errors target.new) }
{
    let mut lines = Lines::new(target);
    lines.put_object(first, members)
}
