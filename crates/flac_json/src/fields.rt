//! Objects of JSON (RFC 8259, section 4) whose values are no lists.

ghost use Rattle.std.specs.Prelude.{◌≡◌, ◌++◌, ◌∷◌, codes, OnOk};
ghost use Rattle.flac_json.specs.Json.{json_text, member_text, more_members, truth, object, no_members};
ghost use Rattle.flac_json.specs.Fields.{name_of, value_of, fields_then, fields_text, object_text};

use crate::texts::{push_bytes, push_number, push_quoted, push_quoted_digits};
use std::alloc::AllocError;

/// A member of an object: a name and a value.
#[derive(Clone, Copy, Debug)]
pub enum Field<'a> {
    /// A number.
    Number(&'a str, u64),
    /// A text, by its bytes, which are UTF-8.
    Text(&'a str, &'a [u8]),
    /// Bytes: a text if they are one in UTF-8, else `{"hex":"DIGITS"}`.
    Bytes(&'a str, &'a [u8]),
    /// Bytes as a text of their hexadecimal digits, two lower-case ones for each byte.
    Digits(&'a str, &'a [u8]),
    /// A truth value.
    Truth(&'a str, bool),
}

/// The word for a truth value.
fn truth_text(holds: bool) -> &'static str
    ensures { result.now ≡ json_text (truth holds) }
{
    if holds { "true" } else { "false" }
}

/// Adds a truth value.
fn push_truth(text: &mut Vec<u8>, holds: bool) -> Result<(), AllocError>
    ensures { OnOk result (text.new.items ≡ text.old.items ++ json_text (truth holds)) }
{
    text.extend_from_slice(truth_text(holds).as_bytes())?;
    Ok(())
}

impl<'a> Field<'a> {
    /// The name of the member.
    fn name(&self) -> &'a str
        ensures { result.now ≡ name_of self.now }
    {
        match self {
            Field::Number(name, _) => name,
            Field::Text(name, _) => name,
            Field::Bytes(name, _) => name,
            Field::Digits(name, _) => name,
            Field::Truth(name, _) => name,
        }
    }
}

/// Adds the value of a member.
fn push_value(text: &mut Vec<u8>, field: &Field<'_>) -> Result<(), AllocError>
    ensures { OnOk result (text.new.items ≡ text.old.items ++ json_text (value_of field.now)) }
{
    match field {
        Field::Number(_, number) => push_number(text, *number),
        Field::Text(_, value) => push_quoted(text, value),
        Field::Bytes(_, bytes) => push_bytes(text, bytes),
        Field::Digits(_, bytes) => push_quoted_digits(text, bytes),
        Field::Truth(_, holds) => push_truth(text, *holds),
    }
}

/// Adds a member.
fn push_field(text: &mut Vec<u8>, field: &Field<'_>) -> Result<(), AllocError>
    ensures { OnOk result (text.new.items ≡ text.old.items ++ member_text (name_of field.now) (value_of field.now)) }
{
    push_quoted(text, field.name().as_bytes())?;
    text.push(b':')?;
    push_value(text, field)
}

/// Adds members, each after a comma.
pub(crate) fn push_more(text: &mut Vec<u8>, fields: &[Field<'_>]) -> Result<(), AllocError>
    ensures { OnOk result (text.new.items ≡ text.old.items ++ more_members (fields_then fields.now no_members)) }
{
    for field in fields {
        text.push(b',')?;
        push_field(text, field)?;
    }
    Ok(())
}

/// Adds the beginning of an object: its first members.
pub(crate) fn push_open(
    text: &mut Vec<u8>,
    first: &Field<'_>,
    more: &[Field<'_>],
) -> Result<(), AllocError>
    ensures { OnOk result (text.new.items ≡ text.old.items
        ++ (codes "{" ++ fields_text first.now more.now)) }
{
    text.push(b'{')?;
    push_field(text, first)?;
    push_more(text, more)
}

/// Adds an object of these members.
pub(crate) fn push_object(
    text: &mut Vec<u8>,
    first: &Field<'_>,
    more: &[Field<'_>],
) -> Result<(), AllocError>
    ensures { OnOk result (text.new.items ≡ text.old.items
        ++ object_text first.now more.now) }
{
    push_open(text, first, more)?;
    text.push(b'}')?;
    Ok(())
}
