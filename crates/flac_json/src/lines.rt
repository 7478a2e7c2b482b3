//! The line of a file: an object of JSON.

ghost use Rattle.std.specs.Prelude.{◌≡◌, ◌++◌, option_map, IfOk, OnOk};
ghost use Rattle.flac_json.specs.Json.{no_members};
ghost use Rattle.flac_json.specs.Fields.{fields_then};
ghost use Rattle.flac_json.specs.Lines.{line_front, line_end, BeginsLine};

use crate::fields::{Field, push_more, push_open};
use std::alloc::{AllocError, Global};

/// Adds the first members of a line.
fn push_front(text: &mut Vec<u8>, path: &str, container: Option<&str>) -> Result<(), AllocError>
    ensures { BeginsLine path.now (option_map (λ name. name.now) container.entry) text.old.items text.new.items result }
{
    let path = Field::Text("path", path.as_bytes());
    match container {
        Some(name) => push_open(text, &path, &[Field::Text("container", name.as_bytes())]),
        None => push_open(text, &path, &[]),
    }
}

/// What is before the blocks in the line of a file: its path, its container if it is known, and the bracket that opens
/// the list of its blocks.
///
/// # Errors
/// `AllocError` if an allocation fails.
pub fn line_front(alloc: Global, path: &str, container: Option<&str>) -> Result<Vec<u8>, AllocError>
    ensures { IfOk result (λ text. text.items ≡ line_front path.now (option_map (λ name. name.now) container.entry)) }
{
    let mut text = Vec::new(alloc);
    push_front(&mut text, path, container)?;
    text.extend_from_slice(b",\"blocks\":[")?;
    Ok(text)
}

/// What is after the blocks: the bracket that closes their list, further members, and the end of the line.
///
/// # Errors
/// `AllocError` if an allocation fails.
pub fn line_end(alloc: Global, fields: &[Field<'_>]) -> Result<Vec<u8>, AllocError>
    ensures { IfOk result (λ text. text.items ≡ line_end (fields_then fields.now no_members)) }
{
    let mut text = Vec::from_slice(alloc, b"]")?;
    push_more(&mut text, fields)?;
    text.extend_from_slice(b"}\n")?;
    Ok(text)
}
