//! Where a stream is between tags, by the rows of the source between them.

use crate::tags::{ROWS, row_of};
use flac_around::between_tags;
use std::test::Fail;

/// Whether the bytes between tags are these.
fn is_between(bytes: &[u8], due: &[u8]) -> bool {
    let (start, end) = between_tags(bytes);
    &bytes[start..end] == due
}

#[test]
fn says_where_it_is(rt: HostRuntime) -> Result<(), Fail> {
    for row in ROWS.lines() {
        if row.starts_with('#') {
            continue;
        }
        let (bytes, due) = row_of(rt.alloc(), row)?;
        assert!(rt; is_between(&bytes, &due), "{row}");
    }
    Ok(())
}
