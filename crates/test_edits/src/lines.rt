//! Comments that are read from lines.

use flac_edit::{LinesFault, comment_lines, comments_of_lines};
use flac_meta::Bytes;
use std::alloc::Global;
use std::test::Fail;

/// Whether these are the comments of one line each.
fn are(list: &[Bytes], due: &[&[u8]]) -> bool {
    if list.len() != due.len() {
        return false;
    }
    for (i, comment) in list.iter().enumerate() {
        if comment.as_slice() != due[i] {
            return false;
        }
    }
    true
}

/// Whether lines give these comments.
fn gives(alloc: Global, text: &[u8], due: &[&[u8]]) -> bool {
    match comments_of_lines(alloc, text) {
        Ok(list) => are(&list, due),
        Err(_) => false,
    }
}

/// The number of the first line that is no comment; 0 if all are.
fn wrong_line(alloc: Global, text: &[u8]) -> u64 {
    match comments_of_lines(alloc, text) {
        Err(LinesFault::Line(number)) => number,
        _ => 0,
    }
}

/// Whether lines are written as they were read.
fn come_back(alloc: Global, text: &[u8]) -> bool {
    let Ok(list) = comments_of_lines(alloc, text) else {
        return false;
    };
    match comment_lines(alloc, &list) {
        Ok(lines) => lines.as_slice() == text,
        Err(_) => false,
    }
}

#[test]
fn each_line_is_a_comment(rt: HostRuntime) -> Result<(), Fail> {
    assert!(rt; gives(rt.alloc(), b"", &[]));
    assert!(rt; gives(rt.alloc(), b"TITLE=Air\nA=", &[b"TITLE=Air", b"A="]));
    assert!(rt; gives(rt.alloc(), b"a b=1=2\n", &[b"a b=1=2"]));
    Ok(())
}

#[test]
fn escapes_are_bytes_and_other_text_is_itself(rt: HostRuntime) -> Result<(), Fail> {
    assert!(rt; gives(rt.alloc(), b"A=\\x5c\\x0a\\xFf\\x00\n", &[b"A=\\\n\xff\0"]));
    assert!(rt; gives(rt.alloc(), b"\\x41=\xc3\xa9\n", &[b"A=\xc3\xa9"]));
    Ok(())
}

#[test]
fn the_first_line_that_is_no_comment_is_named(rt: HostRuntime) -> Result<(), Fail> {
    assert!(rt; wrong_line(rt.alloc(), b"TITLE\n") == 1);
    assert!(rt; wrong_line(rt.alloc(), b"A=1\n\nB=2\n") == 2);
    assert!(rt; wrong_line(rt.alloc(), b"\n") == 1);
    assert!(rt; wrong_line(rt.alloc(), b"A=1\nB=2\n=3\nC\n") == 3);
    assert!(rt; wrong_line(rt.alloc(), b"A=1\r\n") == 1);
    Ok(())
}

#[test]
fn a_bad_escape_or_name_is_no_comment(rt: HostRuntime) -> Result<(), Fail> {
    assert!(rt; wrong_line(rt.alloc(), b"A=\\") == 1);
    assert!(rt; wrong_line(rt.alloc(), b"A=\\x0") == 1);
    assert!(rt; wrong_line(rt.alloc(), b"A=\\x0g") == 1);
    assert!(rt; wrong_line(rt.alloc(), b"A=\\X00") == 1);
    assert!(rt; wrong_line(rt.alloc(), b"\xc3\xa9=1") == 1);
    assert!(rt; wrong_line(rt.alloc(), b"\\x0a=1") == 1);
    Ok(())
}

#[test]
fn lines_come_back(rt: HostRuntime) -> Result<(), Fail> {
    assert!(rt; come_back(rt.alloc(), b"A=\\x00\\x0a\\x5c\\x7f\\xff\nB=x\nA=1\n"));
    Ok(())
}
