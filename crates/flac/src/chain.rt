//! Jobs with `--any` over Ogg streams one after another.

use crate::list::{Form, list_source};
use flac_around::{Between, ChainLink, Trimmed};
use flac_bits::{Counted, Source};
use flac_cli::{ChainDone, ChainPaths, ListedFile, decode_chain_samples, test_chain};
use flac_files::JobFiles;
use flac_jobs::Job;
use flac_ogg::{Fronted, begins_page, pull_front};

/// Tests the streams of a file. Returns the status.
pub(crate) fn test_streams(rt: &HostRuntime, input: &str, lax: bool, files: JobFiles<'_>) -> u8 {
    let source = Between::new(Counted::new(files.input));
    let mut out = Counted::new(rt.stdout());
    let mut err = Counted::new(rt.stderr());
    let ChainDone { source: _, status } = test_chain(
        rt.alloc(),
        input,
        source,
        lax,
        &mut out,
        &mut err,
    );
    status
}

/// Decodes the streams of a file to raw samples. Returns the status.
pub(crate) fn decode_streams(
    rt: &HostRuntime,
    paths: &ChainPaths<'_>,
    lax: bool,
    files: JobFiles<'_>,
) -> u8 {
    let JobFiles {
        input,
        list: _,
        output,
        ending,
    } = files;
    let source = Between::new(Counted::new(input));
    let mut target = Counted::new(output);
    let mut err = Counted::new(rt.stderr());
    let ChainDone { source: _, status } = decode_chain_samples(
        rt.alloc(),
        paths,
        source,
        lax,
        &mut target,
        &mut err,
    );
    match ending.end(rt, target.into_inner(), status) {
        Ok(()) => status,
        Err(refused) => refused.tell(rt),
    }
}

/// What was listed of streams one after another, and their source.
#[derive(Drop)]
pub(crate) struct Listed<R> {
    pub(crate) source: R,
    pub(crate) status: u8,
}

/// Lists the metadata of the stream of this number, counted from 1. Lines of errors name it, if it is not the first.
fn list_numbered<R: Source>(
    rt: &HostRuntime,
    file: &ListedFile<'_>,
    form: Form,
    number: u64,
    source: &mut R,
) -> u8 {
    if number == 1 || form.json {
        return list_source(rt, file, form, source);
    }
    let input = file.path;
    let Ok(path) = format!(in rt.alloc(); "{input}: stream {number}") else {
        let _ = eprintln!(rt; "flac: {input}: 2 Memory");
        return 1;
    };
    if println!(rt; "stream {number}").is_err() {
        let _ = eprintln!(rt; "flac: {input}: 39 Write");
        return 1;
    }
    let numbered = ListedFile {
        path: path.as_str(),
        names: file.names,
    };
    list_source(rt, &numbered, form, source)
}

/// Lists the metadata of the next stream.
fn list_link<R: Source>(
    rt: &HostRuntime,
    file: &ListedFile<'_>,
    form: Form,
    number: u64,
    fronted: Fronted<R>,
) -> Listed<Fronted<R>> {
    let mut source = Trimmed::new(ChainLink::new(fronted));
    let status = list_numbered(rt, file, form, number, &mut source);
    let mut link = source.into_source();
    if status != 0 || form.head {
        return Listed {
            source: link.into_source(),
            status,
        };
    }
    let passed = link.pass().is_ok();
    if !passed {
        let input = file.path;
        let _ = eprintln!(rt; "flac: {input}: end: 1 Read");
    }
    Listed {
        source: link.into_source(),
        status: u8::from(!passed),
    }
}

/// Looks at what follows a stream. Returns the next byte if it begins a page.
///
/// # Errors
/// The status after the line of an error: the source fails, or the byte begins no page.
fn next_page<R: Source>(
    rt: &HostRuntime,
    input: &str,
    number: u64,
    fronted: &mut Fronted<R>,
) -> Result<Option<u8>, u8> {
    let front = match fronted.front {
        Some(byte) => Some(byte),
        None => match pull_front(&mut fronted.source) {
            Ok(front) => front,
            Err(_) => {
                let _ = eprintln!(rt; "flac: {input}: end: 1 Read");
                return Err(1);
            }
        },
    };
    if front.is_some() && !begins_page(front) {
        let _ = eprintln!(rt; "flac: {input}: stream {number}: page 0: 31 BadPage");
        return Err(1);
    }
    Ok(front)
}

/// Lists the metadata of streams one after another, each but the first after a line with its number; of the first alone if
/// no frame is read.
pub(crate) fn list_streams<R: Source>(
    rt: &HostRuntime,
    file: &ListedFile<'_>,
    form: Form,
    source: R,
) -> Listed<R> {
    let mut fronted = Fronted {
        front: None,
        source,
    };
    for number in 1..u64::MAX {
        let listed = list_link(rt, file, form, number, fronted);
        fronted = listed.source;
        if listed.status != 0 || form.head {
            return Listed {
                source: fronted.source,
                status: listed.status,
            };
        }
        match next_page(rt, file.path, number + 1, &mut fronted) {
            Ok(Some(byte)) => fronted.front = Some(byte),
            Ok(None) => {
                return Listed {
                    source: fronted.source,
                    status: 0,
                };
            }
            Err(status) => {
                return Listed {
                    source: fronted.source,
                    status,
                };
            }
        }
    }
    Listed {
        source: fronted.source,
        status: 1,
    }
}
