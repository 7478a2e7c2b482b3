//! Verifications: what `flac verify` is asked for.

/// The files and folders that are verified, one after another.
#[derive(Debug, Drop)]
pub struct Verification<'a> {
    /// The paths of the files and folders.
    pub paths: Vec<&'a str>,
    /// Whether each stream must be in the streamable subset (RFC 9639, section 7).
    pub subset: bool,
    /// The path of a new report: a line of JSON for each file.
    pub report: Option<&'a str>,
    /// The path of a report that may have lines: files that it has as good, at the same size and time, are left out.
    /// Not with `report`.
    pub resume: Option<&'a str>,
    /// The path of an older report with which the files are compared. Not with `resume`.
    pub against: Option<&'a str>,
    /// Whether each damaged frame of a bad file is reported, and not the first alone.
    pub all: bool,
}
