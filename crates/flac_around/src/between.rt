//! A source of the bytes between the tags of other programs.

ghost use Rattle.std.specs.Prelude.{◌≡◌, ◌≢◌, ◌≤◌, ◌<◌, ◌+◌, ◌-◌, ◌++◌, ℕ, true, [], length, take, drop, min, IfOk, OnOk, OnErr};
ghost use Rattle.flac_around.specs.Around.{past_front, back_length, without_back};
ghost use Rattle.flac_around.specs.inner.Pulling.{Goes, Fails, IsOver, IfComing, Gives, Slides, KeepsComing, PassesFront, IsEnded, front_within};

use crate::filling::{fill, skip};
use crate::tags::{front_length, is_back};
use flac_bits::Source;
use std::io;

/// How many bytes an ID3v1 tag has: as many are held back.
const BACK: usize = 128;

/// How far a source was read.
#[derive(Clone, Copy, PartialEq, Eq)]
pub(crate) enum Stage {
    /// Nothing was.
    Unread,
    /// All that is held may be a tag at the end.
    Going,
    /// Up to its end.
    Ended,
}

/// What was read of the front of a source.
#[derive(Clone, Copy)]
pub(crate) struct Front {
    /// How many bytes the tag before the stream has.
    before: u64,
    /// How many bytes after it are held.
    held: usize,
}

/// Passes a tag at the start of a source, and holds up to ten bytes of what is none.
fn pass_front<S: Source>(source: &mut S, held: &mut [u8]) -> io::Result<Front>
    requires { 10 ≤ length held.old }
    ensures few { IfOk result (λ f. f.held ≤ 10) }
    ensures bytes { IfOk result (λ f. PassesFront S.Source source.old source.new (take f.held held.new)) }
    ensures before { IfOk result (λ f. IfComing S.Source source.old (λ coming. f.before ≡ front_within coming)) }
    ensures most { IfOk result (λ f. S.most source.new + f.held ≤ S.most source.old) }
    ensures goes { OnOk result (Goes S.Source source.old source.new) }
    ensures fails { OnErr result (Fails S.Source (λ coming. length (past_front coming) ≤ 128) source.old source.new) }
{
    let count = match fill(source, held, 0, 10) {
        Ok(count) => count,
        Err(error) => return Err(error),
    };
    let size = front_length(&held[..count]);
    if size < 10 {
        return Ok(Front {
            before: 0,
            held: count,
        });
    }
    match skip(source, size - 10) {
        Ok(skipped) => Ok(Front {
            before: skipped + 10,
            held: 0,
        }),
        Err(error) => Err(error),
    }
}

/// Passes a tag at the start of a source, and holds the next 128 bytes: fewer if the source ends.
fn begin<S: Source>(source: &mut S, held: &mut [u8]) -> io::Result<Front>
    requires { length held.old ≡ 128 }
    ensures few { IfOk result (λ f. f.held ≤ 128) }
    ensures bytes { IfOk result (λ f. PassesFront S.Source source.old source.new (take f.held held.new)) }
    ensures end { IfOk result (λ f. f.held < 128 → IsOver S.Source source.old source.new) }
    ensures before { IfOk result (λ f. IfComing S.Source source.old (λ coming. f.before ≡ front_within coming)) }
    ensures most { IfOk result (λ f. S.most source.new + f.held ≤ S.most source.old) }
    ensures goes { OnOk result (Goes S.Source source.old source.new) }
    ensures fails { OnErr result (Fails S.Source (λ coming. length (past_front coming) ≤ 128) source.old source.new) }
{
    let front = match pass_front(source, held) {
        Ok(front) => front,
        Err(error) => return Err(error),
    };
    match fill(source, held, front.held, BACK) {
        Ok(count) => Ok(Front {
            before: front.before,
            held: count,
        }),
        Err(error) => Err(error),
    }
}

/// Gives the bytes that are held, and then some of the source's, and holds the last 128 of both: `room` gets those
/// before these. Returns how many they are; 0 if the source ended.
fn through<S: Source>(source: &mut S, held: &mut [u8], room: &mut [u8]) -> io::Result<usize>
    requires held { length held.old ≡ 128 }
    requires room { 128 < length room.old }
    ensures few { IfOk result (λ n. n + 128 ≤ length room.new) }
    ensures bytes { IfOk result (λ n. Slides S.Source source.old source.new held.old (take n room.new) held.new) }
    ensures end { IfOk result (λ n. n ≡ 0 → IsOver S.Source source.old source.new) }
    ensures same { IfOk result (λ n. n ≡ 0 → held.new ≡ held.old) }
    ensures most { IfOk result (λ n. S.most source.new + n ≤ S.most source.old) }
    ensures goes { OnOk result (Goes S.Source source.old source.new) }
    ensures fails { OnErr result (Fails S.Source (λ coming. coming ≡ []) source.old source.new) }
{
    room[..BACK].copy_from_slice(held);
    let count = match source.pull(&mut room[BACK..]) {
        Ok(count) => count,
        Err(error) => return Err(error),
    };
    held.copy_from_slice(&room[count..count + BACK]);
    Ok(count)
}

/// Does what [`through`] does for places of any number.
fn slide<S: Source>(source: &mut S, held: &mut [u8], buf: &mut [u8]) -> io::Result<usize>
    requires held { length held.old ≡ 128 }
    requires room { 0 < length buf.old }
    ensures few { IfOk result (λ n. n ≤ length buf.new) }
    ensures bytes { IfOk result (λ n. Slides S.Source source.old source.new held.old (take n buf.new) held.new) }
    ensures end { IfOk result (λ n. n ≡ 0 → IsOver S.Source source.old source.new) }
    ensures same { IfOk result (λ n. n ≡ 0 → held.new ≡ held.old) }
    ensures most { IfOk result (λ n. S.most source.new + n ≤ S.most source.old) }
    ensures goes { OnOk result (Goes S.Source source.old source.new) }
    ensures fails { OnErr result (Fails S.Source (λ coming. coming ≡ []) source.old source.new) }
{
    let len = buf.len();
    if len > BACK {
        return through(source, held, buf);
    }
    let mut room = [0u8; 2 * BACK];
    match through(source, held, &mut room[..BACK + len]) {
        Ok(count) => {
            buf[..count].copy_from_slice(&room[..count]);
            Ok(count)
        }
        Err(error) => Err(error),
    }
}

/// The bytes of another source without the tags that other programs put around a stream: an ID3v2 tag at the start, and
/// an ID3v1 tag at the end.
///
/// It holds 128 bytes back, which may be a tag until the other source ends.
#[derive(Drop)]
pub struct Between<S> {
    source: S,
    stage: Stage,
    held: [u8; BACK],
    /// The part of `held` that is still to be given, if the source was read up to its end.
    from: usize,
    to: usize,
    /// How many bytes the tag before the stream has, and that after it, as far as they were read.
    before: u64,
    after: u64,
    ghost within: { from ≤ to },
    ghost room: { to ≤ 128 },
}

impl<S: Source> Between<S> {
    ghost use Rattle.flac_around.specs.Coming.{ghosts_of, last_of, inside};
    ghost use Rattle.flac_around.specs.declared.between.Stage.TheVariants as stage;

    /// A source of the bytes between.
    pub fn new(source: S) -> Between<S>
        ensures source { result.source ≡ source }
        ensures stage { result.stage ≡ stage.Unread }
        ensures bytes { (ghosts_of S.Source).coming result ≡ inside S.Source source }
    {
        Between {
            source,
            stage: Stage::Unread,
            held: [0; BACK],
            from: 0,
            to: 0,
            before: 0,
            after: 0,
        }
    }

    /// Returns the other source.
    pub fn into_source(self) -> S
        ensures { result ≡ self.source }
    {
        let Between {
            source,
            stage: _,
            held: _,
            from: _,
            to: _,
            before: _,
            after: _,
        } = self;
        source
    }

    /// Goes on to the end: what is held is a tag, or is still to be given.
    fn end(&mut self)
        ensures source { self.new.source ≡ self.old.source }
        ensures stage { self.new.stage ≡ stage.Ended }
        ensures last { last_of self.new ≡ without_back self.old.held }
        ensures before { self.new.before ≡ self.old.before }
        ensures after { self.new.after ≡ back_length self.old.held }
        ensures count { self.new.to - self.new.from ≤ 128 }
    {
        self.stage = Stage::Ended;
        self.from = 0;
        if is_back(&self.held) {
            self.to = 0;
            self.after = BACK as u64;
        } else {
            self.to = BACK;
            self.after = 0;
        }
    }

    /// Reads what comes before the stream, if nothing was read yet.
    ///
    /// # Errors
    /// That of the other source.
    fn start(&mut self) -> io::Result<()>
        ensures stage { OnOk result (self.new.stage ≢ stage.Unread) }
        ensures bytes { OnOk result (KeepsComing (ghosts_of S.Source) self.old self.new) }
        ensures goes { OnOk result (Goes (ghosts_of S.Source) self.old self.new) }
        ensures fails { OnErr result (Fails (ghosts_of S.Source) (λ coming. coming ≡ []) self.old self.new) }
    {
        if self.stage != Stage::Unread {
            return Ok(());
        }
        let front = match begin(&mut self.source, &mut self.held) {
            Ok(front) => front,
            Err(error) => return Err(error),
        };
        self.before = front.before;
        self.from = 0;
        self.to = front.held;
        if front.held < BACK {
            self.stage = Stage::Ended;
            return Ok(());
        }
        self.stage = Stage::Going;
        Ok(())
    }

    /// Gives what is left at the end, and then what the other source still has.
    fn give_last(&mut self, buf: &mut [u8]) -> io::Result<usize>
        requires stage { self.old.stage ≡ stage.Ended }
        requires room { 0 < length buf.old }
        ensures few { IfOk result (λ n. n ≤ length buf.new) }
        ensures bytes { IfOk result (λ n. Gives (ghosts_of S.Source) self.old self.new (take n buf.new)) }
        ensures end { IfOk result (λ n. n ≡ 0 → IsEnded (ghosts_of S.Source) self.old) }
        ensures most { IfOk result (λ n. (ghosts_of S.Source).most self.new + n ≤ (ghosts_of S.Source).most self.old) }
        ensures goes { OnOk result (Goes (ghosts_of S.Source) self.old self.new) }
        ensures fails { OnErr result (Fails (ghosts_of S.Source) (λ coming. coming ≡ []) self.old self.new) }
    {
        if self.from == self.to {
            return self.source.pull(buf);
        }
        let count = buf.len().min(self.to - self.from);
        buf[..count].copy_from_slice(&self.held[self.from..self.from + count]);
        self.from += count;
        Ok(count)
    }

    /// Gives some of the bytes that are held or that come, before the end: none if the other source ends.
    fn go_on(&mut self, buf: &mut [u8]) -> io::Result<usize>
        requires stage { self.old.stage ≡ stage.Going }
        requires room { 0 < length buf.old }
        ensures stage { IfOk result (λ n. n ≡ 0 → self.new.stage ≡ stage.Ended) }
        ensures few { IfOk result (λ n. n ≤ length buf.new) }
        ensures bytes { IfOk result (λ n. Gives (ghosts_of S.Source) self.old self.new (take n buf.new)) }
        ensures most { IfOk result (λ n. (ghosts_of S.Source).most self.new + n ≤ (ghosts_of S.Source).most self.old) }
        ensures goes { OnOk result (Goes (ghosts_of S.Source) self.old self.new) }
        ensures fails { OnErr result (Fails (ghosts_of S.Source) (λ coming. coming ≡ []) self.old self.new) }
    {
        let count = match slide(&mut self.source, &mut self.held, buf) {
            Ok(count) => count,
            Err(error) => return Err(error),
        };
        if count > 0 {
            return Ok(count);
        }
        self.end();
        Ok(0)
    }

    /// Gives some of the bytes to come, after what comes before the stream was read.
    fn give(&mut self, buf: &mut [u8]) -> io::Result<usize>
        requires stage { self.old.stage ≢ stage.Unread }
        requires room { 0 < length buf.old }
        ensures few { IfOk result (λ n. n ≤ length buf.new) }
        ensures bytes { IfOk result (λ n. Gives (ghosts_of S.Source) self.old self.new (take n buf.new)) }
        ensures end { IfOk result (λ n. n ≡ 0 → IsEnded (ghosts_of S.Source) self.old) }
        ensures most { IfOk result (λ n. (ghosts_of S.Source).most self.new + n ≤ (ghosts_of S.Source).most self.old) }
        ensures goes { OnOk result (Goes (ghosts_of S.Source) self.old self.new) }
        ensures fails { OnErr result (Fails (ghosts_of S.Source) (λ coming. coming ≡ []) self.old self.new) }
    {
        if self.stage != Stage::Going {
            return self.give_last(buf);
        }
        let count = match self.go_on(buf) {
            Ok(count) => count,
            Err(error) => return Err(error),
        };
        if count > 0 {
            return Ok(count);
        }
        match self.give_last(buf) {
            Ok(count) => Ok(count),
            Err(error) => Err(error),
        }
    }

    /// How many bytes an ID3v2 tag has that was read before the stream; 0 if there was none.
    pub fn before(&self) -> u64
        ensures { result ≡ self.now.before }
    {
        self.before
    }

    /// How many bytes an ID3v1 tag has that was read at the end; 0 if there was none.
    pub fn after(&self) -> u64
        ensures { result ≡ self.now.after }
    {
        self.after
    }
}

impl<S: Source> Source for Between<S> {
    ghost use Rattle.flac_around.specs.Coming.{ghosts_of};

    ghost known = { λ b. (ghosts_of S.Source).known b };

    ghost coming = { λ b. (ghosts_of S.Source).coming b };

    ghost after = { λ b. (ghosts_of S.Source).after b };

    ghost errors = { λ b. (ghosts_of S.Source).errors b };

    ghost raised = { λ b. (ghosts_of S.Source).raised b };

    ghost most = { λ b. (ghosts_of S.Source).most b };

    ghost names = { λ b. (ghosts_of S.Source).names b };

    fn pull(&mut self, buf: &mut [u8]) -> io::Result<usize> {
        if buf.is_empty() {
            return Ok(0);
        }
        match self.start() {
            Ok(()) => {}
            Err(error) => return Err(error),
        }
        match self.give(buf) {
            Ok(count) => Ok(count),
            Err(error) => Err(error),
        }
    }
}
