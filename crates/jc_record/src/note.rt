//! The lines of a record, read.
ghost use Rattle.std.specs.Prelude.{◌≡◌, ◌≤◌, drop, map, IfOk};
ghost use Rattle.jc_record.specs.Notes.{called, clock_from, clock_of, is_clock, is_foreign_kind, kind_named, note_of, thread_of, timed, IsNote};

use jc_text::Fault;
use jc_text::read::words::{is, number};

/// The highest number of a thread.
pub const THREADS_MAX: u32 = 1023;

/// The largest number that one more digit may follow, in a time: times have at most 19 digits.
const CLOCK_TENTH: u64 = 999_999_999_999_999_999;

/// What a line of a record says.
#[derive(Clone, Copy, Debug, PartialEq, Eq)]
pub(crate) enum NoteKind {
    /// What the store has at a key at first.
    Set,
    /// A call begins.
    Call,
    /// It ends, with this answer.
    Is,
    /// Its loader is asked.
    Load,
    /// The loader answered.
    Loads,
    /// The loader failed.
    LoadFails,
    /// Its writer is asked to write.
    Write,
    /// Its writer is asked to delete.
    Delete,
    /// The writer returned.
    Writes,
    /// The writer failed.
    WriteFails,
    /// Its entry processor ran.
    Process,
    /// Another program changed the store.
    Foreign,
}

/// A line of a record.
#[derive(Clone, Copy)]
pub(crate) struct Note<'a> {
    /// Its time.
    pub at: u64,
    /// Its thread.
    pub thread: u32,
    /// The number of its call; 0 if it has none.
    pub call: u32,
    /// What it says.
    pub kind: NoteKind,
    /// Its bytes.
    pub text: &'a [u8],
    /// How many of its words are told by the parts above.
    pub skip: usize,
}

/// The thread that a word says: a t and its number.
fn thread(word: &[u8]) -> Result<u32, Fault>
    ensures { result ≡ thread_of word.now }
{
    match word {
        [] => Err(Fault::BadCaller),
        [first, rest @ ..] => {
            if *first != b't' {
                return Err(Fault::BadCaller);
            }
            match number(rest) {
                Ok(n) if n <= THREADS_MAX => Ok(n),
                _ => Err(Fault::BadCaller),
            }
        }
    }
}

fn clock_digits(word: &[u8]) -> Result<u64, Fault>
    ensures { result ≡ clock_from 0 word.now }
{
    let mut n: u64 = 0;
    for b in word {
        let b = *b;
        if b < b'0' || b'9' < b || CLOCK_TENTH < n {
            return Err(Fault::BadNumber);
        }
        n = n * 10 + (b - b'0') as u64;
    }
    Ok(n)
}

/// The time that digits say.
fn clock(word: &[u8]) -> Result<u64, Fault>
    ensures { result ≡ clock_of word.now }
{
    match word {
        [] => Err(Fault::BadNumber),
        _ => clock_digits(word),
    }
}

/// Whether a word is a time.
fn is_clock(word: &[u8]) -> bool
    ensures { result ≡ is_clock word.now }
{
    match word {
        [] => false,
        [first, ..] => *first == b'@',
    }
}

/// What a line says, by its word.
fn kind_named(word: &[u8]) -> Result<NoteKind, Fault>
    ensures { result ≡ kind_named word.now }
{
    match word {
        _ if is(word, "call") => Ok(NoteKind::Call),
        _ if is(word, "is") => Ok(NoteKind::Is),
        _ if is(word, "load") => Ok(NoteKind::Load),
        _ if is(word, "loads") => Ok(NoteKind::Loads),
        _ if is(word, "loadfails") => Ok(NoteKind::LoadFails),
        _ if is(word, "write") => Ok(NoteKind::Write),
        _ if is(word, "delete") => Ok(NoteKind::Delete),
        _ if is(word, "writes") => Ok(NoteKind::Writes),
        _ if is(word, "deletes") => Ok(NoteKind::Writes),
        _ if is(word, "writefails") => Ok(NoteKind::WriteFails),
        _ if is(word, "deletefails") => Ok(NoteKind::WriteFails),
        _ if is(word, "process") => Ok(NoteKind::Process),
        _ if is(word, "foreign") => Ok(NoteKind::Foreign),
        _ => Err(Fault::BadLine),
    }
}

/// Whether a line tells what another program did.
fn is_foreign_kind(kind: NoteKind) -> bool
    ensures { result ≡ is_foreign_kind kind }
{
    matches!(kind, NoteKind::Foreign)
}

/// What each line has before its own words.
#[derive(Clone, Copy)]
struct Front<'a> {
    at: u64,
    text: &'a [u8],
    skip: usize,
}

/// A line, from the words after its kind.
fn called<'a>(
    front: Front<'a>,
    thread: u32,
    kind: NoteKind,
    words: &[&[u8]],
) -> Result<Note<'a>, Fault>
    requires { front.skip ≤ 1 }
    ensures whole { IfOk result (λ n. n.text.now ≡ front.entry.text.now) }
    ensures read { IsNote result (called front.entry.at thread kind front.entry.text.now front.entry.skip (map (λ w. w.now) words.now)) }
{
    let Front { at, text, skip } = front;
    match words {
        [] => Err(Fault::BadLine),
        [n, ..] => {
            if is_foreign_kind(kind) {
                return Ok(Note {
                    at,
                    thread,
                    call: 0,
                    kind,
                    text,
                    skip: skip + 2,
                });
            }
            let call = number(n)?;
            Ok(Note {
                at,
                thread,
                call,
                kind,
                text,
                skip: skip + 3,
            })
        }
    }
}

/// A line, from the words after its time.
#[tactic(auto, unfolding(crate::specs::Notes::timed))]
fn timed<'a>(front: Front<'a>, words: &[&[u8]]) -> Result<Note<'a>, Fault>
    requires { front.skip ≤ 1 }
    ensures whole { IfOk result (λ n. n.text.now ≡ front.entry.text.now) }
    ensures read { IsNote result (timed front.entry.at front.entry.text.now front.entry.skip (map (λ w. w.now) words.now)) }
{
    match words {
        [who, what, rest @ ..] => {
            let kind = kind_named(what)?;
            let thread = thread(who)?;
            called(front, thread, kind, rest)
        }
        _ => Err(Fault::BadLine),
    }
}

/// A line, from its words. Without a time its number is its time.
#[tactic(auto, unfolding(crate::specs::Notes::note_of))]
pub(crate) fn note_of<'a>(line: u64, text: &'a [u8], words: &[&[u8]]) -> Result<Note<'a>, Fault>
    ensures whole { IfOk result (λ n. n.text.now ≡ text.now) }
    ensures read { IsNote result (note_of line text.now (map (λ w. w.now) words.now)) }
{
    match words {
        [] => Err(Fault::BadLine),
        [first, rest @ ..] => {
            if is_clock(first) {
                let at = clock(&first[1..])?;
                return timed(Front { at, text, skip: 1 }, rest);
            }
            timed(
                Front {
                    at: line,
                    text,
                    skip: 0,
                },
                words,
            )
        }
    }
}

fn after_words<'a, 'b>(count: usize, words: &'b [&'a [u8]]) -> &'b [&'a [u8]]
    ensures { result.now ≡ drop count words.now }
{
    if words.len() < count {
        &[]
    } else {
        &words[count..]
    }
}

/// The part of some words after the first `count` of them.
pub(crate) fn behind<'a, 'b>(count: usize, words: &'b [&'a [u8]]) -> &'b [&'a [u8]]
    ensures { map (λ w. w.now) result.now ≡ drop count (map (λ w. w.now) words.now) }
{
    after_words(count, words)
}
