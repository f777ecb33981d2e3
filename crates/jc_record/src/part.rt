//! What is known of a call at a key, up to a line.
ghost use Rattle.std.specs.Prelude.{◌≡◌, Some, None, map, IfOk, MatchOption, false};
ghost use Rattle.jc_text.specs.Words.{key_of};
ghost use Rattle.jc_record.specs.Notes.{note_value};
ghost use Rattle.jc_record.specs.AtKey.{begun, is_by, is_key, removal, with_load_asked, with_loaded, with_run, with_write_asked, with_written, call_value, made, is_odd, is_untouched, touched, untouched, missing_if, is_every, out_of, is_answered, PartValue};

use crate::note::Note;
use crate::run_words::ProcessorRun;
use jc_check::{EntrySight, Recorded, Role};
use jc_model::{
    Change, Effect, EntryAnswer, EntryCall, LoadAnswer, Op, Out, ProcessAnswer, Reply, WriteAnswer,
};
use std::alloc::{AllocError, Global};
use std::marker::Model;

/// How a call names a key.
#[derive(Clone, Copy, Debug, PartialEq, Eq)]
pub(crate) enum Ask {
    /// It is a call of this key alone.
    One,
    /// It is a `getAll`.
    GetAll,
    /// It is another call of many keys.
    Each,
    /// It is a `removeAll` of every key.
    Every,
}

/// What is known of a call at a key.
#[derive(Drop)]
pub(crate) struct Part {
    /// How it names the key.
    pub ask: Ask,
    /// Its thread.
    pub thread: u32,
    /// When it began, or asked outside.
    pub began: u64,
    /// When it ended.
    pub ended: Option<u64>,
    /// The operation.
    pub op: Op,
    /// Its loader's answer.
    pub load: LoadAnswer,
    /// Its writer's answer.
    pub write: WriteAnswer,
    /// Its processor's answer.
    pub process: ProcessAnswer,
    /// What its writer was asked for.
    pub change: Option<Change>,
    /// What its processor saw.
    pub sights: Vec<EntrySight>,
    /// Its own answer.
    pub reply: Option<Reply>,
    /// The thread on which its loader is at work.
    pub load_by: Option<u32>,
    /// The thread on which its writer is at work.
    pub write_by: Option<u32>,
    /// Whether it asked its loader or its writer twice.
    pub twice: bool,
}

impl Model for Part {
    ghost use Rattle.jc_record.specs.AtKey.{PartValue};

    ghost Value = { PartValue };

    ghost view = { λ p. record {
      ask = p.ask;
      thread = p.thread;
      began = p.began;
      ended = p.ended;
      op = p.op;
      load = p.load;
      write = p.write;
      process = p.process;
      change = p.change;
      sights = p.sights.items;
      reply = p.reply;
      load_by = p.load_by;
      write_by = p.write_by;
      twice = p.twice;
    } };
}

fn is_by(one: Option<u32>, thread: u32) -> bool
    ensures { result ≡ is_by one thread }
{
    match one {
        None => false,
        Some(one) => one == thread,
    }
}

impl Part {
    /// A call with its operation, at the line that begins it.
    pub(crate) fn begun(alloc: Global, note: &Note<'_>, ask: Ask, op: &Op) -> Part
        ensures { result ≡ begun (note_value note.now) ask op.now }
    {
        Part {
            ask,
            thread: note.thread,
            began: note.at,
            ended: None,
            op: *op,
            load: LoadAnswer::NotAsked,
            write: WriteAnswer::NotAsked,
            process: ProcessAnswer::NotAsked,
            change: None,
            sights: Vec::new(alloc),
            reply: None,
            load_by: None,
            write_by: None,
            twice: false,
        }
    }

    /// A call that removes the entry, whether it is there or not.
    pub(crate) fn removal(alloc: Global, note: &Note<'_>, ask: Ask) -> Result<Part, AllocError>
        ensures { IfOk result (λ part. part ≡ removal (begun (note_value note.now) ask Op.Invoke)) }
    {
        let mut sights = Vec::new(alloc);
        sights.push(EntrySight {
            call: EntryCall::Remove,
            answer: EntryAnswer::Done,
        })?;
        let mut part = Part::begun(alloc, note, ask, &Op::Invoke);
        part.process = ProcessAnswer::Ended {
            effect: Effect::Remove,
            outcome: None,
        };
        part.sights = sights;
        Ok(part)
    }

    /// Its loader is asked.
    pub(crate) fn ask_load(&mut self, note: &Note<'_>)
        ensures { self.new ≡ with_load_asked self.old (note_value note.now) }
    {
        self.twice = self.twice || self.load_by.is_some() || self.load.is_given();
        self.began = note.at;
        self.load_by = Some(note.thread);
    }

    /// Its writer is asked for this.
    pub(crate) fn ask_write(&mut self, note: &Note<'_>, change: Change)
        ensures { self.new ≡ with_write_asked self.old (note_value note.now) change }
    {
        self.twice = self.twice || self.change.is_some();
        self.began = note.at;
        self.write_by = Some(note.thread);
        self.change = Some(change);
    }

    /// Its loader answered, if it is at work on the line's thread.
    pub(crate) fn load(&mut self, note: &Note<'_>, answer: LoadAnswer)
        ensures { self.new ≡ with_loaded self.old (note_value note.now) answer }
    {
        if is_by(self.load_by, note.thread) {
            self.load = answer;
            self.load_by = None;
        }
    }

    /// Its writer returned, if it is at work on the line's thread.
    pub(crate) fn write(&mut self, note: &Note<'_>, answer: WriteAnswer)
        ensures { self.new ≡ with_written self.old (note_value note.now) answer }
    {
        if is_by(self.write_by, note.thread) {
            self.write = answer;
            self.write_by = None;
        }
    }

    /// Its processor ran.
    pub(crate) fn process(&mut self, run: ProcessorRun)
        ensures { self.new ≡ with_run self.old (Ok run) }
    {
        let ProcessorRun { sights, end } = run;
        self.process = end;
        self.sights = sights;
    }

    /// The outside answers.
    pub(crate) fn out(&self) -> Out
        ensures { result ≡ out_of self.now }
    {
        Out {
            load: self.load,
            write: self.write,
            process: self.process,
        }
    }

    /// Whether it got an answer outside.
    pub(crate) fn is_answered(&self) -> bool
        ensures { result ≡ is_answered self.now }
    {
        self.load.is_given() || self.write.is_given() || self.process.is_given()
    }

    /// Whether it asked its loader or writer twice, or answered before they did.
    pub(crate) fn is_odd(&self) -> bool
        ensures { result ≡ is_odd self.now }
    {
        self.twice || ((self.load_by.is_some() || self.write_by.is_some()) && self.reply.is_some())
    }

    fn is_untouched(&self, write_through: bool) -> bool
        ensures { result ≡ is_untouched write_through self.now }
    {
        matches!(self.ask, Ask::Every) && write_through && self.change.is_none()
    }

    /// The call as it is judged.
    pub(crate) fn finish(self, alloc: Global, write_through: bool) -> Recorded
        ensures { call_value result ≡ made write_through self }
    {
        if self.is_untouched(write_through) {
            return self.untouched(alloc);
        }
        self.touched()
    }

    /// A `removeAll` of every key that asked no writer for this one: it found the key missing.
    fn untouched(self, alloc: Global) -> Recorded
        ensures { call_value result ≡ untouched self }
    {
        let reply = match self.reply {
            None => None,
            Some(_) => Some(Reply::Flag(false)),
        };
        Recorded {
            role: Role::Call,
            thread: self.thread,
            began: self.began,
            ended: self.ended,
            op: Op::ContainsKey,
            out: Out::nothing_said(),
            change: None,
            sights: Vec::new(alloc),
            reply,
        }
    }

    fn touched(self) -> Recorded
        ensures { call_value result ≡ touched self }
    {
        let out = self.out();
        Recorded {
            role: Role::Call,
            thread: self.thread,
            began: self.began,
            ended: self.ended,
            op: self.op,
            out,
            change: self.change,
            sights: self.sights,
            reply: self.reply,
        }
    }
}
