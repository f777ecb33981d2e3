//! A call under way, by what it does at its keys.
ghost use Rattle.std.specs.Prelude.{◌≡◌, ◌==◌, ◌++◌, ◌∷◌, [], true, Some, None, is_some, option_copied};
ghost use Rattle.std.specs.Prelude.{OnErr, OnOk, IfOk};
ghost use Rattle.std.specs.List.{list_all, list_any, IsDistinct};
ghost use Rattle.std.specs.Cmp.Lexicographic.{pointwise};
ghost use Rattle.jc_model.specs.declared.event.Op.TheVariants.{Get};
ghost use Rattle.jc_world.specs.declared.command.Command.TheVariants as command;
ghost use Rattle.jc_world.specs.Calls.{op_at, op_found, looked_in, open_keys};
ghost use Rattle.jc_world.specs.Calls.{is_going, new_call, over_of, settled, with_swept_keys, with_met, SweepState};
ghost use Rattle.jc_world.specs.OpenCalls.{TakesKeys};
ghost use Rattle.jc_world.specs.World.{is_free_of, waits_for_process};
ghost use Rattle.jc_world.specs.Fits.{is_asked_in, is_in_batch, is_to_look, passes_in, writer_batch};
ghost use Rattle.jc_world.specs.Events.{reported_keys};
ghost use Rattle.jc_world.specs.Held.{parts_of, joins_of};

use crate::command::{CallKind, Command};
use crate::event::Over;
use crate::held_keys::{HeldKeys, is_being_written, waits_for_process};
use crate::joined::Joins;
use crate::reports::{ReportedKey, WriterBatch};
use crate::sweep::Sweep;
use crate::tasks::{
    Tasks, are_free, are_open, is_free_at, names_each_once, one_asked, one_waits, op_among,
    push_each, push_reported, push_task, push_tasks, put_if_open, put_one, put_open_among,
    settle_at, take_keys, tasks_for,
};
use jc_model::Op;
use jc_types::{Caller, Key, Refusal};
use std::alloc::{AllocError, Global};
use std::marker::Model;

/// A call under way.
#[derive(Drop)]
pub struct OpenCall {
    caller: Caller,
    kind: CallKind,
    tasks: Tasks,
    sweep: Option<Sweep>,
    cause: Option<Refusal>,
}

impl Model for OpenCall {
    ghost use Rattle.jc_world.specs.Calls.{CallState};
    ghost use Rattle.jc_world.specs.OpenCalls.{tasks_of, IsCountKept, IsSwept};

    ghost Value = { CallState };

    ghost view = { λ u. record { caller = u.caller; kind = u.kind; tasks = tasks_of u.tasks; sweep = u.sweep; cause = u.cause } };

    ghost invariant = { λ u. IsCountKept u.tasks × IsSwept u.sweep u.tasks };
}

impl OpenCall {
    /// The call of a command, with all its keys open. An `Err` says that an allocation failed: a call of one key takes none.
    pub(crate) fn new(alloc: Global, caller: Caller, command: &Command) -> Result<Self, AllocError>
        ensures { IfOk result (λ u. u ≡ new_call caller.call caller.session command.now) }
    {
        let kind = command.kind();
        let sweep = command.sweep(alloc);
        let tasks = tasks_for(alloc, command)?;
        Ok(OpenCall {
            caller,
            kind,
            tasks,
            sweep,
            cause: None,
        })
    }

    /// A `get` of one key, which [`set_single`](Self::set_single) turns into a call of any operation. It takes no memory.
    pub(crate) fn get(caller: Caller, key: &Key) -> Self
        ensures { result ≡ new_call caller.call caller.session (command.Single Get key.now) }
    {
        OpenCall {
            caller,
            kind: CallKind::Single,
            tasks: Tasks::One {
                key: *key,
                op: Some(Op::Get),
            },
            sweep: None,
            cause: None,
        }
    }

    /// Makes this a call of one operation on one key, whose values aren't copied on the way.
    ///
    /// Condition: it looks at no stripe.
    #[inline(always)]
    pub(crate) fn set_single(&mut self, op: &Op, key: &Key)
        requires { self.old.sweep ≡ None }
        ensures { self.new ≡ record self.old { tasks = (key.now, Some op.now) ∷ [] } }
    {
        put_one(&mut self.tasks, key, op);
    }

    /// The caller: a session, from 1 to [`SESSIONS_MAX`](jc_types::SESSIONS_MAX), and the call's number.
    pub fn caller(&self) -> Caller
        ensures { result ≡ self.now.caller }
    {
        self.caller
    }

    /// How the call takes its keys.
    pub fn kind(&self) -> CallKind
        ensures { result ≡ self.now.kind }
    {
        self.kind
    }

    /// Appends the keys of the call that are open, in their order. No two of them are the same, and the call has something to do at
    /// each.
    #[tactic(auto, using(crate::proofs::TaskLists::all_open))]
    pub fn put_open_keys(&self, keys: &mut Vec<Key>) -> Result<(), AllocError>
        ensures keys { OnOk result (keys.new.items ≡ keys.old.items ++ open_keys self.now) }
        ensures distinct { IsDistinct (pointwise ◌==◌) (open_keys self.now) }
        ensures ops { list_all (λ key. is_some (op_at self.now key)) (open_keys self.now) ≡ true }
    {
        names_each_once(&self.tasks);
        match &self.tasks {
            Tasks::One { key, op } => put_if_open(key, op, keys),
            Tasks::Many { ops, count: _ } => put_open_among(ops, keys),
        }
    }

    /// The first fault, or refusal that isn't put off, that the call has met.
    pub fn cause(&self) -> Option<Refusal>
        ensures { result ≡ self.now.cause }
    {
        self.cause
    }

    /// The operation of the call at each key that it still finds, if it has to look at a stripe.
    pub fn op_found(&self) -> Option<Op>
        ensures { result ≡ op_found self.now.sweep }
    {
        match &self.sweep {
            Some(sweep) => Some(*sweep.op()),
            None => None,
        }
    }

    /// The stripes at which the call has looked, if it is to look at more, in the order of its looks.
    pub fn looked(&self) -> &[usize]
        ensures { result.now ≡ looked_in self.now.sweep }
    {
        match &self.sweep {
            Some(sweep) => sweep.looked(),
            None => &[],
        }
    }

    /// Appends the keys of the call in their order, each with what is done there as long as it is open. An `Err` says that an
    /// allocation failed.
    pub fn put_tasks(&self, out: &mut Vec<(Key, Option<Op>)>) -> Result<(), AllocError>
        ensures { OnOk result (out.new.items ≡ out.old.items ++ self.now.tasks) }
    {
        match &self.tasks {
            Tasks::One { key, op } => push_task(key, op, out),
            Tasks::Many { ops, count: _ } => push_tasks(ops, out),
        }
    }

    /// Whether the call takes the keys that are cached, and hasn't looked at the stripe of its world with this number yet.
    pub fn is_to_look(&self, stripe: usize) -> bool
        ensures { result ≡ is_to_look stripe self.now.sweep }
    {
        match &self.sweep {
            Some(sweep) => !sweep.has_looked(stripe),
            None => false,
        }
    }

    /// Whether the call isn't over: a key of it is open, or it is still to look at a stripe.
    pub(crate) fn is_going(&self) -> bool
        ensures { result ≡ is_going self.now }
    {
        self.sweep.is_some() || are_open(&self.tasks)
    }

    /// What the call does at a key that is open in it: one that has neither a reply nor a last refusal. None at any other key. It
    /// costs one look-up.
    pub fn op_at(&self, key: &Key) -> Option<&Op>
        ensures { option_copied result ≡ op_at self.now key.now }
    {
        match &self.tasks {
            Tasks::One { key: own, op } => { if *key == *own { op.as_ref() } else { None } }
            Tasks::Many { ops, count: _ } => op_among(ops, key),
        }
    }

    /// What the call does at a key that is known to be open in it. A call of one operation does it at no other key, so nothing
    /// has to be compared.
    pub(crate) fn op_at_open(&self, key: &Key) -> &Op
        requires { is_some (op_at self.now key.now) ≡ true }
        ensures { op_at self.now key.now ≡ Some result.now }
    {
        match &self.tasks {
            Tasks::One {
                key: _,
                op: Some(op),
            } => op,
            Tasks::One { key: _, op: None } => unreachable!(),
            Tasks::Many { ops, count: _ } => match op_among(ops, key) {
                Some(op) => op,
                None => unreachable!(),
            },
        }
    }

    /// Whether the call holds none of its open keys, and has joined no load of one.
    pub(crate) fn is_free(&self, call: u64, held: &HeldKeys, joins: &Joins) -> bool
        ensures { result ≡
            list_all (is_free_of (parts_of held.now) (joins_of joins.now) call) (open_keys self.now) }
    {
        match &self.tasks {
            Tasks::One { key, op } => op.is_none() || is_free_at(call, key, held, joins),
            Tasks::Many { ops, count: _ } => are_free(call, ops, held, joins),
        }
    }

    /// Whether an open key of the call waits for its processor.
    fn waits_for_process(&self, call: u64, held: &HeldKeys) -> bool
        ensures { result ≡ list_any (passes_in waits_for_process (parts_of held.now) call) (open_keys self.now) }
    {
        match &self.tasks {
            Tasks::One { key, op } => op.is_some() && waits_for_process(held, call, key),
            Tasks::Many { ops, count: _ } => one_waits(call, ops, held),
        }
    }

    /// Whether an open key of the call is among those for which the writer is asked at once.
    fn is_any_in(&self, call: u64, held: &HeldKeys, batch: WriterBatch) -> bool
        ensures { result ≡
            list_any (passes_in (is_in_batch batch) (parts_of held.now) call) (open_keys self.now) }
    {
        match &self.tasks {
            Tasks::One { key, op } => op.is_some() && is_being_written(held, call, key, batch),
            Tasks::Many { ops, count: _ } => one_asked(call, ops, held, batch),
        }
    }

    /// For which of its keys the call has the writer asked now. An `invokeAll` looks at all its open keys for that.
    fn writer_batch(&self, call: u64, held: &HeldKeys) -> WriterBatch
        ensures { result ≡ writer_batch (parts_of held.now) call self.now }
    {
        match self.kind {
            CallKind::Single | CallKind::Batch => WriterBatch::All,
            CallKind::InvokeAll => {
                if self.waits_for_process(call, held) {
                    WriterBatch::Nothing
                } else if self.is_any_in(call, held, WriterBatch::Writes) {
                    WriterBatch::Writes
                } else {
                    WriterBatch::All
                }
            }
        }
    }

    /// Whether the call has the writer asked for a key now.
    pub(crate) fn is_being_written(&self, call: u64, key: &Key, held: &HeldKeys) -> bool
        ensures { result ≡ is_asked_in (parts_of held.now) call self.now key.now }
    {
        is_being_written(held, call, key, self.writer_batch(call, held))
    }

    /// Whether the call has the writer asked for an open key now.
    pub(crate) fn may_report(&self, call: u64, held: &HeldKeys) -> bool
        ensures { result ≡ list_any (is_asked_in (parts_of held.now) call self.now) (open_keys self.now) }
    {
        self.is_any_in(call, held, self.writer_batch(call, held))
    }

    /// What a return of the writer shows: each key for which the call has the writer asked now, in the order of its keys. An `Err`
    /// says that an allocation failed.
    pub(crate) fn reported_keys(
        &self,
        alloc: Global,
        call: u64,
        held: &HeldKeys,
    ) -> Result<Vec<ReportedKey>, AllocError>
        ensures { IfOk result (λ reported.
            reported.items ≡ reported_keys (writer_batch (parts_of held.now) call self.now)
            (parts_of held.now) call (open_keys self.now)) }
    {
        let batch = self.writer_batch(call, held);
        let mut reported = Vec::new(alloc);
        match &self.tasks {
            Tasks::One { key, op } => {
                push_reported(&mut reported, call, key, op, held, batch)?;
            }
            Tasks::Many { ops, count: _ } => push_each(&mut reported, call, ops, held, batch)?,
        }
        Ok(reported)
    }

    /// Takes these keys, which are those of one of the stripes. An `Err` says that an allocation failed, and then nothing has
    /// changed.
    pub(crate) fn look(
        &mut self,
        stripes: usize,
        stripe: usize,
        keys: &[Key],
    ) -> Result<(), AllocError>
        requires { TakesKeys keys.now self.old }
        ensures ok { OnOk result ((sweep : SweepState) × (self.old.sweep ≡ Some sweep)
            × (self.new ≡ with_swept_keys stripes stripe keys.now sweep self.old)) }
        ensures err { OnErr result (self.new ≡ self.old) }
    {
        let Some(sweep) = &self.sweep else {
            unreachable!()
        };
        let next = sweep.next(stripes, stripe)?;
        take_keys(&mut self.tasks, keys, sweep.op())?;
        self.sweep = next;
        Ok(())
    }

    /// A key of the call has its reply or last refusal, and the call has met this fault or refusal by it, or none.
    pub(crate) fn settle(&mut self, key: &Key, met: Option<Refusal>)
        ensures { self.new ≡ settled key.now met self.old }
    {
        settle_at(&mut self.tasks, key);
        self.meet(met);
    }

    /// The call meets this fault or refusal, or none.
    pub(crate) fn meet(&mut self, met: Option<Refusal>)
        ensures { self.new ≡ with_met met self.old }
    {
        self.cause = self.kind.cause_after(self.cause, met);
    }

    /// That the call is over, if it has many keys and is.
    pub(crate) fn over(&self) -> Option<Over>
        ensures { result ≡ over_of self.now }
    {
        if self.is_going() || !self.kind.is_bulk() {
            return None;
        }
        Some(Over {
            call: self.caller.call,
            cause: self.cause,
        })
    }
}
