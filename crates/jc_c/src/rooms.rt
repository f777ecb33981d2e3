//! A desk with the buffers that its exports write into.
ghost use Rattle.std.specs.Prelude.{◌≡◌, ◌⊎◌, true, is_some, if◌then◌else◌};
ghost use Rattle.jc_model.specs.Group.{load_only, write_only};
ghost use Rattle.jc_stripe.specs.State.{is_of};
ghost use Rattle.jc_stripe.specs.DeskState.{may_call_next};
ghost use Rattle.jc_stripe.specs.DeskPhases.{hits_next, without_hit, takes_load, takes_write, takes_process, ticket_of, is_join_out};
ghost use Rattle.jc_c.specs.declared.codes.TheConstants.{JC_OK, JC_CODE_MISUSE, JC_CODE_NONE};
ghost use Rattle.jc_c.specs.Requests.{op_fits};
ghost use Rattle.jc_c.specs.Exports.{export_code, BeginsForC, CommitsForC, PicksUpForC, HitsForC, WithdrawsForC, InvalidatesForC, SweepsForC};

use crate::codes::{JC_CODE_BAD_ARGUMENT, JC_CODE_MISUSE, JC_CODE_NONE, JC_NEXT_DONE, JC_OK};
use crate::layouts::{InlineValue, PhaseOut};
use crate::replies::{
    show_asked, show_done, show_gone, show_picked, show_value, shut_number, sweep_number,
};
use crate::requests::write_op;
use jc_model::{LoadAnswer, Op, Out, Reply, WriteAnswer};
use jc_stripe::{Desk, ValueMoves};
use jc_types::{Caller, Key, Value};
use std::marker::Model;

/// A desk with buffers for the operation, the reply and the values of its calls. They are kept with it, so that no call makes and
/// clears one. A host sees the desk alone.
#[derive(Drop)]
pub(crate) struct DeskRooms {
    pub(crate) desk: Desk,
    pub(crate) op: Op,
    pub(crate) reply: Reply,
    pub(crate) moves: ValueMoves,
    pub(crate) value: Value,
}

impl Model for DeskRooms {
    ghost use Rattle.std.specs.Coded.{codes};
    ghost use Rattle.jc_model.specs.Cache.{cache_code};
    ghost use Rattle.jc_stripe.specs.DeskState.{DeskState};

    ghost Value = { DeskState };

    ghost coded = { Prim.hlevel (codes, cache_code) };

    ghost view = { λ r. r.desk };
}

impl DeskRooms {
    /// A desk with its buffers.
    pub(crate) fn of(desk: Desk) -> DeskRooms
        ensures { result ≡ desk }
    {
        DeskRooms {
            desk,
            op: Op::Get,
            reply: Reply::Unit,
            moves: ValueMoves::new(),
            value: Value::default(),
        }
    }

    /// The first phase of the session's next call, with its outcome written for C.
    #[inline(always)]
    pub(crate) fn begin(
        &mut self,
        session: u32,
        op: u32,
        key: &Key,
        value: &[u8],
        other: &[u8],
        out: &mut PhaseOut,
    ) -> u32
        ensures code { result ≡ export_code true (op_fits op value.now other.now) (may_call_next self.old session key.now) JC_CODE_MISUSE }
        ensures begins { result ≡ JC_OK → BeginsForC self.old session op key.now value.now other.now out.old out.new self.new }
        ensures refused { (result ≡ JC_OK) ⊎ (self.new ≡ self.old) }
        ensures untouched { (result ≡ JC_OK) ⊎ (result ≡ JC_CODE_MISUSE) ⊎ (out.new ≡ out.old) }
    {
        if !write_op(op, value, other, &mut self.op) {
            return JC_CODE_BAD_ARGUMENT;
        }
        let (call, asked) = self
            .desk
            .begin(session, key, &self.op, &mut self.reply, &mut self.moves);
        out.call = call;
        show_asked(&asked, self.desk.newest(), &self.reply, &self.moves, out)
    }

    /// A `get` that finds its entry, with its value written for C.
    #[inline(always)]
    pub(crate) fn hit(&mut self, session: u32, key: &Key, out: &mut InlineValue) -> u32
        ensures code { result ≡ (if hits_next self.old session key.now then JC_OK else JC_CODE_NONE) }
        ensures hit { result ≡ JC_OK → HitsForC self.old session key.now out.old out.new self.new }
        ensures none { (result ≡ JC_OK) ⊎ ((out.new ≡ out.old) × (self.new ≡ without_hit self.old session key.now)) }
    {
        let Some(_call) = self.desk.hit(session, key, &mut self.value) else {
            return JC_CODE_NONE;
        };
        show_value(&self.value, out);
        JC_OK
    }

    /// The last phase of a call whose loader was asked, with its outcome written for C.
    #[inline(always)]
    pub(crate) fn commit_load(&mut self, number: u64, answer: LoadAnswer, out: &mut PhaseOut) -> u32
        ensures code { result ≡ (if takes_load self.old.stripe number answer then JC_OK else JC_CODE_MISUSE) }
        ensures commits { result ≡ JC_OK → CommitsForC self.old number (load_only answer) out.old out.new self.new }
        ensures refused { (result ≡ JC_OK) ⊎ ((self.new ≡ self.old) × (out.new ≡ out.old)) }
    {
        let done = self
            .desk
            .commit_load(number, answer, &mut self.reply, &mut self.moves);
        let Some(done) = done else {
            return JC_CODE_MISUSE;
        };
        show_done(done.place, done.shared, &self.reply, &self.moves, out);
        JC_OK
    }

    /// The last phase of a call whose writer was asked, with its outcome written for C.
    #[inline(always)]
    pub(crate) fn commit_write(
        &mut self,
        number: u64,
        answer: WriteAnswer,
        out: &mut PhaseOut,
    ) -> u32
        ensures code { result ≡ (if takes_write self.old.stripe number answer then JC_OK else JC_CODE_MISUSE) }
        ensures commits { result ≡ JC_OK → CommitsForC self.old number (write_only answer) out.old out.new self.new }
        ensures refused { (result ≡ JC_OK) ⊎ ((self.new ≡ self.old) × (out.new ≡ out.old)) }
    {
        let done = self
            .desk
            .commit_write(number, answer, &mut self.reply, &mut self.moves);
        let Some(done) = done else {
            return JC_CODE_MISUSE;
        };
        show_done(done.place, done.shared, &self.reply, &self.moves, out);
        JC_OK
    }

    /// The last phase of a call whose processor ran, with its outcome written for C.
    #[inline(always)]
    pub(crate) fn commit_process(&mut self, number: u64, said: Out, out: &mut PhaseOut) -> u32
        ensures code { result ≡ (if takes_process self.old.stripe number said then JC_OK else JC_CODE_MISUSE) }
        ensures commits { result ≡ JC_OK → CommitsForC self.old number said out.old out.new self.new }
        ensures refused { (result ≡ JC_OK) ⊎ ((self.new ≡ self.old) × (out.new ≡ out.old)) }
    {
        let done = self.desk.commit_process(
            number,
            said.load,
            said.process,
            said.write,
            &mut self.reply,
            &mut self.moves,
        );
        let Some(done) = done else {
            return JC_CODE_MISUSE;
        };
        show_done(done.place, done.shared, &self.reply, &self.moves, out);
        JC_OK
    }

    /// A ticket is given back, with the values that went by it written for C.
    pub(crate) fn withdraw(&mut self, number: u64, out: &mut PhaseOut) -> u32
        ensures code { result ≡ (if is_some (ticket_of self.old.stripe number) then JC_OK else JC_CODE_MISUSE) }
        ensures withdraws { result ≡ JC_OK → WithdrawsForC self.old number out.old out.new self.new }
        ensures refused { (result ≡ JC_OK) ⊎ ((self.new ≡ self.old) × (out.new ≡ out.old)) }
    {
        if !self.desk.withdraw(number, &mut self.moves) {
            return JC_CODE_MISUSE;
        }
        show_gone(JC_NEXT_DONE, &self.moves, out);
        JC_OK
    }

    /// A key is invalidated, with the values that went by it written for C.
    pub(crate) fn invalidate(&mut self, key: &Key, out: &mut PhaseOut) -> u32
        ensures code { result ≡ (if is_of self.old.stripe key.now then JC_OK else JC_CODE_MISUSE) }
        ensures invalidates { result ≡ JC_OK → InvalidatesForC self.old key.now out.old out.new self.new }
        ensures refused { (result ≡ JC_OK) ⊎ ((self.new ≡ self.old) × (out.new ≡ out.old)) }
    {
        if !self.desk.invalidate(key, &mut self.moves) {
            return JC_CODE_MISUSE;
        }
        show_gone(shut_number(self.desk.is_shut()), &self.moves, out);
        JC_OK
    }

    /// A desk that is shut is swept, with the values that went by it written for C.
    pub(crate) fn sweep(&mut self, out: &mut PhaseOut)
        ensures { SweepsForC self.old out.old out.new self.new }
    {
        let answer = self.desk.sweep(&mut self.moves);
        show_gone(sweep_number(answer), &self.moves, out);
    }

    /// A joiner asks for its answer, which is written for C.
    #[inline(always)]
    pub(crate) fn pick_up(
        &mut self,
        caller: Caller,
        key: &Key,
        load: u64,
        out: &mut PhaseOut,
    ) -> u32
        ensures code { result ≡ (if is_join_out self.old.stripe (record { caller = caller; key = key.now; load = load }) then JC_OK else JC_CODE_MISUSE) }
        ensures picks_up { result ≡ JC_OK → PicksUpForC self.old (record { caller = caller; key = key.now; load = load }) out.old out.new self.new }
        ensures refused { (result ≡ JC_OK) ⊎ (self.new ≡ self.old) }
    {
        let picked = self.desk.pick_up(caller, key, load, &mut self.reply);
        show_picked(&picked, &self.reply, out)
    }
}
