//! The events of loaders, writers and other programs.
ghost use Rattle.std.specs.Prelude.{◌≡◌, true, false, Ok, OnOk, OnErr, Option, None, Some, option_map};
ghost use Rattle.jc_model.specs.Table.{is_load_given, is_write_given};
ghost use Rattle.jc_types.specs.declared.refusal.Refusal.TheVariants.{WriterFailed};
ghost use Rattle.jc_world.specs.declared.event.WorldEvent.TheVariants as event;
ghost use Rattle.jc_world.specs.declared.event.Part.{Part};
ghost use Rattle.jc_world.specs.World.{has_progress, part_of, waits_for_load, waits_for_report};
ghost use Rattle.jc_world.specs.Premises.{report_for};
ghost use Rattle.jc_world.specs.Fits.{fits, waits_at};
ghost use Rattle.jc_world.specs.Events.{after_answer, after_report, reported_at, after_reports, keys_reported, Happens};

use crate::calls::{find_call, meet};
use crate::command::CallKind;
use crate::event::{Outcome, Shown, show};
use crate::foreign::{forget, write_foreign};
use crate::held_keys::{change, loader_answers, report, waits_for_report};
use crate::machine::Machine;
use crate::outside::{answer_of, is_honest_load, is_honest_report};
use crate::read_only::ReadOnlyList;
use crate::reports::{LeftKeys, Reported, ReportedKey, report_for};
use jc_model::{LoadAnswer, WriteAnswer};
use jc_types::{Key, Refusal, Value};
use std::alloc::AllocError;

impl Machine {
    /// The loader answers.
    fn loader_answers(&mut self, call: u64, key: &Key, answer: LoadAnswer)
        requires waits { has_progress waits_for_load (part_of self.old call key.now) ≡ true }
        requires given { is_load_given answer ≡ true }
        ensures { (part : Part) × (part_of self.old call key.now ≡ Some part)
            × (self.new ≡ after_answer self.old key.now part answer) }
    {
        // Copied first: see docs/CONTRIBUTING.md, "Idioms that the prover asks for".
        let kept = answer;
        let honest = is_honest_load(answer, self.stored(key));
        loader_answers(&mut self.held, key, kept, honest);
        self.premises.loaders &= honest;
    }

    /// The loader reads the store, and returns what it has.
    #[inline(never)]
    pub(super) fn read(&mut self, call: u64, key: &Key, seen: &mut Shown)
        requires { fits self.old (event.Read call key.now) ≡ true }
        ensures { Happens self.old (event.Read call key.now) seen.new self.new }
    {
        let answer = answer_of(self.stored(key));
        // Copied first: see docs/CONTRIBUTING.md, "Idioms that the prover asks for".
        let kept = answer;
        self.loader_answers(call, key, answer);
        show(seen, Outcome::Reads(kept));
    }

    /// The loader answers this, whatever the store holds.
    #[inline(never)]
    pub(super) fn say(&mut self, call: u64, key: &Key, answer: &LoadAnswer, seen: &mut Shown)
        requires { fits self.old (event.Say call key.now answer.now) ≡ true }
        ensures { Happens self.old (event.Say call key.now answer.now) seen.new self.new }
    {
        // Copied first: see docs/CONTRIBUTING.md, "Idioms that the prover asks for".
        let (said, kept) = (*answer, *answer);
        self.loader_answers(call, key, said);
        show(seen, Outcome::Says(kept));
    }

    /// The writer changes the store.
    #[inline(never)]
    pub(super) fn change(
        &mut self,
        call: u64,
        key: &Key,
        seen: &mut Shown,
    ) -> Result<(), AllocError>
        requires { fits self.old (event.Change call key.now) ≡ true }
        ensures ok { OnOk result (Happens self.old (event.Change call key.now) seen.new self.new) }
        ensures err { OnErr result (self.new ≡ self.old) }
    {
        change(&mut self.held, &mut self.store, key)?;
        forget(&mut self.foreign, key, true);
        show(seen, Outcome::Changed);
        Ok(())
    }

    /// The writer returns with this for a key.
    fn report(&mut self, call: u64, key: &Key, answer: WriteAnswer)
        requires waits { waits_at self.old call key.now ≡ true }
        requires given { is_write_given answer ≡ true }
        ensures { (part : Part) × (part_of self.old call key.now ≡ Some part)
            × (self.new ≡ after_report self.old key.now part answer) }
    {
        // Copied first: see docs/CONTRIBUTING.md, "Idioms that the prover asks for".
        let kept = answer;
        let is_changed = report(&mut self.held, key, answer);
        let honest = is_honest_report(&kept, is_changed);
        self.premises.writers &= honest;
    }

    /// The same, if the writer was asked for the key and hasn't returned.
    fn report_at(&mut self, call: u64, key: &Key, answer: WriteAnswer)
        requires { is_write_given answer ≡ true }
        ensures { self.new ≡ reported_at self.old key.now answer (part_of self.old call key.now) }
    {
        if waits_for_report(&self.held, call, key) {
            self.report(call, key, answer);
        }
    }

    /// The writer of a call returns for each of these keys.
    fn report_each(
        &mut self,
        call: u64,
        kind: CallKind,
        left: &LeftKeys,
        fault: Option<u32>,
        reported: &[ReportedKey],
    )
        ensures { self.new ≡
            after_reports self.old call (report_for kind left.now fault) (keys_reported reported.now) }
    {
        for one in reported {
            self.report_at(call, &one.key, report_for(kind, left, fault, &one.key));
        }
    }

    /// The writer of a call returns, for all keys that it is asked for now.
    #[inline(never)]
    pub(super) fn writer_returns(
        &mut self,
        call: u64,
        left: &LeftKeys,
        fault: Option<u32>,
        seen: &mut Shown,
    ) -> Result<(), AllocError>
        requires { fits self.old (event.Report call left.now fault) ≡ true }
        ensures ok { OnOk result (
            Happens self.old (event.Report call left.now fault) seen.new self.new) }
        ensures err { OnErr result (self.new ≡ self.old) }
    {
        let Some(u) = find_call(&self.calls, call) else {
            unreachable!()
        };
        let kind = u.kind();
        let reported = u.reported_keys(self.alloc, call, &self.held)?;
        meet(&mut self.calls, call, fault_of(fault));
        self.report_each(call, kind, left, fault, &reported);
        let keys = ReadOnlyList::new(reported);
        show(seen, Outcome::Reported(Reported { keys, fault }));
        Ok(())
    }

    /// Somebody else changes the store.
    #[inline(never)]
    pub(super) fn foreign_write(
        &mut self,
        key: &Key,
        value: &Option<Value>,
        seen: &mut Shown,
    ) -> Result<(), AllocError>
        ensures ok { OnOk result (Happens self.old (event.Foreign key.now value.now) seen.new self.new) }
        ensures err { OnErr result (self.new ≡ self.old) }
    {
        write_foreign(&mut self.store, &mut self.foreign, key, value)?;
        self.is_fresh = false;
        show(seen, Outcome::Written);
        Ok(())
    }
}

/// The fault that a call meets if the writer failed.
fn fault_of(fault: Option<u32>) -> Option<Refusal>
    ensures { result ≡ option_map WriterFailed fault }
{
    match fault {
        Some(code) => Some(Refusal::WriterFailed(code)),
        None => None,
    }
}
