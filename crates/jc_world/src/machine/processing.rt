//! The events of entry processors.
ghost use Rattle.std.specs.Prelude.{◌≡◌, true, Ok, Some, OnErr, OnOk};
ghost use Rattle.jc_model.specs.Table.{is_load_given};
ghost use Rattle.jc_world.specs.declared.event.WorldEvent.TheVariants as event;
ghost use Rattle.jc_world.specs.declared.event.Part.{Part};
ghost use Rattle.jc_world.specs.World.{has_progress, part_of, waits_for_process};
ghost use Rattle.jc_world.specs.Fits.{fits};
ghost use Rattle.jc_world.specs.Events.{after_process, run_result, shown_process, Happens};

use crate::event::{Outcome, Shown, show};
use crate::held_keys::process;
use crate::machine::Machine;
use crate::outside::is_honest_load;
use crate::process::{EntryCalls, LoadSource, ShownRun};
use crate::read_only::ReadOnlyList;
use crate::run::RunPlan;
use jc_model::LoadAnswer;
use jc_types::Key;
use std::alloc::AllocError;

impl Machine {
    /// The entry processor of a call runs on the entry of its key.
    #[inline(never)]
    pub(super) fn process(
        &mut self,
        call: u64,
        key: &Key,
        source: &LoadSource,
        calls: &EntryCalls,
        fail: Option<u32>,
        seen: &mut Shown,
    ) -> Result<(), AllocError>
        requires { fits self.old (event.Process call key.now source.now calls.now fail) ≡ true }
        ensures ok { OnOk result (
            Happens self.old (event.Process call key.now source.now calls.now fail) seen.new self.new) }
        ensures err { OnErr result (self.new ≡ self.old) }
    {
        let answer = source.answer(self.stored(key));
        let processed = self.run(call, key, answer, calls, fail)?;
        show(seen, Outcome::Processed(processed));
        Ok(())
    }

    /// The entry processor of a call runs. Its loader gives this answer if it is asked.
    fn run(
        &mut self,
        call: u64,
        key: &Key,
        answer: LoadAnswer,
        calls: &EntryCalls,
        fail: Option<u32>,
    ) -> Result<ShownRun, AllocError>
        requires waits { has_progress waits_for_process (part_of self.old call key.now) ≡ true }
        requires given { is_load_given answer ≡ true }
        ensures ok { OnOk result ((part : Part) × (part_of self.old call key.now ≡ Some part)
            × (result ≡ Ok (shown_process self.old.config part.reservation answer calls.now fail))
            × (self.new ≡ after_process self.old key.now part (run_result part.reservation answer calls.now fail))) }
        ensures err { OnErr result (self.new ≡ self.old) }
    {
        let calls = calls.as_slice();
        let mut answers = Vec::with_capacity(self.alloc, calls.len())?;
        let plan = RunPlan {
            load: answer,
            calls,
            fail,
        };
        // Copied first: see docs/CONTRIBUTING.md, "Idioms that the prover asks for".
        let stored = self.stored(key);
        let kept = stored;
        let ran = process(
            &mut self.held,
            &self.config,
            key,
            &plan,
            stored,
            &mut answers,
        );
        let honest = is_honest_load(ran.load, kept);
        self.premises.loaders &= honest;
        Ok(ShownRun {
            answers: ReadOnlyList::new(answers),
            load: ran.load,
            fault: fail,
            change: ran.change,
        })
    }
}
