//! A session: the lines that were accepted so far, and the world that they have led to.
ghost use Rattle.std.specs.Prelude.{◌≡◌, ◌≢◌, ◌⊎◌, ◌++◌, ◌∷◌, ◌+◌, ◌≤◌, ◌<◌, [], List, ℕ, true, false, codes, drop, length, IfOk, MatchOption, OnOk, OnErr};
ghost use Rattle.jc_text.specs.Places.{complaint};
ghost use Rattle.jc_script.specs.Transcript.{opened_world};
ghost use Rattle.jc_shell.specs.Holding.{Holds};
ghost use Rattle.jc_shell.specs.Saving.{Calls, SaveCall, SavesNothing};
ghost use Rattle.jc_shell.specs.Sessions.{Accepted, AnswersLine, HasFaultNow, IsFront, IsLineAccepted, IsLineRejected, IsSaved, IsUndone, has_feed, next_line_number, nobody, script_of};
ghost use Rattle.jc_shell.specs.ShellWords.{not_saved_text, word_of};
ghost use Rattle.jc_shell.specs.declared.words.Word.TheVariants.{Quit};

use crate::save::Save;
use crate::words::{HELP, Word, line_help, name_in, word_of};
use jc_script::play::Player;
use jc_text::lines::first_line;
use jc_text::print::place::put_complaint;
use jc_text::{Fault, put};
use std::alloc::{AllocError, Global};
use std::mem;

/// A dialogue with a shell: a player, and the script of the lines that it has played.
pub struct Dialogue {
    player: Player,
    script: Vec<u8>,
    lines: u64,
    ghost counted: { lines ≤ length script.items },
}

impl Dialogue {
    /// Nothing was typed yet.
    pub fn new(alloc: Global) -> Dialogue
        ensures { Holds nobody result.script.items result.lines (opened_world result.player.world) }
    {
        Dialogue {
            player: Player::new(alloc),
            script: Vec::new(alloc),
            lines: 0,
        }
    }

    /// Appends the answer to a line to `out`. An `Err` says that an allocation failed: then nothing was saved, and the session
    /// may only be closed.
    #[tactic(auto, using(crate::proofs::Turns::saves_nothing))]
    pub fn answer<S: Save>(
        &mut self,
        alloc: Global,
        line: &[u8],
        saves: &mut S,
        out: &mut Vec<u8>,
    ) -> Result<(), AllocError>
        requires whole { has_feed line.now ≡ false }
        requires goes_on { word_of line.now ≢ Quit }
        ensures answered { OnOk result ((a : Accepted) → Holds a self.old.script.items self.old.lines (opened_world self.old.player.world)
            → (answer : List ℕ) × (calls : List SaveCall) × (b : Accepted)
            × Holds b self.new.script.items self.new.lines (opened_world self.new.player.world)
            × AnswersLine a line.now answer calls b
            × (out.new.items ≡ out.old.items ++ answer) × Calls (S.calls saves.old) (S.calls saves.new) calls) }
        ensures unsaved { OnErr result (SavesNothing (S.calls saves.old) (S.calls saves.new)) }
    {
        match word_of(line) {
            Word::Help => {
                put(out, HELP)?;
                Ok(())
            }
            Word::HelpOn => {
                put(out, line_help(name_in(line)))?;
                Ok(())
            }
            Word::Undo => {
                self.undo(alloc, out)?;
                Ok(())
            }
            Word::Save => save_as(name_in(line), &self.script, saves, out),
            Word::Quit => Ok(()),
            Word::Line => {
                self.play(alloc, line, out)?;
                Ok(())
            }
        }
    }

    /// Plays a line of the script. If it has a fault, the answer is what the run of the script with this line would tell.
    fn play(&mut self, alloc: Global, line: &[u8], out: &mut Vec<u8>) -> Result<(), AllocError>
        requires { has_feed line.now ≡ false }
        ensures { OnOk result ((a : Accepted) → Holds a self.old.script.items self.old.lines (opened_world self.old.player.world)
            → (answer : List ℕ) × (b : Accepted)
            × Holds b self.new.script.items self.new.lines (opened_world self.new.player.world)
            × (IsLineAccepted a line.now answer b ⊎ IsLineRejected a line.now answer b)
            × (out.new.items ≡ out.old.items ++ answer)) }
    {
        match self.accept(alloc, line, out)? {
            None => Ok(()),
            Some(fault) => {
                self.explain(alloc, line, fault, out)?;
                Ok(())
            }
        }
    }

    /// Plays a line, and keeps it. If it has a fault, nothing is done, and the fault is returned.
    fn accept(
        &mut self,
        alloc: Global,
        line: &[u8],
        out: &mut Vec<u8>,
    ) -> Result<Option<Fault>, AllocError>
        requires { has_feed line.now ≡ false }
        ensures { IfOk result (λ r. (a : Accepted) → Holds a self.old.script.items self.old.lines (opened_world self.old.player.world)
            → MatchOption r
            ((answer : List ℕ) × (b : Accepted)
            × Holds b self.new.script.items self.new.lines (opened_world self.new.player.world)
            × IsLineAccepted a line.now answer b × (out.new.items ≡ out.old.items ++ answer))
            (λ fault. Holds a self.new.script.items self.new.lines (opened_world self.new.player.world)
            × IsLineRejected a line.now (complaint (next_line_number a) line.now fault) a
            × (out.new.items ≡ out.old.items))) }
    {
        let mut words = Vec::new(alloc);
        match self.player.play(alloc, line, &mut words, out)? {
            None => {
                self.keep(line)?;
                Ok(None)
            }
            Some(fault) => Ok(Some(fault)),
        }
    }

    /// Plays the lines of a script but its last one, and keeps them. `false` says that one of them has a fault this time. Nothing was
    /// typed before.
    fn play_front(&mut self, alloc: Global, script: &[u8]) -> Result<bool, AllocError>
        requires { Holds nobody self.old.script.items self.old.lines (opened_world self.old.player.world) }
        ensures { (lines : List (List ℕ)) → script.now ≡ script_of lines → 0 < length script.now
            → IfOk result (λ whole. (b : Accepted) × Holds b self.new.script.items self.new.lines (opened_world self.new.player.world)
            × (whole ≡ true → IsFront b script.now) × (whole ≡ false → HasFaultNow script.now)) }
    {
        let mut shown = Vec::new(alloc);
        let mut rest = script;
        while let Some((line, after)) = first_line(rest) {
            if after.is_empty() {
                return Ok(true);
            }
            match self.accept(alloc, line, &mut shown)? {
                None => rest = after,
                Some(_) => return Ok(false),
            }
        }
        Ok(true)
    }

    /// Takes the last accepted line back. The lines before it are played anew; if one of them has a fault this time, all stays as it
    /// was.
    fn undo(&mut self, alloc: Global, out: &mut Vec<u8>) -> Result<(), AllocError>
        ensures { OnOk result ((a : Accepted) → Holds a self.old.script.items self.old.lines (opened_world self.old.player.world)
            → (answer : List ℕ) × (b : Accepted)
            × Holds b self.new.script.items self.new.lines (opened_world self.new.player.world)
            × IsUndone a answer b × (out.new.items ≡ out.old.items ++ answer)) }
    {
        if self.lines == 0 {
            put(out, "nothing to undo\n")?;
            return Ok(());
        }
        let mut fresh = Dialogue::new(alloc);
        match fresh.play_front(alloc, &self.script) {
            Ok(true) => {
                let answered = put_undone(out, &self.script, fresh.script.len());
                let former = mem::replace(self, fresh);
                former.close();
                answered
            }
            Ok(false) => {
                fresh.close();
                put(
                    out,
                    "not undone: a line before it has a fault this time, since memory was short\n",
                )
            }
            Err(error) => {
                fresh.close();
                Err(error)
            }
        }
    }

    /// Keeps a line that was played.
    fn keep(&mut self, line: &[u8]) -> Result<(), AllocError>
        ensures script { OnOk result (self.new.script.items ≡ self.old.script.items ++ (line.now ++ 10 ∷ [])) }
        ensures lines { OnOk result (self.new.lines ≡ self.old.lines + 1) }
        ensures world { opened_world self.new.player.world ≡ opened_world self.old.player.world }
    {
        self.script.extend_from_slice(line)?;
        self.script.push(b'\n')?;
        self.lines += 1;
        Ok(())
    }

    /// Appends what the run of the script with this line would say of its fault.
    pub fn explain(
        &self,
        alloc: Global,
        line: &[u8],
        fault: Fault,
        out: &mut Vec<u8>,
    ) -> Result<(), AllocError>
        ensures { OnOk result (out.new.items ≡ out.old.items ++ complaint (self.now.lines + 1) line.now fault) }
    {
        put_complaint(alloc, out, self.lines + 1, line, fault)
    }

    /// Ends the world, if one was opened.
    pub fn close(self) {
        let Dialogue {
            player,
            script: _script,
            lines: _lines,
        } = self;
        player.close();
    }
}

/// Appends that the line at this place of a script, its last, was taken back.
fn put_undone(out: &mut Vec<u8>, script: &[u8], at: usize) -> Result<(), AllocError>
    ensures { OnOk result (out.new.items ≡ out.old.items ++ (codes "undone " ++ drop at script.now)) }
{
    put(out, "undone ")?;
    if script.len() < at {
        return Ok(());
    }
    out.extend_from_slice(&script[at..])?;
    Ok(())
}

/// Saves a script under a name, and answers that it was saved, or why not. After an `Err` nothing was saved.
#[tactic(auto, using(crate::proofs::Turns::saves_nothing))]
fn save_as<S: Save>(
    name: &[u8],
    script: &[u8],
    saves: &mut S,
    out: &mut Vec<u8>,
) -> Result<(), AllocError>
    ensures ok { OnOk result ((answer : List ℕ) × (calls : List SaveCall) × IsSaved script.now name.now answer calls
        × (out.new.items ≡ out.old.items ++ answer) × Calls (S.calls saves.old) (S.calls saves.new) calls) }
    ensures unsaved { OnErr result (SavesNothing (S.calls saves.old) (S.calls saves.new)) }
{
    let before = out.len();
    put(out, "saved ")?;
    out.extend_from_slice(name)?;
    put(out, "\n")?;
    match saves.save(name, script) {
        Ok(()) => Ok(()),
        Err(why) => {
            out.truncate(before);
            put_not_saved(out, name, why)?;
            Ok(())
        }
    }
}

/// Appends the reason why nothing was saved.
fn put_not_saved(out: &mut Vec<u8>, name: &[u8], why: &str) -> Result<(), AllocError>
    ensures { OnOk result (out.new.items ≡ out.old.items ++ not_saved_text name.now why.now) }
{
    put(out, "not saved ")?;
    out.extend_from_slice(name)?;
    put(out, ": ")?;
    put(out, why)?;
    put(out, "\n")
}
