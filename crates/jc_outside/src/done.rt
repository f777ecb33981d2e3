//! The answers of loaders and writers, and where they come from.
//!
//! A done value stands for the ask that it answers, and its type names the type of that ask. The ask is spent when the done value
//! is made: only clauses see it from then on, so a done value has the size of its answer. It can be neither dropped nor copied:
//! the commit that ends the ask's reservation spends it.
ghost use Rattle.std.specs.Prelude.{◌≡◌, true};
ghost use Rattle.jc_model.specs.Table.{is_load_given, is_write_given};
ghost use Rattle.jc_outside.specs.declared.done.Origin.TheVariants.{Played};

use crate::ask::{Ask, AskWrite};
use jc_model::{LoadAnswer, WriteAnswer};
use std::marker::Model;
use std::snapshot::Snapshot;

/// The origin of a stripe, and of the outside answers for it.
#[derive(Clone, Copy, Debug, PartialEq, Eq)]
pub enum Origin {
    /// A running cache, which asks real loaders and writers.
    Live,
    /// A script or a test, which states the answers.
    Played,
}

/// The answer of a loader to one ask: a value, nothing, or a failure.
pub struct LoadDone<A> {
    ask: Snapshot<A>,
    origin: Origin,
    answer: LoadAnswer,
}

impl<A> Model for LoadDone<A> {
    ghost use Rattle.std.specs.Prelude.{◌≡◌, true};
    ghost use Rattle.jc_model.specs.Table.{is_load_given};
    ghost use Rattle.jc_outside.specs.Done.{LoadResult};

    ghost Value = { LoadResult A };

    ghost view = { λ d. record { ask = d.ask.value; origin = d.origin; answer = d.answer } };

    ghost invariant = { λ d. is_load_given d.answer ≡ true };
}

impl<A: Ask> LoadDone<A> {
    /// The answer. The done value is spent.
    pub fn into_answer(self) -> LoadAnswer
        ensures answer { result ≡ self.answer }
        ensures given { is_load_given self.answer ≡ true }
    {
        let LoadDone {
            ask: _,
            origin: _,
            answer,
        } = self;
        answer
    }

    /// The done value of an ask, which is spent.
    pub(crate) fn new(ask: A, origin: Origin, answer: LoadAnswer) -> Self
        requires { is_load_given answer ≡ true }
        ensures { result ≡ record { ask = ask; origin = origin; answer = answer } }
    {
        let answered = Snapshot::of(&ask);
        ask.spend();
        LoadDone {
            ask: answered,
            origin,
            answer,
        }
    }
}

/// The report of a writer on one ask: success or a failure.
pub struct WriteDone<A> {
    ask: Snapshot<A>,
    origin: Origin,
    answer: WriteAnswer,
}

impl<A> Model for WriteDone<A> {
    ghost use Rattle.std.specs.Prelude.{◌≡◌, true};
    ghost use Rattle.jc_model.specs.Table.{is_write_given};
    ghost use Rattle.jc_outside.specs.Done.{WriteResult};

    ghost Value = { WriteResult A };

    ghost view = { λ d. record { ask = d.ask.value; origin = d.origin; answer = d.answer } };

    ghost invariant = { λ d. is_write_given d.answer ≡ true };
}

impl<A: AskWrite> WriteDone<A> {
    /// The report. The done value is spent.
    pub fn into_answer(self) -> WriteAnswer
        ensures answer { result ≡ self.answer }
        ensures given { is_write_given self.answer ≡ true }
    {
        let WriteDone {
            ask: _,
            origin: _,
            answer,
        } = self;
        answer
    }

    /// The done value of an ask, which is spent.
    pub(crate) fn new(ask: A, origin: Origin, answer: WriteAnswer) -> Self
        requires { is_write_given answer ≡ true }
        ensures { result ≡ record { ask = ask; origin = origin; answer = answer } }
    {
        let answered = Snapshot::of(&ask);
        ask.spend();
        WriteDone {
            ask: answered,
            origin,
            answer,
        }
    }
}

/// A played answer of a loader, which a script or a test states.
///
/// Condition: the answer isn't `NotAsked`.
pub fn played_load<A: Ask>(ask: A, answer: LoadAnswer) -> LoadDone<A>
    requires { is_load_given answer ≡ true }
    ensures { result ≡ record { ask = ask; origin = Played; answer = answer } }
{
    LoadDone::new(ask, Origin::Played, answer)
}

/// A played report of a writer, which a script or a test states.
///
/// Condition: the answer isn't `NotAsked`.
pub fn played_write<A: AskWrite>(ask: A, answer: WriteAnswer) -> WriteDone<A>
    requires { is_write_given answer ≡ true }
    ensures { result ≡ record { ask = ask; origin = Played; answer = answer } }
{
    WriteDone::new(ask, Origin::Played, answer)
}
