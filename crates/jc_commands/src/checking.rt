//! What a check of a record is asked for.
ghost use Rattle.std.specs.Prelude.{◌≡◌, option_map};
ghost use Rattle.jc_commands.specs.CommandLine.{choice_of, is_wrong, is_wrong_choice};

/// The most states that a command line may ask for at one key.
pub const KEY_STATES_MAX: u32 = 5_000_000;

/// The number of states at one key if the command line has none.
pub const KEY_STATES_DEFAULT: u32 = 500_000;

/// One of two words.
#[derive(Clone, Copy, Debug, PartialEq, Eq)]
pub enum Choice {
    /// The first, or no word.
    First,
    /// The second.
    Second,
    /// Another word.
    Wrong,
}

/// What a check of a record is asked for.
#[derive(Clone, Copy, Debug, PartialEq, Eq)]
pub struct CheckPlan {
    /// The rules: `store`, or `table`.
    pub rules: Choice,
    /// The order that counts: `real`, or `program`.
    pub order: Choice,
    /// Whether entries may vanish: `free`, or `never`.
    pub evict: Choice,
    /// Whether the order that explains a key is told: `no`, or `yes`.
    pub witness: Choice,
    /// The most states that are met at one key.
    pub states: u32,
}

/// The choice of a word, if it is given.
pub(crate) fn choice_of(first: &str, second: &str, word: Option<&str>) -> Choice
    ensures { result ≡ choice_of first.now second.now (option_map (λ w. w.now) word.entry) }
{
    match word {
        None => Choice::First,
        Some(word) if word == first => Choice::First,
        Some(word) if word == second => Choice::Second,
        Some(_) => Choice::Wrong,
    }
}

impl Choice {
    fn is_wrong(self) -> bool
        ensures { result ≡ is_wrong_choice self }
    {
        matches!(self, Choice::Wrong)
    }
}

impl CheckPlan {
    /// Whether a word is none of those that there are.
    pub fn is_wrong(&self) -> bool
        ensures { result ≡ is_wrong self.now }
    {
        self.rules.is_wrong()
            || self.order.is_wrong()
            || self.evict.is_wrong()
            || self.witness.is_wrong()
    }
}
