//! Where a session's script is saved.

/// A place where scripts are saved.
pub trait Save {
    ghost use Rattle.std.specs.Prelude.{◌∷◌, List, [], None, Option, Some, OnOk, IfErr};
    ghost use Rattle.jc_shell.specs.Saving.{Calls, SaveCall};

    /// The calls of `save`, in order, with the reason of each that was refused. `None` claims nothing, which is so for files.
    ghost calls: { Self → Option (List SaveCall) };

    /// Saves a script under a name, which needn't be a valid file name. An `Err` says why nothing was saved.
    fn save(&mut self, name: &[u8], script: &[u8]) -> Result<(), &'static str>
        ensures ok { OnOk result (Calls (calls self.old) (calls self.new) (record { name = name.now; script = script.now; refusal = None } ∷ [])) }
        ensures err { IfErr result (λ why. Calls (calls self.old) (calls self.new) (record { name = name.now; script = script.now; refusal = Some why.now } ∷ [])) };
}
