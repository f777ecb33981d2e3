//! Laws of the script's language: a spelled line reads back.
ghost use Rattle.jc_text.specs.Spelled.{NumbersReadBack, CallersReadBack, KeysReadBack, ValuesReadBack, LinesReadBack};
ghost use Rattle.jc_text.specs.Spelled.{LinesAreSpelled};

/// A number, a session, a key and a value are read as what they are spelled as.
pub fn words_read_back()
    ensures numbers { NumbersReadBack }
    ensures callers { CallersReadBack }
    ensures keys { KeysReadBack }
    ensures values { ValuesReadBack }
{}

/// Each thing that a script can say is read from the line that says it, and from no other line.
pub fn lines_read_back()
    ensures back { LinesReadBack }
    ensures alone { LinesAreSpelled }
{}
