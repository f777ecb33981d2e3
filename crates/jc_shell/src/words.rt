//! The shell's own words.
ghost use Rattle.std.specs.Prelude.{◌≡◌};
ghost use Rattle.jc_shell.specs.ShellWords.{act_help, line_help, name_in, word_of};

use jc_text::read::words::is;

/// The word of the shell that a line is.
#[derive(Clone, Copy, Debug, PartialEq, Eq)]
pub enum Word {
    /// `help`: list the lines.
    Help,
    /// `help` with a name: say what such a line is.
    HelpOn,
    /// `quit` or `exit`: end the session.
    Quit,
    /// `undo`: take the last accepted line back.
    Undo,
    /// `save`: save the script of the accepted lines.
    Save,
    /// None: it is a line of a script.
    Line,
}

/// The text before the name under which a script is saved, and before that of a line.
const SAVE: &str = "save ";

const HELP_ON: &str = "help ";

/// The answer to `help`.
pub const HELP: &str = "\
A line of a script is answered by what it prints. A line with a fault does nothing.
  open reopen set begin more read readfail say apply applyfail applylie process end drop take foreign invalidate audit untold
Beside these:
  help       says this
  help NAME  says what a line NAME is; docs/SCRIPT.md says all of it
  save FILE  writes the accepted lines to a file: a script
  undo       takes the last accepted line back
  quit       ends the session, as exit and the end of the input do
";

/// The word that a line is.
pub fn word_of(line: &[u8]) -> Word
    ensures { result ≡ word_of line.now }
{
    if is(line, "help") {
        return Word::Help;
    }
    if is(line, "quit") || is(line, "exit") {
        return Word::Quit;
    }
    if is(line, "undo") {
        return Word::Undo;
    }
    if SAVE.len() <= line.len() && is(&line[..SAVE.len()], SAVE) {
        return Word::Save;
    }
    if HELP_ON.len() <= line.len() && is(&line[..HELP_ON.len()], HELP_ON) {
        return Word::HelpOn;
    }
    Word::Line
}

/// The name in a line that asks to save, or what a line is.
pub fn name_in(line: &[u8]) -> &[u8]
    ensures { result.now ≡ name_in line.now }
{
    if line.len() < SAVE.len() {
        return &[];
    }
    &line[SAVE.len()..]
}

/// What a line of a call under way is, by its first word; or that there is none.
fn act_help(name: &[u8]) -> &'static str
    ensures { result.now ≡ act_help name.now }
{
    match name {
        _ if is(name, "read") => "read N: the loader of call N reads the store\n",
        _ if is(name, "readfail") => "readfail N C: the loader of call N fails with code C\n",
        _ if is(name, "say") => {
            "say N [K=V ..]: the loader of call N answers this, whatever the store has\n"
        }
        _ if is(name, "apply") => {
            "apply N [but K ..]: the writer of call N changes the store as it was asked, but at these keys, and returns\n"
        }
        _ if is(name, "applyfail") => {
            "applyfail N C [but [K ..]]: the writer of call N fails with code C, having changed nothing; with but, all other keys\n"
        }
        _ if is(name, "applylie") => {
            "applylie N C: the writer of call N changes the store, and then says that it failed with code C\n"
        }
        _ if is(name, "process") => {
            "process N [loadfail=C or loadsay=V or loadsay=-] [CALL ..] [fail=C]: the entry processor of call N runs. CALL is get, exists, remove or set=V\n"
        }
        _ if is(name, "end") => "end N: call N commits each key that it has reserved\n",
        _ if is(name, "drop") => "drop N: call N gives up\n",
        _ if is(name, "take") => {
            "take N: call N asks for the answer of each load that it has joined\n"
        }
        _ if is(name, "audit") => {
            "audit: what is cached, what the store has, whether they agree, and the history\n"
        }
        _ if is(name, "untold") => {
            "untold: the keys at which the store may have another value than the cache\n"
        }
        _ => "there is no such line; help lists them\n",
    }
}

/// What a line of a script is, by its first word; or that there is none.
pub fn line_help(name: &[u8]) -> &'static str
    ensures { result.now ≡ line_help name.now }
{
    match name {
        _ if is(name, "open") => {
            "open S C H [read] [write]: opens a cache of S stripes, each with C entries and H events\n"
        }
        _ if is(name, "reopen") => {
            "reopen S C H [read] [write]: closes the cache and opens it again, if no call is under way\n"
        }
        _ if is(name, "set") => "set K V: the store has V at K before anything happens\n",
        _ if is(name, "begin") => {
            "begin N WHO OP ..: call N of session WHO (s1 to s32) begins. OP is get K, contains K, put K V, getput K V, putif K V, remove K, removeif K V, getremove K, forget K, replace K V, replaceif K V V, getreplace K V, invoke K, getall K .., putall K=V .., removeall K .., removeevery, clear, loadall keep K .., loadall replace K .. or invokeall K ..\n"
        }
        _ if is(name, "more") => {
            "more N: call N makes the first phase again of each key that was put off or told to retry\n"
        }
        _ if is(name, "foreign") => {
            "foreign K V, foreign K -: another program writes V in the store, or deletes K there\n"
        }
        _ if is(name, "invalidate") => {
            "invalidate K: the cache forgets K, at once or at the end of the call that has reserved it\n"
        }
        _ => act_help(name),
    }
}
