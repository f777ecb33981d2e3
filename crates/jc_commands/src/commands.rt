//! The command line.
ghost use Rattle.std.specs.Prelude.{◌≡◌, map, string_bytes, IfOk, IfErr, false, pos};
ghost use Rattle.clap.specs.declared.builder.value_parser.ValueParser.TheVariants.{Signed};
ghost use Rattle.clap.specs.Walk.{one_of};
ghost use Rattle.clap.specs.declared.builder.command.Command.TheViews.{out-Command};
ghost use Rattle.clap.specs.Words.{FailsBy, app_of, first_of, found_of, kind_of, rows_of, rule_of, subcommand_rows_of};
ghost use Rattle.jc_commands.specs.CommandLine.{program, player, player_of_threads, check, choice_of, judging, explore, threads, option_rule, faults_at, subcommand_at, IsAsked, IsCheckPlan, SpellsOr, SpellsIf};
ghost use Rattle.jc_commands.specs.CommandLine.{CheckIsRight, RunIsRight, ShellIsRight, ExploreIsRight, ThreadsIsRight, OptionMissingIsWrong, NumberIsWrong, NoWordIsWrong, UnknownWordIsWrong};
ghost use Rattle.jc_commands.specs.CommandLine.{WordTooManyIsWrong, FlagIsWrong, HelpIsShown, HelpWordIsShownOrWrong};
ghost use Rattle.jc_commands.specs.CommandLine.{VersionIsShown};

use crate::budget::{STATES_DEFAULT, STATES_MAX};
use crate::checking::{CheckPlan, Choice, KEY_STATES_DEFAULT, KEY_STATES_MAX, choice_of};
use crate::plan::{EVENTS_MAX, EVENTS_MIN, Plan, ROUNDS_MAX, WORKERS_MAX};
use clap::builder::ValueParser;
use clap::error::ErrorKind;
use clap::{Arg, ArgMatches, Command, Error};
use std::alloc::Global;

/// The task of a command line.
#[derive(Clone, Copy)]
pub enum Task {
    /// Play the script on standard input.
    Run,
    /// Answer each line of a script on standard input.
    Shell,
    /// Look for each outcome of the program of threads on standard input.
    Explore {
        /// The most states that are followed.
        states: u32,
    },
    /// Count on threads.
    Threads(Plan),
    /// Judge the record of calls on standard input.
    Check(CheckPlan),
}

/// The numbers from one to another.
fn between<'a>(least: u32, most: u32) -> ValueParser<'a>
    ensures { result ≡ Signed (pos least) (pos most) }
{
    ValueParser::Signed(i64::from(least), i64::from(most))
}

/// An option with a number, which is required or not.
fn number_option<'a>(
    alloc: Global,
    name: &'a str,
    parser: ValueParser<'a>,
    required: bool,
    help: &'a str,
) -> Arg<'a>
    ensures rule { rule_of result ≡ option_rule name.now parser.entry required }
    ensures local { result.global ≡ false }
{
    Arg::new(alloc, name)
        .long(name)
        .value_name("NUMBER")
        .help(help)
        .required(required)
        .value_parser(parser)
}

fn explore_command<'a>(alloc: Global) -> Result<Command<'a>, Error>
    ensures made { IfOk result (λ c. app_of c ≡ explore) }
    ensures local { IfOk result (λ c. (out-Command c).has_globals ≡ false) }
    ensures memory { IfErr result (λ e. kind_of e ≡ ErrorKind.OutOfMemory) }
{
    let states = number_option(
        alloc,
        "states",
        between(1, STATES_MAX),
        false,
        "How many states are followed at most, 1 to 1000000; by default 200000",
    );
    Ok(
        Command::new(alloc, "explore")
            .about(
                "Explores the program of threads on standard input, and writes each outcome that it can have to standard output",
            )
            .arg(states)?,
    )
}

fn threads_command<'a>(alloc: Global) -> Result<Command<'a>, Error>
    ensures made { IfOk result (λ c. app_of c ≡ threads) }
    ensures local { IfOk result (λ c. (out-Command c).has_globals ≡ false) }
    ensures memory { IfErr result (λ e. kind_of e ≡ ErrorKind.OutOfMemory) }
{
    let workers = number_option(
        alloc,
        "workers",
        between(1, WORKERS_MAX),
        true,
        "How many threads count: 1 to 31",
    );
    let rounds = number_option(
        alloc,
        "rounds",
        between(1, ROUNDS_MAX),
        true,
        "How often each of them counts: 1 to 10000; without --history all together at most 60000 times",
    );
    let history = number_option(
        alloc,
        "history",
        between(EVENTS_MIN, EVENTS_MAX),
        false,
        "How many events the history has room for, 16 to 65536, of a cache that lives on",
    );
    Ok(
        Command::new(alloc, "threads")
            .about(
                "Counts on threads that share a cache, and writes what they counted to standard output",
            )
            .arg(workers)?
            .arg(rounds)?
            .arg(history)?,
    )
}

/// An option with a word.
fn word_option<'a>(alloc: Global, name: &'a str, help: &'a str) -> Arg<'a>
    ensures rule { rule_of result ≡ option_rule name.now ValueParser.String false }
    ensures local { result.global ≡ false }
{
    Arg::new(alloc, name)
        .long(name)
        .value_name("WORD")
        .help(help)
        .required(false)
        .value_parser(ValueParser::String)
}

/// The command of the subcommand `check` with the options that take a word.
fn judging_command<'a>(alloc: Global) -> Result<Command<'a>, Error>
    ensures made { IfOk result (λ c. app_of c ≡ judging) }
    ensures local { IfOk result (λ c. (out-Command c).has_globals ≡ false) }
    ensures memory { IfErr result (λ e. kind_of e ≡ ErrorKind.OutOfMemory) }
{
    let rules = word_option(
        alloc,
        "rules",
        "store: cache and store are judged as one; table: a loader may answer anything; by default store",
    );
    let order = word_option(
        alloc,
        "order",
        "real: a call that ended before another one began comes first; program: only the order of each thread counts; by default real",
    );
    let evict = word_option(
        alloc,
        "evict",
        "free: an entry may vanish at any time; never: it doesn't; by default free",
    );
    Ok(
        Command::new(alloc, "check")
            .about(
                "Judges whether a cache may have behaved as the record of calls on standard input says, and writes the verdict on each key to standard output",
            )
            .arg(rules)?
            .arg(order)?
            .arg(evict)?,
    )
}

fn check_command<'a>(alloc: Global) -> Result<Command<'a>, Error>
    ensures made { IfOk result (λ c. app_of c ≡ check) }
    ensures local { IfOk result (λ c. (out-Command c).has_globals ≡ false) }
    ensures memory { IfErr result (λ e. kind_of e ≡ ErrorKind.OutOfMemory) }
{
    let states = number_option(
        alloc,
        "states",
        between(1, KEY_STATES_MAX),
        false,
        "How many states are met at most at one key, 1 to 5000000; by default 500000",
    );
    let witness = word_option(
        alloc,
        "witness",
        "yes: the order that explains a key is told, a line for each turn; no: it isn't; by default no",
    );
    Ok(judging_command(alloc)?.arg(witness)?.arg(states)?)
}

/// The program's command with the subcommands `run` and `shell`.
fn player_command<'a>(alloc: Global) -> Result<Command<'a>, Error>
    ensures made { IfOk result (λ c. app_of c ≡ player) }
    ensures local { IfOk result (λ c. (out-Command c).has_globals ≡ false) }
    ensures memory { IfErr result (λ e. kind_of e ≡ ErrorKind.OutOfMemory) }
{
    let run = Command::new(alloc, "run").about(
        "Plays the script on standard input, and writes its transcript to standard output",
    );
    let shell = Command::new(alloc, "shell").about("Answers each line of a script as it is typed");
    Ok(
        Command::new(alloc, "jcache")
            .about("A read-through and write-through cache whose consistency rules are proved")
            .version("0.2.0")
            .subcommand_required(true)
            .subcommand(run)?
            .subcommand(shell)?,
    )
}

/// The program's command without the subcommand `check`.
fn player_of_threads_command<'a>(alloc: Global) -> Result<Command<'a>, Error>
    ensures made { IfOk result (λ c. app_of c ≡ player_of_threads) }
    ensures local { IfOk result (λ c. (out-Command c).has_globals ≡ false) }
    ensures memory { IfErr result (λ e. kind_of e ≡ ErrorKind.OutOfMemory) }
{
    let player = player_command(alloc)?;
    Ok(
        player
            .subcommand(explore_command(alloc)?)?
            .subcommand(threads_command(alloc)?)?,
    )
}

fn command<'a>(alloc: Global) -> Result<Command<'a>, Error>
    ensures made { IfOk result (λ c. app_of c ≡ program) }
    ensures memory { IfErr result (λ e. kind_of e ≡ ErrorKind.OutOfMemory) }
{
    let player = player_of_threads_command(alloc)?;
    Ok(player.subcommand(check_command(alloc)?)?)
}

/// The task of these words, of which the first is the program's name. The error has the text to show, also for `--help` and
/// `--version`.
pub fn read_task(alloc: Global, words: &[String]) -> Result<Task, Error>
    // Right words give a task, unless an allocation fails. Other words give an error of one of their kinds.
    ensures kinds { FailsBy (faults_at (map string_bytes words.now)) result }
    ensures asked { IfOk result (λ task. IsAsked (subcommand_at (map string_bytes words.now)) task) }
{
    let program = command(alloc)?;
    match program.try_get_matches_from(words) {
        Ok(matches) => Ok(task_in(&matches)),
        Err(error) => Err(error),
    }
}

/// The task of these matches.
fn task_in(matches: &ArgMatches) -> Task
    ensures { IsAsked (subcommand_rows_of matches.now) result }
{
    if let Some(options) = matches.subcommand_matches("threads") {
        return Task::Threads(Plan {
            workers: number_or(options, "workers", 0),
            rounds: number_or(options, "rounds", 0),
            history: number_if(options, "history"),
        });
    }
    if let Some(options) = matches.subcommand_matches("explore") {
        return Task::Explore {
            states: number_or(options, "states", STATES_DEFAULT),
        };
    }
    if let Some(options) = matches.subcommand_matches("check") {
        return Task::Check(check_plan(options));
    }
    match matches.subcommand_matches("shell") {
        Some(_) => Task::Shell,
        None => Task::Run,
    }
}

/// What a check is asked for.
fn check_plan(options: &ArgMatches) -> CheckPlan
    ensures { IsCheckPlan (rows_of (found_of options.now)) result }
{
    CheckPlan {
        rules: choice(options, "rules", "store", "table"),
        order: choice(options, "order", "real", "program"),
        evict: choice(options, "evict", "free", "never"),
        witness: choice(options, "witness", "no", "yes"),
        states: number_or(options, "states", KEY_STATES_DEFAULT),
    }
}

/// The choice of an option.
fn choice(options: &ArgMatches, name: &str, first: &str, second: &str) -> Choice
    ensures { result ≡ choice_of first.now second.now (first_of name.now (rows_of (found_of options.now))) }
{
    choice_of(first, second, options.get_str(name))
}

/// The number of an option, or `default` if the option isn't given.
fn number_or(options: &ArgMatches, name: &str, default: u32) -> u32
    ensures { SpellsOr default (one_of name.now (rows_of (found_of options.now))) result }
{
    options.get_one::<u32>(name).unwrap_or(default)
}

/// The number of an option, if it is given.
fn number_if(options: &ArgMatches, name: &str) -> Option<u32>
    ensures { SpellsIf (one_of name.now (rows_of (found_of options.now))) result }
{
    options.get_one::<u32>(name)
}

/// A law: some words that are right, with their tasks, and some that are wrong, with their errors. It does nothing.
#[tactic(auto, unfolding(clap::proofs::OnLiterals::clap_on_literals))]
pub fn right_words()
    ensures run { RunIsRight }
    ensures shell { ShellIsRight }
    ensures explore { ExploreIsRight }
    ensures threads { ThreadsIsRight }
    ensures check { CheckIsRight }
    ensures option_missing { OptionMissingIsWrong }
    ensures number { NumberIsWrong }
    ensures no_word { NoWordIsWrong }
    ensures unknown_word { UnknownWordIsWrong }
    ensures word_too_many { WordTooManyIsWrong }
    ensures flag { FlagIsWrong }
    ensures help { HelpIsShown }
    ensures help_word { HelpWordIsShownOrWrong }
    ensures version { VersionIsShown }
{}
