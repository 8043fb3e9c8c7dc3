//! Commands of the program.
ghost use Rattle.std.specs.Prelude.{◌≡◌};
ghost use Rattle.slate_cluster_reports.specs.Commands.{command_of};

/// What the words of the command line ask for.
#[derive(Clone, Copy, Debug, Drop, PartialEq, Eq)]
pub enum Command {
    /// Runs the script of the input and writes its report.
    Run,
    /// Writes what a script has.
    RunHelp,
    /// Writes what the program does and how it is called.
    Help,
    /// Writes the name and the version of the program.
    Version,
}

// The command of a word.
fn word_command(word: &str) -> Option<Command>
    ensures { result ≡ Rattle.slate_cluster_reports.specs.Commands.word_command word.now }
{
    match word {
        "run" => Some(Command::Run),
        "--help" => Some(Command::Help),
        "--version" => Some(Command::Version),
        _ => None,
    }
}

// The command of two words.
fn words_command(word: &str, next: &str) -> Option<Command>
    ensures { result ≡ Rattle.slate_cluster_reports.specs.Commands.words_command word.now next.now }
{
    if word == "run" && next == "--help" {
        Some(Command::RunHelp)
    } else {
        None
    }
}

/// The command of the words of a command line, without the program's name. A command is one word or two.
pub fn command_in(words: &[String]) -> Option<Command>
    ensures { result ≡ command_of words.now }
{
    match words {
        [word] => word_command(word.as_str()),
        [word, next] => words_command(word.as_str(), next.as_str()),
        _ => None,
    }
}
