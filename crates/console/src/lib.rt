//! The commands of the console.
#![tactic(auto)]

ghost use Rattle.std.specs.Prelude.{◌≡◌};
ghost use Rattle.console.specs.Commands.{command_of};

/// What a line of the console asks for.
#[derive(Clone, Copy)]
pub enum Command {
    /// An empty line, or one that begins with `#`.
    Pass,
    /// The block that follows is a model to check.
    Model,
    /// What stands behind the word and one space is a path.
    Path,
    /// The block that follows is a case as text.
    Case,
    /// What stands behind the word and one space is a case file in hexadecimal.
    CaseHex,
    /// The conditions of the path.
    Conditions,
    /// The case judged on the path.
    Judge,
    /// Anything else.
    Unknown,
}

/// The command that a line gives.
pub fn read_command(line: &[u8]) -> Command
    ensures { result ≡ command_of line.now }
{
    match line {
        [] | [b'#', ..] => Command::Pass,
        b"model" => Command::Model,
        b"case" => Command::Case,
        b"conditions" => Command::Conditions,
        b"judge" => Command::Judge,
        _ if line.starts_with(b"path ") => Command::Path,
        _ if line.starts_with(b"case-hex ") => Command::CaseHex,
        _ => Command::Unknown,
    }
}
