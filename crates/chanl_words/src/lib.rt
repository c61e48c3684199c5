//! The words of the command line.
#![tactic(auto)]

ghost use Rattle.std.specs.Prelude.{◌≡◌, ℕ, ◌≤◌, List, [], ◌∷◌, map, string_bytes, IfSome, IfNone};
ghost use Rattle.std.specs.Char.{is_ascii_digit};
ghost use Rattle.std.specs.List.{list_all};
ghost use Rattle.chanl_words.specs.declared.Command.{Command};
ghost use Rattle.chanl_words.specs.Words.{Admits, HasRounds, IsNumber, IsUsage, most_rounds};

/// How many rounds a replay has at the most where no option says it.
const DEFAULT_ROUNDS: u64 = 1_000_000;

/// The greatest number of rounds that the option takes.
const MOST_ROUNDS: u64 = 1_000_000_000;

const MOST_DIGITS: usize = 10;

/// What the program is asked to do.
#[derive(Clone, Copy, Debug, PartialEq, Eq)]
pub enum Command {
    Fmt,
    /// The run of a program, of at most so many rounds.
    Replay { rounds: u64 },
}

impl Command {
    /// The command of the words after the program's name, where they are one's.
    pub fn of(words: &[String]) -> Option<Command>
        ensures some { IfSome result (Admits (map string_bytes words.now)) }
        ensures none { IfNone result (IsUsage (map string_bytes words.now)) }
    {
        match words {
            [name, option @ ..] => Command::named(name.as_str(), option),
            [] => None,
        }
    }

    fn named(name: &str, option: &[String]) -> Option<Command>
        ensures some { IfSome result (Admits (name.now ∷ map string_bytes option.now)) }
        ensures none { IfNone result (IsUsage (name.now ∷ map string_bytes option.now)) }
    {
        if name == "replay" {
            let rounds = rounds(option)?;
            Some(Command::Replay { rounds })
        } else if name == "fmt" && option.is_empty() {
            Some(Command::Fmt)
        } else {
            None
        }
    }
}

/// The rounds that the words after `replay` say.
fn rounds(option: &[String]) -> Option<u64>
    ensures some { IfSome result (HasRounds (map string_bytes option.now)) }
    ensures none { IfNone result ((n : ℕ) → ¬ HasRounds (map string_bytes option.now) n) }
{
    match option {
        [] => Some(DEFAULT_ROUNDS),
        [word] => joined(word.as_str()),
        [name, text] => apart(name.as_str(), text.as_str()),
        _ => None,
    }
}

fn joined(word: &str) -> Option<u64>
    ensures some { IfSome result (HasRounds (word.now ∷ [])) }
    ensures none { IfNone result ((n : ℕ) → ¬ HasRounds (word.now ∷ []) n) }
{
    number(word.strip_prefix("--rounds=")?)
}

fn apart(name: &str, text: &str) -> Option<u64>
    ensures some { IfSome result (HasRounds (name.now ∷ text.now ∷ [])) }
    ensures none { IfNone result ((n : ℕ) → ¬ HasRounds (name.now ∷ text.now ∷ []) n) }
{
    if name == "--rounds" {
        number(text)
    } else {
        None
    }
}

/// The number that a text writes, where the option takes it.
fn number(text: &str) -> Option<u64>
    ensures some { IfSome result (IsNumber text.now) }
    ensures none { IfNone result ((n : ℕ) → ¬ IsNumber text.now n) }
{
    // Before the digits `parse` takes a sign too.
    if text.len() > MOST_DIGITS || !all_digits(text) {
        return None;
    }
    let number = text.parse::<u64>().ok()?;
    if (1..=MOST_ROUNDS).contains(&number) {
        Some(number)
    } else {
        None
    }
}

fn all_digits(text: &str) -> bool
    ensures { result ≡ list_all is_ascii_digit text.now }
{
    text.as_bytes().iter().all(|byte| byte.is_ascii_digit())
}

/// Words have one command, and no replay has more than the greatest number of rounds.
pub fn laws()
    ensures one { (words : List (List ℕ)) (c d : Command) → Admits words c → Admits words d → c ≡ d }
    ensures few { (words : List (List ℕ)) (rounds : ℕ) → Admits words (Command.Replay rounds) → rounds ≤ most_rounds }
{}
