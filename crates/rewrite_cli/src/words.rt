ghost use Rattle.std.specs.Prelude.{◌≡◌, ◌≤◌, [], ◌∷◌, None, if◌then◌else◌, map, slice_index, string_bytes};
ghost use Rattle.std.specs.Option.{option_copied};
ghost use Rattle.rewrite_cli.specs.Words.{command_of, number_up_to, is_run_by_one, run_for, kind_of, make_of, most_size};
ghost use Rattle.rewrite_cli.specs.Reading.{command_shown};

use sample_maker::Kind;

/// As many instructions as a run may be given, and has where none are named.
pub const MOST_FUEL: u64 = 1 << 40;

/// The largest size that the words of a sample may have.
const MOST_SIZE: u64 = (1 << 63) - 1;

/// What words ask for.
#[derive(Clone, Copy)]
pub enum Command<'a> {
    /// Run the executable of this name for at most so many instructions, and save the memory at its
    /// ending under a name where one is given.
    Run {
        file: &'a str,
        fuel: u64,
        dump: Option<&'a str>,
    },
    /// Rewrite the executable of this name, and save its image under another.
    Rewrite {
        file: &'a str,
        new: &'a str,
    },
    /// List the loops of the executable of this name.
    Loops {
        file: &'a str,
    },
    /// Make the sample of this kind and size, and save it under a name.
    Make {
        kind: Kind,
        size: u64,
        new: &'a str,
    },
    /// The words are no command.
    Unknown,
}

// The number that a word is which begins with a digit other than 0.
fn parsed_up_to(word: &str, limit: u64) -> Option<u64>
    requires { 49 ≤ slice_index word.now 0 }
    ensures { result ≡ number_up_to limit word.now }
{
    let Ok(number) = u64::from_str_radix(word, 10) else {
        return None;
    };
    if number <= limit { Some(number) } else { None }
}

// The number that a word is: decimal digits with no leading zero, and not above a limit.
fn number_up_to(word: &str, limit: u64) -> Option<u64>
    ensures { result ≡ number_up_to limit word.now }
{
    match word.as_bytes() {
        [b'1'..=b'9', ..] => parsed_up_to(word, limit),
        _ => None,
    }
}

// The words before and behind the file are those of a run by one hart.
fn is_run_by_one(verb: &str, harts: &str) -> bool
    ensures { result ≡ is_run_by_one verb.now harts.now }
{
    verb == "run" && harts == "1"
}

// A run by one hart, for at most as many instructions as a word says, if the words are one.
fn run_from<'a>(
    verb: &str,
    file: &'a str,
    harts: &str,
    fuel: &str,
    dump: Option<&'a str>,
) -> Command<'a>
    ensures { command_shown result ≡ (if is_run_by_one verb.now harts.now then run_for file.now fuel.now
        (option_copied dump.entry) else None) }
{
    if !is_run_by_one(verb, harts) {
        return Command::Unknown;
    }
    match number_up_to(fuel, MOST_FUEL) {
        Some(fuel) => Command::Run { file, fuel, dump },
        None => Command::Unknown,
    }
}

// The kind of sample that a word is.
fn kind_from(word: &str) -> Option<Kind>
    ensures { result ≡ kind_of word.now }
{
    match word {
        "vadd" => Some(Kind::Vadd),
        "stencil" => Some(Kind::Stencil),
        "bytemap" => Some(Kind::Bytemap),
        _ => None,
    }
}

// A sample of the kind and size that words say, if the words are such.
fn make_from<'a>(kind: &str, size: &str, new: &'a str) -> Command<'a>
    ensures { command_shown result ≡ make_of (kind_of kind.now) (number_up_to most_size size.now) new.now }
{
    let Some(kind) = kind_from(kind) else {
        return Command::Unknown;
    };
    match number_up_to(size, MOST_SIZE) {
        Some(size) => Command::Make { kind, size, new },
        None => Command::Unknown,
    }
}

// The command that four words are.
fn long_command<'a>(verb: &str, first: &'a str, second: &str, third: &'a str) -> Command<'a>
    ensures { command_shown result ≡ command_of (verb.now ∷ first.now ∷ second.now ∷ third.now ∷ []) }
{
    if verb == "make" {
        make_from(first, second, third)
    } else {
        run_from(verb, first, second, third, None)
    }
}

// The command that three words are.
fn short_command<'a>(verb: &str, file: &'a str, third: &'a str) -> Command<'a>
    ensures { command_shown result ≡ command_of (verb.now ∷ file.now ∷ third.now ∷ []) }
{
    if is_run_by_one(verb, third) {
        Command::Run {
            file,
            fuel: MOST_FUEL,
            dump: None,
        }
    } else if verb == "rewrite" {
        Command::Rewrite { file, new: third }
    } else {
        Command::Unknown
    }
}

// The command that two words are.
fn list_command<'a>(verb: &str, file: &'a str) -> Command<'a>
    ensures { command_shown result ≡ command_of (verb.now ∷ file.now ∷ []) }
{
    if verb == "list" {
        Command::Loops { file }
    } else {
        Command::Unknown
    }
}

/// The command that the words are.
pub fn command_from<'a>(words: &'a [String]) -> Command<'a>
    ensures { command_shown result ≡ command_of (map string_bytes words.now) }
{
    match words {
        [] => Command::Unknown,
        [_] => Command::Unknown,
        [verb, file] => list_command(verb.as_str(), file.as_str()),
        [verb, file, third] => short_command(verb.as_str(), file.as_str(), third.as_str()),
        [verb, first, second, third] => long_command(
            verb.as_str(),
            first.as_str(),
            second.as_str(),
            third.as_str(),
        ),
        [verb, file, harts, fuel, dump] => {
            let (file, dump) = (file.as_str(), dump.as_str());
            run_from(
                verb.as_str(),
                file,
                harts.as_str(),
                fuel.as_str(),
                Some(dump),
            )
        }
        _ => Command::Unknown,
    }
}
