ghost use Rattle.std.specs.Prelude.{◌≡◌, drop, map, string_bytes, option_map};
ghost use Rattle.coupling_run.specs.Words.{asked_by, command_word, is_name, asked_with, asked_of};

/// The commands that are served.
#[derive(Clone, Copy, Debug, PartialEq, Eq)]
pub enum CommandWord {
    /// Runs a case on one thread.
    Solo,
    /// Tells whether a case is accepted.
    Check,
}

/// A command, and the name of the configuration that it is for.
#[derive(Clone, Copy, Debug)]
pub struct Command<'a> {
    pub word: CommandWord,
    pub name: &'a str,
}

/// The words of a command line without the first of them, which is the program's name.
pub fn after_the_name(words: &[String]) -> &[String]
    ensures { result.now ≡ drop 1 words.now }
{
    if words.is_empty() {
        words
    } else {
        words.split_at(1).1
    }
}

/// What the words ask for: a command that is served and a name, in this order. Every other list of
/// words asks for nothing that is served.
pub fn asked_of(words: &[String]) -> Option<Command<'_>>
    ensures { option_map asked_by result ≡ asked_of (map string_bytes words.now) }
{
    match words {
        [word, name] => asked_with(word.as_str(), name.as_str()),
        _ => None,
    }
}

fn asked_with<'a>(word: &str, name: &'a str) -> Option<Command<'a>>
    ensures { option_map asked_by result ≡ asked_with word.now name.now }
{
    if !is_name(name) {
        return None;
    }
    match command_word(word) {
        Some(word) => Some(Command { word, name }),
        None => None,
    }
}

fn command_word(word: &str) -> Option<CommandWord>
    ensures { result ≡ command_word word.now }
{
    if word == "solo" {
        return Some(CommandWord::Solo);
    }
    if word == "check" {
        return Some(CommandWord::Check);
    }
    None
}

/// Whether a word is a name: it is not empty and does not begin with a dash.
fn is_name(word: &str) -> bool
    ensures { result ≡ is_name word.now }
{
    match word.as_bytes().first() {
        Some(byte) => *byte != b'-',
        None => false,
    }
}
