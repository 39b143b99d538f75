//! The ways to write a line of words.

ghost use Rattle.std.specs.Prelude.{◌≡◌, map, option_copied, string_bytes};
ghost use Rattle.command_words.specs.Asking.{is_name};
ghost use Rattle.command_words.specs.Lines.{parts_of, is_joined, writes, writes_name, writes_option, writes_rest, writes_two, writes_three};

/// A command, the name behind it, and the text of its option where it is there.
#[derive(Clone, Copy, Debug)]
pub struct Line<'a> {
    pub command: &'a str,
    pub config: &'a str,
    pub schedule: Option<&'a str>,
}

/// Whether a word is a name: it is not empty and does not begin with a dash.
pub fn is_name(word: &str) -> bool
    ensures { result ≡ is_name word.now }
{
    match word.as_bytes().first() {
        Some(byte) => *byte != b'-',
        None => false,
    }
}

/// Whether these words are a way to write the line. A word too many, and any other word in place of
/// one of them, makes them none.
pub fn is_written(words: &[String], line: Line<'_>) -> bool
    ensures { result ≡ writes (map string_bytes words.now) (parts_of line.entry) }
{
    match words {
        [command, rest @ ..] => {
            command.as_str() == line.command && is_rest(rest, line.config, line.schedule)
        }
        [] => false,
    }
}

/// Whether the words behind the command are a way to write the name, and the option where it is
/// there.
fn is_rest(words: &[String], config: &str, schedule: Option<&str>) -> bool
    ensures { result ≡ writes_rest (map string_bytes words.now) config.now (option_copied schedule.entry) }
{
    match schedule {
        Some(text) => is_option(words, config, text),
        None => is_alone(words, config),
    }
}

fn is_alone(words: &[String], config: &str) -> bool
    ensures { result ≡ writes_name (map string_bytes words.now) config.now }
{
    match words {
        [name] => name.as_str() == config,
        _ => false,
    }
}

fn is_option(words: &[String], config: &str, text: &str) -> bool
    ensures { result ≡ writes_option (map string_bytes words.now) config.now text.now }
{
    match words {
        [first, second] => are_two(first.as_str(), second.as_str(), config, text),
        [first, second, third] => {
            let third = third.as_str();
            are_three(first.as_str(), second.as_str(), third, config, text)
        }
        _ => false,
    }
}

fn are_two(first: &str, second: &str, config: &str, text: &str) -> bool
    ensures { result ≡ writes_two first.now second.now config.now text.now }
{
    (first == config && is_joined(second, text)) || (second == config && is_joined(first, text))
}

fn are_three(first: &str, second: &str, third: &str, config: &str, text: &str) -> bool
    ensures { result ≡ writes_three first.now second.now third.now config.now text.now }
{
    (first == config && second == "--schedule" && third == text)
        || (third == config && first == "--schedule" && second == text)
}

/// Whether a word is the option and this text.
fn is_joined(word: &str, text: &str) -> bool
    ensures { result ≡ is_joined word.now text.now }
{
    match word.strip_prefix("--schedule=") {
        Some(rest) => rest == text,
        None => false,
    }
}
