//! A command, and the line that spells it.

ghost use Rattle.std.specs.Prelude.{◌≡◌, IfNone, IfSome};
ghost use Rattle.std.specs.Str.{IsUtf8};
ghost use Rattle.key_values.specs.Command.{HasSpace, IsWord, Spells, behind_it, first_word};

/// A command. A key has no space; a value is all that stands behind the space after its key.
#[derive(Clone, Copy, Debug, PartialEq, Eq, Drop)]
pub enum Command<'a> {
    /// `SET KEY VALUE`
    Set(&'a str, &'a str),
    /// `GET KEY`
    Get(&'a str),
    /// `DEL KEY`
    Del(&'a str),
    /// `COUNT`
    Count,
    /// `QUIT`: the client is served no longer.
    Quit,
    /// `SHUTDOWN`: nobody is.
    Shutdown,
}

impl Command<'_> {
    /// The command that a line spells, without its line feed, and none where it spells none or is
    /// no UTF-8.
    pub fn parse(line: &[u8]) -> Option<Command<'_>>
        ensures text { IfSome result (λ command. IsUtf8 line.now) }
        ensures command { IfSome result (λ command. Spells line.now command) }
        ensures none { IfNone result (IsUtf8 line.now
            → (command : Command) → Spells line.now command → ⊥) }
    {
        let text = str::from_utf8(line).ok()?;
        match cut(text) {
            None => alone(text),
            Some(("SET", rest)) => {
                let (key, value) = cut(rest)?;
                Some(Command::Set(key, value))
            }
            Some(("GET", key)) if cut(key).is_none() => Some(Command::Get(key)),
            Some(("DEL", key)) if cut(key).is_none() => Some(Command::Del(key)),
            Some(_) => None,
        }
    }
}

// What stands before the first space, and what stands behind it.
fn cut(text: &str) -> Option<(&str, &str)>
    ensures some { IfSome result (λ parts. HasSpace text.now) }
    ensures first { IfSome result (λ parts. parts.0.now ≡ first_word text.now) }
    ensures second { IfSome result (λ parts. parts.1.now ≡ behind_it text.now) }
    ensures none { IfNone result (IsWord text.now) }
{
    text.split_once(' ')
}

// The command that is a word alone.
fn alone(word: &str) -> Option<Command<'_>>
    requires { IsWord word.now }
    ensures command { IfSome result (λ command. Spells word.now command) }
    ensures none { IfNone result ((command : Command) → Spells word.now command → ⊥) }
{
    match word {
        "COUNT" => Some(Command::Count),
        "QUIT" => Some(Command::Quit),
        "SHUTDOWN" => Some(Command::Shutdown),
        _ => None,
    }
}
