//! The commands of the program.
ghost use Rattle.std.specs.Prelude.{◌≡◌, [], ◌∷◌, IsSome, IfSome};
ghost use Rattle.kvm_program.specs.Command.{words_of};

use psd_base::words::Words;

/// What the program is told to do.
#[derive(Clone, Copy, Debug, PartialEq, Eq)]
pub enum Command {
    /// Replays a capture and a script.
    Replay,
    /// Judges the rule file alone.
    Check,
}

impl Command {
    /// The command that these words are, or `None` where they are none.
    pub fn read(words: &Words) -> Option<Command>
        ensures named { IfSome result (λ command. words.now ≡ words_of command) }
        ensures found { (command : Command) → words.now ≡ words_of command → IsSome result }
    {
        if words.len() != 1 {
            return None;
        }
        read_one(words.word(0))
    }
}

/// The command that one word is, if it is one.
fn read_one(word: &[u8]) -> Option<Command>
    ensures named { IfSome result (λ command. word.now ∷ [] ≡ words_of command) }
    ensures found { (command : Command) → word.now ∷ [] ≡ words_of command → IsSome result }
{
    if word == b"replay".as_slice() {
        Some(Command::Replay)
    } else if word == b"check".as_slice() {
        Some(Command::Check)
    } else {
        None
    }
}
