//! The words behind the program's name.
ghost use Rattle.std.specs.Prelude.{◌≡◌, ◌↔◌, Some, None, IsSome};
ghost use Rattle.shop_server.specs.Words as spec;

/// What the program is asked to do.
#[derive(Clone, Copy)]
pub enum Verb {
    /// To serve one connection over standard input and output.
    Run,
    /// To say whether what is kept is sound.
    Check,
}

/// What the words ask for: `None` where they are no command line of the program.
pub(crate) fn verb_of(words: &[String]) -> Option<Verb>
    ensures { result ≡ spec.verb_of words.now }
{
    match words {
        [word] => verb_named(word.as_str()),
        _ => None,
    }
}

fn verb_named(word: &str) -> Option<Verb>
    ensures { result ≡ spec.verb_named word.now }
{
    if word == "run" {
        Some(Verb::Run)
    } else if word == "check" {
        Some(Verb::Check)
    } else {
        None
    }
}
