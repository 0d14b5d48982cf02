//! The first words of commands.

ghost use Rattle.std.specs.Prelude.{◌≡◌, ◌≢◌, MatchOption};
ghost use Rattle.space_script.specs.Command.{verb_word};

/// What a command is to do.
#[derive(Clone, Copy, Debug, PartialEq, Eq)]
pub(crate) enum Verb {
    Out,
    Inp,
    Rdp,
    Begin,
    Renew,
    Commit,
    Abort,
    Advance,
}

/// What a first word represents; `None` if it begins no command.
pub(crate) fn read_verb(word: &[u8]) -> Option<Verb>
    ensures { MatchOption result ((verb : Verb) → word.now ≢ verb_word verb) (λ verb. word.now ≡ verb_word verb) }
{
    if word == b"out".as_slice() {
        Some(Verb::Out)
    } else if word == b"inp".as_slice() {
        Some(Verb::Inp)
    } else if word == b"rdp".as_slice() {
        Some(Verb::Rdp)
    } else if word == b"begin".as_slice() {
        Some(Verb::Begin)
    } else if word == b"renew".as_slice() {
        Some(Verb::Renew)
    } else if word == b"commit".as_slice() {
        Some(Verb::Commit)
    } else if word == b"abort".as_slice() {
        Some(Verb::Abort)
    } else if word == b"advance".as_slice() {
        Some(Verb::Advance)
    } else {
        None
    }
}
