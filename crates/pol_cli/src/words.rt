ghost use Rattle.std.specs.Prelude.{◌≡◌, ◌↔◌, ℕ, Option, IfSome, IfNone, IsTrue, [], ◌∷◌};
ghost use Rattle.pol_cli.specs.Due.{Asks, AreKnown, AsksGen, input_words};
ghost use Rattle.pol_cli.specs.Runs.{texts_of};

use pol_text::number;

/// What the words of the command line ask for.
#[derive(Clone, Copy, Debug, PartialEq, Eq)]
pub(crate) enum Task {
    /// What is made of the input.
    Input(InputTask),
    /// The summary of the file that the number makes.
    Gen(u32),
}

/// What is made of the input.
#[derive(Clone, Copy, Debug, PartialEq, Eq)]
pub(crate) enum InputTask {
    /// The report of the file that is read.
    Report,
    /// The verdicts on the items of the report that is read behind a file.
    Check,
}

/// What the words ask for. None where they are not known.
pub(crate) fn asked(words: &[String]) -> Option<Task>
    ensures known { IfSome result (Asks (texts_of words.now)) }
    ensures unknown { IfNone result (¬ AreKnown (texts_of words.now)) }
{
    match words {
        [word] => Some(Task::Input(input_task(word.as_bytes())?)),
        [word, token] => Some(Task::Gen(generated(word.as_bytes(), token.as_bytes())?)),
        _ => None,
    }
}

/// The task that a word alone asks for.
fn input_task(word: &[u8]) -> Option<InputTask>
    ensures known { IfSome result (λ task. word.now ∷ [] ≡ input_words task) }
    ensures unknown { IfNone result (¬ AreKnown (word.now ∷ [])) }
{
    if is_word(word, b"report") {
        return Some(InputTask::Report);
    }
    if is_word(word, b"check") {
        return Some(InputTask::Check);
    }
    None
}

/// The number of the file that two words ask to be generated.
fn generated(word: &[u8], token: &[u8]) -> Option<u32>
    ensures known { IfSome result (AsksGen (word.now ∷ token.now ∷ [])) }
    ensures unknown { IfNone result (¬ AreKnown (word.now ∷ token.now ∷ [])) }
{
    if !is_word(word, b"gen") {
        return None;
    }
    number(token)
}

fn is_word(word: &[u8], known: &[u8]) -> bool
    ensures same { IsTrue result ↔ (word.now ≡ known.now) }
{
    word == known
}
