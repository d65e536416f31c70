// The words of migration steps.
ghost use Rattle.std.specs.Prelude.{◌≡◌};

/// What a step does.
#[derive(Clone, Copy, Drop)]
pub(crate) enum StepWord {
    Rename,
    Add,
    DropColumn,
    Scale,
    Recode,
    Retype,
}

ghost use Rattle.query_json.specs.Steps.{step_word_of};

/// The step that a word names.
#[tactic(auto, unfolding(crate::specs::Steps::step_word_of))]
pub(crate) fn read_step_word(word: &str) -> Option<StepWord>
    ensures { result ≡ step_word_of word.now }
{
    match word {
        "rename" => Some(StepWord::Rename),
        "add" => Some(StepWord::Add),
        "drop" => Some(StepWord::DropColumn),
        "scale" => Some(StepWord::Scale),
        "recode" => Some(StepWord::Recode),
        "retype" => Some(StepWord::Retype),
        _ => None,
    }
}
