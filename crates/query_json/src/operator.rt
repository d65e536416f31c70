// The operators of conditions.
ghost use Rattle.std.specs.Prelude.{◌≡◌};

/// What a condition compares or joins by.
#[derive(Clone, Copy, Drop)]
pub(crate) enum Operator {
    Lt,
    Le,
    Eq,
    Ne,
    Ge,
    Gt,
    Among,
    Prefix,
    AllOf,
    AnyOf,
    Not,
}

ghost use Rattle.query_json.specs.Operators.{operator_of};

/// The operator that a word names.
#[tactic(auto, unfolding(crate::specs::Operators::operator_of))]
pub(crate) fn read_operator(word: &str) -> Option<Operator>
    ensures { result ≡ operator_of word.now }
{
    match word {
        "lt" => Some(Operator::Lt),
        "le" => Some(Operator::Le),
        "eq" => Some(Operator::Eq),
        "ne" => Some(Operator::Ne),
        "ge" => Some(Operator::Ge),
        "gt" => Some(Operator::Gt),
        "in" => Some(Operator::Among),
        "prefix" => Some(Operator::Prefix),
        "and" => Some(Operator::AllOf),
        "or" => Some(Operator::AnyOf),
        "not" => Some(Operator::Not),
        _ => None,
    }
}
