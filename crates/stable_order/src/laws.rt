// What holds of all arrangements.
ghost use Rattle.std.specs.Prelude.{◌≡◌, IsTrue, IsPermutation, List as Listed};
ghost use Rattle.std.specs.Ordering.{is_lt};
ghost use Rattle.cite_schema.specs.Tables.{rises};
ghost use Rattle.cite_schema.specs.declared.item.Dir.{Dir};
ghost use Rattle.stable_order.specs.Rows.{by_order};

use crate::keyed::Keyed;

/// Rows have no two rearrangements in which of each two neighbours the first comes before the second. A law: the call
/// does nothing.
pub fn one_arrangement<R: Keyed>()
    ensures { (order : Listed Dir) (rows xs ys : Listed R) → IsPermutation rows xs → IsPermutation rows ys → IsTrue (rises (λ r t. is_lt (by_order R.at order r t)) xs) → IsTrue (rises (λ r t. is_lt (by_order R.at order r t)) ys) → xs ≡ ys }
{}

ghost use Rattle.cite_schema.specs.Answers.{order_cmp};
ghost use Rattle.cite_schema.specs.declared.value.Value.{Value as Cell};
ghost use Rattle.stable_order.specs.Rows.{at_column};

/// On rows of tables the order is that of answers, so `arrange` gives the rows of an answer as they must stand. A law:
/// the call does nothing.
pub fn rows_stand_as_in_answers()
    ensures { (order : Listed Dir) (rows : Listed (Listed Cell)) → IsTrue (rises (λ r t. is_lt (by_order at_column order r t)) rows) → IsTrue (rises (λ r t. is_lt (order_cmp order r t)) rows) }
{}
