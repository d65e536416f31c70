ghost use Rattle.std.specs.Prelude.{◌≡◌, ◌↔◌, IsTrue, List};
ghost use Rattle.cite_schema.specs.declared.schema.Column as schema_column;
ghost use Rattle.cite_schema.specs.Answers.{Alike};
ghost use Rattle.subset_query.specs.Forms.{formed, IsSettled};

use crate::form::{ColumnSet, Normal};
use cite_schema::Same;
use interval_normal::{Point, Set, Span};

fn same_end<P: Point + Same>(a: &Option<P>, b: &Option<P>) -> bool
    ensures { IsTrue result ↔ (a.now ≡ b.now) }
{
    a.same(b)
}

fn same_span<P: Point + Same>(a: &Span<P>, b: &Span<P>) -> bool
    ensures { IsTrue result ↔ (a.now ≡ b.now) }
{
    a.low.same(&b.low) && same_end(&a.high, &b.high)
}

fn same_spans<P: Point + Same>(a: &[Span<P>], b: &[Span<P>]) -> bool
    ensures { IsTrue result ↔ (a.now ≡ b.now) }
{
    if a.len() != b.len() {
        return false;
    }
    for i in 0..a.len() {
        if !same_span(&a[i], &b[i]) {
            return false;
        }
    }
    true
}

fn same_set<P: Point + Same>(a: &Set<P>, b: &Set<P>) -> bool
    ensures { IsTrue result ↔ (a.now ≡ b.now) }
{
    same_spans(a.spans().as_slice(), b.spans().as_slice())
}

impl Same for ColumnSet {
    fn same(&self, other: &ColumnSet) -> bool {
        match (self, other) {
            (ColumnSet::Ints(a), ColumnSet::Ints(b)) => same_set(a, b),
            (ColumnSet::Texts(a), ColumnSet::Texts(b)) => same_set(a, b),
            _ => false,
        }
    }
}

fn same_data(a: &Normal, b: &Normal) -> bool
    ensures { IsTrue result ↔ (a.now ≡ b.now) }
{
    match (a, b) {
        (Normal::Nothing { labels: x }, Normal::Nothing { labels: y }) => x.same(y),
        (
            Normal::Some {
                sets: s,
                items: i,
                order: o,
            },
            Normal::Some {
                sets: t,
                items: j,
                order: p,
            },
        ) => s.same(t) && i.same(j) && o.same(p),
        _ => false,
    }
}

impl Normal {
    /// Whether the two forms are the same data; so whether they give the same bytes on every table of each schema that
    /// both fit. It takes time linear in their size.
    pub fn same(&self, other: &Normal) -> bool
        ensures data { IsTrue result ↔ (self.now ≡ other.now) }
        ensures alike { (s : List schema_column.Column) → IsSettled s self.now → IsSettled s other.now → (IsTrue result ↔ Alike s (formed self.now) (formed other.now)) }
    {
        same_data(self, other)
    }
}
