// Laws of normal forms.
ghost use Rattle.subset_query.specs.FormLaws.{PrintsTellFormsApart, QueriesHaveAForm, QueriesHaveOneForm, SettledFormsAreCanonical};

/// Settled forms of a schema are equal exactly where they give the same bytes on every table.
pub fn settled_forms_are_canonical()
    ensures { SettledFormsAreCanonical }
{}

/// Each query without a fault has a settled form that gives its bytes on every table.
pub fn queries_have_a_form()
    ensures { QueriesHaveAForm }
{}

/// Of two queries the settled forms that give their bytes are equal exactly where the queries give the same bytes on
/// every table. So the form names what is asked for, however it was written.
pub fn queries_have_one_form()
    ensures { QueriesHaveOneForm }
{}

/// Settled forms of a schema whose labels and constants are bytes print the same exactly where they are equal. So a print,
/// beside its schema, stands for its form.
pub fn prints_tell_forms_apart()
    ensures { PrintsTellFormsApart }
{}
