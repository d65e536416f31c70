// What holds of all identifiers.
ghost use Rattle.identifiers.specs.Names.{ReadOnce, MintedIsRead, SupersetIsRead};

/// A text names one thing at most, so what `read` answers is fixed by its clause. A law: the call does nothing.
pub fn a_text_names_one_thing()
    ensures { ReadOnce }
{}

/// Of the identifier that `mint` makes `read` gives the number back, and of that of `superset` the data set. A law: the
/// call does nothing.
pub fn what_was_minted_is_read()
    ensures number { MintedIsRead }
    ensures superset { SupersetIsRead }
{}
