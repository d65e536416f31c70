// What holds of all texts in pages.
ghost use Rattle.landing_page.specs.Pages.{NoMarkupEscapes};

/// What stands in a page for a text has no `<`, no `>` and no `"`. A law: the call does nothing.
pub fn no_markup_escapes()
    ensures { NoMarkupEscapes }
{}
