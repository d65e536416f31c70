// What holds of all stamps.
ghost use Rattle.datacite_meta.specs.Stamps.{DatesAreOfTheCalendar};

/// The date of a day number is that of the calendar, whose day number it is. A law: the call does nothing.
pub fn dates_are_those_of_the_calendar()
    ensures { DatesAreOfTheCalendar }
{}
