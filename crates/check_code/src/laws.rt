ghost use Rattle.check_code.specs.Laws.{NumberLaw, LocationLaw, FormLaw, SpanLaw, LowLaw, HighLaw, AddressLaw, NeedLaw, AreasLaw};

/// Two words make a number.
pub fn numbers_are_made()
    ensures { NumberLaw }
{}

/// One word brings the entry value of a location.
pub fn locations_are_brought()
    ensures { LocationLaw }
{}

/// A form's words give its value at turn numbers 0.
pub fn forms_are_worked_out()
    ensures { FormLaw }
{}

/// A span adds so many times the last turn number.
pub fn spans_are_added()
    ensures { SpanLaw }
{}

/// A form's least value over all turns.
pub fn least_values_are_worked_out()
    ensures { LowLaw }
{}

/// A form's greatest value over all turns, and so many bytes more.
pub fn greatest_values_are_worked_out()
    ensures { HighLaw }
{}

/// A cell's words give its address.
pub fn cells_are_addressed()
    ensures { AddressLaw }
{}

/// A needed branch goes on where it is taken, and to the open target elsewhere.
pub fn a_branch_is_needed()
    ensures { NeedLaw }
{}

/// The words of areas go on where a range lies in one that permits the access, and to the open target elsewhere.
pub fn areas_are_tried()
    ensures { AreasLaw }
{}
