ghost use Rattle.report_text.specs.LineLaws.{Hex8Law, OneLineLaw};

/// An address below 2^32 is written with 8 lower-case hexadecimal digits, the most significant first.
pub fn addresses_are_hexadecimal()
    ensures { Hex8Law }
{}

/// The line of a loop ends with its only line feed.
pub fn loops_have_one_line()
    ensures { OneLineLaw }
{}
