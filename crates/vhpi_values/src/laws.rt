//! Laws of values and their formats. Each is a call with an empty body, which a proof cites for what
//! it ensures.

ghost use Rattle.vhpi_values.specs.Laws.{DefaultFits, FormatStays, ReadsBack, HexReadsBack, ReadFits, RefusesAtFirstMisfit};

/// The default value of a type is one of its values.
pub fn default_fits()
    ensures { DefaultFits }
{}

/// A formatted value is of a format that goes with its type, so that it isn't refused as BadFormat.
pub fn format_stays()
    ensures { FormatStays }
{}

/// What is read is what was formatted, for every format but HexStr.
pub fn reads_back()
    ensures { ReadsBack }
{}

/// For HexStr what is read is what was formatted, exactly where each digit's group is of `'0'` and
/// `'1'` alone, or is a whole group of `'Z'` alone or of `'X'` alone.
pub fn hex_reads_back()
    ensures { HexReadsBack }
{}

/// What is read is a value of the type.
pub fn what_is_read_fits()
    ensures { ReadFits }
{}

/// A content that is no value is refused at the first place where it and the type don't agree.
pub fn refuses_at_first_misfit()
    ensures { RefusesAtFirstMisfit }
{}
