// The laws of a string's grammar and of the machine that reads it, each the contract of a function.

ghost use Rattle.json_string.specs.Laws.{CharsAreRead, ReadAreChars, CharsClose, CharsAreDecoded, UnescapedAreCodes, CodesAreUnescaped, CharsAreText, AliveBegins, BeginsAlive, BrokenStays, NoByteBreaks};

/// The machine reads exactly the chars of strings, and their closing quotation mark ends it.
pub fn machine_reads_the_grammar()
    ensures chars_are_read { CharsAreRead }
    ensures read_are_chars { ReadAreChars }
    ensures quotation_mark_closes { CharsClose }
{}

/// The machine breaks exactly where no string goes on, stays so, and is broken by any number that is no byte.
pub fn machine_breaks_where_no_string_goes_on()
    ensures going_on_begins_a_string { AliveBegins }
    ensures what_begins_a_string_goes_on { BeginsAlive }
    ensures broken_stays { BrokenStays }
    ensures no_byte_breaks { NoByteBreaks }
{}

/// The table of unescaped characters has exactly the UTF-8 bytes of the codes that may stand unescaped, and what a string
/// stands for is text.
pub fn chars_are_utf8()
    ensures unescaped_are_codes { UnescapedAreCodes }
    ensures codes_are_unescaped { CodesAreUnescaped }
    ensures chars_are_text { CharsAreText }
{}

/// One text has one decoding: the bytes that are computed from it.
pub fn chars_have_one_decoding()
    ensures chars_are_decoded { CharsAreDecoded }
{}
