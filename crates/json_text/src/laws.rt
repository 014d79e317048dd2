// The laws of the grammar, each the contract of a function.

ghost use Rattle.json_text.specs.Laws.{OneValue, OneValueStands, ValueIsRead, ReadIsValue, FaultIsRead, ReadIsFault, SmallTextsAreRead};

/// One text has one value, and at one place of a text stands one value.
pub fn text_has_one_value()
    ensures one_value { OneValue }
    ensures one_value_stands { OneValueStands }
{}

/// Reading tells a value exactly of a text of that value, and a fault exactly at its place.
pub fn reading_tells_texts_and_faults()
    ensures value_is_read { ValueIsRead }
    ensures read_is_value { ReadIsValue }
    ensures fault_is_read { FaultIsRead }
    ensures read_is_fault { ReadIsFault }
{}

/// What a text is read as is found by computing.
pub fn small_texts_are_read()
    ensures small_texts { SmallTextsAreRead }
{}
