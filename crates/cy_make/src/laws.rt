// What holds of all that is written: proved here, and nothing to run.
ghost use Rattle.cy_make.specs.Inputs.{LeavesInputs, WritesText};
ghost use Rattle.cy_make.specs.Texts.{TextsAreRead, TextsAreShort};

/// After the writes of the inputs each has its text under its name, and every other file is as it
/// was.
pub fn input_writes_leave_the_inputs()
    ensures { LeavesInputs }
{}

/// The record that is made is the record text of its messages.
pub fn made_record_is_its_text()
    ensures { WritesText }
{}

/// With a prefix of at most 1,000,000 bytes no configuration file is longer than those that are
/// read.
pub fn made_texts_are_short()
    ensures { TextsAreShort }
{}

/// Each configuration file is a text of the form, whatever the prefix: it is read, and says the
/// fields that it was made of.
pub fn made_texts_are_read()
    ensures { TextsAreRead }
{}
