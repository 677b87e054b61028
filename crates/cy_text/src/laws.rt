// What holds of every text: proved here, and nothing to run.
ghost use Rattle.cy_text.specs.Laws.{FieldsAreFew, FirstFaultIsAnswered, FormIsRead};
ghost use Rattle.cy_text.specs.Laws.{OneIsDue, OneTreeOrFault, PrintedIsRead, ReadIsForm};
ghost use Rattle.cy_text.specs.Laws.{RefusedAtFirstFault, RefusedIsNoForm, SpansAreInOrder};
ghost use Rattle.cy_text.specs.PieceLaws.{CutIsRead, ReadIsCut};

/// Each text of the form is read to the fields that it says.
pub fn form_is_read()
    ensures { FormIsRead }
{}

/// What is read is the fields of a text of the form.
pub fn read_is_form()
    ensures { ReadIsForm }
{}

/// What is refused is no text of the form, and it is refused at its first fault.
pub fn refused_at_first_fault()
    ensures no_form { RefusedIsNoForm }
    ensures first_fault { RefusedAtFirstFault }
{}

/// Every text has one tree or one first fault, never both and never two, and its first fault is the
/// one that is answered. Behind each prefix of a text of the form one thing is due, by which the
/// kind of a fault is told.
pub fn one_tree_or_fault()
    ensures one { OneTreeOrFault }
    ensures answered { FirstFaultIsAnswered }
    ensures due { OneIsDue }
{}

/// Fields that were printed are read back, but for where they stand, if their names, words and
/// literals have the form of such and messages stand at most 64 deep.
pub fn printed_is_read()
    ensures { PrintedIsRead }
{}

/// The fields that are read stand in their order within the text, and those of a message within it.
pub fn spans_are_in_order()
    ensures { SpansAreInOrder }
{}

/// A text has at most as many fields as bytes. A reader of fields that takes a limited number of
/// them so takes all texts that [`parse`](crate::parse) does.
pub fn fields_are_few()
    ensures { FieldsAreFew }
{}

/// A text is cut in one way: into the longest pieces that are tokens, up to its end or to the first
/// place where a token is faulty. That cut is what is read.
pub fn tokens_are_pieces()
    ensures cut { ReadIsCut }
    ensures one { CutIsRead }
{}
