// What holds of what is written and read: proved here, and nothing to run.
ghost use Rattle.cy_read_back.specs.BrokenOff.{BrokenOffAreFronts, UnfinishedAreSalvaged};
ghost use Rattle.cy_read_back.specs.Fronts.{FrontsAreSalvaged};
ghost use Rattle.cy_read_back.specs.Puts.{SectionsArePutOnce};
ghost use Rattle.cy_read_back.specs.Records.{RecordsReadBack};
ghost use Rattle.cy_read_back.specs.Sections.{SectionsReadBack};

/// A head that was written, and the body of a section, is read as what was written, where numbers
/// and lengths have 64 bits.
pub fn sections_read_back()
    ensures { SectionsReadBack }
{}

/// The text of a record whose channels, messages and file are within the limits is read back: by
/// `load` as these channels and messages, with its header and the place of each section, and by
/// `info` with its index and no difference.
pub fn records_read_back()
    ensures { RecordsReadBack }
{}

/// Where a file has only the front of a record's text, the messages of the chunks that stand whole
/// in it are salvaged: the first ones of the record, cut at chunks.
pub fn fronts_are_salvaged()
    ensures { FrontsAreSalvaged }
{}

/// What stands of a record whose writing was broken off is a front of its text, of which
/// [`fronts_are_salvaged`] says what is salvaged.
pub fn broken_off_are_fronts()
    ensures { BrokenOffAreFronts }
{}

/// Where the writing of a record was broken off before its complete header was put, and the whole
/// record is within the limits of what is read, the file is accepted, and the messages of its whole
/// chunks are salvaged.
pub fn unfinished_are_salvaged()
    ensures { UnfinishedAreSalvaged }
{}

/// The writes of a record put each section of its text in one piece, and only the header twice.
pub fn sections_are_put_once()
    ensures { SectionsArePutOnce }
{}
