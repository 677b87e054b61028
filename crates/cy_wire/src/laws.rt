// What holds of the spelling of every number, and of the fields of all bytes: proved here, and
// nothing to run.
ghost use Rattle.cy_wire.specs.Laws.{ReadsBack, TakesOneToTenBytes, UnzigzagUndoes, ZigzagFits};
ghost use Rattle.cy_wire.specs.Laws.{NumberReadsBack, BytesReadBack, FieldsAreForm};

/// A number that was written is the one that is read, whatever follows it.
pub fn reads_back()
    ensures { ReadsBack }
{}

/// Each number takes one to ten bytes, and one below 128 is its own byte.
pub fn takes_one_to_ten_bytes()
    ensures { TakesOneToTenBytes }
{}

/// A signed number of 64 bits is written as one of 64 bits, and nothing of it is lost.
pub fn unzigzag_undoes()
    ensures undoes { UnzigzagUndoes }
    ensures fits { ZigzagFits }
{}

/// A field that was written is the one that is read, whatever follows it.
pub fn fields_read_back()
    ensures number { NumberReadsBack }
    ensures bytes { BytesReadBack }
{}

/// The fields that are read of bytes, and the fault that ends them, are those that the grammar of
/// the wire form says, which says no others.
pub fn fields_are_form()
    ensures { FieldsAreForm }
{}
