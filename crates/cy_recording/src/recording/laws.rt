// What holds of every record that is written of a tape: proved here, and nothing to run.
ghost use Rattle.cy_recording.specs.RecordLaws.{WritesText, PlacesAreThere};

/// What is put of a tape is the record text of its messages, on the channels that have one.
pub fn tape_record_is_its_text()
    ensures { WritesText }
{}

/// Each place of a play list is that of a message of the record that it is of, as [`write_record`]
/// needs it.
///
/// [`write_record`]: crate::write_record
pub fn played_places_are_there()
    ensures { PlacesAreThere }
{}
