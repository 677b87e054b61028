// What holds of every file: proved here, and nothing to run.
ghost use Rattle.cy_reader.specs.Said.{MeetsWhatIsSaid, NamesDiffer};

/// The messages that are met in sections are those of their chunks' bodies, in file order, each on
/// the channel of its name.
pub fn sections_are_met_as_said()
    ensures { MeetsWhatIsSaid }
{}

/// The channels of a record have different names.
pub fn channels_have_own_names()
    ensures { NamesDiffer }
{}
