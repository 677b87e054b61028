// What holds of the files that are made: proved here, and nothing to run.
ghost use Rattle.cy_made.specs.Accepted.{MadeFilesAreAccepted};

/// A replay over the files that are made, whatever other files are beside them, refuses none of
/// them, and misses none.
pub fn made_files_are_accepted()
    ensures { MadeFilesAreAccepted }
{}
