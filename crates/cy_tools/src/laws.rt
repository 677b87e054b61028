// What holds of every record that is written of kept messages: proved here, and nothing to run.
ghost use Rattle.cy_tools.specs.Laws.{WritesText};

/// What is put of messages that are kept is their record text, on the channels that have one, where
/// no two channels have one name and each message stands on one of them.
pub fn kept_messages_are_record_text()
    ensures { WritesText }
{}
