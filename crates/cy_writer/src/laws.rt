// What holds of everything that a writer is given: proved here, and nothing to run.
ghost use Rattle.cy_writer.specs.Laws.{BeginsCut, ChannelsStayCut, MessagesStayCut};
ghost use Rattle.cy_writer.specs.Laws.{MessagesInOrder, LeavesRecord, StandInChunks};
ghost use Rattle.cy_writer.specs.Unfinished.{FailedLeaves, StarvedLeaves, OthersStay};
ghost use Rattle.cy_writer.specs.Unfinished.{OthersStayStarved};

/// The chunks of messages that were all taken end where they have to: each as late as it may.
pub fn chunks_end_in_time()
    ensures begins { BeginsCut }
    ensures channels { ChannelsStayCut }
    ensures messages { MessagesStayCut }
{}

/// The messages of the chunks are those that were given, in their order.
pub fn messages_stay_in_order()
    ensures { MessagesInOrder }
{}

/// After the writes of a record its bytes stand under its name, and every other file is as it was.
pub fn record_writes_leave_the_record()
    ensures { LeavesRecord }
{}

/// Messages that are written into one record stand in the chunks that they have to stand in.
pub fn messages_stand_in_their_chunks()
    ensures { StandInChunks }
{}

/// Where the writes of a record stop, among those of other files, its file is as far as the writing
/// had come.
pub fn stopped_writes_leave_a_front()
    ensures failed { FailedLeaves }
    ensures starved { StarvedLeaves }
{}

/// Where writes stop, a file that none of them is of stays as it was.
pub fn stopped_writes_leave_other_files()
    ensures failed { OthersStay }
    ensures starved { OthersStayStarved }
{}
