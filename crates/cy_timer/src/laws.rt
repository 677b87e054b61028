// What holds of all that is played: proved here, and nothing to run.
ghost use Rattle.cy_timer.specs.Laws.{AllInOrder};

/// Messages and ticks in the order in which they are played are those that there are, by time, and
/// those of one time in the order in which they stood.
pub fn time_order_is_stable()
    ensures { AllInOrder }
{}
