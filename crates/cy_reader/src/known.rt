// A channel that was met.
use cy_section::Channel;

/// A channel of a record, and whether its section was met: one that only messages name has an empty
/// type and description.
#[derive(Drop)]
pub struct Known {
    pub channel: Channel,
    pub has_section: bool,
}
