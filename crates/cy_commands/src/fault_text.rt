// The texts of faults: what stands in a command's way.

/// The words are of no known form.
pub const USAGE_LINE: &str = "cyber: the words are not of a known form\n";

/// There is no memory.
pub const MEMORY_LINE: &str = "cyber: out of memory\n";

/// A stream failed.
pub const OUTPUT_LINE: &str = "cyber: the output failed\n";

/// The store failed, behind a file's name.
pub const STORE_FAILED: &str = ": the store failed\n";
