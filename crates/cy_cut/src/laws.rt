// What holds of every file: proved here, and nothing to run.
ghost use Rattle.cy_cut.specs.Tiling.{SectionsTile};

/// The sections that are read of a file, and the fault that ends them, are those into which its
/// bytes fall, head and body behind head and body; they fall into no others.
pub fn sections_tile()
    ensures { SectionsTile }
{}
