// The configuration files: their names and texts.
ghost use Rattle.std.specs.Prelude.{◌≡◌, IfOk, IsOkUnless};
ghost use Rattle.cy_make.specs.Texts.{suffix_of, text_of};

use crate::MakeError;
use crate::dag::dag_tree;
use cy_msg::Bytes;
use cy_text::print;
use std::alloc::Global;

/// A configuration file that is made.
#[derive(Clone, Copy, Debug, PartialEq, Eq)]
pub enum Config {
    /// The file of the component that sums both channels of the record.
    Adder,
    /// The file of the one that lets through what of the sums is not too great.
    Band,
    /// The file of the one that sums the last eight of these.
    Last8,
    /// The file of the one that sends messages later.
    Late,
    /// The DAG file.
    Dag,
}

impl Config {
    /// What stands behind the prefix in its name.
    pub fn suffix(self) -> &'static str
        ensures { result.now ≡ suffix_of self }
    {
        match self {
            Config::Adder => ".adder.conf",
            Config::Band => ".band.conf",
            Config::Last8 => ".last8.conf",
            Config::Late => ".late.conf",
            Config::Dag => ".dag",
        }
    }

    /// Its text, where the names of all files begin with a prefix. It refuses for want of memory
    /// alone.
    pub fn text(self, alloc: Global, prefix: &str) -> Result<Bytes, MakeError>
        ensures text { IfOk result (λ b. b ≡ text_of prefix.now self) }
        ensures only_memory { IsOkUnless result MakeError.Memory }
    {
        let text = match self {
            Config::Adder => "out: \"/sum\"\n",
            Config::Band => "out: \"/band\"\nlo: -2000\nhi: 500\n",
            Config::Last8 => "out: \"/win\"\nn: 8\n",
            Config::Late => "out: \"/late\"\ndelay: 5000000\n",
            Config::Dag => return dag_text(alloc, prefix),
        };
        Ok(Bytes::from_vec(text.as_bytes().to_vec(alloc)?))
    }
}

// The text of the DAG file.
fn dag_text(alloc: Global, prefix: &str) -> Result<Bytes, MakeError>
    ensures text { IfOk result (λ b. b ≡ text_of prefix.now Config.Dag) }
    ensures only_memory { IsOkUnless result MakeError.Memory }
{
    let tree = dag_tree(alloc, prefix)?;
    match print(alloc, &tree) {
        Ok(text) => Ok(text),
        Err(_) => Err(MakeError::Memory),
    }
}
