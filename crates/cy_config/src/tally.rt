// How often names came.
ghost use Rattle.std.specs.Prelude.{◌≡◌, ◌<◌, [], IfOk, OnOk};
ghost use Rattle.std.specs.List.{position};
ghost use Rattle.std.specs.Str.{bytes_eq};
ghost use Rattle.cy_config.specs.private.Tallies.{Counts, times_of};

use std::alloc::{AllocError, Global};

// A name, and how often it came.
#[derive(Clone, Copy)]
pub(crate) struct Met<'a> {
    name: &'a str,
    times: usize,
}

// How often each of a few names came.
#[derive(Drop)]
pub(crate) struct Tally<'a> {
    met: Vec<Met<'a>>,
}

impl<'a> Tally<'a> {
    // No name came.
    pub(crate) fn new(alloc: Global) -> Self
        ensures { result.met.items ≡ [] }
    {
        Tally {
            met: Vec::new(alloc),
        }
    }

    // Counts a name once more, and answers how often it came before.
    pub(crate) fn next(&mut self, name: &'a str) -> Result<usize, AllocError>
        requires { times_of self.old.met.items name.now < usize.MAX }
        ensures before { IfOk result (λ n. n ≡ times_of self.old.met.items name.now) }
        ensures counted { OnOk result (Counts self.old.met.items self.new.met.items name.now) }
    {
        match place_of(self.met.as_slice(), name) {
            Some(place) => {
                let times = self.met[place].times;
                self.met[place].times = times + 1;
                Ok(times)
            }
            None => {
                self.met.push(Met { name, times: 1 })?;
                Ok(0)
            }
        }
    }
}

// The first place of a name.
fn place_of(met: &[Met<'_>], name: &str) -> Option<usize>
    ensures { result ≡ position (λ m. bytes_eq m.name.now name.now) met.now }
{
    met.iter().position(|met| met.name == name)
}
