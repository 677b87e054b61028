// Channel names and their numbers.
ghost use Rattle.std.specs.Prelude.{◌≡◌, ◌<◌, ◌≤◌, ◌++◌, ◌∷◌, ◌⊎◌, [], List, length, slice_get};
ghost use Rattle.std.specs.Prelude.{IfOk, OnOk, OnErr, IsOk, IsErrOf, IfSome, IsNone, ◌↔◌};
ghost use Rattle.std.specs.List.{Contains, position};
ghost use Rattle.std.specs.Str.{bytes_eq};
ghost use Rattle.cy_msg.specs.Names.{AddAnswer};
ghost use Rattle.cy_msg.specs.Once.{IsOnce};

use crate::{NamesError, Text};
use std::alloc::Global;
use std::marker::Model;

/// The most names that [`Names`] keeps.
pub const MOST_NAMES: usize = 1_024;

/// Channel names, which contracts see as their list, in the order of their numbers from 0. No name
/// stands twice.
#[derive(Debug, Drop)]
pub struct Names {
    names: Vec<Text>,
}

impl Model for Names {
    ghost use Rattle.std.specs.Prelude.{List, ℕ, ◌≤◌, length};
    ghost use Rattle.cy_msg.specs.Once.{IsOnce};
    ghost use Rattle.cy_msg.specs.declared.names.TheConstants.{MOST_NAMES};

    ghost Value = { List (List ℕ) };

    ghost view = { λ s. s.names.items };

    ghost invariant = { λ s. (length s.names.items ≤ MOST_NAMES) × IsOnce s.names.items };
}

impl Names {
    /// No names.
    pub fn new(alloc: Global) -> Self
        ensures { result ≡ [] }
    {
        Names {
            names: Vec::new(alloc),
        }
    }

    /// The number of a name, which is kept from now on. A name that is kept already has the number
    /// that it had, and a new one the next. `Full` says that there is no room for a new one; an
    /// error changes nothing.
    pub fn add(&mut self, alloc: Global, name: &str) -> Result<u32, NamesError>
        ensures { AddAnswer self.old self.new name.now result }
    {
        if let Some(number) = self.number_of(name) {
            return Ok(number);
        }
        let next = self.count();
        if next as usize == MOST_NAMES {
            return Err(NamesError::Full);
        }
        self.names.push(Text::new(alloc, name)?)?;
        Ok(next)
    }

    /// The number of a name, or none where it is not kept.
    pub fn number_of(&self, name: &str) -> Option<u32>
        ensures found { IfSome result (λ n. slice_get self.now n ≡ Some name.now) }
        ensures none { IsNone result ↔ ¬ (Contains self.now name.now) }
    {
        place_of(self.names.as_slice(), name).map(|place| place as u32)
    }

    /// The name of a number.
    pub fn name(&self, number: u32) -> &str
        requires { number < length self.now }
        ensures { slice_get self.now number ≡ Some result.now }
    {
        self.names[number as usize].as_str()
    }

    /// How many names there are.
    pub fn count(&self) -> u32
        ensures count { result ≡ length self.now }
        ensures most { result ≤ MOST_NAMES }
        ensures once { IsOnce self.now }
    {
        self.names.len() as u32
    }
}

// The first place of a name, by a look at each.
fn place_of(names: &[Text], name: &str) -> Option<usize>
    ensures first { result ≡ position (λ kept. bytes_eq kept name.now) names.now }
    ensures none { IsNone result ↔ ¬ (Contains names.now name.now) }
{
    names.iter().position(|kept| kept.as_str() == name)
}
