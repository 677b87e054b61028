// The classes of components: their names and their parameters.
ghost use Rattle.std.specs.Prelude.{◌≡◌, is_some, IfOk, IfErr, None};
ghost use Rattle.cy_dag.specs.Classes.{class_named, readers_needed};
ghost use Rattle.cy_dag.specs.ConfigFile.{kind_in, kind_refusal, parameter_rows};
ghost use Rattle.cy_dag.specs.Options.{field_among};
ghost use Rattle.cy_dag.specs.Refusals.{IsDue};
ghost use Rattle.cy_dag.specs.Classes.{IsKindOf};
ghost use Rattle.cy_dag.specs.declared.class.Class.TheVariants.{Filter};

use crate::DagError;
use crate::config::parameter;
use cy_comp::{Answers, Kind};
use cy_text::Tree;
use std::alloc::Global;

const MOST_U64: i128 = 18_446_744_073_709_551_615;

const LEAST_I64: i128 = -9_223_372_036_854_775_808;

const MOST_I64: i128 = 9_223_372_036_854_775_807;

// A class of components, without its parameters.
#[derive(Clone, Copy)]
pub enum Class {
    Pass,
    Filter,
    Sum,
    Count,
    Max,
    Window,
    Change,
    Select,
    Hold,
    Take,
    External,
}

impl Class {
    // The class of a name, where there is one.
    pub(crate) fn named(name: &str) -> Option<Class>
        ensures { result ≡ class_named name.now }
    {
        match name {
            "PassComponent" => Some(Class::Pass),
            "FilterComponent" => Some(Class::Filter),
            "SumComponent" => Some(Class::Sum),
            "CountComponent" => Some(Class::Count),
            "MaxComponent" => Some(Class::Max),
            "WindowComponent" => Some(Class::Window),
            "ChangeComponent" => Some(Class::Change),
            "SelectComponent" => Some(Class::Select),
            "HoldComponent" => Some(Class::Hold),
            "TakeComponent" => Some(Class::Take),
            "ExternalComponent" => Some(Class::External),
            _ => None,
        }
    }

    // How many readers a component of this class has at least.
    pub(crate) fn readers_needed(self) -> usize
        ensures { result ≡ readers_needed self }
    {
        match self {
            Class::Select => 3,
            _ => 1,
        }
    }

    // Whether it has a parameter of a name.
    pub(crate) fn has_parameter(self, name: &str) -> bool
        ensures { result ≡ is_some (field_among (parameter_rows self) name.now) }
    {
        match self {
            Class::Filter => name == "lo" || name == "hi",
            Class::Window => name == "n",
            Class::Take => name == "n",
            Class::Hold => name == "delay",
            _ => false,
        }
    }

    // The class with the parameters that a file gives it.
    pub(crate) fn kind(self, alloc: Global, tree: &Tree, component: u32) -> Result<Kind, DagError>
        ensures accepted { IfOk result (λ _. kind_refusal component self tree.now ≡ None) }
        ensures kind { IfOk result (λ kind. kind ≡ kind_in self tree.now) }
        ensures of_class { IfOk result (IsKindOf self) }
        ensures refused { IfErr result (IsDue (kind_refusal component self tree.now)) }
    {
        Ok(match self {
            Class::Pass => Kind::Pass,
            Class::Filter => return filter(alloc, tree, component),
            Class::Sum => Kind::Sum,
            Class::Count => Kind::Count,
            Class::Max => Kind::Max,
            Class::Window => Kind::Window {
                n: parameter(alloc, tree, component, "n", 1, 4_096)? as u32,
            },
            Class::Change => Kind::Change,
            Class::Select => Kind::Select,
            Class::Hold => Kind::Hold {
                delay: parameter(alloc, tree, component, "delay", 0, MOST_U64)? as u64,
            },
            Class::Take => Kind::Take {
                n: parameter(alloc, tree, component, "n", 1, 4_294_967_295)? as u32,
            },
            Class::External => Kind::External {
                answers: Answers::none(alloc)?,
            },
        })
    }
}

// A filter with its range.
fn filter(alloc: Global, tree: &Tree, component: u32) -> Result<Kind, DagError>
    ensures accepted { IfOk result (λ _. kind_refusal component Filter tree.now ≡ None) }
    ensures kind { IfOk result (λ kind. kind ≡ kind_in Filter tree.now) }
    ensures of_class { IfOk result (IsKindOf Filter) }
    ensures refused { IfErr result (IsDue (kind_refusal component Filter tree.now)) }
{
    let lo = parameter(alloc, tree, component, "lo", LEAST_I64, MOST_I64)?;
    let hi = parameter(alloc, tree, component, "hi", LEAST_I64, MOST_I64)?;
    Ok(Kind::Filter {
        lo: lo as i64,
        hi: hi as i64,
    })
}
