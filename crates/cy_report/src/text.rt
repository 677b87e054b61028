// The whole text.
ghost use Rattle.std.specs.Prelude.{◌≡◌, ◌++◌, length, IfOk, OnOk};
ghost use Rattle.cy_report.specs.CheckText.{text_of};

use crate::CheckError;
use crate::lines::{push_components, push_configs, push_contexts, push_unknown};
use cy_dag::{Config, Dag};
use cy_msg::{Bytes, Placement, Text};
use std::alloc::Global;
use std::io;
use std::io::Write;

/// A file by its name, and the paths of its fields that are not known.
#[derive(Clone, Copy)]
pub struct SchedulerFile<'a> {
    /// The file's name.
    pub file: &'a str,
    /// The paths, in the order of the file.
    pub unknown: &'a [Text],
}

/// What the configuration files of a run say, in lines: each component of a DAG with its file and
/// behind it the values that this file gives, each context of a placement, each field that is not
/// known in the DAG file, the component files and the scheduler file, and `ok`. The names of files
/// stand as they were given.
pub fn check_text(
    alloc: Global,
    dag_file: &str,
    dag: &Dag,
    configs: &[Config],
    placement: &Placement,
    scheduler: SchedulerFile<'_>,
) -> Result<Bytes, CheckError>
    requires { length configs.now ≡ length dag.now.components }
    ensures text { IfOk result (λ t. t ≡ text_of dag.now.components configs.now
        placement.now.contexts dag_file.now dag.now.unknown scheduler.entry.file.now
        scheduler.entry.unknown.now) }
{
    let mut to = Vec::new(alloc);
    match push_text(&mut to, dag_file, dag, configs, placement, scheduler) {
        Ok(()) => Ok(Bytes::from_vec(to)),
        // A write to a `Vec` fails for want of memory alone.
        Err(_) => Err(CheckError::Memory),
    }
}

// The same, added to a text.
fn push_text(
    to: &mut Vec<u8>,
    dag_file: &str,
    dag: &Dag,
    configs: &[Config],
    placement: &Placement,
    scheduler: SchedulerFile<'_>,
) -> io::Result<()>
    requires { length configs.now ≡ length dag.now.components }
    ensures { OnOk result (to.new.items ≡ to.old.items ++ text_of dag.now.components configs.now
        placement.now.contexts dag_file.now dag.now.unknown scheduler.entry.file.now
        scheduler.entry.unknown.now) }
{
    let components = dag.components.as_slice();
    push_components(to, components, configs)?;
    push_contexts(to, components, placement.contexts.as_slice())?;
    push_unknown(to, dag_file, dag.unknown.as_slice())?;
    push_configs(to, components, configs)?;
    push_unknown(to, scheduler.file, scheduler.unknown)?;
    writeln!(to, "ok")
}
