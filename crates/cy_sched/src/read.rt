// Reads a scheduler file.
ghost use Rattle.std.specs.Prelude.{[], codes, unwrap_or, false, ◌≡◌, ◌==◌, ◌^◌, ◌≤◌, ◌<◌, length};
ghost use Rattle.std.specs.Prelude.{map, Some, None, IfOk, IfErr, OnOk};
ghost use Rattle.cy_text.specs.Fields.{Nothing, size_of};
ghost use Rattle.cy_config.specs.Lookups.{messages_under, text_under, u32_under};
ghost use Rattle.cy_config.specs.Refusals.{first_repeated};
ghost use Rattle.cy_sched.specs.Refusals.{IsDue};
ghost use Rattle.cy_sched.specs.SchedFile.{IsNoGroup, IsPlaceable, at_least_one};
ghost use Rattle.cy_sched.specs.SchedFile.{choreography_refusal, classic_refusal, conf_refusal};
ghost use Rattle.cy_sched.specs.SchedFile.{default_group, default_processors, group_of, groups_of};
ghost use Rattle.cy_sched.specs.SchedFile.{groups_refusal, message_in, no_group, pin_tasks};
ghost use Rattle.cy_sched.specs.SchedFile.{pin_task_of, sched_in};
ghost use Rattle.cy_sched.specs.SchedFile.{pinned_processors, pool_processors, processors_of};
ghost use Rattle.cy_sched.specs.SchedFile.{sched_of, sched_refusal, task_of};
ghost use Rattle.cy_sched.specs.declared.error.SchedError.TheVariants as sched_error;
ghost use Rattle.cy_sched.specs.declared.sched.Sched.TheVariants as sched;

use crate::format::SchedMessage;
use crate::{Group, PinTask, Sched, SchedError, Task};
use cy_config::{check, i32_under, message_under, messages_under, text_under, u32_under};
use cy_msg::{Items, MOST_PROCESSORS, NamesError, Text};
use cy_text::Tree;
use std::alloc::Global;
use std::collections::HashSet;

/// The scheduler that a file describes. Its errors come in the order of [`SchedError`], and the
/// first one that is due is answered.
pub fn read_sched(alloc: Global, tree: &Tree) -> Result<Sched, SchedError>
    requires { size_of tree.now ≤ 4294967295 }
    ensures accepted { IfOk result (λ s.
        (sched_refusal tree.now ≡ None) × (s ≡ sched_of tree.now)) }
    ensures placeable { IfOk result IsPlaceable }
    ensures refused { IfErr result (IsDue (sched_refusal tree.now)) }
{
    let unknown = check(alloc, SchedMessage::File, tree)?;
    let none = Tree::new(alloc);
    let sched = by_policy(
        alloc,
        message_or(tree, "scheduler_conf", &none),
        &none,
        unknown,
    );
    drop(none);
    sched
}

// The scheduler that a configuration describes, by its policy.
fn by_policy(
    alloc: Global,
    conf: &Tree,
    none: &Tree,
    unknown: Items<Text>,
) -> Result<Sched, SchedError>
    requires few { size_of conf.now ≤ 4294967295 }
    requires none { none.now ≡ Nothing }
    ensures accepted { IfOk result (λ s.
        (conf_refusal conf.now ≡ None) × (s ≡ sched_in conf.now unknown)) }
    ensures placeable { IfOk result IsPlaceable }
    ensures refused { IfErr result (IsDue (conf_refusal conf.now)) }
{
    match text_under(conf, "policy").unwrap_or("classic") {
        "classic" => classic(alloc, conf, unknown),
        "choreography" => {
            choreography(alloc, message_or(conf, "choreography_conf", none), unknown)
        }
        policy => {
            drop(unknown);
            Err(unknown_policy(alloc, policy))
        }
    }
}

// A policy that isn't known, or want of memory.
fn unknown_policy(alloc: Global, policy: &str) -> SchedError
    ensures { IsDue (Some (sched_error.UnknownPolicy policy.now)) result }
{
    match Text::new(alloc, policy) {
        Ok(policy) => SchedError::UnknownPolicy { policy },
        Err(_) => SchedError::Memory,
    }
}

// The message under a name, or an empty one in its place.
fn message_or<'a>(tree: &'a Tree, name: &str, none: &'a Tree) -> &'a Tree
    requires { none.now ≡ Nothing }
    ensures message { result.now ≡ message_in name.now tree.now }
    ensures size { size_of result.now ≤ size_of tree.now }
{
    match message_under(tree, name) {
        Some(message) => message,
        None => none,
    }
}

// The groups of a classic file.
fn classic(alloc: Global, conf: &Tree, unknown: Items<Text>) -> Result<Sched, SchedError>
    requires { size_of conf.now ≤ 4294967295 }
    ensures accepted { IfOk result (λ s. (classic_refusal conf.now ≡ None)
        × (s ≡ sched.Classic (groups_of conf.now) unknown)) }
    ensures placeable { IfOk result IsPlaceable }
    ensures refused { IfErr result (IsDue (classic_refusal conf.now)) }
{
    match tested_groups(alloc, conf) {
        Ok(groups) => Ok(Sched::Classic {
            groups: Items::new(groups),
            unknown,
        }),
        Err(error) => {
            drop(unknown);
            Err(error)
        }
    }
}

// The groups of a classic file, which are tested.
fn tested_groups(alloc: Global, conf: &Tree) -> Result<Vec<Group>, SchedError>
    requires { size_of conf.now ≤ 4294967295 }
    ensures accepted { IfOk result (λ gs. (classic_refusal conf.now ≡ None)
        × (gs.items ≡ groups_of conf.now)) }
    ensures placeable { IfOk result (λ gs. (1 ≤ length gs.items) × (processors_of gs.items ≤ 64)) }
    ensures refused { IfErr result (IsDue (classic_refusal conf.now)) }
{
    let groups = groups(alloc, conf)?;
    match test_groups(alloc, &groups) {
        Ok(()) => Ok(groups),
        Err(error) => {
            drop(groups);
            Err(error)
        }
    }
}

// Whether groups have names of their own, and not too many processors.
fn test_groups(alloc: Global, groups: &[Group]) -> Result<(), SchedError>
    requires { processors_of groups.now < 2 ^ 64 }
    ensures accepted { OnOk result (groups_refusal groups.now ≡ None) }
    ensures few { OnOk result (processors_of groups.now ≤ 64) }
    ensures refused { IfErr result (IsDue (groups_refusal groups.now)) }
{
    if let Some(name) = repeated_name(alloc, groups)? {
        return Err(SchedError::GroupTwice { name });
    }
    let count = processors(groups);
    if count > u64::from(MOST_PROCESSORS) {
        return Err(SchedError::TooManyProcessors { count });
    }
    Ok(())
}

// A choreography.
fn choreography(alloc: Global, conf: &Tree, unknown: Items<Text>) -> Result<Sched, SchedError>
    ensures accepted { IfOk result (λ s. (choreography_refusal conf.now ≡ None)
        × (s ≡ sched.Choreography (pinned_processors conf.now) (pool_processors conf.now)
        (pin_tasks conf.now) unknown)) }
    ensures placeable { IfOk result IsPlaceable }
    ensures refused { IfErr result (IsDue (choreography_refusal conf.now)) }
{
    let processors = u32_under(conf, "choreography_processor_num").unwrap_or(0);
    let pool = at_least_one(u32_under(conf, "pool_processor_num"));
    let count = u64::from(processors) + u64::from(pool);
    if count > u64::from(MOST_PROCESSORS) {
        return Err(SchedError::TooManyProcessors { count });
    }
    Ok(Sched::Choreography {
        processors,
        pool,
        tasks: Items::new(pinned_tasks(alloc, conf)?),
        unknown,
    })
}

// A number of processors: none is read as one.
fn at_least_one(number: Option<u32>) -> u32
    ensures { result ≡ at_least_one number }
{
    match number {
        Some(number) if number > 0 => number,
        _ => 1,
    }
}

// The groups that are written, or the default one in their place.
fn groups(alloc: Global, conf: &Tree) -> Result<Vec<Group>, SchedError>
    requires { size_of conf.now ≤ 4294967295 }
    ensures groups { IfOk result (λ found. found.items ≡ groups_of conf.now) }
    ensures few { IfOk result (λ found. length found.items ≤ 4294967295) }
    ensures some { OnOk result (no_group conf.now ≡ false) }
    ensures refused { IfErr result (λ e. IsNoGroup (no_group conf.now) e) }
{
    let none = Tree::new(alloc);
    let written = written(alloc, message_or(conf, "classic_conf", &none));
    drop(none);
    let mut groups = written?;
    if groups.is_empty() {
        groups.push(default_group(alloc, conf)?)?;
    }
    Ok(groups)
}

// The group that stands where none is written.
fn default_group(alloc: Global, conf: &Tree) -> Result<Group, SchedError>
    ensures group { IfOk result (λ g. g ≡ default_group (default_processors conf.now)) }
    ensures some { OnOk result ((default_processors conf.now == 0) ≡ false) }
    ensures refused { IfErr result (IsNoGroup (default_processors conf.now == 0)) }
{
    let processors = u32_under(conf, "default_proc_num").unwrap_or(0);
    if processors == 0 {
        return Err(SchedError::NoGroup);
    }
    Ok(Group {
        name: Text::new(alloc, "default_grp")?,
        processors,
        tasks: Items::new(Vec::new(alloc)),
    })
}

// The groups that are written.
fn written(alloc: Global, classic: &Tree) -> Result<Vec<Group>, NamesError>
    ensures groups { IfOk result (λ found. found.items
        ≡ map group_of (messages_under (codes "groups") classic.now)) }
    ensures few { IfOk result (λ found. length found.items ≤ size_of classic.now) }
{
    let mut groups = Vec::new(alloc);
    for fields in &messages_under(alloc, classic, "groups")? {
        groups.push(group(alloc, fields)?)?;
    }
    Ok(groups)
}

// A group.
fn group(alloc: Global, fields: &Tree) -> Result<Group, NamesError>
    ensures { IfOk result (λ g. g ≡ group_of fields.now) }
{
    Ok(Group {
        name: name(alloc, fields)?,
        processors: at_least_one(u32_under(fields, "processor_num")),
        tasks: Items::new(tasks(alloc, fields)?),
    })
}

// The tasks of a group.
fn tasks(alloc: Global, group: &Tree) -> Result<Vec<Task>, NamesError>
    ensures { IfOk result (λ found. found.items
        ≡ map task_of (messages_under (codes "tasks") group.now)) }
{
    let mut tasks = Vec::new(alloc);
    for fields in &messages_under(alloc, group, "tasks")? {
        tasks.push(task(alloc, fields)?)?;
    }
    Ok(tasks)
}

// A task of a group.
fn task(alloc: Global, fields: &Tree) -> Result<Task, NamesError>
    ensures { IfOk result (λ t. t ≡ task_of fields.now) }
{
    Ok(Task {
        name: name(alloc, fields)?,
        prio: priority(fields),
    })
}

// The tasks of a choreography.
fn pinned_tasks(alloc: Global, choreography: &Tree) -> Result<Vec<PinTask>, NamesError>
    ensures { IfOk result (λ found. found.items ≡ pin_tasks choreography.now) }
{
    let mut tasks = Vec::new(alloc);
    for fields in &messages_under(alloc, choreography, "tasks")? {
        tasks.push(pinned_task(alloc, fields)?)?;
    }
    Ok(tasks)
}

// A task of a choreography.
fn pinned_task(alloc: Global, fields: &Tree) -> Result<PinTask, NamesError>
    ensures { IfOk result (λ t. t ≡ pin_task_of fields.now) }
{
    Ok(PinTask {
        name: name(alloc, fields)?,
        processor: i32_under(fields, "processor").unwrap_or(-1),
        prio: priority(fields),
    })
}

// The name that a message gives, empty where it gives none.
fn name(alloc: Global, fields: &Tree) -> Result<Text, NamesError>
    ensures { IfOk result (λ name. name
        ≡ unwrap_or (text_under (codes "name") fields.now) []) }
{
    Text::new(alloc, text_under(fields, "name").unwrap_or(""))
}

// The priority that a message gives: 1 where it gives none.
fn priority(fields: &Tree) -> u32
    ensures { result ≡ unwrap_or (u32_under (codes "prio") fields.now) 1 }
{
    u32_under(fields, "prio").unwrap_or(1)
}

// The first name of a group that stands a second time.
fn repeated_name(alloc: Global, groups: &[Group]) -> Result<Option<Text>, NamesError>
    ensures { IfOk result (λ name. name ≡ first_repeated (map (λ g. g.name) groups.now)) }
{
    let mut names = HashSet::new(alloc);
    for group in groups {
        let name = group.name.as_str();
        if !names.insert(name)? {
            return Ok(Some(Text::new(alloc, name)?));
        }
    }
    Ok(None)
}

// How many processors groups have, together.
fn processors(groups: &[Group]) -> u64
    requires { processors_of groups.now < 2 ^ 64 }
    ensures { result ≡ processors_of groups.now }
{
    groups.iter().map(|group| u64::from(group.processors)).sum()
}
