// Which home a scheduler gives each component.
ghost use Rattle.std.specs.Prelude.{◌≡◌, ◌≤◌, length, map, Some, None, IfOk};
ghost use Rattle.std.specs.Prelude.{if◌then◌else◌, option_map};
ghost use Rattle.cy_sched.specs.Placing.{choreography_home, classic_home, home_at, home_of};
ghost use Rattle.cy_sched.specs.Placing.{homes_of, in_group, is_named, last_priority};

use crate::home::Home;
use crate::{Group, PinTask, Sched, Task};
use cy_msg::Text;
use std::alloc::{AllocError, Global};

// The greatest priority in a group.
const MOST_PRIORITY: u32 = 19;

// The homes of components with these names.
pub(crate) fn homes(alloc: Global, sched: &Sched, names: &[Text]) -> Result<Vec<Home>, AllocError>
    ensures { IfOk result (λ hs. hs.items ≡ homes_of sched.now names.now) }
{
    let mut homes = Vec::new(alloc);
    for name in names {
        homes.push(home(sched, name.as_str()))?;
    }
    Ok(homes)
}

// The home of a component with this name.
fn home(sched: &Sched, name: &str) -> Home
    ensures { result ≡ home_of sched.now name.now }
{
    match sched {
        Sched::Classic { groups, .. } => classic_home(groups.as_slice(), name),
        Sched::Choreography {
            processors,
            tasks,
            ..
        } => choreography_home(*processors, tasks.as_slice(), name),
    }
}

// A home in a group of tasks with queues for each priority.
fn in_group(context: usize, priority: u32) -> Home
    ensures { result ≡ in_group context priority }
{
    Home {
        context,
        priority: priority.min(MOST_PRIORITY),
    }
}

// The home that the last group with a task that names a component gives it.
#[tactic(auto, unfolding(crate::specs::Placing::classic_home))]
fn classic_home(groups: &[Group], name: &str) -> Home
    ensures { result ≡ classic_home groups.now name.now }
{
    let mut home = None;
    for (place, group) in groups.iter().enumerate() {
        home = group_home(group, place, name).or(home);
    }
    home.unwrap_or(in_group(0, 0))
}

// The home that a group with this number gives a component, where it has a task that names it.
fn group_home(group: &Group, number: usize, name: &str) -> Option<Home>
    ensures { result ≡ option_map (in_group number) (last_priority group.now.tasks name.now) }
{
    match last_priority(group.tasks.as_slice(), name) {
        Some(priority) => Some(in_group(number, priority)),
        None => None,
    }
}

// The priority that the last task that names a component gives it.
#[tactic(auto, unfolding(crate::specs::Placing::last_priority))]
fn last_priority(tasks: &[Task], name: &str) -> Option<u32>
    ensures { result ≡ last_priority tasks.now name.now }
{
    let mut priority = None;
    for task in tasks {
        priority = priority_of(task, name).or(priority);
    }
    priority
}

// The priority that a task gives a component, where it names it.
fn priority_of(task: &Task, name: &str) -> Option<u32>
    ensures { result ≡ (if is_named task.now.name name.now then Some task.now.prio else None) }
{
    if is_named(task.name.as_str(), name) {
        Some(task.prio)
    } else {
        None
    }
}

// Whether a task of a name names a component.
fn is_named(task: &str, name: &str) -> bool
    ensures { result ≡ is_named task.now name.now }
{
    !task.is_empty() && task == name
}

// The home that the last task of a choreography that names a component gives it.
#[tactic(auto, unfolding(crate::specs::Placing::choreography_home))]
fn choreography_home(processors: u32, tasks: &[PinTask], name: &str) -> Home
    ensures { result ≡ choreography_home processors tasks.now name.now }
{
    let mut home = None;
    for task in tasks {
        home = pin_home(processors, task, name).or(home);
    }
    home.unwrap_or(in_group(processors as usize, 0))
}

// The home that a task of a choreography gives a component, where it names it.
fn pin_home(processors: u32, task: &PinTask, name: &str) -> Option<Home>
    ensures { result ≡ (if is_named task.now.name name.now
        then Some (home_at processors task.now.prio task.now.processor) else None) }
{
    if is_named(task.name.as_str(), name) {
        Some(home_at(processors, task.prio, task.processor))
    } else {
        None
    }
}

// The processor that a task names, where there is such a one, and else the pool.
fn home_at(processors: u32, priority: u32, processor: i32) -> Home
    ensures { result ≡ home_at processors priority processor }
{
    let pool = in_group(processors as usize, priority);
    if processor < 0 {
        return pool;
    }
    let context = processor as u32;
    if context < processors {
        Home {
            context: context as usize,
            priority,
        }
    } else {
        pool
    }
}
