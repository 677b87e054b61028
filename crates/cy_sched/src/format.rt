// The fields of a scheduler file.
ghost use Rattle.std.specs.Prelude.{◌≡◌};
ghost use Rattle.cy_sched.specs.Format.{sched_field};
ghost use Rattle.cy_sched.specs.declared.format.SchedMessage.TheVariants.{Choreography, Classic};
ghost use Rattle.cy_sched.specs.declared.format.SchedMessage.TheVariants.{File, Group, PinTask};
ghost use Rattle.cy_sched.specs.declared.format.SchedMessage.TheVariants.{Scheduler, Task};

use cy_config::{Described, Field, Kind};

// The messages of a scheduler file.
#[derive(Clone, Copy)]
pub enum SchedMessage {
    File,
    Scheduler,
    Classic,
    Group,
    Task,
    Choreography,
    PinTask,
}

impl Described for SchedMessage {
    ghost field = { sched_field };

    fn field(self, name: &str) -> Option<Field<SchedMessage>> {
        match self {
            SchedMessage::File => file_field(name),
            SchedMessage::Scheduler => scheduler_field(name),
            SchedMessage::Classic => classic_field(name),
            SchedMessage::Group => group_field(name),
            SchedMessage::Task => task_field(name),
            SchedMessage::Choreography => choreography_field(name),
            SchedMessage::PinTask => pin_task_field(name),
        }
    }
}

// The file itself.
fn file_field(name: &str) -> Option<Field<SchedMessage>>
    ensures { result ≡ sched_field File name.now }
{
    match name {
        "scheduler_conf" => Some(Field::single(Kind::Message(SchedMessage::Scheduler))),
        _ => None,
    }
}

// `scheduler_conf`.
fn scheduler_field(name: &str) -> Option<Field<SchedMessage>>
    ensures { result ≡ sched_field Scheduler name.now }
{
    match name {
        "policy" => Some(Field::single(Kind::Text)),
        "routine_num" => Some(Field::single(Kind::Anything)),
        "default_proc_num" => Some(Field::single(Kind::u32())),
        "process_level_cpuset" => Some(Field::single(Kind::Anything)),
        "threads" => Some(Field::repeated(Kind::Anything)),
        "classic_conf" => Some(Field::single(Kind::Message(SchedMessage::Classic))),
        "choreography_conf" => Some(Field::single(Kind::Message(SchedMessage::Choreography))),
        _ => None,
    }
}

// `classic_conf`.
fn classic_field(name: &str) -> Option<Field<SchedMessage>>
    ensures { result ≡ sched_field Classic name.now }
{
    match name {
        "groups" => Some(Field::repeated(Kind::Message(SchedMessage::Group))),
        _ => None,
    }
}

// One of `groups`.
fn group_field(name: &str) -> Option<Field<SchedMessage>>
    ensures { result ≡ sched_field Group name.now }
{
    match name {
        "name" => Some(Field::single(Kind::Text)),
        "processor_num" => Some(Field::single(Kind::u32())),
        "affinity" => Some(Field::single(Kind::Anything)),
        "cpuset" => Some(Field::single(Kind::Anything)),
        "processor_policy" => Some(Field::single(Kind::Anything)),
        "processor_prio" => Some(Field::single(Kind::Anything)),
        "tasks" => Some(Field::repeated(Kind::Message(SchedMessage::Task))),
        _ => None,
    }
}

// One of the `tasks` of a group.
fn task_field(name: &str) -> Option<Field<SchedMessage>>
    ensures { result ≡ sched_field Task name.now }
{
    match name {
        "name" => Some(Field::single(Kind::Text)),
        "prio" => Some(Field::single(Kind::u32())),
        "group_name" => Some(Field::single(Kind::Anything)),
        _ => None,
    }
}

// `choreography_conf`.
fn choreography_field(name: &str) -> Option<Field<SchedMessage>>
    ensures { result ≡ sched_field Choreography name.now }
{
    match name {
        "choreography_processor_num" => Some(Field::single(Kind::u32())),
        "choreography_affinity" => Some(Field::single(Kind::Anything)),
        "choreography_cpuset" => Some(Field::single(Kind::Anything)),
        "choreography_processor_policy" => Some(Field::single(Kind::Anything)),
        "choreography_processor_prio" => Some(Field::single(Kind::Anything)),
        "pool_processor_num" => Some(Field::single(Kind::u32())),
        "pool_affinity" => Some(Field::single(Kind::Anything)),
        "pool_cpuset" => Some(Field::single(Kind::Anything)),
        "pool_processor_policy" => Some(Field::single(Kind::Anything)),
        "pool_processor_prio" => Some(Field::single(Kind::Anything)),
        "tasks" => Some(Field::repeated(Kind::Message(SchedMessage::PinTask))),
        _ => None,
    }
}

// One of the `tasks` of a choreography.
fn pin_task_field(name: &str) -> Option<Field<SchedMessage>>
    ensures { result ≡ sched_field PinTask name.now }
{
    match name {
        "name" => Some(Field::single(Kind::Text)),
        "processor" => Some(Field::single(Kind::i32())),
        "prio" => Some(Field::single(Kind::u32())),
        _ => None,
    }
}
