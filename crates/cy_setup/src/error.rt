// Why a replay can't be set up.
ghost use Rattle.std.specs.Prelude.{◌≡◌, ◌⊎◌, ◌++◌, codes, IfOk, OnOk};
ghost use Rattle.std.specs.Fmt.{decimal};
ghost use Rattle.cy_setup.specs.FaultText.{fault_text, is_limit, refusal_line};
ghost use Rattle.cy_setup.specs.Steps.{IsFault, IsRecordFault, answers_fault, dag_fault};
ghost use Rattle.cy_setup.specs.Steps.{sched_fault};
ghost use Rattle.cy_setup.specs.declared.error.SetupError.TheVariants as setup_error;

use cy_answers::AnswersError;
use cy_dag::DagError;
use cy_msg::{Bytes, NamesError, Text, push_file, push_limit, push_named, push_number};
use cy_reader::LoadError;
use cy_sched::SchedError;
use cy_text::TextError;
use std::alloc::{AllocError, AllocFailed, Global};

/// What is wrong with a file.
#[derive(Drop)]
pub enum Fault {
    /// A configuration file is longer than any that is read.
    ConfigTooLarge {
        /// Its bytes.
        count: u64,
    },
    /// A configuration file isn't in the text form.
    Text(TextError),
    /// A DAG file or a component file is refused, or the components can't be wired.
    Dag(DagError),
    /// A scheduler file is refused.
    Sched(SchedError),
    /// A record has no answers for the component whose file names it.
    Answers(AnswersError),
    /// No component has the name that a stop gives.
    StopUnknown {
        /// This name.
        name: Text,
    },
    /// A record is refused, or more of its messages would be played than can be.
    Record(LoadError),
    /// Playing a record would come to more entries than a run keeps.
    TooMany {
        /// Their number.
        count: u64,
    },
    /// The text of a trace is longer than any that is read.
    TraceTooLarge {
        /// Its bytes.
        count: u64,
    },
    /// A text is no trace.
    BadLine {
        /// The first line, from 1, with which the lines so far are a prefix of no trace.
        line: u32,
    },
    /// No lawful run has a trace.
    Unlawful,
    /// A file that is to be written is also one that is read or written under another name.
    Also {
        /// This name.
        name: Text,
    },
    /// The type of a channel is another one in a record that is joined to others.
    TypesDiffer {
        /// The name of the channel.
        name: Text,
    },
    /// And so is its description.
    DescriptionsDiffer {
        /// The name of the channel.
        name: Text,
    },
    /// A record is another than that of a run.
    Differs {
        /// The first place, from 0, at which it differs.
        place: u64,
    },
}

// The text of a bad line, at the end of others.
fn push_bad_line(to: &mut Vec<u8>, line: u32) -> Result<(), AllocError>
    ensures { OnOk result (to.new.items ≡ to.old.items ++ (codes "line " ++ decimal line
        ++ codes ": Bad")) }
{
    push_number(to, "line ", u64::from(line))?;
    to.extend_from_slice(b": Bad")
}

// The text that a file is also another one, at the end of others.
fn push_also(to: &mut Vec<u8>, name: &str) -> Result<(), AllocError>
    ensures { OnOk result (to.new.items ≡ to.old.items ++ (codes "is also " ++ name.now)) }
{
    to.extend_from_slice(b"is also ")?;
    to.extend_from_slice(name.as_bytes())
}

impl Fault {
    /// Adds its text to others. The only error is want of memory.
    pub fn push_to(&self, to: &mut Vec<u8>) -> Result<(), AllocError>
        ensures { OnOk result (to.new.items ≡ to.old.items ++ fault_text self.now) }
    {
        match self {
            Fault::ConfigTooLarge { count } => push_limit(to, "ConfigTooLarge", *count),
            Fault::Text(error) => error.push_to(to),
            Fault::Dag(error) => error.push_to(to),
            Fault::Sched(error) => error.push_to(to),
            Fault::Answers(error) => error.push_to(to),
            Fault::StopUnknown { name } => push_named(to, "StopUnknown", &[], name),
            Fault::Record(error) => error.push_to(to),
            Fault::TooMany { count } => push_limit(to, "TooMany", *count),
            Fault::TraceTooLarge { count } => push_limit(to, "TraceTooLarge", *count),
            Fault::BadLine { line } => push_bad_line(to, *line),
            Fault::Unlawful => to.extend_from_slice(b"not a lawful run"),
            Fault::Also { name } => push_also(to, name.as_str()),
            Fault::TypesDiffer { name } => push_named(to, "TypesDiffer", &[], name),
            Fault::DescriptionsDiffer { name } => {
                push_named(to, "DescriptionsDiffer", &[], name)
            }
            Fault::Differs { place } => push_number(to, "differs at ", *place),
        }
    }

    /// Whether it is a limit that was passed.
    pub fn is_limit(&self) -> bool
        ensures { result ≡ is_limit self.now }
    {
        match self {
            Fault::ConfigTooLarge { .. } => true,
            Fault::Text(error) => error.is_limit(),
            Fault::Dag(error) => error.is_limit(),
            Fault::Sched(error) => error.is_limit(),
            Fault::Answers(error) => error.is_limit(),
            Fault::StopUnknown { .. } => false,
            Fault::Record(error) => error.is_limit(),
            Fault::TooMany { .. } => true,
            Fault::TraceTooLarge { .. } => true,
            Fault::BadLine { .. } => false,
            Fault::Unlawful => false,
            Fault::Also { .. } => false,
            Fault::TypesDiffer { .. } => false,
            Fault::DescriptionsDiffer { .. } => false,
            Fault::Differs { .. } => false,
        }
    }
}

/// A file that is refused.
#[derive(Drop)]
pub struct Refusal {
    /// Its name.
    pub file: Text,
    /// What is wrong with it.
    pub fault: Fault,
}

impl Refusal {
    // Its line, at the end of others.
    fn push_to(&self, to: &mut Vec<u8>) -> Result<(), AllocError>
        ensures { OnOk result (to.new.items ≡ to.old.items ++ refusal_line self.now) }
    {
        push_file(to, self.file.as_str())?;
        self.fault.push_to(to)?;
        to.push(b'\n')?;
        Ok(())
    }

    /// The line that tells it. The only error is want of memory.
    pub fn line(&self, alloc: Global) -> Result<Bytes, AllocError>
        ensures { IfOk result (λ line. line ≡ refusal_line self.now) }
    {
        let mut line = Vec::new(alloc);
        self.push_to(&mut line)?;
        Ok(Bytes::from_vec(line))
    }
}

/// Why a replay can't be set up.
#[derive(Drop)]
pub enum SetupError {
    /// A file is refused.
    Refused(Refusal),
    /// The store failed.
    Store {
        /// The name of the file whose call failed.
        file: Text,
    },
    /// There is no memory.
    Memory,
}

impl From<AllocError> for SetupError {
    ghost from_gives = { λ _ e. e ≡ setup_error.Memory };

    fn from(_: AllocError) -> Self {
        SetupError::Memory
    }
}

impl<T: Drop> From<AllocFailed<T>> for SetupError {
    ghost from_gives = { λ _ e. e ≡ setup_error.Memory };

    fn from(_: AllocFailed<T>) -> Self {
        SetupError::Memory
    }
}

impl From<NamesError> for SetupError {
    ghost from_gives = { λ _ e. e ≡ setup_error.Memory };

    fn from(_: NamesError) -> Self {
        SetupError::Memory
    }
}

/// A fault of a file, or want of memory for its name.
pub fn refused(alloc: Global, file: &str, fault: Fault) -> SetupError
    ensures { (result ≡ setup_error.Memory)
        ⊎ (result ≡ setup_error.Refused record { file = file.now; fault = fault }) }
{
    match Text::new(alloc, file) {
        Ok(file) => SetupError::Refused(Refusal { file, fault }),
        Err(_) => SetupError::Memory,
    }
}

/// A file at which the store failed, or want of memory for its name.
pub fn failed(alloc: Global, file: &str) -> SetupError
    ensures { (result ≡ setup_error.Memory) ⊎ (result ≡ setup_error.Store file.now) }
{
    match Text::new(alloc, file) {
        Ok(file) => SetupError::Store { file },
        Err(_) => SetupError::Memory,
    }
}

/// A fault of a DAG or a component file.
pub(crate) fn dag_fault(alloc: Global, file: &str, fault: DagError) -> SetupError
    ensures { IsFault file.now (dag_fault fault) result }
{
    match fault {
        DagError::Memory => SetupError::Memory,
        fault => refused(alloc, file, Fault::Dag(fault)),
    }
}

/// A fault of a scheduler file.
pub(crate) fn sched_fault(alloc: Global, file: &str, fault: SchedError) -> SetupError
    ensures { IsFault file.now (sched_fault fault) result }
{
    match fault {
        SchedError::Memory => SetupError::Memory,
        fault => refused(alloc, file, Fault::Sched(fault)),
    }
}

/// A fault of the answers of a component.
pub(crate) fn answers_fault(alloc: Global, file: &str, fault: AnswersError) -> SetupError
    ensures { IsFault file.now (answers_fault fault) result }
{
    match fault {
        AnswersError::Memory => SetupError::Memory,
        fault => refused(alloc, file, Fault::Answers(fault)),
    }
}

/// A fault of a record.
pub(crate) fn record_fault(alloc: Global, file: &str, fault: LoadError) -> SetupError
    ensures { IsRecordFault file.now fault result }
{
    match fault {
        LoadError::Memory => SetupError::Memory,
        LoadError::Store => failed(alloc, file),
        fault => refused(alloc, file, Fault::Record(fault)),
    }
}
