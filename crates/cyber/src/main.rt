//! The program `cyber`: it plays recorded messages through components.
#![tactic(auto)]

use cy_args::machine_words;
use cy_run::OpenGate;
use cy_store::{RealSink, RealStore};
use cyber_cli::{Status, cyber};
use std::process::ExitCode;

fn main(rt: HostRuntime) -> ExitCode {
    let Ok(words) = machine_words(&rt) else {
        return ExitCode::from(Status::Memory.code());
    };
    let mut store = RealStore::new(&rt);
    let mut out = RealSink::new(rt.stdout());
    let mut err = RealSink::new(rt.stderr());
    let status = cyber(
        &rt,
        rt.alloc(),
        &words,
        &mut store,
        &mut out,
        &mut err,
        &OpenGate,
    );
    ExitCode::from(status.code())
}
