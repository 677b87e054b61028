// How a due status is told.
ghost use Rattle.std.specs.Prelude.{◌≡◌, ◌≢◌, ◌++◌, OnOk, IsErrOf, codes};
ghost use Rattle.cy_store.specs.Store.{HasSinkFault, SinkView};
ghost use Rattle.cy_commands.specs.Line.{bytes_of_line};
ghost use Rattle.cyber_cli.specs.Told.{Gets, GetsFront, IsTold};

use cy_commands::{Due, Line, OUTPUT_LINE, Status};
use cy_store::{Sink, SinkError};

// Writes the program's name, a file's name and what befell it. After an error the sink has a front
// of them.
fn write_named<O: Sink>(sink: &mut O, name: &str, what: &str) -> Result<(), SinkError>
    ensures written { OnOk result (Gets (O.shows sink.old) (O.shows sink.new) (codes "cyber: "
        ++ name.now ++ what.now)) }
    ensures failed { IsErrOf result SinkError.Failed
        → GetsFront (O.shows sink.old) (O.shows sink.new) (codes "cyber: " ++ name.now
        ++ what.now) }
    ensures memory { IsErrOf result SinkError.Memory
        → GetsFront (O.shows sink.old) (O.shows sink.new) (codes "cyber: " ++ name.now
        ++ what.now) }
    ensures cause { HasSinkFault (O.shows sink.old) (O.shows sink.new) result }
{
    sink.write("cyber: ".as_bytes())?;
    sink.write(name.as_bytes())?;
    sink.write(what.as_bytes())
}

// Writes a line to a sink. After an error the sink has a front of it.
fn write_line<O: Sink>(sink: &mut O, line: &Line) -> Result<(), SinkError>
    ensures written { OnOk result (Gets (O.shows sink.old) (O.shows sink.new)
        (bytes_of_line line.now)) }
    ensures failed { IsErrOf result SinkError.Failed
        → GetsFront (O.shows sink.old) (O.shows sink.new) (bytes_of_line line.now) }
    ensures memory { IsErrOf result SinkError.Memory
        → GetsFront (O.shows sink.old) (O.shows sink.new) (bytes_of_line line.now) }
    ensures cause { HasSinkFault (O.shows sink.old) (O.shows sink.new) result }
{
    match line {
        Line::Fixed(text) => sink.write(text.as_bytes()),
        Line::Named(name, what) => write_named(sink, name, what),
        Line::Made(bytes) => sink.write(bytes.as_slice()),
    }
}

// Writes a line as far as it can be written.
fn try_to_tell<E: Sink>(err: &mut E, text: &str)
    ensures { GetsFront (E.shows err.old) (E.shows err.new) text.now }
{
    let _told = err.write(text.as_bytes());
}

// Tells on `out` that all was done.
fn tell_done<O: Sink, E: Sink>(line: &Line, out: &mut O, err: &mut E) -> Status
    ensures { IsTold Status.Done (bytes_of_line line.now) record {
      out = O.shows out.old;
      err = E.shows err.old;
    } record { out = O.shows out.new; err = E.shows err.new } result }
{
    match write_line(out, line) {
        Ok(()) => Status::Done,
        Err(SinkError::Memory) => Status::Memory,
        Err(SinkError::Failed) => {
            try_to_tell(err, OUTPUT_LINE);
            Status::SinkFault
        }
    }
}

// Tells on `err` a status that is not Done.
fn tell_failure<E: Sink>(status: Status, line: &Line, err: &mut E) -> Status
    requires done { status ≢ Status.Done }
    requires sink { status ≢ Status.SinkFault }
    ensures { (out : SinkView) → IsTold status (bytes_of_line line.now) record {
      out = out;
      err = E.shows err.old;
    } record { out = out; err = E.shows err.new } result }
{
    match write_line(err, line) {
        Ok(()) => status,
        Err(SinkError::Memory) => Status::Memory,
        Err(SinkError::Failed) => Status::SinkFault,
    }
}

/// Tells a due status, and answers it or what befell the telling.
pub fn tell<O: Sink, E: Sink>(due: &Due, out: &mut O, err: &mut E) -> Status
    requires { due.now.status ≢ Status.SinkFault }
    ensures { IsTold due.now.status (bytes_of_line due.now.line) record {
      out = O.shows out.old;
      err = E.shows err.old;
    } record { out = O.shows out.new; err = E.shows err.new } result }
{
    match due.status {
        Status::Done => tell_done(&due.line, out, err),
        status => tell_failure(status, &due.line, err),
    }
}
