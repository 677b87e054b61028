// The stop of a replay.
ghost use Rattle.std.specs.Prelude.{◌≡◌, ◌<◌, ◌^◌, length};
ghost use Rattle.std.specs.Option.{option_map};
ghost use Rattle.cy_msg.specs.Request.{stop_at_of};
ghost use Rattle.cy_setup.specs.Comes.{IsJudged};
ghost use Rattle.cy_setup.specs.Stops.{count_up_to, number_of, stop_in, stop_of};
ghost use Rattle.cy_setup.specs.Wiring.{wired_by};

use crate::error::refused;
use crate::{Fault, SetupError};
use cy_comp::Wiring;
use cy_msg::{Stop, StopAt, Text, Token};
use std::alloc::Global;

// The number of the component that has a name.
fn number_of(wiring: &Wiring, name: &str) -> Option<usize>
    ensures { result ≡ number_of wiring.now.plans name.now }
{
    let plans = wiring.plans.as_slice();
    plans.iter().position(|plan| plan.name.as_str() == name)
}

/// Whether a component has the name of the stop that is asked for, if one is; or a fault of a file.
pub(crate) fn test_stop(
    alloc: Global,
    file: &str,
    asked: Option<StopAt>,
    wiring: &Wiring,
) -> Result<(), SetupError>
    ensures { IsJudged (λ found. found) (stop_in file.now (option_map stop_at_of asked.entry)
        (wired_by wiring.now)) result }
{
    let Some(asked) = asked else {
        return Ok(());
    };
    if number_of(wiring, asked.component).is_none() {
        let name = Text::new(alloc, asked.component)?;
        return Err(refused(alloc, file, Fault::StopUnknown { name }));
    }
    Ok(())
}

// How many messages have a time of at most this one.
fn count_up_to(time: u64, tokens: &[Token]) -> usize
    ensures { result ≡ count_up_to time tokens.now }
{
    tokens.iter().filter(|token| token.time <= time).count()
}

/// The stop of a play list, where one is asked for and a component has its name.
pub(crate) fn stop_of(asked: Option<StopAt>, wiring: &Wiring, tokens: &[Token]) -> Option<Stop>
    requires { length tokens.now < 2 ^ 32 }
    ensures { result ≡ stop_of (option_map stop_at_of asked.entry) (wired_by wiring.now)
        tokens.now }
{
    let asked = asked?;
    let component = number_of(wiring, asked.component)? as u32;
    let after = count_up_to(asked.time, tokens) as u32;
    Some(Stop { component, after })
}
