// How many messages are played on each channel.
ghost use Rattle.std.specs.Prelude.{◌≡◌, ◌<◌, ◌≤◌, ◌^◌, All, length, IfOk};
ghost use Rattle.cy_setup.specs.Comes.{IsJudged};
ghost use Rattle.cy_setup.specs.Listing.{AreCounts, planned_in};
ghost use Rattle.cy_setup.specs.Wiring.{wired_by};

use crate::error::refused;
use crate::{Fault, SetupError};
use cy_comp::Wiring;
use cy_msg::Token;
use std::alloc::{AllocError, Global};
use wake_core::{MOST_PLANNED, planned};

/// How many messages stand on each of so many channels, by one look at each message.
pub(crate) fn counts_of(
    alloc: Global,
    channels: u32,
    tokens: &[Token],
) -> Result<Vec<u32>, AllocError>
    requires named { All (λ t. t.channel < channels) tokens.now }
    requires few { length tokens.now < 2 ^ 32 }
    ensures { IfOk result (λ counts. AreCounts channels tokens.now counts.items) }
{
    let mut counts = vec![in alloc; 0u32; channels as usize]?;
    for token in tokens {
        counts[token.channel as usize] += 1;
    }
    Ok(counts)
}

/// Whether a run keeps as many entries as are planned, where so many messages are played on each
/// channel; or a fault of the record.
pub(crate) fn test_planned(
    alloc: Global,
    file: &str,
    wiring: &Wiring,
    counts: &[u32],
) -> Result<u64, SetupError>
    requires { length counts.now ≡ length wiring.now.names }
    ensures judged { IsJudged (λ count. count)
        (planned_in file.now (wired_by wiring.now) counts.now) result }
    ensures limited { IfOk result (λ count. count ≤ MOST_PLANNED) }
{
    let count = planned(wiring, counts);
    if count > MOST_PLANNED {
        return Err(refused(alloc, file, Fault::TooMany { count }));
    }
    Ok(count)
}
