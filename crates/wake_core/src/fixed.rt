// What a world keeps of its wiring, and of the stop.
ghost use Rattle.std.specs.Prelude.{◌≡◌, ◌≤◌, ◌++◌, length, IfOk, IfErr};
ghost use Rattle.wake_core.specs.declared.error.CoreError.TheVariants as CoreError;
ghost use Rattle.wake_core.specs.Run.{routes_of, readers_of, roles_of};
ghost use Rattle.wake_core.specs.Fields.{IsFixed, IsWithin};
ghost use Rattle.wake_core.specs.private.Shown.{IsTable, HaveFew};

use crate::{CoreError, Route};
use cy_comp::{Plan, Wiring};
use cy_msg::{Items, Stop, Token};
use std::alloc::Global;

/// What a world keeps of its wiring: the components, how many messages are played on each channel,
/// and the readers of each channel, so that nothing is looked up while a run goes on; and the stop
/// that it was made with, if there is one. Contracts see the components by `routes_in`, the numbers
/// of messages by `counts_in`, and the stop by `stop_in`.
#[derive(Drop)]
pub struct Fixed {
    routes: Vec<Route>,
    counts: Vec<u32>,
    readers: Vec<Items<(u32, u8)>>,
    stop: Option<Stop>,
    pub ghost lawful: { IsFixed routes.items counts.items },
    pub ghost within: { IsWithin routes.items counts.items stop },
    ghost table: { IsTable routes.items (length counts.items) readers.items },
}

impl Fixed {
    ghost use Rattle.std.specs.Prelude.{◌≡◌, ◌≤◌, ◌<◌, ℕ, Some, length, slice_get, IfOk, IfErr};
    ghost use Rattle.std.specs.Prelude.{is_some, true};
    ghost use Rattle.wake_core.specs.declared.error.CoreError.TheVariants as CoreError;
    ghost use Rattle.wake_core.specs.declared.entries.TheConstants.{MOST_PLANNED};
    ghost use Rattle.wake_core.specs.Run.{Route, routes_of, readers_of, played_of, writes_from};
    ghost use Rattle.wake_core.specs.Plain.{stops};
    ghost use Rattle.wake_core.specs.Planned.{planned};
    ghost use Rattle.wake_core.specs.Fields.{IsFixed, IsWithin};
    ghost use Rattle.wake_core.specs.private.Shown.{IsTable};
    ghost use Rattle.wake_core.specs.WorldOf.{routes_in, stop_in, IsMade};

    /// How many of these messages were played: they stand on channels that no component writes.
    pub fn played_in(&self, tape: &[Token]) -> usize
        ensures { result ≡ length (played_of (routes_in self.now) tape.now) }
    {
        tape.iter()
            .filter(|token| !self.is_written(token.channel))
            .count()
    }

    // Whether a component writes a channel.
    fn is_written(&self, channel: u32) -> bool
        ensures { result ≡ is_some (writes_from 0 self.now.routes.items channel) }
    {
        self.routes.iter().any(|route| route.out == channel)
    }

    /// What is kept of a wiring for which so many messages are played on each channel, and of a
    /// stop.
    pub(crate) fn new(
        alloc: Global,
        wiring: &Wiring,
        counts: &[u32],
        stop: Option<Stop>,
    ) -> Result<Self, CoreError>
        requires counts { length counts.now ≡ length wiring.now.names }
        requires limited { planned (routes_of wiring.now.plans) counts.now ≤ MOST_PLANNED }
        requires within { IsWithin (routes_of wiring.now.plans) counts.now stop }
        ensures made { IfOk result (λ f. IsMade (routes_of wiring.now.plans) counts.now stop f) }
        ensures memory { IfErr result (λ e. e ≡ CoreError.Memory) }
    {
        let routes = routes_from(alloc, wiring.plans.as_slice())?;
        let readers = table_of(alloc, routes.as_slice(), wiring.names.count())?;
        Ok(Fixed {
            routes,
            counts: Vec::from_slice(alloc, counts)?,
            readers,
            stop,
        })
    }

    /// The readers of a channel, in the order of the components: pairs of the component and the
    /// number of the reader.
    pub(crate) fn readers(&self, channel: u32) -> &[(u32, u8)]
        requires { channel < length self.now.counts.items }
        ensures { result.now ≡ readers_of self.now.routes.items channel }
    {
        self.readers[channel as usize].as_slice()
    }

    /// The stop, if there is one.
    pub fn stop(&self) -> Option<Stop>
        ensures { result ≡ stop_in self.now }
    {
        self.stop
    }

    // Whether the stop names a component.
    pub(crate) fn names(&self, component: u32) -> bool
        ensures { result ≡ stops self.now.stop true component }
    {
        match self.stop {
            Some(stop) => stop.component == component,
            None => false,
        }
    }

    /// The channel that a component writes.
    pub fn out(&self, component: usize) -> u32
        requires { component < length (routes_in self.now) }
        ensures { (x : Route) → slice_get (routes_in self.now) component ≡ Some x
            → result ≡ x.out }
    {
        self.routes[component].out
    }
}

// What a run needs of each component.
fn routes_from(alloc: Global, plans: &[Plan]) -> Result<Vec<Route>, CoreError>
    ensures routes { IfOk result (λ v. v.items ≡ routes_of plans.now) }
    ensures memory { IfErr result (λ e. e ≡ CoreError.Memory) }
{
    let mut routes = Vec::with_capacity(alloc, plans.len())?;
    for plan in plans {
        routes.push(Route {
            kind: plan.kind.copy()?,
            readers: Items::new(Vec::from_slice(alloc, plan.readers.as_slice())?),
            queue: plan.queue,
            overflow: plan.overflow,
            out: plan.out,
        })?;
    }
    Ok(routes)
}

// The readers of each channel.
fn table_of(
    alloc: Global,
    routes: &[Route],
    channels: u32,
) -> Result<Vec<Items<(u32, u8)>>, CoreError>
    requires { HaveFew routes.now }
    ensures table { IfOk result (λ v. IsTable routes.now channels v.items) }
    ensures memory { IfErr result (λ e. e ≡ CoreError.Memory) }
{
    let mut table = Vec::with_capacity(alloc, channels as usize)?;
    for channel in 0..channels {
        table.push(Items::new(readers_on(alloc, routes, channel)?))?;
    }
    Ok(table)
}

// The readers of a channel.
fn readers_on(alloc: Global, routes: &[Route], channel: u32) -> Result<Vec<(u32, u8)>, CoreError>
    requires { HaveFew routes.now }
    ensures readers { IfOk result (λ v. v.items ≡ readers_of routes.now channel) }
    ensures memory { IfErr result (λ e. e ≡ CoreError.Memory) }
{
    let mut readers = Vec::new(alloc);
    for component in 0..routes.len() {
        push_roles(&mut readers, &routes[component], component as u32, channel)?;
    }
    Ok(readers)
}

// The roles in which a component reads a channel come behind the others.
fn push_roles(
    readers: &mut Vec<(u32, u8)>,
    route: &Route,
    component: u32,
    channel: u32,
) -> Result<(), CoreError>
    requires { length route.now.readers ≤ 4 }
    ensures roles { IfOk result (λ _. readers.new.items
        ≡ readers.old.items ++ roles_of channel component 0 route.now.readers) }
    ensures memory { IfErr result (λ e. e ≡ CoreError.Memory) }
{
    let read = route.readers.as_slice();
    for role in 0..read.len() {
        if read[role] == channel {
            readers.push((component, role as u8))?;
        }
    }
    Ok(())
}
