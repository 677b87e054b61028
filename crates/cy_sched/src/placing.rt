// Places the components of a run.
ghost use Rattle.std.specs.Prelude.{◌≡◌, ◌≤◌, ◌<◌, ◌++◌, ◌∷◌, [], length};
ghost use Rattle.std.specs.Prelude.{map, IfOk, OnOk, IsOkUnless};
ghost use Rattle.std.specs.List.{filter};
ghost use Rattle.std.specs.List.Sorted.{IsPermutation};
ghost use Rattle.cy_msg.specs.Placement.{scan_of};
ghost use Rattle.cy_sched.specs.Placing.{HaveOrders, IsOrder, IsPlaced, choreography_heads};
ghost use Rattle.cy_sched.specs.Placing.{group_head, head_of, heads_of, is_member, members_of};
ghost use Rattle.cy_sched.specs.Placing.{numbers_below, pinned_head};
ghost use Rattle.cy_sched.specs.private.Ranks.{HaveRanks};
ghost use Rattle.cy_sched.specs.SchedFile.{IsPlaceable};
ghost use Rattle.cy_sched.specs.declared.error.SchedError.TheVariants as sched_error;

use crate::home::Home;
use crate::homes::homes;
use crate::{Group, Sched, SchedError};
use cy_msg::{ContextPlan, Items, NamesError, Placement, Text};
use std::alloc::{AllocError, Global};
use std::cmp::Reverse;

/// Where a scheduler places the components with these names, which are their numbers from 0: its
/// groups, or its processors one by one and then the pool, each with its components in falling
/// priority and then in the order of their numbers. Its only error is `Memory`.
pub fn place(alloc: Global, sched: &Sched, names: &[Text]) -> Result<Placement, SchedError>
    requires placeable { IsPlaceable sched.now }
    requires few { length names.now ≤ 64 }
    ensures placed { IfOk result (λ p. IsPlaced sched.now names.now p.contexts) }
    ensures scan { IfOk result (λ p.
        IsPermutation (numbers_below (length names.now)) (scan_of p.contexts)) }
    ensures only_memory { IsOkUnless result sched_error.Memory }
{
    let homes = homes(alloc, sched, names)?;
    let contexts = contexts(alloc, sched, &homes)?;
    Ok(Placement::new(Items::new(contexts)))
}

// The contexts of a scheduler, with the components whose homes they are.
fn contexts(alloc: Global, sched: &Sched, homes: &[Home]) -> Result<Vec<ContextPlan>, NamesError>
    requires { length homes.now ≤ 64 }
    ensures heads { IfOk result (λ cs. map head_of cs.items ≡ heads_of sched.now) }
    ensures orders { IfOk result (λ cs. HaveOrders homes.now cs.items) }
{
    match sched {
        Sched::Classic { groups, .. } => group_contexts(alloc, groups.as_slice(), homes),
        Sched::Choreography {
            processors,
            pool,
            ..
        } => choreography_contexts(alloc, *processors, *pool, homes),
    }
}

// The contexts of a choreography: its processors, and then the pool.
fn choreography_contexts(
    alloc: Global,
    processors: u32,
    pool: u32,
    homes: &[Home],
) -> Result<Vec<ContextPlan>, NamesError>
    requires { length homes.now ≤ 64 }
    ensures heads { IfOk result (λ cs. map head_of cs.items ≡ choreography_heads processors pool) }
    ensures orders { IfOk result (λ cs. HaveOrders homes.now cs.items) }
{
    let mut contexts = pinned_contexts(alloc, processors, homes)?;
    contexts.push(ContextPlan {
        name: Text::new(alloc, "default_grp")?,
        pinned: false,
        processors: pool,
        order: Items::new(order(alloc, homes, processors as usize)?),
    })?;
    Ok(contexts)
}

// The contexts of groups.
fn group_contexts(
    alloc: Global,
    groups: &[Group],
    homes: &[Home],
) -> Result<Vec<ContextPlan>, NamesError>
    requires { length homes.now ≤ 64 }
    ensures heads { IfOk result (λ cs. map head_of cs.items ≡ map group_head groups.now) }
    ensures orders { IfOk result (λ cs. HaveOrders homes.now cs.items) }
{
    let mut contexts = Vec::new(alloc);
    for (place, group) in groups.iter().enumerate() {
        contexts.push(ContextPlan {
            name: Text::new(alloc, group.name.as_str())?,
            pinned: false,
            processors: group.processors,
            order: Items::new(order(alloc, homes, place)?),
        })?;
    }
    Ok(contexts)
}

// The contexts of processors with components of their own.
fn pinned_contexts(
    alloc: Global,
    processors: u32,
    homes: &[Home],
) -> Result<Vec<ContextPlan>, NamesError>
    requires { length homes.now ≤ 64 }
    ensures heads { IfOk result (λ cs. map head_of cs.items
        ≡ map pinned_head (numbers_below processors)) }
    ensures orders { IfOk result (λ cs. HaveOrders homes.now cs.items) }
{
    let mut contexts = Vec::new(alloc);
    for processor in 0..processors {
        contexts.push(ContextPlan {
            name: Text::from_string(format!(in alloc; "pinned {processor}")?),
            pinned: true,
            processors: 1,
            order: Items::new(order(alloc, homes, processor as usize)?),
        })?;
    }
    Ok(contexts)
}

// A component's place in the order of its context: its priority, of which the higher comes first,
// and its number.
type Rank = (Reverse<u32>, u32);

// The order in which the components of a context are scanned.
fn order(alloc: Global, homes: &[Home], context: usize) -> Result<Vec<u32>, AllocError>
    requires { length homes.now ≤ 64 }
    ensures { IfOk result (λ cs. IsOrder homes.now context cs.items) }
{
    let mut ranks = ranks(alloc, homes, context)?;
    ranks.sort()?;
    numbers(alloc, &ranks)
}

// The ranks of a context's components.
fn ranks(alloc: Global, homes: &[Home], context: usize) -> Result<Vec<Rank>, AllocError>
    requires { length homes.now ≤ 64 }
    ensures members { IfOk result (λ rs. map (λ r. r.1) rs.items ≡ members_of homes.now context) }
    ensures ranked { IfOk result (λ rs. HaveRanks homes.now rs.items) }
{
    let mut ranks = Vec::new(alloc);
    for component in 0..homes.len() {
        push_member(&mut ranks, homes, component, context)?;
    }
    Ok(ranks)
}

// Adds the rank of a component where it is of a context.
fn push_member(
    ranks: &mut Vec<Rank>,
    homes: &[Home],
    component: usize,
    context: usize,
) -> Result<(), AllocError>
    requires few { length homes.now ≤ 64 }
    requires there { component < length homes.now }
    ensures members { OnOk result (map (λ r. r.1) ranks.new.items
        ≡ map (λ r. r.1) ranks.old.items ++ filter (is_member homes.now context) (component ∷ [])) }
    ensures ranked { HaveRanks homes.now ranks.old.items → HaveRanks homes.now ranks.new.items }
{
    let home = homes[component];
    if home.context != context {
        return Ok(());
    }
    ranks.push(rank(home.priority, component as u32))?;
    Ok(())
}

// The rank of a component with this priority.
fn rank(priority: u32, component: u32) -> Rank
    ensures priority { result.0.0 ≡ priority }
    ensures component { result.1 ≡ component }
{
    (Reverse(priority), component)
}

// The components of ranks.
fn numbers(alloc: Global, ranks: &[Rank]) -> Result<Vec<u32>, AllocError>
    ensures { IfOk result (λ cs. cs.items ≡ map (λ r. r.1) ranks.now) }
{
    let mut numbers = Vec::new(alloc);
    for rank in ranks {
        numbers.push(rank.1)?;
    }
    Ok(numbers)
}
