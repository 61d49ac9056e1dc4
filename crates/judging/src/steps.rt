// The checks 32 to 35 of a filing at its counted steps, by what ceder and acquirer have. Steps and approved powers go
// as numbers, each with its bound where a sum or an index needs it: a struct for them would be taken apart at each
// step.
ghost use Rattle.std.specs.Prelude.{◌≡◌, ℕ, ◌+◌, ◌-◌, ◌<◌, ◌≤◌, true, ◌&&◌, nat_le, slice_index};
ghost use Rattle.lists.specs.Searches.{first_from};
ghost use Rattle.refusals.specs.Tests.{first_met};
ghost use Rattle.judging.specs.Nets.{most};
ghost use Rattle.judging.specs.Steps.{below_at, step_fits, net_tests};

use crate::nets::{BASE, Nets};
use refusals::trying::refuse_if;
use refusals::{Refusal, StateRefusal};
use std::array;

// The first of the steps from `first` to before `until` at which one number is below another; `until` where there is
// none, and no Option: it is what `first_from` gives, of which the laws of the checks are.
fn first_below(left: [u32; 50], right: [u32; 50], first: u32, until: u32) -> u32
    requires { (first ≤ until) × (until ≤ 50) }
    ensures { result ≡ first_from (below_at left right) first (until - first) }
{
    (first..until)
        .find(|s| left[*s as usize] < right[*s as usize])
        .unwrap_or(until)
}

// A number and the power at each step.
fn plus(n: u32, ps: [u16; 50]) -> [u32; 50]
    requires { n ≤ 4294901760 }
    ensures { (s : ℕ) → s < 50 → slice_index result s ≡ n + slice_index ps s }
{
    ps.map(|p| n + u32::from(p))
}

// A net and the power at each step.
fn sums(net: [u32; 50], ps: [u16; 50]) -> [u32; 50]
    requires { (s : ℕ) → s < 50 → slice_index net s ≤ most }
    ensures { (s : ℕ) → s < 50 → slice_index result s ≡ slice_index net s + slice_index ps s }
{
    array::from_fn(|s| net[s] + u32::from(ps[s]))
}

// 32 to 35, each looked for at all counted steps before the next.
fn failing_verdict(
    nets: Nets,
    ps: [u16; 50],
    ceders: u32,
    acquirers: u32,
    first: u32,
    until: u32,
) -> Result<(), Refusal>
    requires { (first ≤ until) × (until ≤ 50) × (ceders ≤ 65535) × (acquirers ≤ 65535)
        × ((s : ℕ) → s < 50 → slice_index nets.acquirer s ≤ most) }
    ensures { result ≡ first_met (net_tests nets ps ceders acquirers first until) }
{
    let ceder = nets.ceder;
    let taken = sums(nets.acquirer, ps);
    let s = first_below(ceder, plus(BASE, ps), first, until);
    refuse_if(s < until, Refusal::State(StateRefusal::CederBelow, s))?;
    let s = first_below([BASE + acquirers; 50], taken, first, until);
    refuse_if(s < until, Refusal::State(StateRefusal::AcquirerAbove, s))?;
    let s = first_below(plus(BASE + ceders, ps), ceder, first, until);
    refuse_if(s < until, Refusal::State(StateRefusal::CederAbove, s))?;
    let s = first_below(taken, [BASE; 50], first, until);
    refuse_if(s < until, Refusal::State(StateRefusal::AcquirerBelow, s))
}

// Whether a number is one of the `more + 1` numbers from `least` on, by one comparison: below `least` the difference
// wraps.
fn is_from(x: u32, least: u32, more: u32) -> bool
    requires { (least ≤ 4294901760) × (more ≤ 65535) }
    ensures { result ≡ (nat_le least x && nat_le x (least + more)) }
{
    x.wrapping_sub(least) <= more
}

// Whether a step passes 32 to 35: with the filed power moved, ceder and acquirer have from 0 to their approved power.
fn fits(ceder: u32, acquirer: u32, p: u32, ceders: u32, acquirers: u32) -> bool
    requires { (p ≤ 65535) × (ceders ≤ 65535) × (acquirers ≤ 65535) × (acquirer ≤ most) }
    ensures { result ≡ step_fits ceder acquirer p ceders acquirers }
{
    is_from(ceder, BASE + p, ceders) & is_from(acquirer + p, BASE, acquirers)
}

// Whether all counted steps pass 32 to 35. Each step is looked at, so that many are tested at once.
fn all_fit(
    ceder: &[u32; 50],
    acquirer: &[u32; 50],
    ps: &[u16; 50],
    ceders: u32,
    acquirers: u32,
    first: u32,
    until: u32,
) -> bool
    requires { (until ≤ 50) × (ceders ≤ 65535) × (acquirers ≤ 65535)
        × ((s : ℕ) → s < 50 → slice_index acquirer.now s ≤ most) }
    ensures { result ≡ true → (s : ℕ) → first ≤ s → s < until → step_fits
        (slice_index ceder.now s) (slice_index acquirer.now s) (slice_index ps.now s)
        ceders acquirers ≡ true }
{
    let mut failed = false;
    for s in first..until {
        let at = s as usize;
        failed |= !fits(
            ceder[at],
            acquirer[at],
            u32::from(ps[at]),
            ceders,
            acquirers,
        );
    }
    !failed
}

// 32 to 35, by the nets of ceder and acquirer. The failing step is looked for only where there is one. Steps, approved
// powers and nets are asked to be in their ranges, which the register's own are, so that no sum wraps.
pub fn step_verdict(
    ceder: &[u32; 50],
    acquirer: &[u32; 50],
    ps: &[u16; 50],
    ceders: u32,
    acquirers: u32,
    first: u32,
    until: u32,
) -> Result<(), Refusal>
    requires { (first ≤ until) × (until ≤ 50) × (ceders ≤ 65535) × (acquirers ≤ 65535)
        × ((s : ℕ) → s < 50 → slice_index acquirer.now s ≤ most) }
    ensures { result ≡ first_met (net_tests
        (record { ceder = ceder.now; acquirer = acquirer.now }) ps.now
        ceders acquirers first until) }
{
    if all_fit(ceder, acquirer, ps, ceders, acquirers, first, until) {
        return Ok(());
    }
    let nets = Nets {
        ceder: *ceder,
        acquirer: *acquirer,
    };
    failing_verdict(nets, *ps, ceders, acquirers, first, until)
}
