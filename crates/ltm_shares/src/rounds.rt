//! The rounds that reach the shares.
//!
//! While some out-link has an arm to serve, the tightest one is taken: the one that can give the least for each unit of
//! priority that still weighs on it. Those of its arms that may then send all are fixed at that; where there are none,
//! all its arms are fixed at what their priority gets. Whoever changes this: the fractions are kept over one
//! denominator, which is multiplied only by `scale`, at most once for each out-link, and that is why every product fits
//! (`IsSound`, `within`).
ghost use Rattle.std.specs.Prelude.{◌≡◌, ◌<◌, ◌≤◌, ◌*◌, ◌+◌, ◌^◌, ℕ, slice_index, MatchOption, IsTrue, IsFalse};
ghost use Rattle.ltm_shares.specs.Shares.{AreShares, Uses};
ghost use Rattle.ltm_shares.specs.Demands.{demands_of, IsSmall, greatest_weight};
ghost use Rattle.ltm_shares.specs.Sent.{sent_at};
ghost use Rattle.ltm_shares.specs.Rounds.{Fixes, Finishes, Scales, IsSound, IsTightest, weight, open_arms};

use crate::demands::NodeDemands;
use crate::sent::{ARMS, OUTS};
use crate::share::Shares;
use crate::wide::product;

/// How far the shares are known.
#[derive(Drop)]
pub struct Progress {
    /// What numerators and what is left are parts of.
    pub denominator: u128,
    /// The share of each arm that is fixed, and 0 for the others.
    pub numerators: [u128; ARMS],
    /// The priority of each arm that is not fixed, and 0 for the others.
    pub pending: [u64; ARMS],
    /// What each out-link can still take.
    pub left: [u128; OUTS],
}

/// The shares of the arms.
pub fn shares(demands: &NodeDemands) -> Shares
    requires { IsSmall (demands_of demands.now) }
    ensures { AreShares (demands_of demands.now) result.denominator
        (slice_index result.numerators) }
{
    let mut left = [0u128; OUTS];
    for out in 0..demands.outs {
        left[out] = u128::from(demands.supply[out]);
    }
    let mut progress = Progress {
        denominator: 1,
        numerators: [0; ARMS],
        pending: demands.priority,
        left,
    };
    while let Some((out, weight)) = tightest(demands, &progress) {
        if !settle_whole(demands, &mut progress, out, weight) {
            settle_scaled(demands, &mut progress, out, weight);
        }
    }
    finish(demands, &mut progress);
    Shares::over(progress.denominator, progress.numerators)
}

/// How the arms that are not fixed weigh on an out-link.
#[tactic(auto, using(ltm_units::proofs::Sums::sum_below_more_le, ltm_units::proofs::Sums::sum_below_more))]
fn weight_on(demands: &NodeDemands, progress: &Progress, out: usize) -> u64
    requires arms { demands.now.arms ≤ 5 }
    requires out { out < 4 }
    requires fits { weight (demands_of demands.now) progress.now out ≤ greatest_weight }
    ensures { result ≡ weight (demands_of demands.now) progress.now out }
{
    let mut sum = 0u64;
    for arm in 0..demands.arms {
        let sent = demands.sending.at(arm, out);
        sum += progress.pending[arm] * sent;
    }
    sum
}

/// Fixes one arm at a share.
fn fix(demands: &NodeDemands, progress: &mut Progress, arm: usize, share: u128)
    requires arms { demands.now.arms ≤ 5 }
    requires outs { demands.now.outs ≤ 4 }
    requires arm { arm < demands.now.arms }
    requires room { (j : ℕ) → j < demands.now.outs →
        share * sent_at demands.now.sending arm j ≤ slice_index progress.old.left j }
    requires fits { (j : ℕ) → j < demands.now.outs → slice_index progress.old.left j < 2 ^ 127 }
    ensures { Fixes (demands_of demands.now) arm share progress.old progress.new }
{
    progress.numerators[arm] = share;
    progress.pending[arm] = 0;
    for out in 0..demands.outs {
        let sent = demands.sending.at(arm, out);
        progress.left[out] -= product(share, u128::from(sent));
    }
}

/// Brings all over a denominator that is as many times as large.
fn scale(demands: &NodeDemands, progress: &mut Progress, by: u128)
    requires arms { demands.now.arms ≤ 5 }
    requires outs { demands.now.outs ≤ 4 }
    requires fits { progress.old.denominator * by < 2 ^ 127 }
    requires numerators_fit { (i : ℕ) → i < demands.now.arms
        → slice_index progress.old.numerators i * by < 2 ^ 127 }
    requires left_fits { (j : ℕ) → j < demands.now.outs
        → slice_index progress.old.left j * by < 2 ^ 127 }
    ensures { Scales (demands_of demands.now) by progress.old progress.new }
{
    progress.denominator = product(progress.denominator, by);
    for arm in 0..demands.arms {
        progress.numerators[arm] = product(progress.numerators[arm], by);
    }
    for out in 0..demands.outs {
        progress.left[out] = product(progress.left[out], by);
    }
}

/// The out-link with the least share for a priority, and its weight; None where each arm that
/// uses an out-link is fixed.
fn tightest(demands: &NodeDemands, progress: &Progress) -> Option<(usize, u128)>
    requires small { IsSmall (demands_of demands.now) }
    requires sound { IsSound (demands_of demands.now) progress.now }
    ensures { MatchOption result
        ((j : ℕ) → j < demands.now.outs → weight (demands_of demands.now) progress.now j ≡ 0)
        (λ b. IsTightest (demands_of demands.now) progress.now demands.now.outs b.0 b.1) }
{
    let mut best: Option<(usize, u128)> = None;
    for out in 0..demands.outs {
        let weight = u128::from(weight_on(demands, progress, out));
        if weight > 0 {
            best = match best {
                Some((at, least))
                    if product(progress.left[at], weight) <= product(progress.left[out], least) => {
                    Some((at, least))
                }
                _ => Some((out, weight)),
            };
        }
    }
    best
}

/// Fixes the users of the out-link that may send all; whether there are any.
fn settle_whole(demands: &NodeDemands, progress: &mut Progress, out: usize, weight: u128) -> bool
    requires small { IsSmall (demands_of demands.now) }
    requires sound { IsSound (demands_of demands.now) progress.old }
    requires tight { IsTightest (demands_of demands.now) progress.old demands.now.outs out weight }
    ensures sound { IsSound (demands_of demands.now) progress.new }
    ensures some { IsTrue result →
        open_arms (demands_of demands.now) progress.new < open_arms
        (demands_of demands.now) progress.old }
    ensures same { IsFalse result → progress.new ≡ progress.old }
    ensures none { IsFalse result →
        (i : ℕ) → i < demands.now.arms → Uses (demands_of demands.now) i out →
        0 < slice_index progress.old.pending i →
        slice_index progress.old.left out * slice_index progress.old.pending i
        ≤ progress.old.denominator * weight }
{
    let level = progress.left[out];
    let bar = product(progress.denominator, weight);
    let mut any = false;
    for arm in 0..demands.arms {
        let pending = progress.pending[arm];
        if pending > 0
            && demands.sending.at(arm, out) > 0
            && bar <= product(level, u128::from(pending))
        {
            fix(demands, progress, arm, progress.denominator);
            any = true;
        }
    }
    any
}

/// Fixes the users of the out-link at what it can still give for their priority.
fn settle_scaled(demands: &NodeDemands, progress: &mut Progress, out: usize, weight: u128)
    requires small { IsSmall (demands_of demands.now) }
    requires sound { IsSound (demands_of demands.now) progress.old }
    requires tight { IsTightest (demands_of demands.now) progress.old demands.now.outs out weight }
    requires none { (i : ℕ) → i < demands.now.arms → Uses (demands_of demands.now) i out →
        0 < slice_index progress.old.pending i →
        slice_index progress.old.left out * slice_index progress.old.pending i
        ≤ progress.old.denominator * weight }
    ensures sound { IsSound (demands_of demands.now) progress.new }
    ensures fewer { open_arms (demands_of demands.now) progress.new < open_arms
        (demands_of demands.now) progress.old }
{
    let level = progress.left[out];
    scale(demands, progress, weight);
    for arm in 0..demands.arms {
        let pending = progress.pending[arm];
        if pending > 0 && demands.sending.at(arm, out) > 0 {
            let share = product(level, u128::from(pending));
            fix(demands, progress, arm, share);
        }
    }
}

/// Lets each arm that is not fixed send all.
fn finish(demands: &NodeDemands, progress: &mut Progress)
    requires arms { demands.now.arms ≤ 5 }
    ensures { Finishes (demands_of demands.now) progress.old progress.new }
{
    for arm in 0..demands.arms {
        if progress.pending[arm] > 0 {
            progress.numerators[arm] = progress.denominator;
        }
    }
}
