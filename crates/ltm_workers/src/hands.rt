//! What four virtual workers have in hand.
ghost use Rattle.std.specs.Prelude.{◌≡◌, ◌<◌, All, IsSome, length, slice_index_or, slice_set};
ghost use Rattle.ltm_workers.specs.Driving.{none_held};
ghost use Rattle.ltm_workers.specs.Hands.{all_held};

use crate::bench::WORKERS;
use ltm_core::{Claim, Scratch};
use std::mem;

/// What a virtual worker has in hand.
pub(crate) enum Hand {
    /// Its buffers alone.
    Free(Scratch),
    /// A pair that it has claimed.
    Holds(Claim),
}

/// What each worker has in hand; nothing only while its turn is made.
pub(crate) type Hands = [Option<Hand>; WORKERS];

/// Takes what a worker has in hand.
pub(crate) fn pick(hands: &mut Hands, worker: usize) -> Hand
    requires in_range { worker < WORKERS }
    requires full { IsSome (slice_index_or hands.old worker None) }
    ensures taken { slice_index_or hands.old worker None ≡ Some result }
    ensures left { hands.new ≡ slice_set hands.old worker None }
{
    let Some(hand) = hands[worker].take() else {
        unreachable!()
    };
    hand
}

/// Puts something into the empty hand of a worker.
pub(crate) fn put(hands: &mut Hands, worker: usize, next: Hand)
    requires in_range { worker < WORKERS }
    requires empty { slice_index_or hands.old worker None ≡ None }
    ensures { hands.new ≡ slice_set hands.old worker (Some next) }
{
    let old = mem::replace(&mut hands[worker], Some(next));
    let None = old else { unreachable!() };
}

/// Takes the buffers of all workers into their hands.
pub(crate) fn take_up(scratches: &mut [Option<Scratch>; WORKERS]) -> Hands
    requires { All IsSome scratches.old }
    ensures full { All IsSome result }
    ensures none { all_held result ≡ none_held }
{
    let Some(first) = scratches[0].take() else {
        unreachable!()
    };
    let Some(second) = scratches[1].take() else {
        unreachable!()
    };
    let Some(third) = scratches[2].take() else {
        unreachable!()
    };
    let Some(fourth) = scratches[3].take() else {
        unreachable!()
    };
    [
        Some(Hand::Free(first)),
        Some(Hand::Free(second)),
        Some(Hand::Free(third)),
        Some(Hand::Free(fourth)),
    ]
}

/// Lets go of hands with nothing in them.
pub(crate) fn let_go(hands: Hands)
    requires { All (λ hand. hand ≡ None) hands }
{
    let [first, second, third, fourth] = hands;
    let None = first else { unreachable!() };
    let None = second else { unreachable!() };
    let None = third else { unreachable!() };
    let None = fourth else { unreachable!() };
}
