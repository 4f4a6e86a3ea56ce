//! Words of a generator, taken one after another.
ghost use Rattle.std.specs.Prelude.{◌≡◌, ◌%◌, ◌<◌, ◌≤◌};
ghost use Rattle.ltm_make.specs.Words.{words_from, word, rest};

use rand_core::utils::NextWord;
use rand_pcg::Pcg32;

/// The stream of the generator that all made cases use.
const STREAM: u64 = 54;

/// The generator of a number.
#[tactic(auto, unfolding(crate::specs::Words::words_from))]
pub(crate) fn generator(start: u64) -> Pcg32
    ensures { result ≡ words_from start }
{
    Pcg32::new(start, STREAM)
}

/// One of so many choices: the next word modulo their number.
#[tactic(auto, unfolding(crate::specs::Words::word, crate::specs::Words::rest))]
pub(crate) fn draw(generator: &mut Pcg32, choices: u32) -> u32
    requires { 1 ≤ choices }
    ensures value { result ≡ word generator.old % choices }
    ensures few { result < choices }
    ensures rest { generator.new ≡ rest generator.old }
{
    generator.next_word() % choices
}
