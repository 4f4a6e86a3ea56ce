//! The two numbers of a trial, as words of a command line.
ghost use Rattle.std.specs.Prelude.{◌≡◌};
ghost use Rattle.ltm_try_command.specs.Words.{start_of, nodes_of};

use ltm_units::read_number;

/// The start number that a word tells: 1 to 20 digits with a value that fits; None where it tells none.
pub fn read_start(text: &[u8]) -> Option<u64>
    ensures { result ≡ start_of text.now }
{
    read_number(text, 20, u64::MAX)
}

/// The number of nodes that a word tells: 1 to 3 digits with a value of 4 to 400; None where it tells none.
pub fn read_nodes(text: &[u8]) -> Option<u32>
    ensures { result ≡ nodes_of text.now }
{
    let number = read_number(text, 3, 400)?;
    if number >= 4 {
        Some(number as u32)
    } else {
        None
    }
}
