//! The names of nodes and links.
ghost use Rattle.std.specs.Prelude.{◌≡◌, true, IfOk};
ghost use Rattle.ltm_units.specs.Words.{is_name_byte};
ghost use Rattle.ltm_make.specs.Names.{numbered, name_of_node, name_of_link};

use ltm_units::{Name, NoMemory};
use std::alloc::Global;

/// A letter and the digits of a number, as text.
#[tactic(auto, unfolding(crate::specs::Names::numbered))]
fn text_of(alloc: Global, letter: u8, number: u32) -> Result<Vec<u8>, NoMemory>
    ensures { IfOk result (λ text. text.items ≡ numbered letter number) }
{
    let digits = format!(in alloc; "{number}")?;
    let mut text = Vec::new(alloc);
    text.push(letter)?;
    text.extend_from_slice(digits.as_bytes())?;
    Ok(text)
}

/// The same as a name.
#[tactic(auto, using(crate::proofs::Naming::numbered_is_name))]
fn named(alloc: Global, letter: u8, number: u32) -> Result<Name, NoMemory>
    requires { is_name_byte letter ≡ true }
    ensures { IfOk result (λ name. name ≡ numbered letter number) }
{
    let text = text_of(alloc, letter, number)?;
    match Name::read(text.as_slice()) {
        Some(name) => Ok(name),
        None => unreachable!(),
    }
}

/// The name of a node.
pub(crate) fn node_name(alloc: Global, node: u32) -> Result<Name, NoMemory>
    ensures { IfOk result (λ name. name ≡ name_of_node node) }
{
    named(alloc, b'x', node)
}

/// The name of a link.
pub(crate) fn link_name(alloc: Global, link: u32) -> Result<Name, NoMemory>
    ensures { IfOk result (λ name. name ≡ name_of_link link) }
{
    named(alloc, b'l', link)
}
