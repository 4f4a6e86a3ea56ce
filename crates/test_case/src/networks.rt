//! Links and nodes of small networks.
ghost use Rattle.std.specs.Prelude.{◌<◌, IfSome, length};

use ltm_network::{Network, NetworkFault};
use ltm_units::{LinkId, Name, NodeId};
use std::alloc::Global;

/// Whether a link is added.
type Added = Result<LinkId, NetworkFault>;

/// The names of a link, its tail and its head, and what is answered to it.
type Row = (&'static str, &'static str, &'static str, Added);

fn name(text: &str) -> Option<Name> {
    Name::read(text.as_bytes())
}

/// What is answered to a link; none where a name is none.
fn add(network: &mut Network, link: &str, tail: &str, head: &str) -> Option<Added> {
    let (link, tail, head) = (name(link)?, name(tail)?, name(head)?);
    Some(network.add_link(link, tail, head))
}

/// The place of the first link that is answered otherwise; none where all are answered so.
fn first_otherwise(network: &mut Network, rows: &[Row]) -> Option<usize> {
    for (place, (link, tail, head, want)) in rows.iter().enumerate() {
        if add(network, *link, *tail, *head) != Some(*want) {
            return Some(place);
        }
    }
    None
}

fn node(network: &Network, text: &str) -> Option<NodeId>
    ensures { IfSome result (λ node. node.0 < length network.now.nodes) }
{
    network.find_node(&name(text)?)
}

/// The first link that is answered otherwise, how many links and nodes there are, and a node that no link named.
fn answered(alloc: Global, rows: &[Row]) -> (Option<usize>, u32, u32, Option<NodeId>) {
    let mut network = Network::new(alloc);
    let otherwise = first_otherwise(&mut network, rows);
    (
        otherwise,
        network.links(),
        network.nodes(),
        node(&network, "n6"),
    )
}

#[test]
fn refusals_in_order(rt: HostRuntime) {
    let rows = [
        ("a", "n1", "n2", Ok(LinkId(0))),
        ("b", "n2", "n1", Ok(LinkId(1))),
        ("a", "n3", "n3", Err(NetworkFault::TwiceNamed)),
        ("c", "n3", "n3", Err(NetworkFault::SelfLoop)),
        ("c", "n3", "n1", Ok(LinkId(2))),
        ("d", "n1", "n4", Ok(LinkId(3))),
        ("e", "n1", "n5", Ok(LinkId(4))),
        ("f", "n1", "n3", Ok(LinkId(5))),
        ("g", "n1", "n6", Err(NetworkFault::TooManyOut)),
        ("g", "n3", "n2", Ok(LinkId(6))),
        ("h", "n4", "n2", Ok(LinkId(7))),
        ("i", "n5", "n2", Ok(LinkId(8))),
        ("j", "n1", "n2", Err(NetworkFault::TooManyOut)),
        ("j", "n6", "n2", Err(NetworkFault::TooManyIn)),
        ("j", "n3", "n4", Ok(LinkId(9))),
    ];
    assert!(rt; answered(rt.alloc(), &rows) == (None, 10, 5, None));
}

/// The numbers of the first and the last node, and whether their links and a name are those of the three links.
fn ends(network: &Network) -> Option<(u32, u32, [bool; 3])> {
    let n1 = node(network, "n1")?;
    let n3 = node(network, "n3")?;
    let outs = network.out_links(n1) == [LinkId(0), LinkId(2)].as_slice();
    let ins = network.in_links(n3) == [LinkId(1), LinkId(2)].as_slice();
    let named = network.node_name(n3) == name("n3")?;
    Some((n1.0, n3.0, [outs, ins, named]))
}

/// The numbers of the link `c`, its tail and its head, whether it has its name, and a link that there is not.
fn by_name(network: &Network) -> Option<(u32, u32, u32, bool, Option<LinkId>)> {
    let c = network.find_link(&name("c")?)?;
    let named = network.link_name(c) == name("c")?;
    let none = network.find_link(&name("n1")?);
    Some((c.0, network.tail(c).0, network.head(c).0, named, none))
}

/// The same, asked of a copy.
fn by_name_in_copy(network: &Network) -> Option<(u32, u32, u32, bool, Option<LinkId>)> {
    match network.clone() {
        Ok(copy) => by_name(&copy),
        Err(_) => None,
    }
}

/// What is told of links `a` from `n1` to `n2`, `b` from `n2` to `n3` and `c` from `n1` to `n3`.
fn told_of_three(
    alloc: Global,
) -> (
    Option<(u32, u32, [bool; 3])>,
    Option<(u32, u32, u32, bool, Option<LinkId>)>,
) {
    let mut network = Network::new(alloc);
    let _ = add(&mut network, "a", "n1", "n2");
    let _ = add(&mut network, "b", "n2", "n3");
    let _ = add(&mut network, "c", "n1", "n3");
    (ends(&network), by_name_in_copy(&network))
}

#[test]
fn links_at_their_nodes_and_by_name(rt: HostRuntime) {
    let (ends, found) = told_of_three(rt.alloc());
    let want = Some((2, 0, 2, true, None));
    assert!(rt; ends == Some((0, 2, [true, true, true])) && found == want);
}

/// A letter and four digits.
fn numbered(letter: u8, number: u32) -> Option<Name> {
    Name::read(&[
        letter,
        b'0' + (number / 1000 % 10) as u8,
        b'0' + (number / 100 % 10) as u8,
        b'0' + (number / 10 % 10) as u8,
        b'0' + (number % 10) as u8,
    ])
}

/// What is answered to the link of a number in a row of links.
fn add_numbered(network: &mut Network, number: u32) -> Option<Added> {
    let link = numbered(b'l', number)?;
    let tail = numbered(b'n', number)?;
    let head = numbered(b'n', number.saturating_add(1))?;
    Some(network.add_link(link, tail, head))
}

/// The first link of a row that is not added; none where 4,001 links are.
fn first_refused(network: &mut Network) -> Option<(u32, Option<Added>)> {
    for number in 0..4001u32 {
        let added = add_numbered(network, number);
        if added != Some(Ok(LinkId(number))) {
            return Some((number, added));
        }
    }
    None
}

fn refused_of_many(alloc: Global) -> Option<(u32, Option<Added>)> {
    let mut network = Network::new(alloc);
    first_refused(&mut network)
}

#[test]
fn takes_four_thousand_links(rt: HostRuntime) {
    let refused = Some(Err(NetworkFault::TooManyLinks));
    assert!(rt; refused_of_many(rt.alloc()) == Some((4000, refused)));
}
