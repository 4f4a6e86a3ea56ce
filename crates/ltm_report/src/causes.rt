//! The words of causes: the name of a fault's variant, and what it carries.
ghost use Rattle.std.specs.Prelude.{◌≡◌, ◌++◌, OnOk};
ghost use Rattle.ltm_report.specs.Causes.{field_word, free_time_words, times_words, diagram_words, network_word, no_split_words, cause_words};

use ltm_casefile::CaseCause;
use ltm_diagram::{DiagramFault, Field};
use ltm_network::NetworkFault;
use ltm_units::{Name, NoMemory, push_number, push_text};

#[tactic(auto, unfolding(crate::specs::Causes::field_word))]
fn word_of_field(field: Field) -> &'static [u8]
    ensures { result.now ≡ field_word field }
{
    match field {
        Field::Length => b"length_m",
        Field::Free => b"free_kmh",
        Field::Wave => b"wave_kmh",
        Field::Jam => b"jam_per_km",
    }
}

fn push_field(into: &mut Vec<u8>, words: &[u8], field: Field) -> Result<(), NoMemory>
    ensures { OnOk result (into.new.items ≡ into.old.items ++ words.now ++ field_word field) }
{
    push_text(into, words)?;
    push_text(into, word_of_field(field))
}

#[tactic(auto, unfolding(crate::specs::Causes::free_time_words))]
fn push_free_time(into: &mut Vec<u8>, free_ms: u128) -> Result<(), NoMemory>
    ensures { OnOk result (into.new.items ≡ into.old.items ++ free_time_words free_ms) }
{
    push_number(into, b"StepTooLong ", free_ms)
}

#[tactic(auto, unfolding(crate::specs::Causes::times_words))]
fn push_times(into: &mut Vec<u8>, free_ms: u128, wave_ms: u128) -> Result<(), NoMemory>
    ensures { OnOk result (into.new.items ≡ into.old.items ++ times_words free_ms wave_ms) }
{
    push_free_time(into, free_ms)?;
    push_number(into, b" ", wave_ms)
}

/// Appends what is wrong with a diagram.
#[tactic(auto, unfolding(crate::specs::Causes::diagram_words))]
pub(crate) fn push_diagram(into: &mut Vec<u8>, fault: &DiagramFault) -> Result<(), NoMemory>
    ensures { OnOk result (into.new.items ≡ into.old.items ++ diagram_words fault.now) }
{
    match fault {
        DiagramFault::Zero(field) => push_field(into, b"Zero ", *field),
        DiagramFault::Over(field) => push_field(into, b"Over ", *field),
        DiagramFault::StepTooLong { free_ms, wave_ms } => {
            push_times(into, u128::from(*free_ms), u128::from(*wave_ms))
        }
        DiagramFault::NoCapacity => push_text(into, b"NoCapacity"),
        DiagramFault::CapacityOver => push_text(into, b"CapacityOver"),
    }
}

#[tactic(auto, unfolding(crate::specs::Causes::network_word))]
fn word_of_network(fault: NetworkFault) -> &'static [u8]
    ensures { result.now ≡ network_word fault }
{
    match fault {
        NetworkFault::TwiceNamed => b"TwiceNamed",
        NetworkFault::SelfLoop => b"SelfLoop",
        NetworkFault::TooManyLinks => b"TooManyLinks",
        NetworkFault::TooManyOut => b"TooManyOut",
        NetworkFault::TooManyIn => b"TooManyIn",
        NetworkFault::NoMemory => b"NoMemory",
    }
}

#[tactic(auto, unfolding(crate::specs::Causes::no_split_words))]
fn push_no_split(into: &mut Vec<u8>, node: &Name, destination: &Name) -> Result<(), NoMemory>
    ensures { OnOk result (into.new.items
        ≡ into.old.items ++ no_split_words node.now destination.now) }
{
    push_text(into, b"NoSplit ")?;
    push_text(into, node.bytes())?;
    push_text(into, b" ")?;
    push_text(into, destination.bytes())
}

/// Appends what is wrong with a case.
#[tactic(auto, unfolding(crate::specs::Causes::cause_words))]
pub(crate) fn push_cause(into: &mut Vec<u8>, cause: &CaseCause) -> Result<(), NoMemory>
    ensures { OnOk result (into.new.items ≡ into.old.items ++ cause_words cause.now) }
{
    match cause {
        CaseCause::Header => push_text(into, b"Header"),
        CaseCause::Rows => push_text(into, b"Rows"),
        CaseCause::Width => push_text(into, b"Width"),
        CaseCause::Field(place) => push_number(into, b"Field ", u128::from(*place)),
        CaseCause::Range(place) => push_number(into, b"Range ", u128::from(*place)),
        CaseCause::Network(fault) => push_text(into, word_of_network(*fault)),
        CaseCause::Diagram(fault) => push_diagram(into, fault),
        CaseCause::Unknown(place) => push_number(into, b"Unknown ", u128::from(*place)),
        CaseCause::NoOrigin => push_text(into, b"NoOrigin"),
        CaseCause::SameEnds => push_text(into, b"SameEnds"),
        CaseCause::BadSlots => push_text(into, b"BadSlots"),
        CaseCause::ZeroWeight => push_text(into, b"ZeroWeight"),
        CaseCause::TooManyDestinations => push_text(into, b"TooManyDestinations"),
        CaseCause::TooManyRows => push_text(into, b"TooManyRows"),
        CaseCause::NoSplit { node, destination } => push_no_split(into, node, destination),
        CaseCause::CellsOver(count) => push_number(into, b"CellsOver ", *count),
    }
}
