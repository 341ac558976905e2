// The refusals: those that come from the input (1 to 10 of document 01, 30 to 34 of document 02), those that come from the state (20 to 24),
// and either.
#![tactic(auto)]

ghost use Rattle.std.specs.Prelude.{◌≡◌};
ghost use Rattle.refusal.specs.Number.{input_number, state_number, number_of};
ghost use Rattle.refusal.specs.declared.Refusal.TheVariants.{Input, State};

#[derive(Clone, Copy, PartialEq, Eq)]
pub enum InputRefusal {
    // 1: a sheet too short for its counts, or with words left over.
    SheetLength,
    // 2: start count not 1, or start index not below the state count.
    Start,
    // 3: state count 0 or over 256, or transition count over 2,048.
    Counts,
    // 4: an accept word out of range.
    AcceptWord,
    // 5: a record that breaks a rule by itself.
    Record,
    // 6: a record not greater than the one before it.
    RecordOrder,
    // 7: an epsilon in a product.
    Epsilon,
    // 8: text outside the grammar, or an identifier over 64 bytes.
    Grammar,
    // 9: malformed UTF-8.
    Utf8,
    // 10: a faulty label list.
    Labels,
    // 30: a record that is an epsilon, in a pattern to be written as text.
    EpsilonRecord,
    // 31: no written state accepts.
    NoAcceptingState,
    // 32: two written labels are equal, one is no name, or the text is too long.
    Names,
    // 33: an accepting name that is no state.
    AcceptingName,
    // 34: an outer mark over 1.
    OuterMark,
}

#[derive(Clone, Copy, PartialEq, Eq)]
pub enum StateRefusal {
    // 20: an output shorter than its fixed size.
    OutputLength,
    // 21: the result needs over 256 states.
    States,
    // 22: the result needs over 2,048 transitions.
    Transitions,
    // 23: join sets asked for over 512 elements, or an element outside them.
    Element,
    // 24: join sets that are broken.
    JoinSets,
}

#[derive(Clone, Copy, PartialEq, Eq)]
pub enum Refusal {
    Input(InputRefusal),
    State(StateRefusal),
}

// With these two `?` passes on either kind as a `Refusal`.
impl From<InputRefusal> for Refusal {
    ghost from_gives = { λ i r. r ≡ Input i };

    fn from(i: InputRefusal) -> Refusal {
        Refusal::Input(i)
    }
}

impl From<StateRefusal> for Refusal {
    ghost from_gives = { λ s r. r ≡ State s };

    fn from(s: StateRefusal) -> Refusal {
        Refusal::State(s)
    }
}

// The number of a refusal that comes from the input.
pub fn input_number(r: InputRefusal) -> u32
    ensures { result ≡ input_number r }
{
    match r {
        InputRefusal::SheetLength => 1,
        InputRefusal::Start => 2,
        InputRefusal::Counts => 3,
        InputRefusal::AcceptWord => 4,
        InputRefusal::Record => 5,
        InputRefusal::RecordOrder => 6,
        InputRefusal::Epsilon => 7,
        InputRefusal::Grammar => 8,
        InputRefusal::Utf8 => 9,
        InputRefusal::Labels => 10,
        InputRefusal::EpsilonRecord => 30,
        InputRefusal::NoAcceptingState => 31,
        InputRefusal::Names => 32,
        InputRefusal::AcceptingName => 33,
        InputRefusal::OuterMark => 34,
    }
}

// The number of a refusal that comes from the state.
pub fn state_number(r: StateRefusal) -> u32
    ensures { result ≡ state_number r }
{
    match r {
        StateRefusal::OutputLength => 20,
        StateRefusal::States => 21,
        StateRefusal::Transitions => 22,
        StateRefusal::Element => 23,
        StateRefusal::JoinSets => 24,
    }
}

// The number of a refusal.
pub fn number(r: Refusal) -> u32
    ensures { result ≡ number_of r }
{
    match r {
        Refusal::Input(i) => input_number(i),
        Refusal::State(s) => state_number(s),
    }
}
