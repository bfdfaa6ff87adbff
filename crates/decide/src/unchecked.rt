// What a stamp's row holds before any check; nothing, if a check is still to come.
ghost use Rattle.std.specs.Prelude.{◌≡◌, ◌≤◌};
ghost use Rattle.std.specs.Option.{ForSome};
ghost use Rattle.decide.specs.Inner.Unsettled.{agreed_byte, open_byte, without_final, unchecked_from};

use gather::results::HeldResult;
use gather::state::State;

// A row's state: the prepare byte with its retry stamp, and the outcome byte. They are bytes, since they are written as they stand.
#[derive(Clone, Copy)]
pub struct Unchecked {
    pub prepare: u8,
    pub retry: u64,
    pub outcome: u8,
}

// An agreed result: not OK stays, OK with an outcome stays, OK without one is checked.
#[tactic(auto, unfolding(rules::specs::Tests::both))]
fn agreed_byte(code: u8, outcome: u8) -> u8
    requires { code ≤ 4 }
    ensures { result ≡ agreed_byte code outcome }
{
    match (code, outcome) {
        (1, 0) => 0,
        _ => code + 4,
    }
}

// An open one: OK with commit, ABORT with abort, otherwise checked.
fn open_byte(outcome: u8) -> u8
    ensures { result ≡ open_byte outcome }
{
    match outcome {
        0 => 0,
        3 => 5,
        _ => 6,
    }
}

// Where no final result is held: an agreed result, an open one, or no prepare at all.
#[tactic(auto, unfolding(crate::specs::Inner::Unsettled::without_final))]
fn without_final(state: State, agreed: Option<HeldResult>) -> Unchecked
    requires { ForSome agreed (λ held. held.code ≤ 4) }
    ensures { result ≡ without_final state agreed }
{
    let outcome = state.outcome();
    let (prepare, retry) = match agreed {
        Some(held) => (agreed_byte(held.code, outcome), held.retry),
        None if state.held => (open_byte(outcome), 0),
        None => (0, 0),
    };
    Unchecked {
        prepare,
        retry,
        outcome,
    }
}

// The state of a stamp's row, by what its rows hold together and by the result that is agreed. A final result stays.
#[tactic(auto, unfolding(crate::specs::Inner::Unsettled::unchecked_from))]
pub fn unchecked_state(state: State, agreed: Option<HeldResult>) -> Unchecked
    requires { ForSome agreed (λ held. held.code ≤ 4) }
    ensures { result ≡ unchecked_from state agreed }
{
    match state.final_result {
        Some(held) => Unchecked {
            prepare: held.code,
            retry: held.retry,
            outcome: state.outcome(),
        },
        None => without_final(state, agreed),
    }
}
