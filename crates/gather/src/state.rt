// What the rows of one stamp hold together: its outcome, its final result, and whether they contradict each other.
ghost use Rattle.std.specs.Prelude.{◌≡◌};
ghost use Rattle.gather.specs.Inner.Gathered.{fields_from};
ghost use Rattle.gather.specs.Inner.State.{none_seen, saw_fields, saw_final, saw_prepare, saw_outcome, contradicts, outcome_held};

use crate::held::Gathered;
use crate::results::HeldResult;

// The first final result, with the prepare byte as it is held; whether a prepare byte is held at all; whether another final result is held; whether a commit is, and whether an abort is.
#[derive(Clone, Copy)]
pub struct State {
    pub final_result: Option<HeldResult>,
    pub held: bool,
    pub unequal: bool,
    pub commit: bool,
    pub abort: bool,
}

// One more final result: the first is kept, and another one is told.
#[tactic(auto, unfolding(rules::specs::Tests::both, rules::specs::Tests::either))]
fn saw_final(mut state: State, held: HeldResult) -> State
    ensures { result ≡ saw_final held state }
{
    match state.final_result {
        None => state.final_result = Some(held),
        Some(first) => state.unequal = state.unequal || first != held,
    }
    state
}

// One more prepare byte. Above 4 it is that of a final result.
#[tactic(auto, unfolding(crate::specs::Inner::State::saw_prepare))]
fn saw_prepare(mut state: State, prepare: u8, retry: u64) -> State
    ensures { result ≡ saw_prepare prepare retry state }
{
    if prepare == 0 {
        return state;
    }
    state.held = true;
    if prepare < 5 {
        return state;
    }
    let held = HeldResult {
        code: prepare,
        retry,
    };
    saw_final(state, held)
}

// One more outcome byte.
#[tactic(auto, unfolding(crate::specs::Inner::State::saw_outcome, rules::specs::Tests::either))]
fn saw_outcome(mut state: State, outcome: u8) -> State
    ensures { result ≡ saw_outcome outcome state }
{
    match outcome {
        0 => {}
        1 | 3 => state.commit = true,
        _ => state.abort = true,
    }
    state
}

// What the rows of a stamp hold together.
pub fn state_of(gathered: &Gathered) -> State
    ensures { result ≡ saw_fields none_seen (fields_from gathered.now.rows 0 4) }
{
    let mut state = State {
        final_result: None,
        held: false,
        unequal: false,
        commit: false,
        abort: false,
    };
    for row in &gathered.rows {
        state = saw_outcome(saw_prepare(state, row.prepare, row.retry), row.outcome);
    }
    state
}

impl State {
    // Two unequal finals, or opposite outcomes.
    #[tactic(auto, unfolding(rules::specs::Tests::both, rules::specs::Tests::either))]
    pub fn contradicts(self) -> bool
        ensures { result ≡ contradicts self }
    {
        self.unequal || self.commit && self.abort
    }

    // Any commit or abort held becomes done: as the byte that a row has of it.
    pub fn outcome(self) -> u8
        ensures { result ≡ outcome_held self }
    {
        match (self.commit, self.abort) {
            (true, _) => 3,
            (false, true) => 4,
            _ => 0,
        }
    }
}
