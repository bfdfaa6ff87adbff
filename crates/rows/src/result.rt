// What a check gives, and what was decided.
ghost use Rattle.std.specs.Prelude.{◌≡◌, ◌<◌, ◌≤◌};
ghost use Rattle.rules.specs.Tables.{result_code, result_retry, verdict_code};
ghost use Rattle.rows.specs.Inner.Results.{result_meant, verdict_meant};

// What a check gives; RETRY has its retry stamp.
#[derive(Clone, Copy, Debug, PartialEq, Eq)]
pub enum CheckResult {
    Ok,
    Abort,
    Abstain,
    Retry { stamp: u64 },
}

impl CheckResult {
    // "OK, ABORT, ABSTAIN, RETRY", from 1. The bounds are there for callers that keep the code, or that of the final result, in a byte.
    pub fn code(self) -> u8
        ensures { (result ≡ result_code (result_meant self)) × (0 < result) × (result ≤ 4) }
    {
        match self {
            CheckResult::Ok => 1,
            CheckResult::Abort => 2,
            CheckResult::Abstain => 3,
            CheckResult::Retry { stamp: _ } => 4,
        }
    }

    // The retry stamp that goes with the code.
    pub fn retry(self) -> u64
        ensures { result ≡ result_retry (result_meant self) }
    {
        match self {
            CheckResult::Retry { stamp } => stamp,
            _ => 0,
        }
    }
}

// What was decided of a transaction.
#[derive(Clone, Copy, Debug, PartialEq, Eq)]
pub enum Verdict {
    Commit,
    Abort,
}

impl Verdict {
    // "1 commit or 2 abort".
    pub fn code(self) -> u8
        ensures { (result ≡ verdict_code (verdict_meant self)) × (0 < result) × (result ≤ 2) }
    {
        match self {
            Verdict::Commit => 1,
            Verdict::Abort => 2,
        }
    }
}
