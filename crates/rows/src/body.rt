// A body, lent as the part of a table or of a message where it lies: its accesses one by one, and whether they keep the rules.
ghost use Rattle.std.specs.Prelude.{◌≡◌, ◌+◌, ◌*◌, ◌≤◌, ◌<◌, ltb, length};
ghost use Rattle.rules.specs.Stamps.{counts_by_rule, accesses_by_rule, contents_by_rule};
ghost use Rattle.rows.specs.Inner.Limits.{number_limit};
ghost use Rattle.rows.specs.Read.{access_at, accesses_at, body_at};

// A register, and a read's version or a write's value.
#[derive(Clone, Copy)]
pub struct Access {
    pub register: u8,
    pub number: u64,
}

// The access at an index of a body. Whoever goes over accesses takes them from here.
#[tactic(auto, unfolding(crate::specs::Read::access_at))]
pub fn access_at(body: &[u8], index: usize) -> Access
    requires { 9 * index + 9 ≤ length body.now }
    ensures { result ≡ access_at body.now (9 * index) }
{
    let at = 9 * index;
    Access {
        register: wire::u8_at(body, at),
        number: wire::u64_at(body, at + 1),
    }
}

// The counts of a body: 0 to 4 reads, 0 to 4 writes, at least one access in all.
#[tactic(auto, using(rules::proofs::Chains::tests), unfolding(rules::specs::Stamps::counts_by_rule, rules::specs::Tests::both))]
pub fn counts_valid(reads: u8, writes: u8) -> bool
    ensures { result ≡ counts_by_rule reads writes }
{
    reads <= 4 && writes <= 4 && 0 < reads + writes
}

// Whether a number is below a limit; where there is none, each is.
#[tactic(auto, using(rules::proofs::Chains::tests))]
fn is_below(number: u64, limit: Option<u64>) -> bool
    ensures { result ≡ ltb number (number_limit limit) }
{
    match limit {
        Some(limit) => number < limit,
        None => true,
    }
}

// Registers of the `n` accesses from an index on rise and stay below 64, and each number is below the limit, if there is one. Of registers that rise the last tells for all that they are below 64.
#[tactic(auto, using(rules::proofs::Chains::tests, crate::proofs::Turns::accesses_on, crate::proofs::Turns::accesses_end), unfolding(rules::specs::Tests::both))]
fn accesses_valid(body: &[u8], from: usize, n: usize, limit: Option<u64>) -> bool
    requires { 9 * (from + n) ≤ length body.now }
    ensures { result ≡ accesses_by_rule (number_limit limit) 0 (accesses_at body.now (9 * from) n) }
{
    let mut low: usize = 0;
    for i in 0..n {
        let access = access_at(body, from + i);
        let register = usize::from(access.register);
        if register < low || !is_below(access.number, limit) {
            return false;
        }
        low = register + 1;
    }
    low <= 64
}

// The accesses of a whole body whose counts are known: versions below the stamp, any value.
#[tactic(auto, using(rules::proofs::Chains::chain, crate::proofs::Turns::contents_are))]
pub fn contents_valid(body: &[u8], reads: usize, writes: usize, stamp: u64) -> bool
    requires { (9 * (reads + writes) ≤ length body.now) × (reads + writes ≤ 8) × (0 < stamp) }
    ensures { result ≡ contents_by_rule stamp (body_at body.now 0 reads writes) }
{
    accesses_valid(body, 0, reads, Some(stamp)) && accesses_valid(body, reads, writes, None)
}

// The same, for a walk over many bodies. The counts of the commonest bodies are constants here, so that the compiler lays their accesses out one after the other, without a loop.
// By the sum of the counts first: a match on the two of them took six instructions more for each row.
pub fn contents_valid_by_counts(body: &[u8], reads: usize, writes: usize, stamp: u64) -> bool
    requires { (9 * (reads + writes) ≤ length body.now) × (reads ≤ 4) × (writes ≤ 4) × (0 < stamp) }
    ensures { result ≡ contents_by_rule stamp (body_at body.now 0 reads writes) }
{
    if reads + writes == 8 {
        contents_valid(body, 4, 4, stamp)
    } else if reads == 1 && writes == 1 {
        contents_valid(body, 1, 1, stamp)
    } else {
        contents_valid(body, reads, writes, stamp)
    }
}
