// 02, request 13: where a type's plan stands in lent words, and what a run of it says. Any words are taken: a plan that would lie
// outside is none.
ghost use Rattle.std.specs.Prelude.{◌≡◌};
ghost use Rattle.walk.specs.Runs.{code_in, many_in, values_in, place_in};
ghost use Rattle.walk.specs.Planned.{indexed, lying, plan_of, is_planned};

// How many numbers there are of a field of 8, 16 and 32 bits, and the place of a run's values.
const BYTE: u64 = 256;

const HALF: u64 = 65536;

const WORD: u64 = 4294967296;

const VALUES: u64 = 16777216;

const PLACE: u64 = 1099511627776;

// A type's plan: its first run, and how many.
#[derive(Clone, Copy)]
pub struct Plan {
    pub first: usize,
    pub runs: usize,
}

// The plan of type i; of no runs where there is none.
pub fn plan_of(plans: &[u64], i: u16) -> Plan
    ensures { result ≡ plan_of plans.now i }
{
    let word = indexed(plans, i);
    lying(plans.len(), word / WORD, word / HALF % HALF)
}

pub fn is_planned(plans: &[u64], i: u16) -> bool
    ensures { result ≡ is_planned plans.now i }
{
    0 < plan_of(plans, i).runs
}

fn indexed(plans: &[u64], i: u16) -> u64
    ensures { result ≡ indexed plans.now i }
{
    let at = i as usize + 1;
    if plans.len() <= at {
        return 0;
    }
    if (i as u64) < plans[0] { plans[at] } else { 0 }
}

fn lying(len: usize, first: u64, runs: u64) -> Plan
    ensures { result ≡ lying len first runs }
{
    if wire::has_room(len, first as usize, runs as usize) {
        Plan {
            first: first as usize,
            runs: runs as usize,
        }
    } else {
        Plan { first: 0, runs: 0 }
    }
}

// A run's base code, its leaves, and of an enum its values and where they stand.
pub fn code_in(run: u64) -> u16
    ensures { result ≡ code_in run }
{
    (run % BYTE) as u16
}

pub fn many_in(run: u64) -> u32
    ensures { result ≡ many_in run }
{
    (1 + run / BYTE % HALF) as u32
}

pub fn values_in(run: u64) -> u16
    ensures { result ≡ values_in run }
{
    (run / VALUES % HALF) as u16
}

pub fn place_in(run: u64) -> u32
    ensures { result ≡ place_in run }
{
    (run / PLACE) as u32
}
