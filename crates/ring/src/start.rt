// A start: a flag for each node, and the columns that they make.
ghost use Rattle.std.specs.Prelude.{◌≡◌, ◌≤◌, IfOk, leb, length};
ghost use Rattle.std.specs.List.{list_all};
ghost use Rattle.ring_rules.specs.Start.{active_from, blank, color_from, first_state, flags_test, start_of, start_verdict};
ghost use Rattle.ring.specs.View.{begun};
ghost use Rattle.refusal.specs.Answers.{handed, started, verdict_from};

use crate::state::Ring;
use refusal::{COLOR_BYTES, RING_NODES, Refusal};

// Is each byte a flag, at most 3?
fn are_small(flags: &[u8]) -> bool
    ensures { result ≡ list_all (λ f. leb f 3) flags.now }
{
    flags.iter().all(|flag| *flag <= 3)
}

// Are there n flags, each at most 3?
#[tactic(auto, using(crate::proofs::Flags::flags_other))]
fn are_flags(flags: &[u8], n: usize) -> bool
    ensures { result ≡ flags_test n flags.now }
{
    flags.len() == n && are_small(flags)
}

// The nodes active as their flags' lowest bits say, the rest passive.
#[tactic(auto, using(crate::proofs::Flags::active_none, crate::proofs::Flags::active_next))]
fn active_from(flags: &[u8]) -> [bool; RING_NODES]
    requires { length flags.now ≤ 96 }
    ensures { result ≡ active_from flags.now (length flags.now) }
{
    let mut active = [false; RING_NODES];
    for (node, flag) in flags.iter().enumerate() {
        active[node] = *flag % 2 == 1;
    }
    active
}

// The nodes black as their flags' next bits say, the rest white.
#[tactic(auto, using(crate::proofs::Flags::color_none))]
fn color_from(flags: &[u8]) -> [u8; COLOR_BYTES]
    requires { length flags.now ≤ 96 }
    ensures { result ≡ color_from flags.now (length flags.now) }
{
    let mut color = [0; COLOR_BYTES];
    for (node, flag) in flags.iter().enumerate() {
        if *flag / 2 % 2 == 1 {
            color::blacken(&mut color, node);
        }
    }
    color
}

// May a ring of n nodes start with these flags?
#[tactic(auto, unfolding(ring_rules::specs::Start::start_verdict, ring_rules::specs::Start::flags_test))]
fn may_start(n: usize, flags: &[u8]) -> Result<(), Refusal>
    ensures verdict { verdict_from result ≡ start_verdict n flags.now }
    ensures nodes { IfOk result (λ done. (length flags.now ≡ n) × (n ≤ 96)) }
{
    if n == 0 || RING_NODES < n {
        return Err(Refusal::NodeCount);
    }
    if !are_flags(flags, n) {
        return Err(Refusal::StartFlags);
    }
    Ok(())
}

impl Ring {
    // The first state of n nodes, of a start that is allowed.
    #[tactic(auto, unfolding(ring_rules::specs::Start::first_state))]
    fn first(n: usize, flags: &[u8]) -> Ring
        requires { (length flags.now ≡ n) × (n ≤ 96) }
        ensures { result ≡ first_state n flags.now }
    {
        Ring {
            n,
            active: active_from(flags),
            color: color_from(flags),
            sent: [0; RING_NODES],
            received: [0; RING_NODES],
            pending: [0; RING_NODES],
            pos: 0,
            q: 0,
            black: true,
            closed: false,
        }
    }

    /// A ring of n nodes, 1 to 96, each active where the lowest bit of its flag is 1 and black where the next is: the counts all zero, the token at node 0, its
    /// sum 0 and black. Another number of nodes is refused with 1, another number of flags, or a flag above 3, with 2.
    #[tactic(auto, unfolding(ring_rules::specs::Start::start_of))]
    pub fn start(n: usize, flags: &[u8]) -> Result<Ring, Refusal>
        ensures { started blank result ≡ start_of n flags.now }
    {
        may_start(n, flags)?;
        Ok(Ring::first(n, flags))
    }

    /// The same start in place, whatever the ring was; a refusal leaves it.
    #[tactic(auto, unfolding(ring_rules::specs::Start::start_of))]
    pub fn start_in_place(&mut self, n: usize, flags: &[u8]) -> Result<(), Refusal>
        ensures { handed result self.new ≡ begun self.old (start_of n flags.now) }
    {
        may_start(n, flags)?;
        *self = Ring::first(n, flags);
        Ok(())
    }
}
