// A start: only the root is active and engaged.
ghost use Rattle.std.specs.Prelude.{◌≡◌};
ghost use Rattle.tree_rules.specs.Start.{blank, start_of};
ghost use Rattle.refusal.specs.Answers.{started};

use crate::state::Tree;
use refusal::{Refusal, TREE_NODES, TREE_PAIRS};
use tree_rules::NO_ENGAGER;

impl Tree {
    /// A tree of n nodes with this root: no message, no acknowledgement, and only the root active and engaged, by itself. A number of nodes outside 1 to 16 is refused
    /// with 1, a root of n or more with 6.
    #[tactic(auto, unfolding(tree_rules::specs::Start::start_of, tree_rules::specs::Start::start_verdict, tree_rules::specs::Start::first_state))]
    pub fn start(n: usize, root: usize) -> Result<Tree, Refusal>
        ensures { started blank result ≡ start_of n root }
    {
        if n == 0 || TREE_NODES < n {
            return Err(Refusal::NodeCount);
        }
        if n <= root {
            return Err(Refusal::UnknownNode);
        }
        let mut active = [false; TREE_NODES];
        active[root] = true;
        let mut engager = [NO_ENGAGER; TREE_NODES];
        engager[root] = root as u8;
        Ok(Tree {
            n,
            root,
            active,
            engager,
            unacked: [0; TREE_NODES],
            transit: [0; TREE_PAIRS],
            acks: [0; TREE_NODES],
            sends: 0,
            closed: false,
        })
    }
}
