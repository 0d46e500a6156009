// The first line of a log: what it says begins a run, or is refused.
ghost use Rattle.first_line.specs.Meaning.{Flags};
ghost use Rattle.log_rules.specs.Answers.{first_told, fresh, line_told, update_first};
ghost use Rattle.first_line.specs.declared.First.TheVariants as firsts;
ghost use Rattle.update_forms.specs.Read.{wrapped_at};
ghost use Rattle.log_lines.specs.Openings.{Opens};

use crate::ring_run::RingRun;
use crate::stage::Stage;
use crate::table_run::{TableRun, judge, start_update};
use first_line::{First, RingStart, read_first};
use refusal::{Refusal, UPDATES};
use ring::Ring;
use table::Table;
use tree::Tree;
use update_forms::update_start;

// A ring's first line.
fn open_ring(start: &RingStart) -> Result<Stage, Refusal>
    requires { Flags start.now.flags }
    ensures { Opens (first_told (firsts.Ring start.now)) result }
{
    judge(start)?;
    let ring = Ring::start(start.n, &start.flags[..start.n])?;
    Ok(Stage::Ring(RingRun { ring, moves: 0 }))
}

// A tree's.
#[tactic(auto, using(crate::proofs::Firsts::tree_refused))]
fn open_tree(n: usize, root: usize) -> Result<Stage, Refusal>
    ensures { Opens (first_told (firsts.Tree n root)) result }
{
    let tree = Tree::start(n, root)?;
    Ok(Stage::Tree(tree))
}

// A first line that is no ring's and no tree's: the start of an update, or no form.
fn open_table(line: &[u8]) -> Result<Stage, Refusal>
    ensures { Opens (update_first (wrapped_at line.now 0)) result }
{
    let Some((u, start, _)) = update_start(line, 0) else {
        return Err(Refusal::NotAForm);
    };
    let mut table = Table::empty();
    start_update(&mut table, u, &start)?;
    Ok(Stage::Table(TableRun {
        table,
        moves: [0; UPDATES],
    }))
}

/// What the first line of a log begins; the line is handed over by itself.
pub(crate) fn open(line: &[u8]) -> Result<Stage, Refusal>
    ensures { Opens (line_told fresh 1 line.now) result }
{
    match read_first(line, 0) {
        Some((First::Ring(start), _)) => open_ring(&start),
        Some((First::Tree { n, root }, _)) => open_tree(n, root),
        None => open_table(line),
    }
}
