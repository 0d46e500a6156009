// A line of a tree's run.
ghost use Rattle.std.specs.Prelude.{◌+◌, ◌<◌};
ghost use Rattle.log_rules.specs.Answers.{on_tree};
ghost use Rattle.log_rules.specs.Lines.{line_limit};
ghost use Rattle.log_lines.specs.Requests.{AsksTree};
ghost use Rattle.log_lines.specs.Stages.{LineTold, SoundStage};

use crate::line::{Line, formless};
use forms::TreeStep;
use step_forms::tree_step;
use tree::Tree;
use tree_rules::Request;

// What a step's form asks of a tree. Kept: a function and no `From`, since neither type is this crate's.
fn request_of(step: TreeStep) -> Request
    ensures { AsksTree step result }
{
    match step {
        TreeStep::Send(from, to) => Request::Send { from, to },
        TreeStep::Take(node, sender) => Request::Take { node, sender },
        TreeStep::Idle(node) => Request::Idle { node },
        TreeStep::Ack(node) => Request::Ack { node },
        TreeStep::Leave(node) => Request::Leave { node },
        TreeStep::Announce => Request::Announce,
    }
}

/// The line of a tree's run that begins at `at`, where it is whole, `lines` being answered before.
pub(crate) fn tree_line(tree: &mut Tree, lines: u64, piece: &[u8], at: usize) -> Option<Line>
    requires { SoundStage (on_tree tree.old) lines × (lines < line_limit) }
    ensures { LineTold (on_tree tree.old) (on_tree tree.new) (lines + 1) piece.now at result }
{
    let Some((step, next)) = tree_step(piece, at) else {
        return formless(lines + 1, piece, at);
    };
    Some(Line {
        number: lines + 1,
        answer: tree.apply_sound(request_of(step)),
        next,
    })
}
