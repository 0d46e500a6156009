// The lines of a log: each is recognised where it begins, carried out in place, and answered.
#![tactic(auto)]

mod answers;
mod line;
mod opening;
mod ring_run;
mod stage;
mod table_run;
mod tree_run;

pub use answers::{Answered, answer_lines};
pub use line::line_end;
pub use ring_run::RingRun;
pub use stage::Stage;
pub use table_run::TableRun;
