// The log program, the rules: definitions in specs/, their theorems in proofs/. This file names the limits of a log.
#![tactic(auto)]

// The most lines of a log: `line_limit` of specs/Lines.
pub const LINE_LIMIT: u64 = 1000000;

// The most bytes of an answer: `answer_bytes` of specs/Answers.
pub const ANSWER_BYTES: usize = 16;
