// A panel's marks: whether they all say one word, what soundness asks of them and of the record, what a job word makes of them, and the whole soundness check.
ghost use Rattle.std.specs.Prelude.{◌≡◌, ◌≤◌, ◌<◌, ◌↔◌, ℕ, false, IsTrue, get_or, length};
ghost use Rattle.panel_rules.specs.Rules.{firmware_said, map_said};
ghost use Rattle.panel_rules.specs.State.{all_say_word};
ghost use Rattle.panel_rules.specs.Soundness.{marks_test, old_from, record_test, sound_test};
ghost use Rattle.panel.specs.Marks.{word_agreed};

use crate::state::Panel;
use panel_rules::{JobWord, Record};
use refusal::RING_NODES;

// Are all these marks this word, new for true?
fn all_are(marks: &[bool], word: bool) -> bool
    ensures { IsTrue result ↔ ((k : ℕ) → k < length marks.now → get_or marks.now k false ≡ word) }
{
    // No way out of the loop before its end, so that several marks are compared at a time.
    let mut same = true;
    for mark in marks {
        same &= *mark == word;
    }
    same
}

/// Do both marks of each of the first n nodes say this word, new for true?
pub fn all_say(
    word: bool,
    n: usize,
    firmware: &[bool; RING_NODES],
    map: &[bool; RING_NODES],
) -> bool
    requires { n ≤ 96 }
    ensures { result ≡ all_say_word word n firmware.now map.now }
{
    all_are(&firmware[..n], word) && all_are(&map[..n], word)
}

// Are both marks of each place from n on old?
fn are_unused_old(n: usize, firmware: &[bool; RING_NODES], map: &[bool; RING_NODES]) -> bool
    requires { n ≤ 96 }
    ensures { result ≡ old_from n firmware.now map.now }
{
    all_are(&firmware[n..], false) && all_are(&map[n..], false)
}

// Is the record empty while the run is open, and the word of all marks once it is closed?
fn record_fits(
    closed: bool,
    recorded: Record,
    n: usize,
    firmware: &[bool; RING_NODES],
    map: &[bool; RING_NODES],
) -> bool
    requires { n ≤ 96 }
    ensures { result ≡ record_test closed recorded n firmware.now map.now }
{
    match recorded {
        Record::Empty => !closed,
        Record::Old => closed && all_say(false, n, firmware, map),
        Record::New => closed && all_say(true, n, firmware, map),
    }
}

/// What the marks and the record add to the ring's soundness: the marks of places from n on are old, and the record is empty while the run is open and once
/// it is closed the word of all marks.
#[tactic(auto, unfolding(panel_rules::specs::Soundness::marks_test, panel_rules::specs::Soundness::places_test))]
pub fn marks_fit(
    n: usize,
    closed: bool,
    firmware: &[bool; RING_NODES],
    map: &[bool; RING_NODES],
    recorded: Record,
) -> bool
    requires { n ≤ 96 }
    ensures { result ≡ marks_test n closed firmware.now map.now recorded }
{
    are_unused_old(n, firmware, map) && record_fits(closed, recorded, n, firmware, map)
}

/// What a number makes of a firmware mark, new for true: as a job word it sets it to new by 1 and to old by 3, and any other leaves it.
pub fn firmware_said(word: usize, mark: bool) -> bool
    ensures { result ≡ firmware_said word mark }
{
    match JobWord::try_from(word) {
        Ok(job) => job.firmware(mark),
        Err(_) => mark,
    }
}

/// What a number makes of a map mark, new for true: as a job word it sets it to new by 2 and to old by 4, and any other leaves it.
pub fn map_said(word: usize, mark: bool) -> bool
    ensures { result ≡ map_said word mark }
{
    match JobWord::try_from(word) {
        Ok(job) => job.map(mark),
        Err(_) => mark,
    }
}

impl Panel {
    // The one word that all marks of all nodes say, where they agree.
    pub fn word_of_all(&self) -> Option<Record>
        requires { self.now.ring.n ≤ 96 }
        ensures { result ≡ word_agreed self.now }
    {
        if all_say(true, self.ring.n, &self.firmware, &self.map) {
            return Some(Record::New);
        }
        if all_say(false, self.ring.n, &self.firmware, &self.map) {
            return Some(Record::Old);
        }
        None
    }

    // What the marks and the record add to the ring's soundness.
    fn are_marks_sound(&self) -> bool
        requires { self.now.ring.n ≤ 96 }
        ensures { result ≡ marks_test self.now.ring.n self.now.ring.closed self.now.firmware self.now.map self.now.recorded }
    {
        marks_fit(
            self.ring.n,
            self.ring.closed,
            &self.firmware,
            &self.map,
            self.recorded,
        )
    }

    /// Is the panel sound, whatever its numbers? Its ring has to be, the marks of places that no node uses have to be old, and the record empty while
    /// the run is open and once it is closed the word of all marks.
    #[tactic(auto, using(ring_rules::proofs::Soundness::sound_true), unfolding(panel_rules::specs::Soundness::sound_test))]
    pub fn is_sound(&self) -> bool
        ensures { result ≡ sound_test self.now }
    {
        self.ring.is_sound() && self.are_marks_sound()
    }
}
