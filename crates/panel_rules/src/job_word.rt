// The job word of a take, and what it makes of a mark.
ghost use Rattle.std.specs.Prelude.{◌≡◌};
ghost use Rattle.panel_rules.specs.Rules.{firmware_said, map_said};
ghost use Rattle.panel_rules.specs.JobWords.{IsJobWordOf, UnknownIsRefused, word_number};

use refusal::Refusal;

/// The job word of a take at the station: which of the receiver's two marks it sets, and how.
#[derive(Clone, Copy, Debug, PartialEq, Eq)]
pub enum JobWord {
    FirmwareNew,
    MapNew,
    FirmwareOld,
    MapOld,
}

/// A number that is no job word.
#[derive(Clone, Copy, Debug, PartialEq, Eq)]
pub struct UnknownWord(pub usize);

impl From<UnknownWord> for Refusal {
    ghost from_gives = { UnknownIsRefused };

    fn from(_word: UnknownWord) -> Refusal {
        Refusal::JobWord
    }
}

impl TryFrom<usize> for JobWord {
    type Error = UnknownWord;

    ghost try_from_gives = { IsJobWordOf };

    fn try_from(word: usize) -> Result<JobWord, UnknownWord> {
        match word {
            1 => Ok(JobWord::FirmwareNew),
            2 => Ok(JobWord::MapNew),
            3 => Ok(JobWord::FirmwareOld),
            4 => Ok(JobWord::MapOld),
            _ => Err(UnknownWord(word)),
        }
    }
}

impl JobWord {
    /// What it makes of a firmware mark, new for true.
    pub fn firmware(self, mark: bool) -> bool
        ensures { result ≡ firmware_said (word_number self) mark }
    {
        match self {
            JobWord::FirmwareNew => true,
            JobWord::FirmwareOld => false,
            JobWord::MapNew | JobWord::MapOld => mark,
        }
    }

    /// What it makes of a map mark, new for true.
    pub fn map(self, mark: bool) -> bool
        ensures { result ≡ map_said (word_number self) mark }
    {
        match self {
            JobWord::MapNew => true,
            JobWord::MapOld => false,
            JobWord::FirmwareNew | JobWord::FirmwareOld => mark,
        }
    }
}
