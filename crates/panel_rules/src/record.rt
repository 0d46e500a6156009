// What a panel's record says, and its number.
ghost use Rattle.panel_rules.specs.Records.{IsRecordNumber, IsRecordOf};

/// What a panel's record says: nothing while its run is open, and once it is closed the word of all its marks.
#[derive(Clone, Copy, Debug, PartialEq, Eq)]
pub enum Record {
    Empty,
    Old,
    New,
}

/// A number that no record has.
#[derive(Clone, Copy, Debug, PartialEq, Eq)]
pub struct UnknownRecord(pub u8);

impl From<Record> for u8 {
    ghost from_gives = { IsRecordNumber };

    fn from(recorded: Record) -> u8 {
        match recorded {
            Record::Empty => 0,
            Record::Old => 1,
            Record::New => 2,
        }
    }
}

impl TryFrom<u8> for Record {
    type Error = UnknownRecord;

    ghost try_from_gives = { IsRecordOf };

    fn try_from(number: u8) -> Result<Record, UnknownRecord> {
        match number {
            0 => Ok(Record::Empty),
            1 => Ok(Record::Old),
            2 => Ok(Record::New),
            _ => Err(UnknownRecord(number)),
        }
    }
}
