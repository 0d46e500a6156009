// A request by name.
ghost use Rattle.ring_rules.specs.Request.{IsRequestOf, UnknownIsRefused};

use refusal::Refusal;

/// A step of the ring.
#[derive(Clone, Copy, Debug, PartialEq, Eq)]
pub enum Request {
    Send { from: usize, to: usize },
    Take { node: usize, count: usize },
    Idle { node: usize },
    Probe,
    Pass { node: usize },
    Announce,
}

/// A kind number that no step has.
#[derive(Clone, Copy, Debug, PartialEq, Eq)]
pub struct UnknownKind(pub u8);

impl From<UnknownKind> for Refusal {
    ghost from_gives = { UnknownIsRefused };

    fn from(_kind: UnknownKind) -> Refusal {
        Refusal::UnknownKind
    }
}

impl TryFrom<(u8, usize, usize)> for Request {
    type Error = UnknownKind;

    ghost try_from_gives = { IsRequestOf };

    fn try_from((kind, i, j): (u8, usize, usize)) -> Result<Request, UnknownKind> {
        match kind {
            1 => Ok(Request::Send { from: i, to: j }),
            2 => Ok(Request::Take { node: i, count: j }),
            3 => Ok(Request::Idle { node: i }),
            4 => Ok(Request::Probe),
            5 => Ok(Request::Pass { node: i }),
            6 => Ok(Request::Announce),
            _ => Err(UnknownKind(kind)),
        }
    }
}
