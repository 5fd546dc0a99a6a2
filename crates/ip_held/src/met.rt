// What a call has met.
ghost use Rattle.std.specs.Prelude.{◌≡◌};
ghost use Rattle.ip_held.specs.Answers.{met_by, met_nothing};

use crate::StoreFault;
use ip_base::Limit;
use ip_spec::met::{Child, Met};

/// What is met where nothing was asked.
pub fn nothing_met() -> Met
    ensures { result ≡ met_nothing }
{
    Met {
        child: Child::NotAsked,
        checking: None,
        start_failed: false,
        kill_failed: false,
        left: 0,
        short: None,
        refused: false,
    }
}

/// What was met by an answer of a call that speaks to no child.
pub fn met_by<T: Drop>(answer: &Result<T, StoreFault>) -> Met
    ensures { result ≡ met_by answer.now }
{
    Met {
        short: match answer {
            Err(StoreFault::Limit(Limit::Space)) => Some(Limit::Space),
            Err(StoreFault::Limit(Limit::Sequence)) => Some(Limit::Sequence),
            _ => None,
        },
        refused: matches!(answer, Err(StoreFault::Memory)),
        ..nothing_met()
    }
}
