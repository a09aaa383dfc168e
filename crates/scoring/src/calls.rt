ghost use Rattle.std.specs.Prelude.{◌≡◌, ◌++◌, length, OnOk, IfOk};
ghost use Rattle.std.specs.List.{filter_map, enumerate_from};
ghost use Rattle.scoring.specs.Scores.{entered, settling, week_calls};

use kinds::kind::Kind;
use ledger::call::{Call, Listed};
use std::alloc::{AllocError, Global};

// The calls that enter the figures that were sent.
fn entering<K: Kind>(heap: Global, sent: &[Option<K>]) -> Result<Vec<Listed<K>>, AllocError>
    ensures { IfOk result (λ v. v.items ≡ filter_map (λ p. entered (length sent.now) p.0 p.1) (enumerate_from 0 sent.now)) }
{
    let rows = sent.len();
    sent.iter()
        .enumerate()
        .filter_map(|(row, figure)| figure.map(|x| Listed::own(rows, Call::Enter(row, x))))
        .collect(heap)
}

// The calls that turn, close, add up and hold against the limit.
// Stays five pushes: of an array of calls, whatever the kind, no proof knows that it fits in memory.
fn add_settling<K: Kind>(
    calls: &mut Vec<Listed<K>>,
    rows: usize,
    limit: K,
) -> Result<(), AllocError>
    ensures { OnOk result (calls.new.items ≡ calls.old.items ++ settling rows limit) }
{
    calls.push(Listed::own(rows, Call::OnAll))?;
    calls.push(Listed::own(rows, Call::Close))?;
    calls.push(Listed::own(rows, Call::Total))?;
    calls.push(Listed::own(rows, Call::Mean))?;
    calls.push(Listed::own(rows, Call::Exceeds(limit)))?;
    Ok(())
}

// The calls of a week. Each figure that was sent is entered in its row; a store that sent nothing has a
// free row. Then all are turned, the sheet is closed and added up, and the total is held against the
// limit.
pub fn week_calls<K: Kind>(
    heap: Global,
    sent: &[Option<K>],
    limit: K,
) -> Result<Vec<Listed<K>>, AllocError>
    ensures { IfOk result (λ v. v.items ≡ week_calls sent.now limit) }
{
    let mut calls = entering(heap, sent)?;
    add_settling(&mut calls, sent.len(), limit)?;
    Ok(calls)
}
