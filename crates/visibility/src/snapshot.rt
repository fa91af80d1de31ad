ghost use Rattle.std.specs.Prelude.{◌≡◌, ◌==◌, ◌↔◌, IfOk, OnOk, IsErr, IsTrue};
ghost use Rattle.std.specs.List.{list_any};
ghost use Rattle.std.specs.List.Sorted.{IsStrictlyIncreasing};
ghost use Rattle.visibility.specs.Snapshot.{is_inside};

use std::marker::Model;
use thiserror::Error;
use xact_status::precedes;

/// Why numbers make no snapshot.
#[derive(Clone, Copy, Debug, PartialEq, Eq, Error)]
pub enum SnapshotError {
    /// The running ids don't strictly ascend.
    #[error("the running transactions are not in ascending order")]
    NotSorted,
}

/// What was running when a statement began (`SnapshotData` in `src/include/utils/snapshot.h`). A contract sees the
/// bounds and the list of the running ids.
#[derive(Drop)]
pub struct Snapshot {
    xmin: u32,
    xmax: u32,
    running: Vec<u32>,
}

impl Model for Snapshot {
    ghost use Rattle.std.specs.List.Sorted.{IsStrictlyIncreasing};
    ghost use Rattle.visibility.specs.Taken.{Taken};

    ghost Value = { Taken };

    ghost view = { λ s. record { xmin = s.xmin; xmax = s.xmax; running = s.running.items } };

    ghost invariant = { λ s. IsStrictlyIncreasing s.running.items };
}

impl Snapshot {
    /// Takes no memory. Each id before `xmin` had ended, no id from `xmax` on had begun, and of those between them
    /// exactly the `running` ones hadn't ended.
    pub fn new(xmin: u32, xmax: u32, running: Vec<u32>) -> Result<Snapshot, SnapshotError>
        ensures ok { IfOk result (λ snapshot.
            snapshot ≡ record { xmin = xmin; xmax = xmax; running = running.items }) }
        ensures sorted { OnOk result (IsStrictlyIncreasing running.items) }
        ensures not_sorted { IsErr result ↔ (¬ IsStrictlyIncreasing running.items) }
    {
        if !is_strictly_ascending(&running) {
            return Err(SnapshotError::NotSorted);
        }
        Ok(Snapshot {
            xmin,
            xmax,
            running,
        })
    }

    /// Whether an id hadn't ended for this snapshot (`XidInMVCCSnapshot` in `src/backend/utils/time/snapmgr.c`).
    pub fn inside(&self, xid: u32) -> bool
        ensures { result ≡ is_inside self.now xid }
    {
        if precedes(xid, self.xmin) {
            return false;
        }
        if !precedes(xid, self.xmax) {
            return true;
        }
        is_listed(&self.running, xid)
    }
}

// Whether each number is below the next.
fn is_strictly_ascending(numbers: &[u32]) -> bool
    ensures { IsTrue result ↔ IsStrictlyIncreasing numbers.now }
{
    for i in 1..numbers.len() {
        if numbers[i - 1] >= numbers[i] {
            return false;
        }
    }
    true
}

// Whether a number is among ascending ones.
fn is_listed(numbers: &[u32], number: u32) -> bool
    requires { IsStrictlyIncreasing numbers.now }
    ensures { result ≡ list_any (λ each. each == number) numbers.now }
{
    numbers.binary_search(&number).is_ok()
}
