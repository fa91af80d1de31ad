// The control files (PostgreSQL's `pg_control.h`).
ghost use Rattle.std.specs.Prelude.{◌≡◌, ◌++◌, IfOk, OnOk};
ghost use Rattle.cluster_gen.specs.Control.{counter_bytes, checkpoint, settings, head, control_file, old_counters, new_counters};

use crate::numbers::{put_u32, put_u32s, put_u64, put_zeros};
use control_file::{Counters, Release, crc32c};
use std::alloc::{AllocError, Global};

/// The counters of the old cluster: its next transaction is 800, and its oldest is 600.
pub fn old_counters() -> Counters
    ensures { result ≡ old_counters }
{
    Counters {
        next_xid: 800,
        next_oid: 30_000,
        next_multi: 1,
        next_multi_offset: 0,
        oldest_xid: 600,
        oldest_xid_db: 1,
        oldest_multi: 1,
        oldest_multi_db: 1,
    }
}

/// The counters of the new cluster: its next transaction is 700, and no object was made by a user.
pub fn new_counters() -> Counters
    ensures { result ≡ new_counters }
{
    Counters {
        next_xid: 700,
        next_oid: 16_384,
        ..old_counters()
    }
}

#[tactic(auto, unfolding(crate::specs::Control::counter_bytes))]
fn put_counters(out: &mut Vec<u8>, counters: &Counters) -> Result<(), AllocError>
    ensures { OnOk result (out.new.items ≡ out.old.items ++ counter_bytes counters.now) }
{
    put_u64(out, counters.next_xid)?;
    put_u32s(
        out,
        &[
            counters.next_oid,
            counters.next_multi,
            counters.next_multi_offset,
            counters.oldest_xid,
            counters.oldest_xid_db,
            counters.oldest_multi,
            counters.oldest_multi_db,
        ],
    )
}

// The first 100 bytes: the versions, the state `shut down`, and the copy of the last checkpoint.
#[tactic(auto, unfolding(crate::specs::Control::checkpoint))]
fn put_checkpoint(
    out: &mut Vec<u8>,
    release: Release,
    counters: &Counters,
) -> Result<(), AllocError>
    ensures { OnOk result (out.new.items ≡ out.old.items ++ checkpoint release counters.now) }
{
    put_zeros(out, 8)?;
    put_u32s(out, &[1300, release.catalog_version(), 1])?;
    put_zeros(out, 44)?;
    put_counters(out, counters)?;
    Ok(())
}

// The bytes from place 100 to the CRC: what the server was built with.
#[tactic(auto, unfolding(crate::specs::Control::settings))]
fn put_settings(out: &mut Vec<u8>) -> Result<(), AllocError>
    ensures { OnOk result (out.new.items ≡ out.old.items ++ settings) }
{
    put_zeros(out, 104)?;
    put_u32s(
        out,
        &[
            8, 0, 0, 8192, 131_072, 8192, 16_777_216, 64, 32, 1996, 2048, 1,
        ],
    )?;
    put_zeros(out, 36)
}

/// The bytes of `global/pg_control` of a cluster of the release that was shut down.
#[tactic(auto, unfolding(crate::specs::Control::control_file, crate::specs::Control::head))]
pub fn control_file(
    alloc: Global,
    release: Release,
    counters: &Counters,
) -> Result<Vec<u8>, AllocError>
    ensures { IfOk result (λ bytes. bytes.items ≡ control_file release counters.now) }
{
    let mut bytes = Vec::new(alloc);
    put_checkpoint(&mut bytes, release, counters)?;
    put_settings(&mut bytes)?;
    let crc = crc32c(&bytes);
    put_u32(&mut bytes, crc)?;
    put_zeros(&mut bytes, 7900)?;
    Ok(bytes)
}
