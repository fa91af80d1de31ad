use fs_model::{Bytes, Effect};

/// What a call does to the state that it is made in. A write tells the bytes that it writes, and not those of the whole file.
#[derive(Drop)]
pub enum Action {
    /// It has this effect.
    Effect(Effect),
    /// The bytes stand in the inode's file from the place on; a gap before them is zeros.
    Write { inode: u64, from: u64, bytes: Bytes },
}
