// The state as data, which an effect changes in place.
ghost use Rattle.std.specs.Prelude.{◌≡◌, ◌≢◌, ◌-◌, ◌^◌, true, IfOk, IfErr, OnOk, OnErr, None};
ghost use Rattle.std.specs.Option.{option_copied};
ghost use Rattle.std.specs.FinMap as map;
ghost use Rattle.fs_model.specs.declared.error.FsError.TheVariants.{OutOfMemory};
ghost use Rattle.fs_model.specs.Calls.{device_of, overwritten, AreBytes};
ghost use Rattle.fs_model.specs.Crash.{Image};
ghost use Rattle.fs_model.specs.Effects.{apply, bytes_of, with_change, with_bytes};
ghost use Rattle.fs_state.specs.Actions.{effect_in};
ghost use Rattle.fs_state.specs.Images.{image_of};
ghost use Rattle.fs_state.specs.Settled.{settled};
ghost use Rattle.fs_state.specs.Wants.{IsNextInode};

use crate::contents::{bytes_in, write_over};
use crate::image::{change_picked, reached_names, torn_bytes};
use crate::names::{change_names, keep_names};
use crate::{Action, Pick};
use fs_maps::{InodeMap, PathMap};
use fs_model::{Bytes, Effect, FsError, NameChange, Node, Path};
use std::alloc::{AllocError, Global};
use std::marker::Model;

/// The state of a file system, now and on the disk. After an error of a change in place it is not said what it is.
#[derive(Drop)]
pub struct State {
    names: PathMap<Node>,
    bytes: InodeMap<Bytes>,
    names_kept: PathMap<Node>,
    bytes_kept: InodeMap<Bytes>,
    pending: Vec<NameChange>,
    dirty: InodeMap<()>,
    devices: PathMap<u64>,
}

impl Model for State {
    ghost use Rattle.fs_model.specs.State.{FsState};
    ghost use Rattle.fs_model.specs.Codes.{state_code};

    ghost Value = { FsState };

    ghost coded = { state_code };

    ghost view = { λ a. record {
      names = a.names;
      bytes = a.bytes;
      names_kept = a.names_kept;
      bytes_kept = a.bytes_kept;
      pending = a.pending.items;
      dirty = a.dirty;
      devices = a.devices;
    } };
}

impl Clone for State {
    ghost is_clone = { λ a b. b ≡ a };

    fn clone(&self) -> Result<State, AllocError> {
        Ok(State {
            names: self.names.copy()?,
            bytes: self.bytes.copy()?,
            names_kept: self.names_kept.copy()?,
            bytes_kept: self.bytes_kept.copy()?,
            pending: self.pending.clone()?,
            dirty: self.dirty.copy()?,
            devices: self.devices.copy()?,
        })
    }
}

impl State {
    /// The state with these names, bytes and devices, all of it on the disk.
    pub fn settled(
        alloc: Global,
        names: PathMap<Node>,
        bytes: InodeMap<Bytes>,
        devices: PathMap<u64>,
    ) -> Result<State, AllocError>
        ensures { IfOk result (λ state. state ≡ settled names bytes devices) }
    {
        Ok(State {
            names_kept: names.copy()?,
            bytes_kept: bytes.copy()?,
            names,
            bytes,
            pending: Vec::new(alloc),
            dirty: InodeMap::new(alloc),
            devices,
        })
    }

    /// Lends the names now.
    pub fn names(&self) -> &PathMap<Node>
        ensures { result.now ≡ self.now.names }
    {
        &self.names
    }

    /// Lends what stands at a path now.
    pub fn node(&self, at: &Path) -> Option<&Node>
        ensures { option_copied result ≡ map.get self.now.names at.now }
    {
        self.names.get(at)
    }

    /// Lends the bytes of an inode now; none where it has none.
    pub fn bytes(&self, inode: u64) -> &[u8]
        ensures { result.now ≡ bytes_of self.now.bytes inode }
    {
        match self.bytes.get(inode) {
            Some(bytes) => bytes.bytes(),
            None => &[],
        }
    }

    /// The bytes of an inode now.
    pub fn bytes_copy(&self, alloc: Global, inode: u64) -> Result<Bytes, AllocError>
        ensures value { IfOk result (λ bytes. bytes ≡ bytes_of self.now.bytes inode) }
        ensures bytes { IfOk result AreBytes }
    {
        bytes_in(alloc, &self.bytes, inode)
    }

    /// The device of a directory; 0 where it has none.
    pub fn device(&self, dir: &Path) -> u64
        ensures { result ≡ device_of self.now dir.now }
    {
        match self.devices.get(dir) {
            Some(device) => *device,
            None => 0,
        }
    }

    /// The number that a new inode gets: one above the greatest, and 1 where there is none. An error comes exactly where
    /// the greatest number of all is in use.
    pub fn next_inode(&self) -> Result<u64, FsError>
        ensures ok { IfOk result (IsNextInode self.now.bytes) }
        ensures err { IfErr result (λ error. error ≡ OutOfMemory) }
        ensures full { OnErr result (map.contains_key self.now.bytes (2 ^ 64 - 1) ≡ true) }
    {
        match self.bytes.last() {
            Some(last) if last == u64::MAX => Err(FsError::OutOfMemory),
            Some(last) => Ok(last + 1),
            None => Ok(1),
        }
    }

    // Changes the names now, and has the change waiting.
    fn change(&mut self, change: NameChange) -> Result<(), AllocError>
        ensures { OnOk result (self.new ≡ with_change self.old change) }
    {
        change_names(&mut self.names, &change)?;
        self.pending.push(change)?;
        Ok(())
    }

    // Gives an inode its bytes now.
    fn write(&mut self, inode: u64, bytes: Bytes) -> Result<(), AllocError>
        ensures { OnOk result (self.new ≡ with_bytes self.old inode bytes) }
    {
        self.bytes.insert(inode, bytes)?;
        self.dirty.insert(inode, ())?;
        Ok(())
    }

    // Takes the bytes of an inode out, where it has any.
    fn taken(&mut self, alloc: Global, inode: u64) -> Vec<u8>
        ensures value { result.items ≡ bytes_of self.old.bytes inode }
        ensures rest { self.new ≡ record self.old { bytes = map.remove self.old.bytes inode } }
    {
        match self.bytes.take(inode) {
            Some(bytes) => bytes.into_vec(),
            None => Vec::new(alloc),
        }
    }

    // Writes bytes over those of an inode from a place on, in place.
    fn overwrite(
        &mut self,
        alloc: Global,
        inode: u64,
        from: u64,
        bytes: &[u8],
    ) -> Result<(), AllocError>
        ensures { OnOk result (self.new ≡ with_bytes self.old inode (overwritten (bytes_of self.old.bytes inode) from bytes.now)) }
    {
        let mut items = self.taken(alloc, inode);
        write_over(&mut items, from as usize, bytes)?;
        self.write(inode, Bytes::new(items))?;
        Ok(())
    }

    /// The image that the pick names: what a crash leaves.
    pub fn image(&self, alloc: Global, pick: &Pick) -> Result<State, AllocError>
        ensures picked { IfOk result (λ x. x ≡ image_of self.now pick.now) }
        ensures image { IfOk result (λ x. Image self.now x) }
    {
        let mut names = self.names_kept.copy()?;
        change_picked(&mut names, &self.pending, pick.changes())?;
        let names = reached_names(alloc, &names)?;
        let bytes = torn_bytes(
            alloc,
            &self.bytes_kept,
            &self.bytes,
            &self.dirty,
            pick.bytes(),
        )?;
        let image = State::settled(alloc, names, bytes, self.devices.copy()?)?;
        Ok(image)
    }

    /// Has the effect of the action. A write costs what it writes, and not what the file has.
    pub fn apply(&mut self, alloc: Global, action: &Action) -> Result<(), AllocError>
        ensures { OnOk result (self.new ≡ apply self.old (effect_in self.old action.now)) }
    {
        match action {
            Action::Effect(effect) => self.have(alloc, effect),
            Action::Write { inode, from, bytes } => {
                self.overwrite(alloc, *inode, *from, bytes.bytes())
            }
        }
    }

    // Has the effect.
    fn have(&mut self, alloc: Global, effect: &Effect) -> Result<(), AllocError>
        ensures { OnOk result (self.new ≡ apply self.old effect.now) }
    {
        match effect {
            Effect::Nothing => Ok(()),
            Effect::Names(change) => self.change(change.clone()?),
            Effect::NewFile(at, inode) => {
                let pairs = vec![in alloc; (at.clone()?, Some(Node::File(*inode)))]?;
                self.change(NameChange::new(pairs))?;
                self.write(*inode, Bytes::new(Vec::new(alloc)))
            }
            Effect::NewDir(at, device) => {
                let pairs = vec![in alloc; (at.clone()?, Some(Node::Dir))]?;
                self.change(NameChange::new(pairs))?;
                self.devices.insert(at.clone()?, *device)
            }
            Effect::Bytes(inode, bytes) => self.write(*inode, bytes.clone()?),
            Effect::KeepBytes(inode) => {
                let bytes = bytes_in(alloc, &self.bytes, *inode)?;
                self.bytes_kept.insert(*inode, bytes)?;
                self.dirty.remove(*inode);
                Ok(())
            }
            Effect::KeepNames(dir) => {
                let pending = std::mem::replace(&mut self.pending, Vec::new(alloc));
                self.pending = keep_names(alloc, &mut self.names_kept, pending, dir)?;
                Ok(())
            }
        }
    }
}
