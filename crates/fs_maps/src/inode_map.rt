// A finite map by the number of an inode.
ghost use Rattle.std.specs.Prelude.{◌≡◌, ◌≤◌, ℕ, true, false, OnOk, IfOk, IfSome, IfNone};
ghost use Rattle.std.specs.Option.{option_copied};
ghost use Rattle.std.specs.FinMap as map;

use std::alloc::{AllocError, Global};
use std::collections::BTreeMap;
use std::marker::Model;

/// Values by the number of an inode, in ascending order of the numbers.
#[derive(Drop)]
pub struct InodeMap<V: Drop> {
    entries: BTreeMap<u64, V>,
}

impl<V: Drop> Model for InodeMap<V> {
    ghost use Rattle.std.specs.Coded.{coded_ℕ};
    ghost use Rattle.std.specs.FinMap as map;
    ghost use Rattle.std.specs.Ordering.{nat_cmp};

    ghost Value = { map.FinMap nat_cmp V };

    ghost coded = { map.code coded_ℕ V.code };

    ghost view = { λ a. map.from_entries a.entries.entries };
}

impl<V: Drop> InodeMap<V> {
    /// Takes no memory.
    pub fn new(alloc: Global) -> Self
        ensures { result ≡ map.empty }
    {
        Self {
            entries: BTreeMap::new(alloc),
        }
    }

    /// Lends the value of an inode.
    pub fn get(&self, inode: u64) -> Option<&V>
        ensures { option_copied result ≡ map.get self.now inode }
    {
        self.entries.get(&inode)
    }

    /// The greatest number.
    pub fn last(&self) -> Option<u64>
        ensures none { IfNone result ((inode : ℕ) → map.contains_key self.now inode ≡ false) }
        ensures stands { IfSome result (λ last. map.contains_key self.now last ≡ true) }
        ensures greatest { IfSome result (λ last. (inode : ℕ) → map.contains_key self.now inode ≡ true → inode ≤ last) }
    {
        match self.entries.last_key_value() {
            Some((inode, _)) => Some(*inode),
            None => None,
        }
    }

    /// Puts a value at an inode. After an error it is not said what the map has.
    pub fn insert(&mut self, inode: u64, value: V) -> Result<(), AllocError>
        ensures { OnOk result (self.new ≡ map.insert self.old inode value) }
    {
        self.entries.insert(inode, value)?;
        Ok(())
    }

    /// Takes away what the map has at an inode.
    pub fn remove(&mut self, inode: u64)
        ensures { self.new ≡ map.remove self.old inode }
    {
        self.entries.remove(&inode);
    }

    /// Takes away what the map has at an inode, and gives it.
    pub fn take(&mut self, inode: u64) -> Option<V>
        ensures value { result ≡ map.get self.old inode }
        ensures rest { self.new ≡ map.remove self.old inode }
    {
        self.entries.remove(&inode)
    }

    /// The numbers, in ascending order.
    pub fn inodes(&self, alloc: Global) -> Result<Vec<u64>, AllocError>
        ensures { IfOk result (λ inodes. inodes.items ≡ map.keys self.now) }
    {
        let mut inodes = Vec::new(alloc);
        for inode in self.entries.keys() {
            inodes.push(*inode)?;
        }
        Ok(inodes)
    }
}

impl<V: Clone + Drop> InodeMap<V> {
    /// An equal map, where the clone of a value is an equal value.
    pub fn copy(&self) -> Result<Self, AllocError>
        requires { (v w : _) → V.is_clone v w → w ≡ v }
        ensures { IfOk result (λ copy. copy ≡ self.now) }
    {
        Ok(Self {
            entries: self.entries.clone()?,
        })
    }
}
