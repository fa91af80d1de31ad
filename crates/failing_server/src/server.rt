// The server that fails.
ghost use Rattle.std.specs.Prelude.{◌≡◌, ◌≤◌, IfErr};
ghost use Rattle.std.specs.Bool.{OnTrue, OnFalse};
ghost use Rattle.fs_model.specs.Trail.{Rose};

use catalog::Catalog;
use catalog_server::{Server, ServerError};
use control_file::Release;
use fs_model::{Fs, Path};
use server_profile::ProfileServer;
use std::alloc::Global;

/// It keeps the laws of the server that it wraps, and its faults rise at the stated call alone.
#[derive(Drop)]
pub struct FailingServer {
    alloc: Global,
    inner: ProfileServer,
    // Calls until the one that fails, if one is to.
    left: Option<u64>,
    faults: u64,
    replays: u64,
    text: Vec<u8>,
}

impl FailingServer {
    /// Its call number `fail`, counted from 0 over its three calls, fails and does nothing else.
    pub fn new(alloc: Global, inner: ProfileServer, fail: Option<u64>) -> FailingServer
        ensures faults { result.faults ≡ 0 }
        ensures replays { result.replays ≡ 0 }
    {
        FailingServer {
            alloc,
            inner,
            left: fail,
            faults: 0,
            replays: 0,
            text: Vec::new(alloc),
        }
    }

    /// The number of replays that it has handed to the server that it wraps.
    pub fn replays(&self) -> u64
        ensures { result ≡ self.now.replays }
    {
        self.replays
    }

    /// The text of the last of these, empty where there is none.
    pub fn text(&self) -> &[u8]
        ensures { result.now ≡ self.now.text.items }
    {
        &self.text
    }

    // Counts a call down, and whether it is the one that fails.
    fn fails(&mut self) -> bool
        ensures inner { self.new.inner ≡ self.old.inner }
        ensures rose { OnTrue result (Rose self.old.faults self.new.faults) }
        ensures stays { OnFalse result (self.new.faults ≡ self.old.faults) }
        ensures never_falls { self.old.faults ≤ self.new.faults }
    {
        match self.left {
            None => false,
            Some(0) => {
                self.left = None;
                self.faults = self.faults.saturating_add(1);
                true
            }
            Some(left) => {
                self.left = Some(left - 1);
                false
            }
        }
    }

    // Keeps the text of a replay that is handed on.
    fn keep(&mut self, text: &[u8]) -> Result<(), ServerError>
        ensures inner { self.new.inner ≡ self.old.inner }
        ensures stays { self.new.faults ≡ self.old.faults }
        ensures error { IfErr result (λ e. e ≡ ServerError.OutOfMemory) }
    {
        match Vec::from_slice(self.alloc, text) {
            Ok(text) => {
                self.text = text;
                self.replays = self.replays.saturating_add(1);
                Ok(())
            }
            Err(_) => Err(ServerError::OutOfMemory),
        }
    }
}

impl<F: Fs> Server<F> for FailingServer {
    ghost use Rattle.server_profile.specs.Reading.{profile_catalog};

    ghost catalog_of = { profile_catalog };

    ghost counts = { λ s. record (⟦<ProfileServer as Server<F>>⟧.counts s.inner) { faults = s.faults } };

    fn read_catalog(
        &mut self,
        alloc: Global,
        fs: &mut F,
        root: &Path,
        release: Release,
    ) -> Result<Catalog, ServerError> {
        if self.fails() {
            return Err(ServerError::Failed);
        }
        self.inner.read_catalog(alloc, fs, root, release)
    }

    fn dump(
        &mut self,
        alloc: Global,
        fs: &mut F,
        root: &Path,
        release: Release,
    ) -> Result<Vec<u8>, ServerError> {
        if self.fails() {
            return Err(ServerError::Failed);
        }
        self.inner.dump(alloc, fs, root, release)
    }

    fn replay(
        &mut self,
        alloc: Global,
        fs: &mut F,
        root: &Path,
        release: Release,
        text: &[u8],
    ) -> Result<(), ServerError> {
        if self.fails() {
            return Err(ServerError::Failed);
        }
        self.keep(text)?;
        self.inner.replay(alloc, fs, root, release, text)
    }
}
