// The opening state, the record of the calls since, and the present state, which they lead to.
ghost use Rattle.std.specs.Prelude.{ℕ, ◌≡◌, ◌≢◌, OnOk, OnErr, IfOk, IfErr, [], None, Some, Ok, IsOk, length, take, ◌≤◌, ◌<◌, ◌↔◌, ◌^◌, ◌-◌, IsErrOf};
ghost use Rattle.fs_model.specs.declared.error.FsError.TheVariants.{OutOfMemory};
ghost use Rattle.fs_model.specs.Calls.{Call};
ghost use Rattle.fs_model.specs.Crash.{Image, Settled};
ghost use Rattle.fs_model.specs.Effects.{apply};
ghost use Rattle.fs_model.specs.Trail.{error_of};
ghost use Rattle.fs_model.specs.WellFormed.{WellFormed};
ghost use Rattle.fs_state.specs.Actions.{effect_in, effect_wanted};
ghost use Rattle.fs_state.specs.Images.{image_of};
ghost use Rattle.fs_state.specs.Wants.{Wants, HasBytes};
ghost use Rattle.fs_mem.specs.History.{failed_effect, listed, Answers, Ends, IsWanted, read_only, state_after, present_of, state_at, opens, one_lack, one_done};
ghost use Rattle.fs_mem.specs.Records.{told_from};
ghost use Rattle.fs_mem.specs.Tree.{tree_fault, opening_of, tree_of};

use crate::history::Recorded;
use crate::opening::opened;
use crate::tree::standing;
use crate::{Failing, ImageError, Tree, TreeError};
use fs_model::{Effect, FsError};
use fs_state::{Action, Pick, State, changing};
use std::alloc::{AllocError, Global};
use std::marker::Model;

/// A file system in memory. It tells its trail, and fails exactly at the calls that it was told to.
#[derive(Drop)]
pub struct MemFs {
    alloc: Global,
    opening: State,
    // a write is recorded with the bytes that it wrote, and not with those of the whole file
    done: Vec<Recorded>,
    lacks: u64,
    // None where memory lacked while it was changed; the next call makes it again from the record
    present: Option<State>,
    failing: Vec<Failing>,
}

impl Model for MemFs {
    ghost use Rattle.fs_mem.specs.History.{History, IsHeld};
    ghost use Rattle.fs_mem.specs.Records.{told_from};
    ghost use Rattle.fs_mem.specs.Code.{history_code};

    ghost Value = { History };

    ghost coded = { history_code };

    ghost view = { λ a. record { opening = a.opening; done = told_from a.opening a.done.items; lacks = a.lacks; failing = a.failing.items } };

    ghost invariant = { λ a. IsHeld a.present a.opening (told_from a.opening a.done.items) };
}

// The state that the calls lead to.
fn replayed(alloc: Global, opening: &State, done: &[Recorded]) -> Result<State, AllocError>
    ensures { IfOk result (λ s. s ≡ state_after opening.now (told_from opening.now done.now)) }
{
    let mut state = opening.clone()?;
    for r in done {
        state.apply(alloc, &r.action)?;
    }
    Ok(state)
}

// Whether the call of this number is listed to fail, and with its effect.
fn listed_at(failing: &[Failing], number: u64) -> Option<bool>
    ensures { result ≡ listed failing.now number }
{
    for f in failing {
        if f.call == number {
            return Some(f.effect);
        }
    }
    None
}

// What a call does that is listed to fail.
fn failing_action(alloc: Global, state: &State, wanted: Action, with_effect: bool) -> Action
    ensures effect { effect_in state.now result ≡ failed_effect state.now with_effect (effect_in state.now wanted) }
    ensures bytes { HasBytes (effect_in state.now wanted) → HasBytes (effect_in state.now result) }
{
    if with_effect {
        return wanted;
    }
    match wanted {
        Action::Effect(Effect::Bytes(inode, _)) => changing::write_nothing(alloc, state, inode),
        Action::Write { inode, .. } => changing::write_nothing(alloc, state, inode),
        Action::Effect(_) => Action::Effect(Effect::Nothing),
    }
}

// What a call does and answers that wants this, where it is listed to fail or not.
fn ended(
    alloc: Global,
    state: &State,
    wanted: Result<Action, FsError>,
    listed: Option<bool>,
) -> Result<Recorded, AllocError>
    ensures answers { IfOk result (λ r. (call : Call) → Wants state.now call (effect_wanted state.now wanted) → Answers state.now listed call r.answer (effect_in state.now r.action)) }
    ensures not_memory { IfOk result (λ r. r.answer ≢ Some OutOfMemory) }
    ensures refused { IfOk result (λ r. r.answer ≡ None → IsOk wanted) }
{
    match (wanted, listed) {
        (Err(FsError::OutOfMemory), _) => Err(AllocError),
        (Err(_), Some(_)) => Ok(Recorded {
            action: Action::Effect(Effect::Nothing),
            answer: Some(FsError::Failed),
        }),
        (Err(error), None) => Ok(Recorded {
            action: Action::Effect(Effect::Nothing),
            answer: Some(error),
        }),
        (Ok(action), None) => Ok(Recorded {
            action,
            answer: None,
        }),
        (Ok(action), Some(with_effect)) => Ok(Recorded {
            action: failing_action(alloc, state, action, with_effect),
            answer: Some(FsError::Failed),
        }),
    }
}

impl MemFs {
    /// A file system that holds the tree, all of it on the disk. The root has device 0. The calls that are listed
    /// will fail; of two entries for one call the first counts.
    pub fn new(alloc: Global, tree: Tree, failing: Vec<Failing>) -> Result<MemFs, TreeError>
        ensures ok { IfOk result (λ m. m ≡ record { opening = opening_of tree; done = []; lacks = 0; failing = failing.items }) }
        ensures settled { IfOk result (λ m. Settled m.opening) }
        ensures well_formed { IfOk result (λ m. WellFormed m.opening) }
        ensures sound { OnOk result (tree_fault tree ≡ None) }
        ensures err { IfErr result (λ e. e ≢ TreeError.OutOfMemory → tree_fault tree ≡ Some e) }
    {
        let opening = opened(alloc, &tree)?;
        Ok(MemFs {
            alloc,
            opening,
            done: Vec::new(alloc),
            lacks: 0,
            present: None,
            failing,
        })
    }

    /// What stands now, without the root, in ascending order of the paths. `NoMoment` never comes.
    pub fn tree(&self, alloc: Global) -> Result<Tree, ImageError>
        ensures tree { IfOk result (λ tree. tree ≡ tree_of (present_of self.now)) }
        ensures err { IfErr result (λ e. e ≡ ImageError.OutOfMemory) }
    {
        if let Some(state) = &self.present {
            return Ok(standing(alloc, state)?);
        }
        let state = replayed(alloc, &self.opening, &self.done)?;
        Ok(standing(alloc, &state)?)
    }

    // Lends the record, which tells the calls.
    fn recorded(&self) -> &[Recorded]
        ensures told { (moment : ℕ) → told_from self.now.opening (take moment result.now) ≡ take moment self.now.done }
        ensures count { length result.now ≡ length self.now.done }
    {
        &self.done
    }

    // The state after that many calls. `NoMoment` comes exactly where there were fewer.
    fn state_at(&self, alloc: Global, moment: u64) -> Result<State, ImageError>
        ensures state { IfOk result (λ s. s ≡ state_at self.now moment) }
        ensures well_formed { IfOk result WellFormed }
        ensures no_moment { IsErrOf result ImageError.NoMoment ↔ (length self.now.done < moment) }
    {
        let recorded = self.recorded();
        if moment > recorded.len() as u64 {
            return Err(ImageError::NoMoment);
        }
        let state = replayed(alloc, &self.opening, &recorded[..moment as usize])?;
        Ok(state)
    }

    /// What a crash leaves of the state after that many calls: the image that the pick names. It fails nothing.
    /// `NoMoment` comes exactly where there were fewer calls.
    pub fn image(&self, alloc: Global, moment: u64, pick: &Pick) -> Result<MemFs, ImageError>
        ensures ok { IfOk result (λ m. m ≡ opens (image_of (state_at self.now moment) pick.now)) }
        ensures image { IfOk result (λ m. Image (state_at self.now moment) m.opening) }
        ensures settled { IfOk result (λ m. Settled m.opening) }
        ensures no_moment { IsErrOf result ImageError.NoMoment ↔ (length self.now.done < moment) }
    {
        let state = self.state_at(alloc, moment)?;
        let opening = state.image(alloc, pick)?;
        Ok(MemFs {
            alloc,
            opening,
            done: Vec::new(alloc),
            lacks: 0,
            present: None,
            failing: Vec::new(alloc),
        })
    }

    /// The allocator of the states.
    pub(crate) fn alloc(&self) -> Global {
        self.alloc
    }

    /// The number of calls.
    pub(crate) fn count(&self) -> u64
        ensures count { result ≡ length self.now.done }
        ensures fits { result ≤ 2 ^ 64 - 1 }
        ensures well_formed { WellFormed (present_of self.now) }
    {
        let _ = &self.present;
        self.recorded().len() as u64
    }

    // Memory lacked.
    fn lack(&mut self) -> FsError
        ensures error { result ≡ OutOfMemory }
        ensures lack { self.new ≡ one_lack self.old }
    {
        if self.lacks != u64::MAX {
            self.lacks += 1;
        }
        FsError::OutOfMemory
    }

    /// Hands out the present state.
    pub(crate) fn open(&mut self) -> Result<State, FsError>
        ensures state { IfOk result (λ s. s ≡ present_of self.old) }
        ensures well_formed { IfOk result WellFormed }
        ensures same { OnOk result (self.new ≡ self.old) }
        ensures lack { IfErr result (λ e. (e ≡ OutOfMemory) × (self.new ≡ one_lack self.old)) }
    {
        if let Some(state) = self.present.take() {
            return Ok(state);
        }
        match replayed(self.alloc, &self.opening, &self.done) {
            Ok(state) => Ok(state),
            Err(_) => Err(self.lack()),
        }
    }

    // Whether the next call is listed to fail, and with its effect.
    fn listed_now(&self) -> Option<bool>
        ensures { result ≡ listed self.now.failing (length self.now.done) }
    {
        listed_at(&self.failing, self.count())
    }

    // Adds a call to the record, and has its effect.
    fn keep(&mut self, state: State, r: Recorded) -> Result<(), AllocError>
        requires present { state ≡ present_of self.old }
        requires well_formed { WellFormed (apply state (effect_in state r.action)) }
        ensures ok { OnOk result (self.new ≡ one_done self.old (effect_in state r.action) r.answer) }
        ensures err { OnErr result (self.new ≡ self.old) }
    {
        let mut state = state;
        state.apply(self.alloc, &r.action)?;
        self.done.push(r)?;
        self.present = Some(state);
        Ok(())
    }

    /// Ends a call that wants this.
    pub(crate) fn close_action(
        &mut self,
        state: State,
        wanted: Result<Action, FsError>,
    ) -> Result<(), FsError>
        requires present { state ≡ present_of self.old }
        requires well_formed { WellFormed state }
        requires wanted { IsWanted state (effect_wanted state wanted) }
        ensures ends { (call : Call) → Wants state call (effect_wanted state wanted) → Ends self.old call (error_of result) self.new }
        ensures refused { OnOk result (IsOk wanted) }
    {
        let r = match ended(self.alloc, &state, wanted, self.listed_now()) {
            Ok(r) => r,
            Err(_) => return Err(self.lack()),
        };
        let answer = r.answer;
        match self.keep(state, r) {
            Ok(()) => match answer {
                None => Ok(()),
                Some(error) => Err(error),
            },
            Err(_) => Err(self.lack()),
        }
    }

    /// Ends a call that wants this effect.
    pub(crate) fn close(
        &mut self,
        state: State,
        wanted: Result<Effect, FsError>,
    ) -> Result<(), FsError>
        requires present { state ≡ present_of self.old }
        requires well_formed { WellFormed state }
        requires wanted { IsWanted state wanted }
        ensures ends { (call : Call) → Wants state call wanted → Ends self.old call (error_of result) self.new }
        ensures refused { OnOk result (IsOk wanted) }
    {
        match wanted {
            Ok(effect) => self.close_action(state, Ok(Action::Effect(effect))),
            Err(error) => self.close_action(state, Err(error)),
        }
    }

    /// Ends a call that only reads and has this result.
    pub(crate) fn close_reading<T: Drop>(
        &mut self,
        state: State,
        read: Result<T, FsError>,
    ) -> Result<T, FsError>
        requires present { state ≡ present_of self.old }
        requires well_formed { WellFormed state }
        requires wanted { IsWanted state (read_only read) }
        ensures ends { (call : Call) → Wants state call (read_only read) → Ends self.old call (error_of result) self.new }
        ensures same { IfOk result (λ value. read ≡ Ok value) }
    {
        match read {
            Ok(value) => {
                self.close(state, Ok(Effect::Nothing))?;
                Ok(value)
            }
            Err(error) => {
                self.close(state, Err(error))?;
                Err(error)
            }
        }
    }
}
