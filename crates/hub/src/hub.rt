//! A hub: many connections, each under a key. Executes their messages in rounds.
ghost use Rattle.std.specs.Prelude.{◌≡◌, ◌≢◌, ℕ, false};
ghost use Rattle.settle.specs.StoreContract.{BeginsNoGroup, EndsNoGroup};
ghost use Rattle.slab.specs.Slab.{get};
ghost use Rattle.hub.specs.Hub.{ConnectionsGoOn, IsSettled, IsSettledAt, IsSettledBut, connections_of, kept_connections};
ghost use Rattle.hub.specs.Rows.{RowsFollow};

use crate::limits::Limits;
use crate::member::Member;
use api::{Executor, Ticks, TurnLimit};
use register::Register;
use settle::Store;
use slab::Slab;
use std::alloc::{AllocError, Global};
use std::time::Duration;

// How much a turn takes at most.
const TURN: TurnLimit = TurnLimit {
    messages: 64,
    output: 65_536,
};

/// Connections, each under a key, and what executes their messages.
#[derive(Drop)]
pub struct Hub<P: Drop> {
    pub members: Slab<Member<P>>,
    pub limits: Limits,
    executor: Executor,
    alloc: Global,
}

impl<P: Drop> Hub<P> {
    /// Creates a hub without connections.
    ///
    /// # Errors
    ///
    /// `AllocError` if an allocation fails.
    pub fn new(alloc: Global, limits: Limits) -> Result<Hub<P>, AllocError> {
        Ok(Hub {
            members: Slab::with_capacity(alloc, limits.at_once)?,
            executor: Executor::new(alloc)?,
            limits,
            alloc,
        })
    }

    // Executes messages of a connection ahead.
    fn execute_at<S: Store, T: Ticks>(
        &mut self,
        key: usize,
        register: &mut Register<S>,
        ticks: &mut T,
        limit: TurnLimit,
    )
        ensures goes_on { ConnectionsGoOn S.StoreModel register.old.store register.new.store
            (kept_connections self.old.members) (kept_connections self.new.members) }
        ensures stays { (place : ℕ)
            → connections_of self.new.members place ≡ connections_of self.old.members place }
        ensures others { (place : ℕ) → place ≢ key
            → get self.new.members place ≡ get self.old.members place }
        ensures follows { RowsFollow S.StoreModel register.old.store register.new.store }
        ensures begins { BeginsNoGroup S.StoreModel register.old.store register.new.store }
        ensures ends { EndsNoGroup S.StoreModel register.old.store register.new.store }
    {
        if let Some(member) = self.members.get_mut(key) {
            member.execute_ahead(&mut self.executor, register, ticks, limit);
        }
    }

    // Executes messages of each of these connections ahead.
    fn execute_ahead<S: Store, T: Ticks>(
        &mut self,
        keys: &[usize],
        register: &mut Register<S>,
        ticks: &mut T,
        limit: TurnLimit,
    )
        ensures goes_on { IsSettled self.old.members
            → ConnectionsGoOn S.StoreModel register.old.store register.new.store
            (connections_of self.old.members) (kept_connections self.new.members) }
        ensures stays { (place : ℕ)
            → connections_of self.new.members place ≡ connections_of self.old.members place }
        ensures ahead { IsSettled self.old.members → IsSettledBut keys.now self.new.members }
        ensures follows { RowsFollow S.StoreModel register.old.store register.new.store }
        ensures begins { BeginsNoGroup S.StoreModel register.old.store register.new.store }
        ensures ends { EndsNoGroup S.StoreModel register.old.store register.new.store }
    {
        for key in keys {
            self.execute_at(*key, register, ticks, limit);
        }
    }

    // Keeps what was executed ahead for a connection.
    fn keep_at(&mut self, key: usize, now: Duration)
        ensures kept { connections_of self.new.members key ≡ kept_connections self.old.members key }
        ensures settled { IsSettledAt key self.new.members }
        ensures others { (place : ℕ) → place ≢ key
            → get self.new.members place ≡ get self.old.members place }
    {
        if let Some(member) = self.members.get_mut(key) {
            member.keep_ahead(now);
        }
    }

    // Drops what was executed ahead for a connection.
    fn drop_at(&mut self, key: usize)
        ensures dropped { connections_of self.new.members key
            ≡ connections_of self.old.members key }
        ensures settled { IsSettledAt key self.new.members }
        ensures others { (place : ℕ) → place ≢ key
            → get self.new.members place ≡ get self.old.members place }
    {
        if let Some(member) = self.members.get_mut(key) {
            member.drop_ahead();
        }
    }

    // Keeps what was executed ahead for these connections.
    fn keep_ahead(&mut self, keys: &[usize], now: Duration)
        ensures kept { IsSettledBut keys.now self.old.members → (place : ℕ)
            → connections_of self.new.members place ≡ kept_connections self.old.members place }
        ensures settled { IsSettledBut keys.now self.old.members → IsSettled self.new.members }
    {
        for key in keys {
            self.keep_at(*key, now);
        }
    }

    // Drops what was executed ahead for these connections.
    fn drop_ahead(&mut self, keys: &[usize])
        ensures dropped { (place : ℕ)
            → connections_of self.new.members place ≡ connections_of self.old.members place }
        ensures settled { IsSettledBut keys.now self.old.members → IsSettled self.new.members }
    {
        for key in keys {
            self.drop_at(*key);
        }
    }

    // Returns how much a turn of each of `count` connections takes: their messages share a group of
    // commits.
    fn turn_limit(&self, count: usize) -> TurnLimit {
        let share = self.limits.group.checked_div(count as u64).unwrap_or(0);
        TurnLimit {
            messages: share.clamp(1, TURN.messages),
            ..TURN
        }
    }

    // Executes messages of these connections ahead, in one group of commits. Returns whether its
    // commits last. If not, nothing has changed.
    fn execute_group<S: Store, T: Ticks>(
        &mut self,
        keys: &[usize],
        register: &mut Register<S>,
        ticks: &mut T,
    ) -> bool
        ensures goes_on { IsSettled self.old.members
            → ConnectionsGoOn S.StoreModel register.old.store register.new.store
            (connections_of self.old.members) (kept_connections self.new.members) }
        ensures stays { (place : ℕ)
            → connections_of self.new.members place ≡ connections_of self.old.members place }
        ensures ahead { IsSettled self.old.members → IsSettledBut keys.now self.new.members }
        ensures undone { result ≡ false → IsSettled self.old.members
            → IsSettled self.new.members }
        ensures follows { RowsFollow S.StoreModel register.old.store register.new.store }
    {
        if self.limits.group <= 1 {
            return false;
        }
        let Ok(true) = register.begin_group() else {
            return false;
        };
        let limit = self.turn_limit(keys.len());
        self.execute_ahead(keys, register, ticks, limit);
        match register.end_group() {
            Ok(()) => true,
            Err(_) => {
                self.drop_ahead(keys);
                false
            }
        }
    }

    // Executes messages of these connections ahead, in one group of commits. Without a group, or if
    // it does not last, each of them commits by itself.
    fn execute_turns<S: Store, T: Ticks>(
        &mut self,
        keys: &[usize],
        register: &mut Register<S>,
        ticks: &mut T,
    )
        ensures goes_on { IsSettled self.old.members
            → ConnectionsGoOn S.StoreModel register.old.store register.new.store
            (connections_of self.old.members) (kept_connections self.new.members) }
        ensures ahead { IsSettled self.old.members → IsSettledBut keys.now self.new.members }
        ensures follows { RowsFollow S.StoreModel register.old.store register.new.store }
    {
        if self.execute_group(keys, register, ticks) {
            return;
        }
        self.execute_ahead(keys, register, ticks, TURN);
    }

    /// Gives each connection under one of these keys a turn, in order, in one group of commits if the
    /// store has groups. If the group does not last, each message is executed again, and commits by
    /// itself. Their responses are to be sent only after that.
    ///
    /// Nothing was executed ahead before a round: no call but this one does that.
    pub fn round<S: Store, T: Ticks>(
        &mut self,
        keys: &[usize],
        register: &mut Register<S>,
        ticks: &mut T,
        now: Duration,
    )
        ensures goes_on { IsSettled self.old.members
            → ConnectionsGoOn S.StoreModel register.old.store register.new.store
            (connections_of self.old.members) (connections_of self.new.members) }
        ensures settled { IsSettled self.old.members → IsSettled self.new.members }
        ensures follows { RowsFollow S.StoreModel register.old.store register.new.store }
    {
        self.execute_turns(keys, register, ticks);
        self.keep_ahead(keys, now);
    }
}
