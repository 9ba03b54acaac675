//! A source and a sink in memory, whose calls fail where a test wants it.
ghost use Rattle.std.specs.Prelude.{◌≡◌, ◌≤◌, ◌<◌, ◌-◌, ◌==◌, ◌++◌, [], min, length, take, drop, Some, None, OnErr, IfOk, vec_len, vec_capacity, ◌+◌, IsTrue, IsOk, is_err, ◌||◌};
ghost use Rattle.std.specs.Io.{ReadsAtMost};
ghost use Rattle.std.specs.Io.KnownBytes.{ReadConsumes, Appends};
ghost use Rattle.std.specs.List.{list_any};
ghost use Rattle.kz_text.specs.Streams.{Rose, one_more, AppendsFront};
ghost use Rattle.kz_text.specs.Memory.{next_call, is_failing, never_fails, room_for_sure};

use crate::{Failed, Sink, Source};
use std::alloc::{AllocError, Global};
use std::marker::Model;

/// A source over bytes.
#[derive(Drop)]
pub struct MemorySource {
    bytes: Vec<u8>,
    at: usize,
    step: usize,
    fails: Vec<u64>,
    call: Option<u64>,
    faults: u64,
}

impl Model for MemorySource {
    ghost use Rattle.std.specs.Prelude.{◌≤◌, ◌<◌, drop, length};
    ghost use Rattle.kz_text.specs.Memory.{MemorySource as Seen};

    ghost Value = { Seen };

    ghost view = { λ s. record {
      rest = drop s.at s.bytes.items;
      step = s.step;
      fails = s.fails.items;
      call =
          s.call;
      faults = s.faults;
    } };

    ghost invariant = { λ s. (s.at ≤ length s.bytes.items) × (0 < s.step) };
}

impl MemorySource {
    /// A source of these bytes, that gives at most `step` of them a call. The calls whose numbers,
    /// from 0, are in `fails` fail.
    pub fn new(bytes: Vec<u8>, step: usize, fails: Vec<u64>) -> MemorySource
        requires { 0 < step }
        ensures { result ≡ record { rest = bytes.items; step = step; fails = fails.items; call = Some 0; faults = 0 } }
    {
        MemorySource {
            bytes,
            at: 0,
            step,
            fails,
            call: Some(0),
            faults: 0,
        }
    }
}

impl Source for MemorySource {
    ghost rest = { λ s. Some s.rest };

    ghost faults = { λ s. s.faults };

    ghost is_sure = { never_fails };

    fn read(&mut self, into: &mut [u8]) -> Result<usize, Failed>
        requires { 0 < length into.old }

        ensures bound { ReadsAtMost result into.new }
        ensures bytes { ReadConsumes (Some self.old.rest) (Some self.new.rest) result into.new }
        ensures later { self.old.faults ≤ self.new.faults }
        ensures cause { OnErr result (Rose self.old.faults self.new.faults) }
        ensures sure_stays { never_fails self.new ≡ never_fails self.old }
        ensures sure { IsTrue (never_fails self.old) → IsOk result × (self.new.faults ≡ self.old.faults) }

        // Exactly the calls with the numbers in `fails` fail. The others give as much as they can.
        ensures fails { is_err result ≡ is_failing self.old.fails self.old.call }
        ensures count { IfOk result (λ n. n ≡ min (min self.old.step (length into.old)) (length self.old.rest)) }
        ensures given { IfOk result (λ n. self.new
            ≡ record self.old { rest = drop n self.old.rest; call = next_call self.old.call }) }
        ensures failed { OnErr result (self.new
            ≡ record self.old { call = next_call self.old.call; faults = one_more self.old.faults }) }
    {
        let call = self.call;
        self.call = after(call);
        if fails_at(&self.fails, call) {
            self.faults = self.faults.saturating_add(1);
            return Err(Failed);
        }
        let left = &self.bytes[self.at..];
        let count = self.step.min(into.len()).min(left.len());
        copy_front(left, into, count);
        self.at += count;
        Ok(count)
    }
}

/// A sink with room for so many bytes.
#[derive(Drop)]
pub struct MemorySink {
    taken: Vec<u8>,
    room: usize,
    step: usize,
    fails: Vec<u64>,
    call: Option<u64>,
    faults: u64,
}

impl Model for MemorySink {
    ghost use Rattle.std.specs.Prelude.{◌≤◌, ◌<◌, ◌+◌, vec_len, vec_capacity};
    ghost use Rattle.kz_text.specs.Memory.{MemorySink as Seen};

    ghost Value = { Seen };

    ghost view = { λ s. record {
      taken = s.taken.items;
      room = s.room;
      step = s.step;
      fails = s.fails.items;
      call =
          s.call;
      faults = s.faults;
    } };

    ghost invariant = { λ s. (vec_len s.taken + s.room ≤ vec_capacity s.taken) × (0 < s.step) };
}

impl MemorySink {
    /// A sink with room for `room` bytes, that takes at most `step` of them a call. The calls
    /// whose numbers, from 0, are in `fails` fail, and so does a call with no room left. All of
    /// the memory is taken here.
    pub fn new(
        alloc: Global,
        room: usize,
        step: usize,
        fails: Vec<u64>,
    ) -> Result<MemorySink, AllocError>
        requires { 0 < step }
        ensures { IfOk result (λ sink. sink
            ≡ record { taken = []; room = room; step = step; fails = fails.items; call = Some 0; faults = 0 }) }
    {
        Ok(MemorySink {
            taken: Vec::with_capacity(alloc, room)?,
            room,
            step,
            fails,
            call: Some(0),
            faults: 0,
        })
    }

    /// The bytes that it took, in order.
    pub fn taken(&self) -> &[u8]
        ensures { result.now ≡ self.now.taken }
    {
        self.taken.as_slice()
    }
}

impl Sink for MemorySink {
    ghost taken = { λ s. Some s.taken };

    ghost faults = { λ s. s.faults };

    ghost sure_room = { room_for_sure };

    fn write(&mut self, from: &[u8]) -> Result<usize, Failed>
        requires { 0 < length from.now }

        ensures some { IfOk result (λ n. 0 < n) }
        ensures bound { IfOk result (λ n. n ≤ length from.now) }
        ensures ok { IfOk result (λ n. Appends (Some self.old.taken) (Some self.new.taken) (take n from.now)) }
        ensures err { OnErr result (AppendsFront (Some self.old.taken) (Some self.new.taken) from.now) }
        ensures later { self.old.faults ≤ self.new.faults }
        ensures cause { OnErr result (Rose self.old.faults self.new.faults) }
        ensures sure { length from.now ≤ room_for_sure self.old → IsOk result × (self.new.faults ≡ self.old.faults) }
        ensures room { length from.now ≤ room_for_sure self.old →
            IfOk result (λ n. room_for_sure self.old ≤ room_for_sure self.new + n) }

        // Exactly the calls with the numbers in `fails`, or with no room left, fail. The others take as much as they
        // can.
        ensures fails { is_err result ≡ (is_failing self.old.fails self.old.call || (self.old.room == 0)) }
        ensures count { IfOk result (λ n. n ≡ min (min self.old.step (length from.now)) self.old.room) }
        ensures given { IfOk result (λ n. self.new
            ≡ record self.old {
              taken = self.old.taken ++ take n from.now;
              room = self.old.room - n;
              call =
                  next_call self.old.call;
            }) }
        ensures failed { OnErr result (self.new
            ≡ record self.old { call = next_call self.old.call; faults = one_more self.old.faults }) }
    {
        let call = self.call;
        self.call = after(call);
        if refuses(&self.fails, call, self.room) {
            self.faults = self.faults.saturating_add(1);
            return Err(Failed);
        }
        let count = self.step.min(from.len()).min(self.room);
        append(&mut self.taken, &from[..count]);
        self.room -= count;
        Ok(count)
    }
}

fn refuses(fails: &[u64], call: Option<u64>, room: usize) -> bool
    ensures { result ≡ (is_failing fails.now call || (room == 0)) }
{
    fails_at(fails, call) || room == 0
}

// Appends where there is room, which takes no memory.
fn append(taken: &mut Vec<u8>, bytes: &[u8])
    requires { vec_len taken.old + length bytes.now ≤ vec_capacity taken.old }
    ensures items { taken.new.items ≡ taken.old.items ++ bytes.now }
    ensures capacity { vec_capacity taken.old ≤ vec_capacity taken.new }
{
    let _ = taken.extend_from_slice(bytes);
}

fn after(call: Option<u64>) -> Option<u64>
    ensures { result ≡ next_call call }
{
    match call {
        Some(u64::MAX) | None => None,
        Some(number) => Some(number + 1),
    }
}

fn fails_at(fails: &[u64], call: Option<u64>) -> bool
    ensures { result ≡ is_failing fails.now call }
{
    match call {
        Some(number) => has_number(fails, number),
        None => false,
    }
}

fn has_number(numbers: &[u64], number: u64) -> bool
    ensures { result ≡ list_any (λ k. k == number) numbers.now }
{
    numbers.iter().any(|k| *k == number)
}

// Copies the first bytes.
fn copy_front(from: &[u8], into: &mut [u8], count: usize)
    requires there { count ≤ length from.now }
    requires room { count ≤ length into.old }
    ensures { take count into.new ≡ take count from.now }
{
    into[..count].copy_from_slice(&from[..count]);
}
