// Guests at one lock: seating them, their turns, and taking them back.
ghost use Rattle.std.specs.Prelude.{◌≡◌, ◌≤◌, ◌+◌, [], All, IfOk, vec_len};
ghost use Rattle.gr_turn.specs.Seats.{IsAway};
ghost use Rattle.gr_timing_lock.specs.Crowds.{IsAt, IsFresh};

use crate::guests::Guest;
use crate::spells::take_turns;
use crate::tallies::Tally;
use gr_logic::OutOfMemory;
use gr_turn::{Keeps, Opened, Seat, Turn};
use std::alloc::Global;
use std::sync::Wait;
use std::thread::{Threads, map_vec};

/// What came of the turns.
#[derive(Clone, Copy, Debug)]
pub struct Counts {
    /// How many entries the history has.
    pub entries: u64,
    /// How many turns made one, all guests together.
    pub turns: u64,
    /// The sum of what the guests' arithmetic came to, without what does not fit in 64 bits.
    pub checksum: u64,
}

/// What the guests bring back.
#[derive(Clone, Copy, Debug)]
struct Brought {
    turns: u64,
    checksum: u64,
}

/// So many guests, each in a thread of its own, take so many turns each.
pub fn crowd<R: Threads + Wait + Sync>(
    rt: &R,
    alloc: Global,
    threads: u32,
    turns: u32,
    work: u32,
) -> Result<Counts, OutOfMemory>
    requires { threads ≤ 1000 }
{
    let entries = Vec::with_capacity(alloc, threads as usize * turns as usize)?;
    let Opened {
        turn,
        seat: mut first,
    } = Turn::open(alloc, Tally { entries })?;
    let guests = seat_all(alloc, &turn, &mut first, threads)?;
    let guests = turn_all(rt, &turn, guests, turns, work)?;
    let brought = join_all(&turn, &mut first, guests);
    let tally = turn.close(first);
    Ok(Counts {
        entries: tally.count(),
        turns: brought.turns,
        checksum: brought.checksum,
    })
}

/// Seats so many guests.
fn seat_all(
    alloc: Global,
    turn: &Turn<Tally>,
    first: &mut Seat<Tally>,
    threads: u32,
) -> Result<Vec<Guest>, OutOfMemory>
    requires away { IsAway turn.now first.old }
    requires first { (first.old.number ≡ 0) × (first.old.splits ≡ 0) × (first.old.out ≡ 0) }
    requires few { threads ≤ 1000 }
    ensures away { IsAway turn.now first.new × (first.new.number ≡ 0) }
    ensures out { IfOk result (λ guests. first.new.out ≡ vec_len guests) }
    ensures fresh { IfOk result (λ guests. All (IsFresh turn.now) guests.items) }
{
    let mut guests = Vec::new(alloc);
    for before in 0..threads {
        let seat = turn.split(first);
        guests.push(Guest::new(seat, before + 1, 0, before as u64 + 1))?;
    }
    Ok(guests)
}

/// Each guest takes its turns, in as many threads as there are.
fn turn_all<R: Threads + Wait + Sync>(
    rt: &R,
    turn: &Turn<Tally>,
    guests: Vec<Guest>,
    turns: u32,
    work: u32,
) -> Result<Vec<Guest>, OutOfMemory>
    requires { All (IsFresh turn.now) guests.items }
    ensures len { IfOk result (λ back. vec_len back ≡ vec_len guests) }
    ensures back { IfOk result (λ back. All (IsAt turn.now) back.items) }
{
    let back = map_vec(
        rt,
        guests,
        &|guest: Guest| -> Guest
            requires { IsFresh turn.now guest }
            ensures { IsAt turn.entry.now result }
        { take_turns(rt, turn, guest, turns, work) },
    )?;
    Ok(back)
}

/// Takes the guests back. Gives the number of their turns that made an entry, and their checksum.
fn join_all(turn: &Turn<Tally>, first: &mut Seat<Tally>, guests: Vec<Guest>) -> Brought
    requires away { IsAway turn.now first.old × (first.old.number ≡ 0) }
    requires out { first.old.out ≡ vec_len guests }
    requires there { All (IsAt turn.now) guests.items }
    ensures away { IsAway turn.now first.new × (first.new.number ≡ 0) }
    ensures out { first.new.out ≡ 0 }
{
    let mut turns = 0u64;
    let mut checksum = 0u64;
    for guest in guests {
        turns = turns.saturating_add(guest.made);
        checksum = checksum.wrapping_add(guest.state);
        let Guest {
            seat,
            who: _,
            made: _,
            state: _,
        } = guest;
        turn.join(first, seat);
    }
    Brought { turns, checksum }
}
