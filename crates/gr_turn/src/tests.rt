// Two seats at a list, in one thread and in two.
ghost use Rattle.std.specs.Prelude.{◌≡◌, ◌+◌, [], ◌∷◌, ◌++◌, List, ℕ, length, false, IfOk, MatchBool};
ghost use Rattle.gr_turn.specs.Seats.{first_seat, IsAway};

use crate::{Keeps, Opened, Seat, Turn};
use gr_logic::OutOfMemory;
use std::alloc::Global;
use std::sync::Wait;
use std::test::*;
use std::thread::join;

/// A list with room for so many notes. Each is the number of the seat that made it.
#[derive(Drop)]
struct Notes {
    items: Vec<u64>,
    room: usize,
}

impl Keeps for Notes {
    type Entry = u64;

    type Fixed = ();

    ghost history = { λ n. n.items.items };

    ghost number = { λ e. e };

    ghost fixed = { λ _. tt };

    fn count(&self) -> u64 {
        self.items.len() as u64
    }
}

impl Notes {
    /// Makes a note, or says that there is no room.
    fn push(&mut self, who: u64) -> bool
        ensures { MatchBool result
            (self.new.items.items ≡ self.old.items.items ++ who ∷ [])
            (self.new.items.items ≡ self.old.items.items) }
    {
        self.items.len() < self.room && self.items.push(who).is_ok()
    }
}

fn open_notes(alloc: Global, room: usize) -> Result<Opened<Notes>, OutOfMemory>
    ensures { IfOk result (λ opened. opened.seat ≡ first_seat opened.turn tt) }
{
    let items = Vec::new(alloc);
    Turn::open(alloc, Notes { items, room })
}

/// One turn, and whether it made a note.
fn note<R: Wait>(rt: &R, turn: &Turn<Notes>, seat: &mut Seat<Notes>, who: u64) -> bool
    requires away { IsAway turn.now seat.old }
    requires who { seat.old.number ≡ who }
    ensures away { IsAway turn.now seat.new × (seat.new.number ≡ who) }
    ensures counts { (seat.new.splits ≡ seat.old.splits) × (seat.new.out ≡ seat.old.out) }
    ensures own { MatchBool result
        (seat.new.own ≡ seat.old.own ++ who ∷ [])
        (seat.new.own ≡ seat.old.own) }
{
    let mut held = turn.enter(rt, seat);
    let grown = held.value_mut().push(who);
    turn.leave(seat, held, grown);
    grown
}

/// A hundred turns, and how many notes they made.
fn note_all<R: Wait>(
    rt: &R,
    turn: &Turn<Notes>,
    mut seat: Seat<Notes>,
    who: u64,
) -> (Seat<Notes>, u64)
    requires away { IsAway turn.now seat }
    requires who { seat.number ≡ who }
    ensures away { IsAway turn.now result.0 × (result.0.number ≡ who) }
    ensures counts { (result.0.splits ≡ seat.splits) × (result.0.out ≡ seat.out) }
    ensures own { length result.0.own ≡ length seat.own + result.1 }
{
    let mut made = 0u64;
    for _ in 0..100u64 {
        if note(rt, turn, &mut seat, who) {
            made += 1;
        }
    }
    (seat, made)
}

/// It has made so many entries.
fn has_made<const COUNT: u64>(_seat: &Seat<Notes>)
    requires { length _seat.now.own ≡ COUNT }
{}

/// It has seen so many entries.
fn has_seen<const COUNT: u64>(_seat: &Seat<Notes>)
    requires { length _seat.now.seen ≡ COUNT }
{}

#[test]
fn both_seats_see_the_entry_of_one(rt: HostRuntime) -> Result<(), Fail> {
    let Opened {
        turn,
        seat: mut first,
    } = open_notes(rt.alloc(), 9)?;
    let mut second = turn.split(&mut first);
    assert!(rt; note(&rt, &turn, &mut second, 1));
    has_made::<1>(&second);
    let held = turn.enter(&rt, &mut first);
    assert!(rt; held.value().count() == 1);
    turn.leave(&mut first, held, false);
    has_seen::<1>(&first);
    has_made::<0>(&first);
    turn.join(&mut first, second);
    has_made::<0>(&first);
    let notes = turn.close(first);
    assert!(rt; notes.items.as_slice() == [1].as_slice());
    Ok(())
}

#[test]
fn a_turn_without_room_makes_no_entry(rt: HostRuntime) -> Result<(), Fail> {
    let Opened {
        turn,
        seat: mut first,
    } = open_notes(rt.alloc(), 1)?;
    assert!(rt; note(&rt, &turn, &mut first, 0));
    assert!(rt; !note(&rt, &turn, &mut first, 0));
    has_made::<1>(&first);
    let notes = turn.close(first);
    assert!(rt; notes.items.as_slice() == [0].as_slice());
    Ok(())
}

#[test]
fn two_threads_take_a_hundred_turns_each(rt: HostRuntime) -> Result<(), Fail> {
    let Opened {
        turn,
        seat: mut first,
    } = open_notes(rt.alloc(), 1000)?;
    let second = turn.split(&mut first);
    let lock = &turn;
    let handle = &rt;
    let ((mut first, made), (second, made_there)) = join(
        handle,
        move || -> (Seat<Notes>, u64)
            requires { IsAway lock.now first × (first.number ≡ 0) }
            ensures { IsAway lock.entry.now result.0 × (result.0.number ≡ 0)
                × (result.0.out ≡ first.out)
                × (length result.0.own ≡ length first.own + result.1) }
        { note_all(handle, lock, first, 0) },
        move || -> (Seat<Notes>, u64)
            requires { IsAway lock.now second × (second.number ≡ 1) }
            ensures { IsAway lock.entry.now result.0 × (result.0.number ≡ 1)
                × (length result.0.own ≡ length second.own + result.1) }
        { note_all(handle, lock, second, 1) },
    );
    assert!(rt; made == 100 && made_there == 100);
    has_made::<100>(&first);
    has_made::<100>(&second);
    turn.join(&mut first, second);
    let notes = turn.close(first);
    assert!(rt; notes.count() == 200);
    Ok(())
}
