// Order, phases and restarts against plain ones.
ghost use Rattle.std.specs.Prelude.{◌≡◌, ◌<◌, ◌*◌};

use crate::{Order, Phases, Restart};
use gr_logic::Lit;
use std::test::Fail;

#[test]
fn picks_the_most_active_then_the_least(rt: HostRuntime) -> Result<(), Fail> {
    let mut order = Order::new(rt.alloc(), 3)?;
    order.bump(2);
    assert_eq!(rt; order.pick(), Some(2));
    assert_eq!(rt; order.pick(), Some(1));
    assert_eq!(rt; order.pick(), Some(3));
    assert_eq!(rt; order.pick(), None);
    order.put_back(3);
    assert_eq!(rt; order.pick(), Some(3));
    Ok(())
}

#[test]
fn gives_the_literal_saved_last(rt: HostRuntime) -> Result<(), Fail> {
    let mut phases = Phases::new(rt.alloc(), 2)?;
    assert_eq!(rt; phases.get(1), Lit::of_var(1, false));
    phases.save(Lit::of_var(1, true));
    assert_eq!(rt; phases.get(1), Lit::of_var(1, true));
    assert_eq!(rt; phases.get(2), Lit::of_var(2, false));
    Ok(())
}

/// Activities and presence of sixteen variables.
#[derive(Drop)]
struct Plain {
    bumps: u64,
    activities: [u64; 16],
    present: [bool; 16],
}

impl Plain {
    /// Takes the best one out, by a scan.
    fn pick(&mut self) -> Option<u32> {
        let mut best: Option<(u64, u32)> = None;
        for index in 0..16u32 {
            let activity = self.activities[index as usize];
            let is_better = match best {
                Some((greatest, _)) => activity > greatest,
                None => true,
            };
            if self.present[index as usize] && is_better {
                best = Some((activity, index));
            }
        }
        match best {
            Some((_, index)) => {
                if let Some(is_in) = self.present.get_mut(index as usize) {
                    *is_in = false;
                }
                Some(index.saturating_add(1))
            }
            None => None,
        }
    }
}

/// One step in both, drawn from a number: a pick, a variable put back, or one bumped.
fn step(order: &mut Order, plain: &mut Plain, draw: u32) -> (Option<u32>, Option<u32>)
    requires vars { order.old.vars ≡ 16 }
    requires draw { draw < 16 * 4 }
    ensures { order.new.vars ≡ 16 }
{
    let index = draw / 4;
    match draw % 4 {
        0 => (order.pick(), plain.pick()),
        1 => {
            order.put_back(index + 1);
            plain.present[index as usize] = true;
            (None, None)
        }
        _ => {
            order.bump(index + 1);
            plain.bumps = plain.bumps.saturating_add(1);
            plain.activities[index as usize] = plain.bumps;
            (None, None)
        }
    }
}

/// At first five variables are bumped often, so that the latest slots are looked through, and then all are.
#[test]
fn agrees_with_a_scan_of_all(rt: HostRuntime) -> Result<(), Fail> {
    let mut order = Order::new(rt.alloc(), 16)?;
    let mut plain = Plain {
        bumps: 0,
        activities: [0; 16],
        present: [true; 16],
    };
    let mut draw: u32 = 1;
    for turn in 0..600u32 {
        draw = (draw * 109 + 89) % 4096;
        let range = if turn < 300 { 20 } else { 64 };
        let (found, scanned) = step(&mut order, &mut plain, draw / 16 % range);
        assert_eq!(rt; found, scanned, "at turn {turn}");
    }
    Ok(())
}

#[test]
fn restarts_by_the_latest_against_all(rt: HostRuntime) -> Result<(), Fail> {
    let mut restart = Restart::new(rt.alloc())?;
    for push in 0..91u32 {
        assert!(rt; !restart.due(), "before push {push}");
        restart.push(if push < 50 { 1 } else { 2 });
    }
    assert!(rt; restart.due(), "66,248 against 66,000");
    restart.clear();
    for push in 0..50u32 {
        assert!(rt; !restart.due(), "cleared, before push {push}");
        restart.push(9);
    }
    assert!(rt; restart.due());
    Ok(())
}

#[test]
fn restarts_at_each_thousandth_push(rt: HostRuntime) -> Result<(), Fail> {
    let mut restart = Restart::new(rt.alloc())?;
    for push in 0..2000u32 {
        restart.push(2000 - push);
        assert_eq!(rt; restart.due(), push % 1000 == 999, "after push {push}");
    }
    restart.clear();
    assert!(rt; !restart.due(), "the window is empty");
    Ok(())
}
