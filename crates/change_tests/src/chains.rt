//! A seat that refuses a change leaves all seats of its chain as before.

use crate::moody::Moody;
use crate::seats::no_memory;
use base_items::Fact;
use notify_chain::{Chain, SeatKey};
use observe_core::Veto;
use std::alloc::Global;
use std::process::Abort;
use std::test::Fail;

// Two arcs that are there, one that is added, and the second after its target has moved.
const PRESENT: [Fact; 2] = [
    Fact {
        id: 0,
        from: 1,
        to: 2,
        from_at: 3,
        to_at: 3,
    },
    Fact {
        id: 1,
        from: 2,
        to: 1,
        from_at: 4,
        to_at: 4,
    },
];

const ADDED: Fact = Fact {
    id: 2,
    from: 1,
    to: 1,
    from_at: 5,
    to_at: 5,
};

const MOVED: Fact = Fact {
    id: 1,
    from: 2,
    to: 2,
    from_at: 4,
    to_at: 5,
};

// their weights, summed
const WHOLE: u64 = 303_030_707;

fn attach(chain: &mut Chain<Moody>, moody: Moody) -> Result<SeatKey, (Moody, Veto)> {
    chain.attach(moody, &PRESENT)
}

fn add(chain: &mut Chain<Moody>) -> Result<(), (SeatKey, Veto)> {
    chain.announce_add(ADDED)
}

fn shift(chain: &mut Chain<Moody>) -> Result<(), (SeatKey, Veto)> {
    chain.announce_shift(PRESENT[1], MOVED)
}

// what a seat was told, and how much of it to lose
fn account(chain: &Chain<Moody>, key: SeatKey) -> Option<(u64, u64)> {
    match chain.get(key) {
        Some(moody) => Some((moody.known, moody.lost)),
        None => None,
    }
}

// A change that all seats are told of.
#[derive(Clone, Copy, PartialEq, Eq, Debug)]
enum Told {
    Addition,
    Move,
}

// It, and what each seat knows once all have taken it.
const ROWS: [(Told, u64); 2] = [(Told::Addition, 604_041_212), (Told::Move, 303_040_708)];

fn tell(chain: &mut Chain<Moody>, told: Told) -> Result<(), (SeatKey, Veto)> {
    match told {
        Told::Addition => add(chain),
        Told::Move => shift(chain),
    }
}

// three seats, of which the one at the place refuses its notice of this number, from 0
fn three_seats(
    rt: &impl Abort,
    alloc: Global,
    place: u32,
    until: u32,
) -> Result<(Chain<Moody>, Vec<SeatKey>), Fail> {
    let mut chain = Chain::new(alloc);
    let mut keys = Vec::new(alloc);
    for seat in 0..3u32 {
        let until = if seat == place { until } else { 9 };
        let moody = Moody {
            until,
            known: 0,
            lost: 0,
        };
        match attach(&mut chain, moody) {
            Ok(key) => keys.push(key)?,
            Err((back, veto)) => {
                // it is handed back as it was, the others are as before, and the next time it is
                // taken
                assert_eq!(rt; veto, Veto::Memory);
                assert_eq!(rt; (back.known, back.lost), (0, 0));
                for key in &keys {
                    assert_eq!(rt; account(&chain, *key), Some((WHOLE, 0)));
                }
                match attach(&mut chain, back) {
                    Ok(key) => keys.push(key)?,
                    Err(_) => no_memory()?,
                }
                // it had no mood to refuse
                if until > 0 {
                    no_memory()?;
                }
            }
        }
    }
    Ok((chain, keys))
}

#[test]
fn a_refused_box_is_handed_back(rt: HostRuntime) -> Result<(), Fail> {
    for place in 0..3 {
        let (chain, keys) = three_seats(&rt, rt.alloc(), place, 0)?;
        assert_eq!(rt; keys.len(), 3);
        for key in &keys {
            assert_eq!(rt; account(&chain, *key), Some((WHOLE, 0)));
        }
    }
    Ok(())
}

#[test]
fn a_refused_change_leaves_all_seats(rt: HostRuntime) -> Result<(), Fail> {
    for (told, after) in ROWS {
        for place in 0..3 {
            let (mut chain, keys) = three_seats(&rt, rt.alloc(), place, 1)?;
            let named = keys.get(place as usize).copied();
            match tell(&mut chain, told) {
                Ok(()) => assert!(rt; false, "{told:?} is taken at {place}"),
                Err((key, veto)) => assert_eq!(rt; (Some(key), veto), (named, Veto::Memory)),
            }
            for key in &keys {
                assert_eq!(rt;
                    account(&chain, *key),
                    Some((WHOLE, 0)),
                    "{told:?} at {place}"
                );
            }
            // in another mood it takes the change, as all do
            assert!(rt; tell(&mut chain, told).is_ok(), "{told:?} at {place}");
            for key in &keys {
                assert_eq!(rt;
                    account(&chain, *key),
                    Some((after, 0)),
                    "{told:?} at {place}"
                );
            }
        }
    }
    Ok(())
}
