//! Links that are made, moved, cut and told, with memory and without.

use rawref_links::{Dec, Fate, LinkEnd, Links, StructState};
use std::alloc::AllocError;
use std::process::Abort;
use std::test::Fail;

#[test]
fn a_plain_structure_waits_once_its_object_is_gone(rt: HostRuntime) -> Result<(), Fail> {
    let mut links = Links::new(rt.alloc())?;
    let mut places = Vec::new(rt.alloc());
    let mut ends = Vec::new(rt.alloc());
    assert_eq!(rt; links.link(true, false, 3, 9, 0), Ok(()));
    assert_eq!(rt; links.moved(9, 20), Ok(()));
    assert_eq!(rt; links.from_obj(20), Some(3));
    assert_eq!(rt; links.forced(&mut places), Ok(()));
    assert!(rt; places.is_empty());
    assert_eq!(rt; links.cut_dead(&[20], &mut ends), Ok(()));
    assert_eq!(rt; ends.as_slice(), [end(3, 0, Fate::Pending)].as_slice());
    assert_eq!(rt; links.next_dead(), Some(3));
    Ok(())
}

#[test]
fn a_light_link_has_both_parts_of_the_share(rt: HostRuntime) -> Result<(), Fail> {
    let mut links = Links::new(rt.alloc())?;
    assert_eq!(rt; links.link(false, true, 7, 40, 2), Ok(()));
    assert_eq!(rt; links.count(7), 6917529027641081858);
    assert_eq!(rt; links.to_obj(7), Some(40));
    assert_eq!(rt; links.dec(7), Dec::Lowered);
    assert_eq!(rt; links.from_obj(40), None);
    Ok(())
}

#[test]
fn ends_come_by_rising_number(rt: HostRuntime) -> Result<(), Fail> {
    let mut links = Links::new(rt.alloc())?;
    let mut ends = Vec::new(rt.alloc());
    make_link(&rt, &mut links, true, true, 9, 50, 0);
    make_link(&rt, &mut links, false, true, 7, 40, 2);
    make_link(&rt, &mut links, true, false, 4, 40, 0);
    assert_eq!(rt; links.cut_dead(&[40, 50], &mut ends), Ok(()));
    let told = [
        end(4, 0, Fate::Pending),
        end(7, 2, Fate::Unlinked),
        end(9, 0, Fate::Released),
    ];
    assert_eq!(rt; ends.as_slice(), told.as_slice());
    assert_eq!(rt; links.state(9), StructState::Absent);
    Ok(())
}

// Each call that wants memory is made again where it found none, and finds all as it was. So the test passes whichever
// allocation fails.
#[test]
fn without_memory_all_stays_as_it_was(rt: HostRuntime) -> Result<(), Fail> {
    let mut links = match Links::new(rt.alloc()) {
        Ok(links) => links,
        Err(AllocError) => Links::new(rt.alloc())?,
    };
    for number in 0..20u32 {
        make_link(
            &rt,
            &mut links,
            number % 2 == 0,
            false,
            number,
            u64::from(number / 2),
            1,
        );
    }
    let mut places = Vec::new(rt.alloc());
    if links.forced(&mut places).is_err() {
        assert!(rt; places.is_empty());
        assert_eq!(rt; links.forced(&mut places), Ok(()));
    }
    assert_eq!(rt;
        places.as_slice(),
        [0, 1, 2, 3, 4, 5, 6, 7, 8, 9].as_slice()
    );
    let mut ends = Vec::new(rt.alloc());
    if links.cut_dead(&[3, 5], &mut ends).is_err() {
        assert!(rt; ends.is_empty());
        assert_eq!(rt; links.from_obj(3), Some(6));
        assert_eq!(rt; links.cut_dead(&[3, 5], &mut ends), Ok(()));
    }
    let told = [
        end(6, 1, Fate::Unlinked),
        end(7, 1, Fate::Unlinked),
        end(10, 1, Fate::Unlinked),
        end(11, 1, Fate::Unlinked),
    ];
    assert_eq!(rt; ends.as_slice(), told.as_slice());
    Ok(())
}

// Makes a link whose number is free and whose object has no P link yet, and makes it again where there was no memory.
fn make_link(
    rt: &impl Abort,
    links: &mut Links,
    p: bool,
    light: bool,
    number: u32,
    place: u64,
    own: u32,
) {
    assert_eq!(rt; links.state(number), StructState::Absent);
    assert!(rt; !p || links.from_obj(place).is_none());
    if links.link(p, light, number, place, u64::from(own)).is_err() {
        assert_eq!(rt; links.state(number), StructState::Absent);
        assert!(rt; !p || links.from_obj(place).is_none());
        assert_eq!(rt; links.link(p, light, number, place, u64::from(own)), Ok(()));
    }
}

fn end(number: u32, own: u64, fate: Fate) -> LinkEnd {
    LinkEnd { number, own, fate }
}
