// Tests of the frame store.
#![tactic(auto)]

mod errands;

#[cfg(test)]
mod tests {
    use crate::errands::*;
    use refusal::Refusal;
    use std::process::Abort;
    use std::test::Fail;
    use store::hand::Put;
    use store::store::Store;

    const OCTETS: [u8; 60] = [7; 60];

    // The number of a refusal, and 0 for none: tests compare numbers.
    fn number<T: Drop>(res: Result<T, Refusal>) -> u8 {
        match res {
            Ok(_) => 0,
            Err(refusal) => refusal.number(),
        }
    }

    fn check_waits(rt: &impl Abort, res: Result<Put, Refusal>) {
        assert!(rt; matches!(res, Ok(Put::Waits)), "does not wait");
    }

    fn check_lost(rt: &impl Abort, res: Result<Put, Refusal>) {
        assert!(rt; matches!(res, Ok(Put::Lost)), "not lost");
    }

    fn check_waiting(
        rt: &impl Abort,
        store: &Store,
        link: usize,
        direction: usize,
        count: u8,
    ) -> Result<(), Fail> {
        assert_eq!(rt; store.waiting(link, direction)?, count);
        Ok(())
    }

    // A frame whose octets are all the same.
    fn frame_of(octet: u8) -> [u8; 50] {
        [octet; 50]
    }

    #[test]
    fn links(rt: HostRuntime) {
        assert_eq!(rt; number(Store::new(1, 0)), 14);
        assert_eq!(rt; number(Store::new(1, 1)), 14);
        assert_eq!(rt; number(Store::new(1, 2)), 0);
        assert_eq!(rt; number(Store::new(1, 50)), 0);
        assert_eq!(rt; number(Store::new(1, 51)), 14);
        assert_eq!(rt; number(Store::new(1, usize::MAX)), 14);
    }

    #[test]
    fn one_direction_filled(rt: HostRuntime) -> Result<(), Fail> {
        let mut store = Store::new(1, 2)?;
        for _ in 0..128 {
            check_waits(&rt, store.put(1, 0, &OCTETS));
        }
        check_lost(&rt, store.put(1, 0, &OCTETS));
        check_lost(&rt, store.put(0, 1, &OCTETS));
        check_waiting(&rt, &store, 1, 0, 128)?;
        check_waiting(&rt, &store, 0, 1, 0)?;
        assert_eq!(rt; store.free(), 0);
        carry(&mut store, 1, 0, Store::drop_frame)?;
        assert_eq!(rt; store.free(), 1);
        check_waits(&rt, store.put(0, 1, &OCTETS));
        check_lost(&rt, store.put(0, 1, &OCTETS));
        Ok(())
    }

    // 28 directions have two frames, 72 have one.
    #[test]
    fn all_directions_filled(rt: HostRuntime) -> Result<(), Fail> {
        let mut store = Store::new(1, 50)?;
        for i in 0..128 {
            check_waits(&rt, store.put(i / 2 % 50, i % 2, &OCTETS));
        }
        for link in 0..50 {
            check_lost(&rt, store.put(link, 0, &OCTETS));
            check_lost(&rt, store.put(link, 1, &OCTETS));
            let each = if link < 14 { 2 } else { 1 };
            check_waiting(&rt, &store, link, 0, each)?;
            check_waiting(&rt, &store, link, 1, each)?;
        }
        assert_eq!(rt; store.free(), 0);
        Ok(())
    }

    // Every third round, the oldest of link 1 leaves.
    #[test]
    fn first_in_first_out(rt: HostRuntime) -> Result<(), Fail> {
        let mut store = Store::new(1, 3)?;
        for octet in 1..61 {
            check_waits(&rt, store.put(2, 1, &frame_of(octet)));
            check_waits(&rt, store.put(1, 1, &frame_of(octet + 100)));
            assert!(rt;
                octet % 3 != 0 || take_alike(&mut store, 1, 1, &frame_of(octet / 3 + 100))?
            );
        }
        for octet in 1..61 {
            assert!(rt; take_alike(&mut store, 2, 1, &frame_of(octet))?);
        }
        check_waiting(&rt, &store, 2, 1, 0)?;
        check_waiting(&rt, &store, 1, 1, 40)?;
        assert!(rt; take_alike(&mut store, 1, 1, &frame_of(121))?);
        Ok(())
    }

    #[test]
    fn round_all_links(rt: HostRuntime) -> Result<(), Fail> {
        let mut store = Store::new(1, 50)?;
        let octets = frame_of(9);
        check_waits(&rt, store.put(0, 0, &octets));
        for link in 0..50 {
            carry(
                &mut store,
                link,
                0,
                |store, frame| store.pass_on(frame, (link + 1) % 50, 0),
            )?;
            check_waiting(&rt, &store, link, 0, 0)?;
            assert_eq!(rt; store.free(), 127);
        }
        assert!(rt; take_alike(&mut store, 0, 0, &octets)?);
        assert_eq!(rt; store.free(), 128);
        Ok(())
    }

    #[test]
    fn lengths_kept(rt: HostRuntime) -> Result<(), Fail> {
        let mut store = Store::new(1, 2)?;
        for length in 50..61 {
            check_waits(&rt, store.put(0, 0, &OCTETS[0..length]));
        }
        for length in 50..61 {
            assert!(rt; take_alike(&mut store, 0, 0, &OCTETS[0..length])?);
        }
        assert!(rt; !store.anything_waits());
        Ok(())
    }

    #[test]
    fn in_hand_is_not_free(rt: HostRuntime) -> Result<(), Fail> {
        let mut store = Store::new(1, 2)?;
        for _ in 0..127 {
            check_waits(&rt, store.put(1, 1, &OCTETS));
        }
        check_waits(&rt, put_while_holding(&mut store, 1, 1, &OCTETS));
        check_waits(&rt, store.put(1, 1, &OCTETS));
        check_lost(&rt, put_while_holding(&mut store, 1, 1, &OCTETS));
        assert_eq!(rt; store.free(), 1);
        Ok(())
    }

    #[test]
    fn anything_waits(rt: HostRuntime) -> Result<(), Fail> {
        let mut store = Store::new(1, 50)?;
        assert!(rt; !store.anything_waits());
        check_waits(&rt, store.put(49, 1, &OCTETS));
        assert!(rt; store.anything_waits());
        assert!(rt; !holding(&mut store, 49, 1, |store, _| store.anything_waits())?);
        assert!(rt; !store.anything_waits());
        Ok(())
    }

    #[test]
    fn put_refused_in_order(rt: HostRuntime) -> Result<(), Fail> {
        let mut store = Store::new(1, 2)?;
        assert_eq!(rt; number(store.put(2, 2, &OCTETS[0..49])), 1);
        assert_eq!(rt; number(store.put(2, 2, &[0; 61])), 1);
        assert_eq!(rt; number(store.put(2, 2, &OCTETS)), 15);
        assert_eq!(rt; number(store.put(usize::MAX, 0, &OCTETS)), 15);
        assert_eq!(rt; number(store.put(1, 2, &OCTETS)), 17);
        assert_eq!(rt; number(store.put(1, usize::MAX, &OCTETS)), 17);
        assert_eq!(rt; store.free(), 128);
        Ok(())
    }

    #[test]
    fn refused_before_lost(rt: HostRuntime) -> Result<(), Fail> {
        let mut store = Store::new(1, 2)?;
        for _ in 0..128 {
            check_waits(&rt, store.put(0, 0, &OCTETS));
        }
        assert_eq!(rt; number(store.put(0, 0, &OCTETS[0..49])), 1);
        assert_eq!(rt; number(store.put(2, 0, &OCTETS)), 15);
        assert_eq!(rt; number(store.put(0, 2, &OCTETS)), 17);
        check_lost(&rt, store.put(0, 0, &OCTETS));
        Ok(())
    }

    #[test]
    fn take_refused_in_order(rt: HostRuntime) -> Result<(), Fail> {
        let mut store = Store::new(1, 2)?;
        check_waits(&rt, store.put(0, 0, &OCTETS));
        assert_eq!(rt; number(carry(&mut store, 2, 2, Store::take_home)), 15);
        assert_eq!(rt; number(carry(&mut store, 1, 2, Store::take_home)), 17);
        assert_eq!(rt; number(carry(&mut store, 1, 1, Store::take_home)), 20);
        assert_eq!(rt; number(store.waiting(2, 2)), 15);
        assert_eq!(rt; number(store.waiting(1, 2)), 17);
        assert_eq!(rt; number(carry(&mut store, 0, 0, Store::take_home)), 0);
        assert_eq!(rt; store.free(), 128);
        Ok(())
    }

    #[test]
    fn pass_refused_in_order(rt: HostRuntime) -> Result<(), Fail> {
        let mut own = Store::new(1, 2)?;
        let mut other = Store::new(2, 2)?;
        for _ in 0..5 {
            check_waits(&rt, own.put(0, 0, &OCTETS));
        }
        assert_eq!(rt;
            number(carry_away(
                &mut own,
                &mut other,
                |store, frame| store.pass_on(frame, 2, 2)
            )),
            15
        );
        assert_eq!(rt;
            number(carry_away(
                &mut own,
                &mut other,
                |store, frame| store.pass_on(frame, 1, 2)
            )),
            17
        );
        assert_eq!(rt;
            number(carry_away(
                &mut own,
                &mut other,
                |store, frame| store.pass_on(frame, 1, 1)
            )),
            23
        );
        assert_eq!(rt;
            number(carry(&mut own, 0, 0, |store, frame| store.pass_on(frame, 2, 2))),
            15
        );
        assert_eq!(rt;
            number(carry(&mut own, 0, 0, |store, frame| store.pass_on(frame, 1, 2))),
            17
        );
        assert_eq!(rt; own.free(), 128);
        assert_eq!(rt; other.free(), 128);
        Ok(())
    }

    #[test]
    fn another_store(rt: HostRuntime) -> Result<(), Fail> {
        let mut own = Store::new(1, 2)?;
        let mut other = Store::new(2, 2)?;
        for _ in 0..3 {
            check_waits(&rt, own.put(0, 0, &OCTETS));
        }
        assert_eq!(rt;
            number(carry_away(&mut own, &mut other, Store::take_home)),
            23
        );
        assert_eq!(rt;
            number(carry_away(&mut own, &mut other, Store::drop_frame)),
            23
        );
        assert_eq!(rt; shown_by(&mut own, &other)?, 23);
        assert_eq!(rt; own.free(), 128);
        assert_eq!(rt; other.free(), 128);
        Ok(())
    }

    // The number is right, and the place is not in hand there.
    #[test]
    fn place_not_in_hand(rt: HostRuntime) -> Result<(), Fail> {
        let mut own = Store::new(1, 2)?;
        let mut other = Store::new(1, 2)?;
        check_waits(&rt, other.put(0, 0, &OCTETS));
        for _ in 0..4 {
            check_waits(&rt, own.put(0, 0, &OCTETS));
        }
        assert_eq!(rt;
            number(carry_away(
                &mut own,
                &mut other,
                |store, frame| store.pass_on(frame, 1, 1)
            )),
            23
        );
        assert_eq!(rt;
            number(carry_away(&mut own, &mut other, Store::take_home)),
            23
        );
        assert_eq!(rt;
            number(carry_away(&mut own, &mut other, Store::drop_frame)),
            23
        );
        assert_eq!(rt; shown_by(&mut own, &other)?, 23);
        check_waiting(&rt, &other, 0, 0, 1)?;
        assert_eq!(rt; other.free(), 127);
        Ok(())
    }

    // Where the same place is in hand in both, neither store can tell the two frames apart.
    #[test]
    fn same_number(rt: HostRuntime) -> Result<(), Fail> {
        let mut own = Store::new(1, 2)?;
        let mut other = Store::new(1, 2)?;
        check_waits(&rt, own.put(0, 0, &OCTETS));
        check_waits(&rt, other.put(0, 0, &OCTETS));
        assert!(rt; drop_both(&mut own, &mut other)?);
        assert_eq!(rt; own.free(), 128);
        assert_eq!(rt; other.free(), 128);
        Ok(())
    }
}
