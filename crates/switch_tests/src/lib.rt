// Switches of every kind: filled, cleared, turned, and handed data frames.
#![tactic(auto)]

#[cfg(test)]
mod tests {
    use chip::PlainChip;
    use refusal::Refusal;
    use std::process::Abort;
    use std::test::Fail;
    use switch::{Address, Port, PortState, Switch};
    use table::TableSwitch;
    use turned::Turned;

    const STATES: [PortState; 3] = [
        PortState::Disabled,
        PortState::Blocked,
        PortState::Forwarding,
    ];

    fn station(number: u8) -> Address {
        Address::from([2, 0, 0, 0, 0, number])
    }

    fn group() -> Address {
        Address::from([3, 0, 0, 0, 0, 0])
    }

    fn check_refused(rt: &impl Abort, answer: Result<(), Refusal>, number: u8) -> Result<(), Fail> {
        match answer {
            Ok(()) => Err(Fail::new("not refused")),
            Err(refusal) => {
                assert_eq!(rt; refusal.number(), number);
                Ok(())
            },
        }
    }

    // The stations 0 to 63 are known at port 1, and no other.
    fn full() -> Result<TableSwitch, Fail> {
        let mut switch = TableSwitch::new();
        for number in 0..64 {
            switch.learn(station(number), Port::One)?;
        }
        Ok(switch)
    }

    fn check_known<S: Switch>(rt: &impl Abort, switch: &S, address: Address, port: Option<Port>) {
        assert_eq!(rt; switch.port_of(address), port);
    }

    fn check_states<S: Switch>(rt: &impl Abort, switch: &S, first: PortState, second: PortState) {
        assert_eq!(rt; switch.port_state(Port::One), first);
        assert_eq!(rt; switch.port_state(Port::Two), second);
    }

    fn check_stations<S: Switch>(
        rt: &impl Abort,
        switch: &S,
        first: u8,
        end: u8,
        port: Option<Port>,
    ) {
        for number in first..end {
            check_known(rt, switch, station(number), port);
        }
    }

    #[test]
    fn one_too_many(rt: HostRuntime) -> Result<(), Fail> {
        let mut switch = full()?;
        check_refused(&rt, switch.learn(station(64), Port::Two), 25)?;
        check_known(&rt, &switch, station(64), None);
        check_stations(&rt, &switch, 0, 64, Some(Port::One));
        assert_eq!(rt; switch.capacity(), 64);
        Ok(())
    }

    #[test]
    fn heard_at_the_other_port(rt: HostRuntime) -> Result<(), Fail> {
        let mut switch = full()?;
        switch.learn(station(0), Port::Two)?;
        switch.learn(station(63), Port::Two)?;
        check_known(&rt, &switch, station(0), Some(Port::Two));
        check_stations(&rt, &switch, 1, 63, Some(Port::One));
        check_known(&rt, &switch, station(63), Some(Port::Two));
        check_refused(&rt, switch.learn(station(64), Port::Two), 25)
    }

    #[test]
    fn groups(rt: HostRuntime) -> Result<(), Fail> {
        let mut empty = TableSwitch::new();
        check_refused(&rt, empty.learn(group(), Port::One), 24)?;
        check_known(&rt, &empty, group(), None);
        let mut switch = full()?;
        check_refused(&rt, switch.learn(group(), Port::One), 24)?;
        check_stations(&rt, &switch, 0, 64, Some(Port::One));
        Ok(())
    }

    #[test]
    fn cleared(rt: HostRuntime) -> Result<(), Fail> {
        let mut switch = full()?;
        switch.set_port(Port::Two, PortState::Forwarding);
        switch.clear();
        check_stations(&rt, &switch, 0, 64, None);
        check_states(&rt, &switch, PortState::Blocked, PortState::Forwarding);
        switch.learn(station(64), Port::Two)?;
        check_known(&rt, &switch, station(64), Some(Port::Two));
        Ok(())
    }

    #[test]
    fn chip_knows_nothing(rt: HostRuntime) -> Result<(), Fail> {
        let mut chip = Turned::of(Turned::of(Turned::of(PlainChip::new())));
        check_refused(&rt, chip.learn(group(), Port::One), 24)?;
        check_refused(&rt, chip.learn(station(0), Port::One), 25)?;
        check_known(&rt, &chip, station(0), None);
        assert_eq!(rt; chip.capacity(), 0);
        Ok(())
    }

    #[test]
    fn turned_table(rt: HostRuntime) -> Result<(), Fail> {
        let mut switch = Turned::of(Turned::of(Turned::of(full()?)));
        check_stations(&rt, &switch, 0, 64, Some(Port::Two));
        switch.learn(station(7), Port::One)?;
        check_known(&rt, &switch, station(7), Some(Port::One));
        check_refused(&rt, switch.learn(station(64), Port::One), 25)?;
        assert_eq!(rt; switch.capacity(), 64);
        switch.clear();
        check_stations(&rt, &switch, 0, 64, None);
        Ok(())
    }

    // A new switch has both ports blocked; then each port is given each state while the other keeps its own.
    fn check_ports<S: Switch + Drop>(rt: &impl Abort) {
        let mut switch = S::new();
        check_states(rt, &switch, PortState::Blocked, PortState::Blocked);
        for first in STATES {
            switch.set_port(Port::One, first);
            for second in STATES {
                switch.set_port(Port::Two, second);
                check_states(rt, &switch, first, second);
            }
        }
    }

    #[test]
    fn ports(rt: HostRuntime) {
        check_ports::<PlainChip>(&rt);
        check_ports::<TableSwitch>(&rt);
        check_ports::<Turned<Turned<Turned<PlainChip>>>>(&rt);
        check_ports::<Turned<Turned<Turned<TableSwitch>>>>(&rt);
    }

    // Turned once, the inner switch has the state at its other port.
    #[test]
    fn turned_ports(rt: HostRuntime) {
        let mut chip = PlainChip::new();
        chip.set_port(Port::One, PortState::Forwarding);
        let turned = Turned::of(chip);
        check_states(&rt, &turned, PortState::Blocked, PortState::Forwarding);
        check_states(
            &rt,
            &Turned::of(turned),
            PortState::Forwarding,
            PortState::Blocked,
        );
    }

    #[test]
    fn printed(rt: HostRuntime) -> Result<(), Fail> {
        let [disabled, blocked, forwarding] = STATES;
        let ports = format!(in rt.alloc(); "{} {}", Port::One, Port::Two)?;
        let states = format!(in rt.alloc(); "{disabled} {blocked} {forwarding}")?;
        assert_eq!(rt; ports.as_str(), "1 2");
        assert_eq!(rt; states.as_str(), "DISABLED BLOCKED FORWARDING");
        Ok(())
    }

    fn check_leaves<S: Switch>(
        rt: &impl Abort,
        switch: &mut S,
        source: Address,
        destination: Address,
        came_by: Port,
        by: Option<Port>,
    ) {
        assert_eq!(rt; switch.relay(source, destination, came_by), by);
    }

    // A frame of a new station in each pair of port states, and what is learned of it.
    fn check_nine<S: Switch + Drop>(rt: &impl Abort, came_by: Port, learned: Option<Port>) {
        for came_state in STATES {
            for other_state in STATES {
                let mut switch = S::new();
                switch.set_port(came_by, came_state);
                switch.set_port(came_by.other(), other_state);
                let comes = came_state == PortState::Forwarding;
                let leaves = comes && other_state == PortState::Forwarding;
                let by = leaves.then_some(came_by.other());
                check_leaves(rt, &mut switch, station(1), station(2), came_by, by);
                check_known(rt, &switch, station(1), if comes { learned } else { None });
            }
        }
    }

    #[test]
    fn nine_pairs_of_states(rt: HostRuntime) {
        check_nine::<TableSwitch>(&rt, Port::One, Some(Port::One));
        check_nine::<TableSwitch>(&rt, Port::Two, Some(Port::Two));
        check_nine::<Turned<TableSwitch>>(&rt, Port::One, Some(Port::One));
        check_nine::<PlainChip>(&rt, Port::One, None);
        check_nine::<Turned<PlainChip>>(&rt, Port::Two, None);
    }

    fn forwarding<S: Switch>(new: S) -> S {
        let mut switch = new;
        switch.set_port(Port::One, PortState::Forwarding);
        switch.set_port(Port::Two, PortState::Forwarding);
        switch
    }

    #[test]
    fn destinations(rt: HostRuntime) -> Result<(), Fail> {
        let mut switch = forwarding(TableSwitch::new());
        switch.learn(station(1), Port::One)?;
        switch.learn(station(2), Port::Two)?;
        check_leaves(&rt, &mut switch, station(3), station(1), Port::One, None);
        check_leaves(
            &rt,
            &mut switch,
            station(3),
            station(2),
            Port::One,
            Some(Port::Two),
        );
        check_leaves(
            &rt,
            &mut switch,
            station(3),
            group(),
            Port::One,
            Some(Port::Two),
        );
        // the source is learned before the destination is looked up
        check_leaves(&rt, &mut switch, station(4), station(4), Port::Two, None);
        check_leaves(&rt, &mut switch, station(1), station(2), Port::Two, None);
        check_known(&rt, &switch, station(1), Some(Port::Two));
        Ok(())
    }

    // A source that cannot be learned does not stop its frame.
    #[test]
    fn sources_not_learned(rt: HostRuntime) -> Result<(), Fail> {
        let mut switch = forwarding(full()?);
        check_leaves(
            &rt,
            &mut switch,
            group(),
            station(64),
            Port::One,
            Some(Port::Two),
        );
        check_leaves(
            &rt,
            &mut switch,
            station(64),
            station(65),
            Port::One,
            Some(Port::Two),
        );
        check_stations(&rt, &switch, 0, 64, Some(Port::One));
        check_known(&rt, &switch, station(64), None);
        Ok(())
    }
}
