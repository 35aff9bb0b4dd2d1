// The limits of the register, its order and its memory.
use ordered_list::entry::Entry;
use register::party::Party;
use register::refusal::RegisterRefusal;
use register::register::Register;

fn old_entry() -> Entry<Party> {
    Entry {
        rank: 5,
        value: Party { number: 9 },
    }
}

#[test]
fn units_and_parties_have_limits(rt: HostRuntime) {
    let mut memory = [old_entry(); 4];
    let mut register = Register::over(&mut memory);
    assert_eq!(rt;
        (register.register(0, 1), register.register(1000, 1)),
        (Err(RegisterRefusal::Limits), Err(RegisterRefusal::Limits))
    );
    assert_eq!(rt; RegisterRefusal::Limits.number(), 14);
    assert_eq!(rt;
        (register.register(1, 0), register.register(1, 65)),
        (Err(RegisterRefusal::Limits), Err(RegisterRefusal::Limits))
    );
    assert_eq!(rt;
        (register.register(1, 64), register.register(999, 1)),
        (Ok(()), Ok(()))
    );
    assert_eq!(rt;
        (register.party_of(1), register.party_of(999)),
        (Some(64), Some(1))
    );
    assert_eq!(rt;
        (
            register.party_of(0),
            register.party_of(1000),
            register.count(),
        ),
        (None, None, 2)
    );
}

#[test]
fn refusals_come_in_order(rt: HostRuntime) {
    let mut memory = [old_entry(); 2];
    let mut register = Register::over(&mut memory);
    assert_eq!(rt;
        (register.register(7, 3), register.register(7, 65)),
        (Ok(()), Err(RegisterRefusal::Limits))
    );
    assert_eq!(rt;
        (register.register(7, 4), register.register(6, 4)),
        (Err(RegisterRefusal::Present), Ok(()))
    );
    assert_eq!(rt; RegisterRefusal::Present.number(), 9);
    assert_eq!(rt;
        (register.register(8, 5), register.register(7, 5)),
        (Err(RegisterRefusal::Full), Err(RegisterRefusal::Present))
    );
    assert_eq!(rt; RegisterRefusal::Full.number(), 11);
    assert_eq!(rt;
        (register.register(8, 0), register.count()),
        (Err(RegisterRefusal::Limits), 2)
    );
    assert_eq!(rt;
        (
            register.party_of(6),
            register.party_of(7),
            register.party_of(8),
        ),
        (Some(4), Some(3), None)
    );
}

#[test]
fn a_register_starts_empty_over_old_entries(rt: HostRuntime) {
    let mut memory = [old_entry(); 3];
    let register = Register::over(&mut memory);
    assert_eq!(rt;
        (register.count(), register.places(), register.party_of(5)),
        (0, 3, None)
    );
}

#[test]
fn a_register_without_places_refuses(rt: HostRuntime) {
    let mut memory = [old_entry(); 0];
    let mut register = Register::over(&mut memory);
    assert_eq!(rt;
        (register.register(1, 1), register.register(0, 1)),
        (Err(RegisterRefusal::Full), Err(RegisterRefusal::Limits))
    );
    assert_eq!(rt;
        (register.count(), register.places(), register.party_of(1)),
        (0, 0, None)
    );
}

#[test]
fn units_are_found_however_they_came(rt: HostRuntime) {
    let mut memory = [old_entry(); 16];
    let mut register = Register::over(&mut memory);
    for i in 0..16 {
        let unit = i * 7 % 16 + 1;
        assert_eq!(rt; register.register(unit, unit + 1), Ok(()));
    }
    for unit in 1..17 {
        assert_eq!(rt; register.party_of(unit), Some(unit + 1));
    }
    assert_eq!(rt; register.count(), 16);
}
