use super::*;
use std::test::Fail;

fn fault_of(owner: u32, trouble: Trouble) -> Option<UseFault> {
    Some(UseFault { owner, trouble })
}

#[test]
fn of_one_owner_names_come_before_the_use_and_owners_go_by_their_places(
    rt: HostRuntime,
) -> Result<(), Fail> {
    let unknown = NameKind::Unknown;
    let second = fault_of(
        5,
        Trouble::Place {
            at: 9,
            kind: unknown,
        },
    );
    let in_order = [
        fault_of(
            5,
            Trouble::Place {
                at: 7,
                kind: NameKind::Twice,
            },
        ),
        second,
        fault_of(5, Trouble::Name(unknown)),
        fault_of(5, Trouble::Shape),
        fault_of(5, Trouble::File),
        fault_of(
            6,
            Trouble::Place {
                at: 1,
                kind: unknown,
            },
        ),
    ];
    let mut last = None;
    for fault in in_order {
        assert!(rt; sooner(fault, None) == fault);
        if last.is_some() {
            assert!(rt; sooner(fault, last) == last);
            assert!(rt; sooner(last, fault) == last);
        }
        last = fault;
    }
    Ok(())
}
