use crate::DisjointSets;
use std::test::Fail;

#[test]
fn chains_of_joined_sets_have_one_name(rt: HostRuntime) -> Result<(), Fail> {
    let alloc = rt.alloc();
    let mut sets = DisjointSets::new(alloc, 9)?;
    sets.join(7, 5);
    sets.join(2, 0);
    sets.join(1, 3);
    sets.join(4, 6);
    sets.join(5, 3);
    sets.join(6, 2);
    sets.join(0, 4);
    let names = sets.names(alloc)?;
    let names = names.items();
    assert_eq!(rt; names.len(), 9);
    for number in 0..names.len() {
        let even = number % 2 == 0 && number < 7;
        let odd = number % 2 == 1;
        for other in 0..names.len() {
            let same = (even && other % 2 == 0 && other < 7)
                || (odd && other % 2 == 1)
                || number == other;
            assert_eq!(rt; names[number] == names[other], same);
        }
    }
    Ok(())
}
