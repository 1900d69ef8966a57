use crate::{Fact, Label, Labelling, unlike};
use std::test::Fail;
use y2k_base::{AreaId, BytePlace, List};

fn fact(area: u32, offset: u32, label: Label) -> Fact {
    let area = AreaId(area);
    let place = BytePlace { area, offset };
    Fact { place, label }
}

fn packed(digits: u8, unit: u8, byte: u8) -> Label {
    Label::Packed { digits, unit, byte }
}

#[test]
fn facts_stand_once_in_order(rt: HostRuntime) -> Result<(), Fail> {
    let ordered = [
        fact(0, 7, Label::Tens),
        fact(0, 7, Label::Units),
        fact(0, 7, Label::Plain),
        fact(0, 7, packed(6, 4, 0)),
        fact(0, 7, packed(6, 4, 1)),
        fact(0, 7, packed(6, 5, 0)),
        fact(0, 7, packed(8, 0, 0)),
        fact(0, 9, Label::Tens),
        fact(1, 0, Label::Tens),
    ];
    let mut facts = List::new(rt.alloc());
    for i in 0..ordered.len() {
        facts.push(ordered[ordered.len() - 1 - i])?;
        facts.push(ordered[i])?;
    }
    let labelling = Labelling::new(rt.alloc(), facts)?;
    assert_eq!(rt; labelling.count(), 9);
    for i in 0..ordered.len() {
        assert!(rt; labelling.at(i) == Some(ordered[i]));
        assert!(rt; labelling.has(ordered[i].place, ordered[i].label));
    }
    assert!(rt; labelling.at(9) == None);
    assert!(rt; !labelling.has(ordered[8].place, Label::Units));
    Ok(())
}

#[test]
fn unlike_labels_of_one_byte_are_not_clean(rt: HostRuntime) -> Result<(), Fail> {
    for (second, clean) in [
        (fact(0, 0, Label::Units), false),
        (fact(0, 0, Label::Tens), true),
        (fact(0, 1, Label::Units), true),
        (fact(1, 0, Label::Units), true),
    ] {
        let mut facts = List::new(rt.alloc());
        facts.push(second)?;
        facts.push(fact(0, 0, Label::Tens))?;
        let labelling = Labelling::new(rt.alloc(), facts)?;
        assert_eq!(rt; labelling.clean(), clean);
    }
    assert!(rt; unlike(packed(6, 4, 0), packed(6, 4, 1)));
    Ok(())
}

/// Whether the stretch of that index is of this area, offset and length, and has these labels.
fn is_stretch(
    labelling: &Labelling,
    index: usize,
    bytes: (u32, u32, u32),
    labels: &[Label],
) -> bool {
    match labelling.stretch(index) {
        Some(stretch) => {
            let found = (stretch.area.0, stretch.first, stretch.length);
            found == bytes && stretch.labels.items() == labels
        }
        None => false,
    }
}

#[test]
fn stretches_are_as_long_as_can_be(rt: HostRuntime) -> Result<(), Fail> {
    let mut facts = List::new(rt.alloc());
    for offset in [3, 4, 5, 7, 8, 9] {
        facts.push(fact(0, offset, Label::Plain))?;
    }
    facts.push(fact(0, 9, Label::Tens))?;
    facts.push(fact(0, 10, Label::Plain))?;
    facts.push(fact(0, 10, Label::Tens))?;
    facts.push(fact(0, 11, Label::Plain))?;
    facts.push(fact(1, 12, Label::Plain))?;
    let labelling = Labelling::new(rt.alloc(), facts)?;
    let plain = [Label::Plain];
    let both = [Label::Tens, Label::Plain];
    assert!(rt; is_stretch(&labelling, 0, (0, 3, 3), &plain));
    assert!(rt; is_stretch(&labelling, 1, (0, 7, 2), &plain));
    assert!(rt; is_stretch(&labelling, 2, (0, 9, 2), &both));
    assert!(rt; is_stretch(&labelling, 3, (0, 11, 1), &plain));
    assert!(rt; is_stretch(&labelling, 4, (1, 12, 1), &plain));
    assert!(rt; labelling.stretch(5).is_none());
    Ok(())
}

#[test]
fn a_table_of_plain_bytes_is_one_stretch(rt: HostRuntime) -> Result<(), Fail> {
    let mut facts = List::new(rt.alloc());
    for offset in 0..60000 {
        facts.push(fact(0, offset, Label::Plain))?;
    }
    let labelling = Labelling::new(rt.alloc(), facts)?;
    assert_eq!(rt; labelling.count(), 60000);
    assert!(rt; is_stretch(&labelling, 0, (0, 0, 60000), &[Label::Plain]));
    assert!(rt; labelling.stretch(1).is_none());
    Ok(())
}

#[test]
fn the_two_bytes_of_a_year_are_two_stretches(rt: HostRuntime) -> Result<(), Fail> {
    let mut facts = List::new(rt.alloc());
    for area in [0, 1] {
        facts.push(fact(area, 0, Label::Tens))?;
        facts.push(fact(area, 1, Label::Units))?;
    }
    let labelling = Labelling::new(rt.alloc(), facts)?;
    assert!(rt; is_stretch(&labelling, 0, (0, 0, 1), &[Label::Tens]));
    assert!(rt; is_stretch(&labelling, 1, (0, 1, 1), &[Label::Units]));
    assert!(rt; is_stretch(&labelling, 2, (1, 0, 1), &[Label::Tens]));
    assert!(rt; is_stretch(&labelling, 3, (1, 1, 1), &[Label::Units]));
    assert!(rt; labelling.stretch(4).is_none());
    Ok(())
}
