use super::AtomSet;
use super::order::is_rising;

#[test]
fn members_at_word_boundaries(rt: HostRuntime) {
    let mut s = AtomSet::from(&[0, 63, 64, 255][..]);
    assert_eq!(rt; s.count(), 4);
    assert_eq!(rt; s.lowest(), Some(0));
    s.remove(0);
    s.remove(63);
    assert_eq!(rt; s.lowest(), Some(64));
    assert_eq!(rt; s, AtomSet::from(&[255, 64][..]));
    assert!(rt; s.is_subset(&AtomSet::below(256)) && !s.is_subset(&AtomSet::below(255)));
    assert!(rt; s.is_disjoint(&AtomSet::below(64)) && !s.is_disjoint(&AtomSet::below(65)));
    assert!(rt; AtomSet::below(0).is_empty());
    assert_eq!(rt; AtomSet::below(usize::MAX).count(), 256);
}

#[test]
fn atoms_in_order(rt: HostRuntime) {
    let s = AtomSet::from(&[255, 64, 0, 191, 63, 192][..]);
    let mut atoms = s.iter();
    assert_eq!(rt; atoms.len(), 6);
    assert_eq!(rt; atoms.next(), Some(0));
    assert_eq!(rt; atoms.size_hint(), (5, Some(5)));
    assert!(rt; atoms.eq([63, 64, 191, 192, 255]));
    assert!(rt; s.iter().eq(&s) && AtomSet::empty().iter().next().is_none());
}

#[test]
fn shifts(rt: HostRuntime) {
    let s = AtomSet::from(&[0, 1, 63, 64, 191, 192, 255][..]);
    let moved = [
        (0, s),
        (63, AtomSet::from(&[63, 64, 126, 127, 254, 255][..])),
        (64, AtomSet::from(&[64, 65, 127, 128, 255][..])),
        (65, AtomSet::from(&[65, 66, 128, 129][..])),
        (255, AtomSet::from(&[255][..])),
        (256, AtomSet::empty()),
        (usize::MAX, AtomSet::empty()),
    ];
    for (d, expected) in moved {
        assert_eq!(rt; s.shifted(d), expected);
    }
}

#[test]
fn order(rt: HostRuntime) {
    let sets = [
        AtomSet::empty(),
        AtomSet::from(&[255][..]),
        AtomSet::from(&[1][..]),
        AtomSet::from(&[1, 2][..]),
        AtomSet::from(&[0][..]),
    ];
    assert!(rt; is_rising(&sets));
    assert!(rt; !is_rising(&[sets[2], sets[2]]) && !is_rising(&[sets[4], sets[2]]));
    assert!(rt;
        sets[0].precedes(&sets[2]) && sets[2].precedes(&sets[4]) && !sets[4].precedes(&sets[2])
    );
}
