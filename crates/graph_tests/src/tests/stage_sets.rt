use graph::stage_set::StageSet;

#[test]
fn the_first_and_the_last_stage_are_marked(rt: HostRuntime) {
    let set = StageSet::empty().with(0).with(63);
    assert!(rt; set.has(0) && !set.has(1));
    assert!(rt; !set.has(62) && set.has(63));
    assert!(rt; !set.without(63).has(63) && set.without(63).has(0));
}

#[test]
fn numbers_from_64_on_name_no_stage(rt: HostRuntime) {
    let all = StageSet::below(64);
    assert!(rt; !all.has(64) && !all.has(255));
    assert!(rt; StageSet::empty().with(64).with(255) == StageSet::empty());
    assert!(rt; all.without(64).without(255) == all);
}

#[test]
fn stages_below_a_number(rt: HostRuntime) {
    assert!(rt; StageSet::below(0) == StageSet::empty());
    assert!(rt; StageSet::below(3) == StageSet::empty().with(0).with(1).with(2));
    assert!(rt; !StageSet::below(63).has(63) && StageSet::below(64).has(63));
    assert!(rt; StageSet::below(200) == StageSet::below(64));
}

#[test]
fn a_union_has_the_stages_of_either(rt: HostRuntime) {
    let odd = StageSet::empty().with(1).with(3).with(9);
    assert!(rt; StageSet::below(3).union(odd) == StageSet::below(4).with(9));
    assert!(rt; odd.union(StageSet::empty()) == odd && odd.union(odd) == odd);
}

#[test]
fn difference_and_intersection(rt: HostRuntime) {
    let odd = StageSet::empty().with(1).with(3).with(9);
    let few = StageSet::below(4);
    assert!(rt; few.difference(odd) == StageSet::empty().with(0).with(2));
    assert!(rt; odd.difference(few) == StageSet::empty().with(9));
    assert!(rt; few.intersection(odd) == StageSet::empty().with(1).with(3));
}
