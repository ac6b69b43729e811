use super::ring;
use graph::digraph::Digraph;
use graph::stage_set::StageSet;

#[test]
fn a_link_is_refused_where_an_end_is_no_stage(rt: HostRuntime) {
    let mut digraph = Digraph::new(StageSet::empty().with(0).with(2));
    assert!(rt; !digraph.link(0, 1) && !digraph.link(1, 2) && !digraph.link(0, 255));
    assert!(rt; !digraph.is_linked(0, 1) && !digraph.is_linked(1, 2) && !digraph.is_linked(0, 255));
    assert!(rt; digraph.link(0, 2) && digraph.is_linked(0, 2) && !digraph.is_linked(2, 0));
}

#[test]
fn an_added_stage_can_be_linked(rt: HostRuntime) {
    let mut digraph = Digraph::new(StageSet::below(63));
    assert!(rt; !digraph.link(62, 63));
    digraph.add_stage(63);
    digraph.add_stage(64);
    assert!(rt; digraph.stages() == StageSet::below(64));
    assert!(rt; digraph.link(62, 63) && digraph.is_linked(62, 63));
}

#[test]
fn a_self_link_is_a_loop(rt: HostRuntime) {
    let mut digraph = Digraph::new(StageSet::below(64));
    assert!(rt; !digraph.has_loop());
    digraph.link(63, 63);
    assert!(rt; digraph.has_loop());
    digraph.drop_link(63, 63);
    assert!(rt; !digraph.has_loop());
}

#[test]
fn a_chain_has_no_loop(rt: HostRuntime) {
    let mut digraph = Digraph::new(StageSet::below(3));
    digraph.link(0, 1);
    digraph.link(1, 2);
    assert!(rt; !digraph.has_loop());
    digraph.link(2, 0);
    assert!(rt; digraph.has_loop());
}

#[test]
fn a_ring_of_64_loses_its_loop_with_one_link(rt: HostRuntime) {
    let mut digraph = ring(64);
    assert!(rt; digraph.has_loop());
    digraph.drop_link(18, 17);
    assert!(rt; digraph.has_loop());
    digraph.drop_link(17, 18);
    assert!(rt; !digraph.has_loop());
}

#[test]
fn part_of_a_ring_is_a_chain(rt: HostRuntime) {
    let part = ring(5).among(StageSet::empty().with(3).with(4).with(0).with(9));
    assert!(rt; part.stages() == StageSet::empty().with(0).with(3).with(4));
    assert!(rt; part.is_linked(3, 4) && part.is_linked(4, 0));
    assert!(rt; !part.is_linked(0, 1) && !part.is_linked(2, 3));
    assert!(rt; !part.has_loop() && ring(5).among(StageSet::below(6)).has_loop());
}
