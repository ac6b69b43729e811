use super::ring;
use graph::digraph::Digraph;
use graph::stage_set::StageSet;

// Stages 0 and 1 with a link each way, 1 linked to 2, and a self-link of 2.
fn mates_and_more() -> Digraph {
    let mut digraph = Digraph::new(StageSet::below(3));
    digraph.link(0, 1);
    digraph.link(1, 0);
    digraph.link(1, 2);
    digraph.link(2, 2);
    digraph
}

// All 64 stages, each linked to every other.
fn full() -> Digraph {
    let mut digraph = Digraph::new(StageSet::below(64));
    for u in 0..64u8 {
        for w in 0..64u8 {
            if u != w {
                digraph.link(u, w);
            }
        }
    }
    digraph
}

#[test]
fn passing_one_of_two_mates_leaves_a_self_link(rt: HostRuntime) {
    let mut digraph = mates_and_more();
    assert!(rt; digraph.pass(0));
    assert!(rt; digraph.stages() == StageSet::empty().with(1).with(2));
    assert!(rt; digraph.is_linked(1, 1) && digraph.is_linked(1, 2) && digraph.is_linked(2, 2));
    assert!(rt; !digraph.is_linked(0, 1) && !digraph.is_linked(1, 0) && !digraph.is_linked(0, 0));
}

#[test]
fn passing_links_each_before_to_each_after(rt: HostRuntime) {
    let mut digraph = Digraph::new(StageSet::below(5));
    digraph.link(0, 2);
    digraph.link(1, 2);
    digraph.link(2, 3);
    digraph.link(2, 4);
    assert!(rt; digraph.pass(2));
    assert!(rt; digraph.stages() == StageSet::below(5).without(2));
    assert!(rt; digraph.after(0) == StageSet::empty().with(3).with(4));
    assert!(rt; digraph.after(1) == StageSet::empty().with(3).with(4));
    assert!(rt; digraph.after(3) == StageSet::empty() && digraph.after(4) == StageSet::empty());
    assert!(rt; digraph.before(0) == StageSet::empty() && digraph.before(1) == StageSet::empty());
}

#[test]
fn a_stage_with_a_self_link_is_not_passed(rt: HostRuntime) {
    let mut digraph = mates_and_more();
    assert!(rt; !digraph.pass(2));
    assert!(rt; digraph.stages() == StageSet::below(3));
    assert!(rt; digraph.is_linked(1, 2) && digraph.is_linked(2, 2) && !digraph.is_linked(1, 1));
}

#[test]
fn what_is_not_there_is_left_alone(rt: HostRuntime) {
    let mut digraph = ring(5);
    digraph.hold(5);
    digraph.hold(255);
    digraph.drop_link(0, 2);
    digraph.drop_link(5, 0);
    digraph.drop_link(64, 255);
    assert!(rt; !digraph.pass(5) && !digraph.pass(64));
    assert!(rt; digraph.stages() == StageSet::below(5));
    for s in 0..5u8 {
        let next = if s == 4 { 0 } else { s + 1 };
        assert!(rt; digraph.after(s) == StageSet::empty().with(next));
    }
    assert!(rt; digraph.after(64) == StageSet::empty() && digraph.mates(64) == StageSet::empty());
    assert!(rt; digraph.after(5) == StageSet::empty() && digraph.before(64) == StageSet::empty());
}

#[test]
fn holding_in_a_ring_breaks_it(rt: HostRuntime) {
    let mut digraph = ring(5);
    digraph.hold(2);
    assert!(rt; digraph.stages() == StageSet::below(5).without(2));
    assert!(rt; !digraph.is_linked(1, 2) && !digraph.is_linked(2, 3) && !digraph.is_linked(1, 3));
    assert!(rt; digraph.is_linked(0, 1) && digraph.is_linked(3, 4) && digraph.is_linked(4, 0));
    assert!(rt; !digraph.has_loop());
}

#[test]
fn stage_63_is_passed_and_held_like_others(rt: HostRuntime) {
    let mut digraph = ring(64);
    assert!(rt; digraph.pass(63));
    assert!(rt; digraph.stages() == StageSet::below(63) && digraph.is_linked(62, 0));
    assert!(rt; digraph.has_loop());
    let mut other = ring(64);
    other.hold(63);
    assert!(rt; other.stages() == StageSet::below(63) && !other.is_linked(62, 0));
    assert!(rt; !other.has_loop());
}

#[test]
fn all_stages_of_a_full_graph_are_mates(rt: HostRuntime) {
    let mut digraph = full();
    assert!(rt; digraph.mates(63) == StageSet::below(63));
    assert!(rt; digraph.before(0) == digraph.after(0));
    assert!(rt; !digraph.unpaired().has_loop() && !digraph.unpaired().is_linked(0, 63));
    assert!(rt; digraph.pass(63));
    assert!(rt; digraph.is_linked(0, 0) && digraph.is_linked(62, 62));
    // each stage left has a self-link now, so none is passed
    assert!(rt; !digraph.pass(0));
}

#[test]
fn a_full_graph_is_broken_by_the_63rd_hold(rt: HostRuntime) {
    let mut digraph = full();
    for s in 0..62u8 {
        digraph.hold(s);
    }
    assert!(rt; digraph.has_loop() && digraph.is_linked(62, 63));
    digraph.hold(62);
    assert!(rt; !digraph.has_loop() && digraph.stages() == StageSet::empty().with(63));
}

#[test]
fn before_after_and_mates_of_a_stage(rt: HostRuntime) {
    let digraph = mates_and_more();
    assert!(rt; digraph.after(1) == StageSet::empty().with(0).with(2));
    assert!(rt; digraph.before(1) == StageSet::empty().with(0));
    assert!(rt; digraph.before(2) == StageSet::empty().with(1).with(2));
    assert!(rt; digraph.mates(1) == StageSet::empty().with(0));
    // a self-link makes no stage its own mate
    assert!(rt; digraph.mates(2) == StageSet::empty());
}

#[test]
fn a_self_link_is_unpaired(rt: HostRuntime) {
    let unpaired = mates_and_more().unpaired();
    assert!(rt; unpaired.stages() == StageSet::below(3));
    assert!(rt; unpaired.is_linked(1, 2) && unpaired.is_linked(2, 2));
    assert!(rt; !unpaired.is_linked(0, 1) && !unpaired.is_linked(1, 0));
}

#[test]
fn a_chain_reaches_forward_alone(rt: HostRuntime) {
    let mut digraph = Digraph::new(StageSet::below(64));
    digraph.link(0, 63);
    digraph.link(63, 1);
    let reach = digraph.reach();
    assert!(rt; reach.stages() == StageSet::below(64));
    assert!(rt; reach.is_linked(0, 63) && reach.is_linked(63, 1) && reach.is_linked(0, 1));
    assert!(rt; !reach.is_linked(1, 0) && !reach.is_linked(0, 0) && !reach.is_linked(1, 63));
    assert!(rt; !reach.is_linked(63, 63) && !reach.is_linked(63, 0));
}

#[test]
fn in_a_ring_each_stage_reaches_all(rt: HostRuntime) {
    let reach = ring(64).reach();
    assert!(rt; reach.after(0) == StageSet::below(64) && reach.after(63) == StageSet::below(64));
    assert!(rt; reach.before(17) == StageSet::below(64));
}

#[test]
fn mates_are_not_reached_over_unpaired_links(rt: HostRuntime) {
    // mates 0 and 1, mates 2 and 3, and one link between the two pairs
    let mut digraph = Digraph::new(StageSet::below(4));
    digraph.link(0, 1);
    digraph.link(1, 0);
    digraph.link(1, 2);
    digraph.link(2, 3);
    digraph.link(3, 2);
    assert!(rt; digraph.reach().is_linked(0, 3) && !digraph.reach().is_linked(2, 1));
    let reach = digraph.unpaired().reach();
    assert!(rt; reach.is_linked(1, 2) && !reach.is_linked(1, 3) && !reach.is_linked(0, 2));
}
