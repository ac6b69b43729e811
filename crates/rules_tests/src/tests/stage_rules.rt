use super::{counted, digraph, priced};
use price::memory::Memory;
use rules::action::Action;
use rules::core_rule::Core;
use rules::in0::In0;
use rules::in1::In1;
use rules::loop_rule::Loop;
use rules::out0::Out0;
use rules::out1::Out1;
use rules::rule::Rule;

#[test]
fn loop_holds_the_lowest_stage_with_a_self_link(rt: HostRuntime) {
    assert_eq!(rt;
        counted(Loop, 3, &[(0, 1), (2, 2), (1, 1)]),
        Some(Action::Hold(1))
    );
    assert_eq!(rt; counted(Loop, 64, &[(63, 63)]), Some(Action::Hold(63)));
    assert_eq!(rt; counted(Loop, 2, &[(0, 1), (1, 0)]), None);
    assert_eq!(rt; counted(Loop, 0, &[]), None);
}

#[test]
fn in0_passes_the_lowest_stage_without_links_in(rt: HostRuntime) {
    assert_eq!(rt;
        counted(In0, 3, &[(0, 1), (1, 2), (2, 1)]),
        Some(Action::Pass(0))
    );
    assert_eq!(rt; counted(In0, 4, &[(0, 1), (1, 0)]), Some(Action::Pass(2)));
    assert_eq!(rt; counted(In0, 3, &[(0, 1), (1, 2), (2, 0)]), None);
    // a self-link is a link in
    assert_eq!(rt; counted(In0, 1, &[(0, 0)]), None);
    assert_eq!(rt; counted(In0, 0, &[]), None);
}

#[test]
fn out0_passes_the_lowest_stage_without_links_out(rt: HostRuntime) {
    assert_eq!(rt;
        counted(Out0, 3, &[(0, 1), (1, 0), (1, 2)]),
        Some(Action::Pass(2))
    );
    assert_eq!(rt; counted(Out0, 4, &[(0, 1), (1, 0)]), Some(Action::Pass(2)));
    assert_eq!(rt; counted(Out0, 3, &[(0, 1), (1, 2), (2, 0)]), None);
    assert_eq!(rt; counted(Out0, 1, &[(0, 0)]), None);
}

#[test]
fn in1_passes_a_stage_with_one_link_in_from_another_not_dearer(rt: HostRuntime) {
    let ring = [(0, 1), (1, 2), (2, 0)];
    assert_eq!(rt; counted(In1, 3, &ring), Some(Action::Pass(0)));
    // stage 0 has its link in from stage 2, which is dearer; stage 1 from stage 0, which is not
    assert_eq!(rt; priced(In1, [5, 5, 9], &ring), Some(Action::Pass(1)));
    // from stage 1, the one not dearer
    assert_eq!(rt; priced(In1, [5, 4, 6], &ring), Some(Action::Pass(2)));
    // stage 1 has a dearer stage before it, and stages 0 and 2 none
    assert_eq!(rt; priced(In1, [9, 1, 1], &[(0, 1)]), None);
    // of mates, the cheaper one stays
    assert_eq!(rt;
        priced(In1, [40, 100, 1], &[(0, 1), (1, 0)]),
        Some(Action::Pass(1))
    );
    assert_eq!(rt; priced(In1, [1, 9, 1], &[(0, 1)]), Some(Action::Pass(1)));
}

#[test]
fn in1_counts_self_links(rt: HostRuntime) {
    assert_eq!(rt; counted(In1, 1, &[(0, 0)]), None);
    assert_eq!(rt; counted(In1, 2, &[(0, 1), (1, 1)]), None);
    assert_eq!(rt; counted(In1, 3, &[(0, 2), (1, 2)]), None);
}

#[test]
fn out1_passes_a_stage_with_one_link_out_to_another_not_dearer(rt: HostRuntime) {
    let ring = [(0, 1), (1, 2), (2, 0)];
    assert_eq!(rt; counted(Out1, 3, &ring), Some(Action::Pass(0)));
    assert_eq!(rt; counted(Out1, 3, &[(0, 1), (0, 2)]), None);
    assert_eq!(rt; priced(Out1, [1, 9, 1], &[(0, 1)]), None);
    assert_eq!(rt; priced(Out1, [9, 1, 1], &[(0, 1)]), Some(Action::Pass(0)));
    // stage 1 is dearer than stage 0, and stage 2 is not dearer than stage 1
    assert_eq!(rt; priced(Out1, [4, 5, 5], &ring), Some(Action::Pass(1)));
    assert_eq!(rt; counted(Out1, 2, &[(0, 1), (0, 0)]), None);
    assert_eq!(rt; counted(Out1, 1, &[(0, 0)]), None);
}

#[test]
fn core_holds_the_lowest_mate_of_a_stage_among_mates(rt: HostRuntime) {
    assert_eq!(rt; counted(Core, 2, &[(0, 1), (1, 0)]), Some(Action::Hold(1)));
    let three = [(0, 1), (1, 0), (0, 2), (2, 0), (1, 2), (2, 1)];
    assert_eq!(rt; counted(Core, 3, &three), Some(Action::Hold(1)));
    // 0 and 2 are no mates, so stage 1 does not qualify; stage 0 does
    assert_eq!(rt;
        counted(Core, 3, &[(0, 1), (1, 0), (1, 2), (2, 1)]),
        Some(Action::Hold(1))
    );
    // stage 0 has mates that are none of each other; stage 1 has one mate
    assert_eq!(rt;
        counted(Core, 3, &[(0, 1), (1, 0), (0, 2), (2, 0)]),
        Some(Action::Hold(0))
    );
    assert_eq!(rt; counted(Core, 2, &[(0, 1)]), None);
}

#[test]
fn core_asks_the_links_of_the_stage_alone_to_be_paired(rt: HostRuntime) {
    // stage 0 has an unpaired link; stage 1 has none, and stage 0 for its mate
    assert_eq!(rt;
        counted(Core, 3, &[(0, 1), (1, 0), (0, 2)]),
        Some(Action::Hold(0))
    );
    assert_eq!(rt; counted(Core, 3, &[(0, 1), (1, 0), (0, 2), (2, 1)]), None);
}

#[test]
fn core_takes_no_self_links(rt: HostRuntime) {
    assert_eq!(rt; counted(Core, 2, &[(0, 1), (1, 0), (1, 1)]), None);
    assert_eq!(rt; counted(Core, 2, &[(0, 1), (1, 0), (0, 0)]), None);
}

#[test]
fn core_takes_no_dearer_mate(rt: HostRuntime) {
    // stage 0 has a dearer mate, and stage 1 a cheaper one
    assert_eq!(rt;
        priced(Core, [1, 9, 1], &[(0, 1), (1, 0)]),
        Some(Action::Hold(0))
    );
    assert_eq!(rt;
        priced(Core, [9, 1, 1], &[(0, 1), (1, 0)]),
        Some(Action::Hold(1))
    );
    let three = [(0, 1), (1, 0), (0, 2), (2, 0), (1, 2), (2, 1)];
    assert_eq!(rt; priced(Core, [1, 2, 3], &three), Some(Action::Hold(0)));
}

#[test]
fn a_stage_without_a_price_costs_nothing(rt: HostRuntime) {
    let link = digraph(3, &[(0, 1)], &[]);
    let five = Memory::of_stage(5);
    assert_eq!(rt; In1.ask(&link, &[five, five]), Some(Action::Pass(1)));
    assert_eq!(rt; In1.ask(&link, &[five]), None);
    assert_eq!(rt; Out1.ask(&link, &[five]), Some(Action::Pass(0)));
    assert_eq!(rt; Out1.ask(&link, &[Memory::of_stage(0), five]), None);
}
