use super::{by_the_full_pile, counted};
use crate::switch::Switch;
use crate::watched::Watched;
use rules::action::Action;
use rules::full_pile::FULL;
use rules::in0::In0;
use rules::loop_rule::Loop;
use rules::pile::{Empty, Pair};

#[test]
fn the_empty_pile_says_none(rt: HostRuntime) {
    assert_eq!(rt; counted(Empty, 2, &[(0, 0)]), None);
}

#[test]
fn a_pair_takes_the_first_answer_that_is_present(rt: HostRuntime) {
    // stage 0 has a self-link, and stage 1 no link in
    let links = [(0, 0)];
    let (first, second) = (Loop, In0);
    assert_eq!(rt;
        counted(Pair { first, second }, 2, &links),
        Some(Action::Hold(0))
    );
    let (first, second) = (In0, Loop);
    assert_eq!(rt;
        counted(Pair { first, second }, 2, &links),
        Some(Action::Pass(1))
    );
    assert_eq!(rt;
        counted(Pair { first, second }, 1, &links),
        Some(Action::Hold(0))
    );
    assert_eq!(rt; counted(Pair { first, second }, 2, &[(0, 1), (1, 0)]), None);
}

#[test]
fn the_full_pile_is_a_value_that_is_asked_like_a_rule(rt: HostRuntime) {
    let three = [(0, 1), (1, 0), (0, 2), (2, 0), (1, 2), (2, 1)];
    assert_eq!(rt; counted(FULL, 3, &three), Some(Action::Hold(1)));
    assert_eq!(rt; counted(FULL, 0, &[]), None);
}

#[test]
fn the_full_pile_asks_the_rules_on_stages_in_their_order(rt: HostRuntime) {
    // LOOP before IN0: stage 1 has a self-link, and stage 0 no link in
    assert_eq!(rt; by_the_full_pile(2, &[(1, 1)], &[]), Some(Action::Hold(1)));
    // IN0 before OUT0: stage 1 has no link in, and stage 0 no link out
    assert_eq!(rt; by_the_full_pile(2, &[(1, 0)], &[]), Some(Action::Pass(1)));
    // OUT0 before IN1: stage 2 has no link out, and stage 0 one link in
    assert_eq!(rt;
        by_the_full_pile(3, &[(0, 2)], &[(0, 1)]),
        Some(Action::Pass(2))
    );
    // IN1 before OUT1: stage 1 has one link in, and stage 0 one link out
    assert_eq!(rt;
        by_the_full_pile(3, &[(1, 2), (2, 0)], &[(0, 1)]),
        Some(Action::Pass(1))
    );
}

#[test]
fn the_full_pile_asks_the_rules_on_links_and_core_in_their_order(rt: HostRuntime) {
    let threes = [(0, 1), (0, 2), (1, 2), (3, 4), (3, 5), (4, 5)];
    // OUT1 before PIE: stage 6 has one link out, and 0 to 6 is on no loop of unpaired links
    assert_eq!(rt;
        by_the_full_pile(7, &[(0, 6), (1, 6), (6, 3)], &threes),
        Some(Action::Pass(6))
    );
    // PIE before CORE: 0 to 3 is on no such loop, and stage 1 has but mates of each other
    assert_eq!(rt;
        by_the_full_pile(6, &[(0, 3)], &threes),
        Some(Action::DropLink(0, 3))
    );
    // CORE before DOME: stages 0 to 2 are mates of each other, and 3 to 4 is dominated by way of the mates 4 and 6
    assert_eq!(rt;
        by_the_full_pile(
            7,
            &[(3, 4), (4, 5), (5, 6), (6, 3)],
            &[(0, 1), (0, 2), (1, 2), (3, 5), (4, 6)]
        ),
        Some(Action::Hold(1))
    );
    // DOME last
    assert_eq!(rt;
        by_the_full_pile(4, &[(0, 1), (1, 2), (2, 3), (3, 0)], &[(0, 2), (1, 3)]),
        Some(Action::DropLink(0, 1))
    );
    assert_eq!(rt; by_the_full_pile(0, &[], &[]), None);
}

#[test]
fn a_rule_around_another_is_asked_like_others(rt: HostRuntime) {
    let links = [(0, 0)];
    let on = Switch {
        on: true,
        rule: Loop,
    };
    let off = Switch {
        on: false,
        rule: Loop,
    };
    assert_eq!(rt; counted(on, 1, &links), Some(Action::Hold(0)));
    assert_eq!(rt; counted(off, 1, &links), None);
    assert_eq!(rt;
        counted(
            Pair {
                first: off,
                second: on
            },
            1,
            &links
        ),
        Some(Action::Hold(0))
    );
}

#[test]
fn a_rule_of_ones_own_on_one_stage(rt: HostRuntime) {
    let watched = Watched { stage: 1 };
    assert_eq!(rt; counted(watched, 2, &[(0, 0)]), None);
    assert_eq!(rt;
        counted(watched, 2, &[(0, 0), (1, 1)]),
        Some(Action::Hold(1))
    );
    let first = watched;
    assert_eq!(rt;
        counted(
            Pair {
                first,
                second: Loop
            },
            2,
            &[(0, 0), (1, 1)]
        ),
        Some(Action::Hold(1))
    );
}
