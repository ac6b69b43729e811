use super::counted;
use rules::action::Action;
use rules::dome::Dome;
use rules::pie::Pie;

#[test]
fn pie_drops_the_lowest_unpaired_link_on_no_loop_of_unpaired_links(rt: HostRuntime) {
    assert_eq!(rt;
        counted(Pie, 3, &[(0, 1), (1, 2), (2, 1)]),
        Some(Action::DropLink(0, 1))
    );
    assert_eq!(rt;
        counted(Pie, 3, &[(0, 2), (0, 1)]),
        Some(Action::DropLink(0, 1))
    );
    assert_eq!(rt;
        counted(Pie, 64, &[(63, 0), (62, 63)]),
        Some(Action::DropLink(62, 63))
    );
    // two pairs of mates with a link each way between them: no loop of unpaired links alone
    assert_eq!(rt;
        counted(Pie, 4, &[(0, 1), (1, 0), (1, 2), (2, 3), (3, 2), (3, 0)]),
        Some(Action::DropLink(1, 2))
    );
    assert_eq!(rt; counted(Pie, 3, &[(0, 1), (1, 2), (2, 0)]), None);
    assert_eq!(rt; counted(Pie, 2, &[(0, 1), (1, 0)]), None);
}

#[test]
fn pie_drops_no_self_link(rt: HostRuntime) {
    assert_eq!(rt; counted(Pie, 1, &[(0, 0)]), None);
    assert_eq!(rt; counted(Pie, 3, &[(0, 1), (1, 2), (2, 0), (1, 1)]), None);
    assert_eq!(rt;
        counted(Pie, 2, &[(0, 0), (0, 1)]),
        Some(Action::DropLink(0, 1))
    );
}

#[test]
fn dome_drops_a_dominated_link(rt: HostRuntime) {
    let links = [(0, 1), (1, 2), (2, 0), (2, 1)];
    assert_eq!(rt; counted(Dome, 3, &links), Some(Action::DropLink(0, 1)));
    assert_eq!(rt; counted(Dome, 3, &links[..3]), None);
}

#[test]
fn dome_drops_the_lowest_by_from_and_then_by_to(rt: HostRuntime) {
    // no link leads to the stages that these come from, so each is dominated from before
    assert_eq!(rt;
        counted(Dome, 3, &[(0, 2), (0, 1)]),
        Some(Action::DropLink(0, 1))
    );
    assert_eq!(rt;
        counted(Dome, 3, &[(1, 2), (0, 2)]),
        Some(Action::DropLink(0, 2))
    );
}

#[test]
fn dome_drops_a_link_that_is_dominated_from_before_alone(rt: HostRuntime) {
    // 2 alone has an unpaired link to 0, and has one to 1; 1 has one to 3, and 0 has none
    let links = [(0, 1), (1, 3), (3, 2), (2, 0), (2, 1), (0, 0)];
    assert_eq!(rt; counted(Dome, 4, &links[..5]), Some(Action::DropLink(0, 1)));
    assert_eq!(rt; counted(Dome, 4, &links[..4]), None);
    // 0 too has an unpaired link to 0, and has one to 1
    assert_eq!(rt; counted(Dome, 4, &links), Some(Action::DropLink(0, 1)));
}

#[test]
fn dome_drops_a_link_that_is_dominated_from_after(rt: HostRuntime) {
    let links = [(0, 1), (1, 2), (2, 3), (3, 0), (0, 2), (1, 1)];
    assert_eq!(rt; counted(Dome, 4, &links[..5]), Some(Action::DropLink(0, 1)));
    assert_eq!(rt; counted(Dome, 4, &links[..4]), None);
    // 1 has an unpaired link to 1 too, and 0 has one
    assert_eq!(rt; counted(Dome, 4, &links), Some(Action::DropLink(0, 1)));
}

#[test]
fn dome_drops_no_self_link_and_no_link_of_mates(rt: HostRuntime) {
    assert_eq!(rt; counted(Dome, 1, &[(0, 0)]), None);
    assert_eq!(rt; counted(Dome, 2, &[(0, 1), (1, 0)]), None);
    // a self-link met on the way: stage 0 has an unpaired link to itself, and links to 1 too
    assert_eq!(rt;
        counted(Dome, 2, &[(0, 0), (0, 1)]),
        Some(Action::DropLink(0, 1))
    );
}
