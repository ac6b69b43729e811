use super::{SITE, bare, refused};
use graph::fault::Cause;
use graph::stage_set::StageSet;
use std::test::Fail;

#[test]
fn two_mates_are_not_both_marked_live(rt: HostRuntime) -> Result<(), Fail> {
    let mut graph = bare(2)?;
    assert!(rt; graph.link(0, 1, SITE) == Ok(()) && graph.link(1, 0, SITE) == Ok(()));
    assert!(rt; graph.mark_live(0, SITE) == Ok(()));
    assert!(rt; graph.mark_live(1, SITE) == refused(Cause::LiveLoop));
    assert!(rt; graph.free(0, SITE) == Ok(()) && graph.mark_live(1, SITE) == Ok(()));
    assert!(rt;
        graph.live() == StageSet::empty().with(1) && graph.not_live() == StageSet::empty().with(0)
    );
    Ok(())
}

#[test]
fn live_stages_do_not_become_mates(rt: HostRuntime) -> Result<(), Fail> {
    let mut graph = bare(2)?;
    assert!(rt; graph.mark_live(0, SITE) == Ok(()) && graph.mark_live(1, SITE) == Ok(()));
    assert!(rt; graph.link(1, 0, SITE) == Ok(()));
    assert!(rt; graph.link(0, 1, SITE) == refused(Cause::LiveLoop));
    Ok(())
}

#[test]
fn a_live_stage_has_no_self_link(rt: HostRuntime) -> Result<(), Fail> {
    let mut graph = bare(2)?;
    assert!(rt; graph.link(0, 0, SITE) == Ok(()));
    assert!(rt; graph.mark_live(0, SITE) == refused(Cause::LiveLoop));
    assert!(rt; graph.mark_live(1, SITE) == Ok(()));
    assert!(rt; graph.link(1, 1, SITE) == refused(Cause::LiveLoop));
    Ok(())
}

#[test]
fn a_ring_keeps_a_stage_that_is_not_live(rt: HostRuntime) -> Result<(), Fail> {
    let mut graph = bare(3)?;
    assert!(rt; graph.mark_live(0, SITE) == Ok(()) && graph.mark_live(2, SITE) == Ok(()));
    assert!(rt; graph.link(0, 1, SITE) == Ok(()) && graph.link(1, 2, SITE) == Ok(()));
    assert!(rt; graph.link(2, 0, SITE) == Ok(()));
    assert!(rt; graph.mark_live(1, SITE) == refused(Cause::LiveLoop));
    assert!(rt; graph.unlink(0, 1, SITE) == Ok(()) && graph.mark_live(1, SITE) == Ok(()));
    Ok(())
}

#[test]
fn a_mark_is_set_once_and_taken_off_once(rt: HostRuntime) -> Result<(), Fail> {
    let mut graph = bare(2)?;
    assert!(rt; graph.free(1, SITE) == refused(Cause::NotThere));
    assert!(rt; graph.mark_live(1, SITE) == Ok(()));
    assert!(rt; graph.mark_live(1, SITE) == refused(Cause::AlreadyThere));
    assert!(rt; graph.free(1, SITE) == Ok(()));
    assert!(rt; graph.free(1, SITE) == refused(Cause::NotThere));
    Ok(())
}

#[test]
fn a_mark_names_a_stage_of_the_graph(rt: HostRuntime) -> Result<(), Fail> {
    let mut graph = bare(2)?;
    assert!(rt; graph.mark_live(2, SITE) == refused(Cause::NoSuchStage));
    assert!(rt; graph.free(255, SITE) == refused(Cause::NoSuchStage));
    assert!(rt; graph.live() == StageSet::empty());
    Ok(())
}
