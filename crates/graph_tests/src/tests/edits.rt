use super::{SITE, bare, refused};
use graph::fault::{Cause, Fault, Layer, Site};
use graph::graph::Graph;
use graph::stage_set::StageSet;
use std::test::Fail;

#[test]
fn a_new_graph_has_at_most_64_stages(rt: HostRuntime) -> Result<(), Fail> {
    let graph = bare(64)?;
    assert!(rt; graph.stage_count() == 64 && graph.links().stages() == StageSet::below(64));
    assert!(rt; graph.live() == StageSet::empty() && graph.not_live() == StageSet::below(64));
    assert!(rt; Graph::new(65).is_none() && Graph::new(255).is_none());
    Ok(())
}

#[test]
fn the_65th_stage_is_refused(rt: HostRuntime) -> Result<(), Fail> {
    let mut graph = bare(63)?;
    assert!(rt; graph.link(0, 63, SITE) == refused(Cause::NoSuchStage));
    assert!(rt; graph.add_stage(SITE) == Ok(()));
    assert!(rt; graph.link(0, 63, SITE) == Ok(()));
    assert!(rt; graph.add_stage(SITE) == refused(Cause::TooManyStages));
    assert!(rt; graph.stage_count() == 64);
    Ok(())
}

#[test]
fn the_first_stage_is_added_to_the_empty_graph(rt: HostRuntime) {
    let mut graph = Graph::empty();
    assert!(rt; graph.stage_count() == 0 && graph.not_live() == StageSet::empty());
    assert!(rt; graph.link(0, 0, SITE) == refused(Cause::NoSuchStage));
    assert!(rt; graph.add_stage(SITE) == Ok(()));
    assert!(rt; graph.stage_count() == 1 && graph.not_live() == StageSet::empty().with(0));
    assert!(rt; graph.link(0, 0, SITE) == Ok(()));
}

#[test]
fn the_last_stage_links_to_itself(rt: HostRuntime) -> Result<(), Fail> {
    let mut graph = bare(64)?;
    assert!(rt; graph.link(63, 63, SITE) == Ok(()));
    assert!(rt; graph.links().is_linked(63, 63) && graph.links().has_loop());
    Ok(())
}

#[test]
fn a_link_names_stages_of_the_graph(rt: HostRuntime) -> Result<(), Fail> {
    let mut graph = bare(5)?;
    assert!(rt; graph.link(0, 5, SITE) == refused(Cause::NoSuchStage));
    assert!(rt; graph.link(5, 0, SITE) == refused(Cause::NoSuchStage));
    assert!(rt; graph.unlink(0, 255, SITE) == refused(Cause::NoSuchStage));
    assert!(rt; graph.link(0, 4, SITE) == Ok(()));
    Ok(())
}

#[test]
fn a_link_is_made_once(rt: HostRuntime) -> Result<(), Fail> {
    let mut graph = bare(2)?;
    assert!(rt; graph.link(0, 1, SITE) == Ok(()));
    assert!(rt; graph.link(0, 1, SITE) == refused(Cause::AlreadyThere));
    assert!(rt; graph.link(1, 0, SITE) == Ok(()));
    Ok(())
}

#[test]
fn a_link_is_taken_off_once(rt: HostRuntime) -> Result<(), Fail> {
    let mut graph = bare(2)?;
    assert!(rt; graph.link(0, 1, SITE) == Ok(()));
    assert!(rt; graph.unlink(1, 0, SITE) == refused(Cause::NotThere));
    assert!(rt; graph.unlink(0, 1, SITE) == Ok(()));
    assert!(rt; graph.unlink(0, 1, SITE) == refused(Cause::NotThere));
    assert!(rt; !graph.links().is_linked(0, 1));
    Ok(())
}

#[test]
fn a_refused_edit_leaves_the_graph(rt: HostRuntime) -> Result<(), Fail> {
    let mut graph = bare(64)?;
    // a ring of stages 0, 1 and 2, of which 0 and 1 are live
    assert!(rt; graph.link(0, 1, SITE) == Ok(()));
    assert!(rt; graph.link(1, 2, SITE) == Ok(()));
    assert!(rt; graph.link(2, 0, SITE) == Ok(()));
    assert!(rt; graph.mark_live(0, SITE) == Ok(()));
    assert!(rt; graph.mark_live(1, SITE) == Ok(()));
    let before = graph;
    assert!(rt; graph.add_stage(SITE) == refused(Cause::TooManyStages) && graph == before);
    assert!(rt; graph.link(64, 0, SITE) == refused(Cause::NoSuchStage) && graph == before);
    assert!(rt; graph.link(0, 1, SITE) == refused(Cause::AlreadyThere) && graph == before);
    assert!(rt; graph.link(1, 0, SITE) == refused(Cause::LiveLoop) && graph == before);
    assert!(rt; graph.unlink(1, 0, SITE) == refused(Cause::NotThere) && graph == before);
    assert!(rt; graph.mark_live(1, SITE) == refused(Cause::AlreadyThere) && graph == before);
    assert!(rt; graph.mark_live(2, SITE) == refused(Cause::LiveLoop) && graph == before);
    assert!(rt; graph.free(2, SITE) == refused(Cause::NotThere) && graph == before);
    Ok(())
}

#[test]
fn a_fault_has_the_site_of_the_edit(rt: HostRuntime) {
    let mut graph = Graph::empty();
    let cause = Cause::NoSuchStage;
    let at_record = Fault {
        cause,
        layer: Layer::Graph,
        place: 40,
    };
    let in_call = Fault {
        cause,
        layer: Layer::Call,
        place: 0,
    };
    assert!(rt; graph.free(0, Site::Record(40)) == Err(at_record));
    assert!(rt; graph.free(0, Site::Call) == Err(in_call));
}

#[test]
fn causes_have_their_numbers(rt: HostRuntime) {
    assert!(rt;
        Cause::Version.number() == 1 && Cause::Size.number() == 2 && Cause::Kind.number() == 3
    );
    assert!(rt; Cause::RecordLength.number() == 4 && Cause::RecordBody.number() == 5);
    assert!(rt; Cause::TooManyStages.number() == 6 && Cause::NoSuchStage.number() == 7);
    assert!(rt; Cause::AlreadyThere.number() == 8 && Cause::LiveLoop.number() == 9);
    assert!(rt; Cause::NotThere.number() == 10 && Cause::TablesTooSmall.number() == 11);
    assert!(rt; Cause::OtherStageCount.number() == 12 && Cause::OutputTooShort.number() == 13);
}
