//! The edits of a graph. Each is refused for the first cause that applies, and then leaves the graph as it was.

ghost use Rattle.std.specs.Prelude.{◌≡◌};
ghost use Rattle.graph.specs.Edits.{Frees, LinksUp, MarksLive, Unlinks};
ghost use Rattle.graph.specs.Faults.{after, answer, cause_of};
ghost use Rattle.graph.specs.Graphs.{free_refusal, freed, link_refusal, linked_too, live_refusal, live_too, one_more, plain, stage_refusal, unlink_refusal, unlinked};

use super::Graph;
use crate::fault::{Cause, Fault, Site};

impl Graph {
    /// Adds a stage with the next number; refused where there are 64.
    pub fn add_stage(&mut self, site: Site) -> Result<(), Fault>
        ensures answer { result ≡ answer (stage_refusal (plain self.old)) site }
        ensures after { plain self.new ≡ after (stage_refusal (plain self.old)) (plain self.old) (one_more (plain self.old)) }
    {
        if self.n >= 64 {
            return Err(Cause::TooManyStages.at(site));
        }
        self.links.add_stage(self.n);
        self.n += 1;
        Ok(())
    }

    /// Links one stage to another. Refused where one is no stage, the link is there, or live stages alone would
    /// contain a loop.
    pub fn link(&mut self, from: u8, to: u8, site: Site) -> Result<(), Fault>
        ensures answer { result ≡ answer (link_refusal (plain self.old) from to) site }
        ensures after { plain self.new ≡ after (link_refusal (plain self.old) from to) (plain self.old) (linked_too (plain self.old) from to) }
        ensures in_words { LinksUp (plain self.old) from to (cause_of result) (plain self.new) }
    {
        let n = self.n;
        if from >= n || to >= n {
            return Err(Cause::NoSuchStage.at(site));
        }
        if self.links.is_linked(from, to) {
            return Err(Cause::AlreadyThere.at(site));
        }
        let mut links = self.links;
        links.link(from, to);
        if links.among(self.live).has_loop() {
            return Err(Cause::LiveLoop.at(site));
        }
        self.links = links;
        Ok(())
    }

    /// Takes the link from one stage to another off. Refused where one is no stage or the link is not there.
    pub fn unlink(&mut self, from: u8, to: u8, site: Site) -> Result<(), Fault>
        ensures answer { result ≡ answer (unlink_refusal (plain self.old) from to) site }
        ensures after { plain self.new ≡ after (unlink_refusal (plain self.old) from to) (plain self.old) (unlinked (plain self.old) from to) }
        ensures in_words { Unlinks (plain self.old) from to (cause_of result) (plain self.new) }
    {
        let n = self.n;
        if from >= n || to >= n {
            return Err(Cause::NoSuchStage.at(site));
        }
        if !self.links.is_linked(from, to) {
            return Err(Cause::NotThere.at(site));
        }
        self.links.drop_link(from, to);
        Ok(())
    }

    /// Marks a stage live. Refused where it is no stage, is live, or live stages alone would contain a loop.
    pub fn mark_live(&mut self, stage: u8, site: Site) -> Result<(), Fault>
        ensures answer { result ≡ answer (live_refusal (plain self.old) stage) site }
        ensures after { plain self.new ≡ after (live_refusal (plain self.old) stage) (plain self.old) (live_too (plain self.old) stage) }
        ensures in_words { MarksLive (plain self.old) stage (cause_of result) (plain self.new) }
    {
        if stage >= self.n {
            return Err(Cause::NoSuchStage.at(site));
        }
        if self.live.has(stage) {
            return Err(Cause::AlreadyThere.at(site));
        }
        let live = self.live.with(stage);
        if self.links.among(live).has_loop() {
            return Err(Cause::LiveLoop.at(site));
        }
        self.live = live;
        Ok(())
    }

    /// Takes the live mark of a stage off. Refused where it is no stage or not live.
    pub fn free(&mut self, stage: u8, site: Site) -> Result<(), Fault>
        ensures answer { result ≡ answer (free_refusal (plain self.old) stage) site }
        ensures after { plain self.new ≡ after (free_refusal (plain self.old) stage) (plain self.old) (freed (plain self.old) stage) }
        ensures in_words { Frees (plain self.old) stage (cause_of result) (plain self.new) }
    {
        if stage >= self.n {
            return Err(Cause::NoSuchStage.at(site));
        }
        if !self.live.has(stage) {
            return Err(Cause::NotThere.at(site));
        }
        self.live = self.live.without(stage);
        Ok(())
    }
}
