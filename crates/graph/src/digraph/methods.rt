//! What a digraph answers, the moves that change it, and the digraphs made of its links.

ghost use Rattle.std.specs.Prelude.{◌≡◌, ℕ, ◌<◌, false, not, ◌&&◌, ◌||◌, if◌then◌else◌, Decides, ◌==◌, nat_lt};
ghost use Rattle.theory.specs.Loops.{Link, Loop, between};
ghost use Rattle.theory.specs.Mates.{mates, unpaired};
ghost use Rattle.theory.specs.Moves.{dropped, held, passed, with_link, without_stage};
ghost use Rattle.theory.specs.Walks.{Walk};
ghost use Rattle.graph.specs.Digraphs.{links};
ghost use Rattle.graph.specs.StageSets.{stages};

use super::Digraph;
use super::rows::{row, rows_among, rows_bridged, rows_past};
use crate::stage_set::StageSet;
use std::array;

impl Digraph {
    /// The digraph on these stages with no links.
    pub fn new(on: StageSet) -> Digraph
        ensures on { result.stages ≡ on }
        ensures no_links { (a b : ℕ) → links result a b ≡ false }
    {
        Digraph {
            stages: on,
            rows: [StageSet::empty(); 64],
        }
    }

    /// Its stages.
    pub fn stages(&self) -> StageSet
        ensures { result ≡ self.now.stages }
    {
        self.stages
    }

    /// Whether there is a link from one stage to another.
    pub fn is_linked(&self, from: u8, to: u8) -> bool
        ensures { result ≡ links self.now from to }
    {
        self.after(from).has(to)
    }

    /// Adds a stage with no links; a number from 64 on names no stage and adds none.
    pub fn add_stage(&mut self, s: u8)
        ensures stages { (t : ℕ) → stages self.new.stages t ≡ (stages self.old.stages t || t == s && nat_lt s 64) }
        ensures links { self.new.rows ≡ self.old.rows }
    {
        self.stages = self.stages.with(s);
    }

    /// Links one stage to another, and answers whether both are its stages, which is all that can be wrong; if they are
    /// not, it stays as it was.
    pub fn link(&mut self, from: u8, to: u8) -> bool
        ensures answer { result ≡ (stages self.old.stages from && stages self.old.stages to) }
        ensures stages { self.new.stages ≡ self.old.stages }
        ensures links { (a b : ℕ) → links self.new a b ≡ (if result then with_link (links self.old) from to a b else links self.old a b) }
    {
        if !self.stages.has(from) || !self.stages.has(to) {
            return false;
        }
        self.rows[from as usize] = self.rows[from as usize].with(to);
        true
    }

    /// Takes the link from one stage to another off; where it is not there, the digraph stays as it was.
    pub fn drop_link(&mut self, from: u8, to: u8)
        ensures stages { self.new.stages ≡ self.old.stages }
        ensures links { (a b : ℕ) → links self.new a b ≡ dropped (links self.old) from to a b }
    {
        if from < 64 {
            self.rows[from as usize] = self.rows[from as usize].without(to);
        }
    }

    /// Holds a stage: removes it with its links. A stage that is not there leaves the digraph as it was.
    pub fn hold(&mut self, v: u8)
        ensures stages { (s : ℕ) → stages self.new.stages s ≡ without_stage (stages self.old.stages) v s }
        ensures links { (a b : ℕ) → links self.new a b ≡ held (links self.old) v a b }
    {
        *self = self.among(self.stages.without(v));
    }

    /// Passes a stage: links each stage before it to each stage after it, and then removes it with its links. A
    /// stage that is not there, or that has a self-link, is not passed: the answer is false and the digraph stays as it was.
    pub fn pass(&mut self, v: u8) -> bool
        ensures answer { result ≡ (stages self.old.stages v && not (links self.old v v)) }
        ensures stages { (s : ℕ) → stages self.new.stages s ≡ (if result then without_stage (stages self.old.stages) v s else stages self.old.stages s) }
        ensures links { (a b : ℕ) → links self.new a b ≡ (if result then passed (links self.old) v a b else links self.old a b) }
    {
        if !self.stages.has(v) || self.is_linked(v, v) {
            return false;
        }
        *self = Digraph {
            stages: self.stages.without(v),
            rows: rows_past(&self.rows, v),
        };
        true
    }

    /// The stages after a stage: those that it has a link to.
    pub fn after(&self, v: u8) -> StageSet
        ensures { (s : ℕ) → stages result s ≡ links self.now v s }
    {
        row(&self.rows, v as usize)
    }

    /// The stages before a stage: those with a link to it.
    pub fn before(&self, v: u8) -> StageSet
        ensures { (s : ℕ) → stages result s ≡ links self.now s v }
    {
        let mut set = StageSet::empty();
        for u in 0..64u8 {
            if self.is_linked(u, v) {
                set = set.with(u);
            }
        }
        set
    }

    /// The mates of a stage: the other stages with a link to it and from it.
    pub fn mates(&self, v: u8) -> StageSet
        ensures { (s : ℕ) → stages result s ≡ mates (links self.now) v s }
    {
        self.after(v).intersection(self.before(v)).without(v)
    }

    /// The digraph of the unpaired links alone, on the same stages.
    pub fn unpaired(&self) -> Digraph
        ensures stages { result.stages ≡ self.now.stages }
        ensures links { (a b : ℕ) → links result a b ≡ unpaired (links self.now) a b }
    {
        Digraph {
            stages: self.stages,
            rows: array::from_fn(
                |u| -> StageSet
                    requires { u < 64 }
                    ensures { (s : ℕ) → stages result s ≡ unpaired (links self.entry.now) u s }
                {
                    let u = u as u8;
                    self.after(u).difference(self.mates(u))
                },
            ),
        }
    }

    /// The digraph of what reaches what: a link wherever this one has a walk, on the same stages.
    pub fn reach(&self) -> Digraph
        ensures stages { result.stages ≡ self.now.stages }
        ensures walks { (a b : ℕ) → Decides (links result a b) (Walk (Link (links self.now)) a b) }
    {
        let mut rows = self.rows;
        for k in 0..64u8 {
            rows = rows_bridged(&rows, k);
        }
        Digraph {
            stages: self.stages,
            rows,
        }
    }

    /// The digraph of the links between two stages of the set, on the stages that it has in the set.
    pub fn among(&self, set: StageSet) -> Digraph
        ensures stages { (s : ℕ) → stages result.stages s ≡ (stages self.now.stages s && stages set s) }
        ensures links { (a b : ℕ) → links result a b ≡ between (links self.now) (stages set) a b }
    {
        let stages = self.stages.intersection(set);
        Digraph {
            stages,
            rows: rows_among(&self.rows, stages),
        }
    }

    /// Whether its links close a loop: stages are passed one by one, and a loop is left as a self-link.
    pub fn has_loop(&self) -> bool
        ensures { Decides result (Loop (links self.now)) }
    {
        let mut rows = self.rows;
        for v in (0..64u8).rev() {
            if row(&rows, v as usize).has(v) {
                return true;
            }
            rows = rows_past(&rows, v);
        }
        false
    }
}
