use graph::digraph::Digraph;
use graph::stage_set::StageSet;
use price::count::Count;
use price::memory::Memory;
use rules::action::Action;
use rules::full_pile::ask_full_pile;
use rules::rule::Rule;

mod link_rules;
mod piles;
mod stage_rules;

// The stages below `n` with these links, and these mates.
fn digraph(n: u8, links: &[(u8, u8)], mates: &[(u8, u8)]) -> Digraph {
    let mut digraph = Digraph::new(StageSet::below(n));
    for (from, to) in links {
        digraph.link(*from, *to);
    }
    for (one, other) in mates {
        digraph.link(*one, *other);
        digraph.link(*other, *one);
    }
    digraph
}

// What a rule proposes where each stage costs one hold.
fn counted<R: Rule<Count> + Drop>(rule: R, n: u8, links: &[(u8, u8)]) -> Option<Action> {
    rule.ask(&digraph(n, links, &[]), &[Count::of_stage(); 64])
}

// What the full pile proposes where each stage costs one hold.
fn by_the_full_pile(n: u8, links: &[(u8, u8)], mates: &[(u8, u8)]) -> Option<Action> {
    ask_full_pile(&digraph(n, links, mates), &[Count::of_stage(); 64])
}

// What a rule proposes where stages cost these KiB.
fn priced<R: Rule<Memory> + Drop>(rule: R, kib: [u32; 3], links: &[(u8, u8)]) -> Option<Action> {
    rule.ask(&digraph(3, links, &[]), &kib.map(Memory::of_stage))
}
