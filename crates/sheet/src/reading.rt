//! Reading a sheet into a graph and a table of prices.

ghost use Rattle.std.specs.Prelude.{◌≡◌, ◌≤◌, ◌++◌, map, length, drop, Ok};
ghost use Rattle.graph.specs.Graphs.{plain};
ghost use Rattle.sheet_format.specs.Layout.{Contents};
ghost use Rattle.sheet_format.specs.Reading.{read_of, taken_in};
ghost use Rattle.sheet.specs.Readings.{Made, Pictures, Reads, ReadsInWords, Took, graph_after, prices_after, read_answer};
ghost use Rattle.sheet.specs.Records.{entry_told};

use crate::filed_price::FiledPrice;
use crate::reader::Reader;
use crate::record::{Entry, Record};
use crate::stages::Stages;
use graph::fault::{Cause, Fault, Layer, Site};
use graph::graph::Graph;

/// Takes a record into the graph, or refuses it at the place of its tag byte.
fn take_in(graph: &mut Graph, found: Record) -> Result<(), Fault>
    ensures { (c : Contents) → Pictures graph.old c → Took (taken_in c (entry_told found.entry.entry) found.entry.place) result graph.new }
{
    let site = Site::Record(found.place);
    match found.entry {
        Entry::Stage(..) => graph.add_stage(site),
        Entry::Link(from, to) => graph.link(from, to, site),
        Entry::Live(stage) => graph.mark_live(stage, site),
    }
}

/// The graph of a sheet.
fn graph_of<P: FiledPrice>(sheet: &[u8]) -> Result<Graph, Fault>
    ensures { Made (read_of P.filing.code P.filing.width sheet.now) result }
{
    let mut reader = Reader::open::<P>(sheet)?;
    let mut graph = Graph::empty();
    while let Some(record) = reader.next()? {
        take_in(&mut graph, record)?;
    }
    Ok(graph)
}

/// Sets the first prices from the price fields of a sheet that reads, where there is room for each.
fn set_prices<P: FiledPrice>(sheet: &[u8], prices: &mut [P]) -> Result<(), Fault>
    ensures { (c : Contents) → Reads P.filing sheet.now c → length c.fields ≤ length prices.old → (result ≡ Ok tt) × (prices.new ≡ map P.filing.price_of c.fields ++ drop (length c.fields) prices.old) }
{
    let stages = Stages::open::<P>(sheet)?;
    for (n, stage) in stages.enumerate() {
        if n < prices.len() {
            prices[n] = P::of_field(stage.field);
        }
    }
    Ok(())
}

/// Reads a sheet: sets the graph and the first prices, one for each stage. A refused sheet leaves both as they were.
pub fn read<P: FiledPrice>(sheet: &[u8], graph: &mut Graph, prices: &mut [P]) -> Result<(), Fault>
    ensures answer { result ≡ read_answer P.filing sheet.now (length prices.old) }
    ensures graph { plain graph.new ≡ graph_after P.filing sheet.now (length prices.old) (plain graph.old) }
    ensures prices { prices.new ≡ prices_after P.filing sheet.now prices.old }
    ensures in_words { ReadsInWords P.filing sheet.now result (plain graph.old) (plain graph.new) prices.old prices.new }
{
    let made = graph_of::<P>(sheet)?;
    if prices.len() < made.stage_count() as usize {
        return Err(Fault::new(Cause::TablesTooSmall, Layer::Call, 0));
    }
    set_prices(sheet, prices)?;
    *graph = made;
    Ok(())
}
