//! The text of a sheet: its refusal, or what is known before any case is taken.

ghost use Rattle.std.specs.Prelude.{◌≡◌, ◌≤◌, map, length, take, IfOk, Ok, string_bytes};
ghost use Rattle.graph.specs.Graphs.{plain};
ghost use Rattle.sheet_format.specs.Layout.{Contents};
ghost use Rattle.sheet.specs.Readings.{Reads};
ghost use Rattle.report.specs.Lines.{head_lines};
ghost use Rattle.report.specs.Texts.{holds_text, plan_text, sheet_text};

use crate::names::push_holds;
use graph::graph::Graph;
use price::cost::cost;
use price::count::Count;
use price::memory::Memory;
use sheet::figures::Figures;
use sheet::filed_price::FiledPrice;
use sheet::kind::Kind;
use sheet::reading::read;
use std::alloc::{AllocError, Global};

/// The lines before those of the holds: the floor, the ceiling, and no case taken.
fn head(heap: Global, low: Figures, high: Figures) -> Result<String, AllocError>
    ensures { IfOk result (λ t. string_bytes t ≡ head_lines low high) }
{
    format!(in heap; "low {low}\nhigh {high}\ncases 0\n")
}

/// The text of a sheet that was read as this graph, with the prices of its stages first in the table.
fn plan<P: FiledPrice>(
    heap: Global,
    sheet: &[u8],
    graph: &Graph,
    prices: &[P],
) -> Result<Vec<u8>, AllocError>
    requires { graph.now.n ≤ length prices.now }
    ensures { IfOk result (λ t. (c : Contents) → Reads P.filing sheet.now c → plain graph.now ≡ c.graph → take c.graph.n prices.now ≡ map P.filing.price_of c.fields → t.items ≡ plan_text P.Price.kind P.filing c) }
{
    let held = graph.not_live();
    let n = graph.stage_count() as usize;
    let low = P::nothing().figures();
    let high = cost(&prices[..n], held).figures();
    let mut text = head(heap, low, high)?.into_bytes();
    push_holds::<P>(&mut text, sheet, held)?;
    Ok(text)
}

/// The text of a sheet of the price kind `P`, read with this table of prices.
fn sheet_report<P: FiledPrice>(
    heap: Global,
    sheet: &[u8],
    prices: &mut [P],
) -> Result<Vec<u8>, AllocError>
    ensures { IfOk result (λ t. t.items ≡ sheet_text P.Price.kind P.filing sheet.now (length prices.old)) }
{
    let mut graph = Graph::empty();
    match read(sheet, &mut graph, prices) {
        Ok(()) => plan(heap, sheet, &graph, prices),
        Err(fault) => Ok(format!(in heap; "{fault}\n")?.into_bytes()),
    }
}

/// What `holds` prints of a sheet: as Memory if byte 3 is 1, and else as Count.
pub fn report(heap: Global, sheet: &[u8]) -> Result<Vec<u8>, AllocError>
    ensures { IfOk result (λ t. t.items ≡ holds_text sheet.now) }
{
    match Kind::of_sheet(sheet) {
        Kind::Count => sheet_report(heap, sheet, &mut [Count::of_stage(); 64]),
        Kind::Memory => sheet_report(heap, sheet, &mut [Memory::of_stage(0); 64]),
    }
}
