//! The names of held stages, as lines.

ghost use Rattle.std.specs.Prelude.{◌≡◌, ◌++◌, Ok, OnOk};
ghost use Rattle.graph.specs.StageSets.{stages};
ghost use Rattle.sheet_format.specs.Layout.{Contents};
ghost use Rattle.sheet.specs.Readings.{Reads};
ghost use Rattle.report.specs.Lines.{hold_line, hold_lines};

use graph::stage_set::StageSet;
use sheet::filed_price::FiledPrice;
use sheet::stages::Stages;
use std::alloc::AllocError;

/// Adds the line of a held stage.
fn push_hold(text: &mut Vec<u8>, s: usize, name: &[u8]) -> Result<(), AllocError>
    ensures { OnOk result (text.new.items ≡ text.old.items ++ hold_line s name.now) }
{
    let start = format!(in *text.allocator(); "hold {s} ")?;
    text.extend_from_slice(start.as_bytes())?;
    text.extend_from_slice(name)?;
    text.extend_from_slice(b"\n")?;
    Ok(())
}

/// Adds a line for each stage of a sheet that is in the set, rising, with its name.
pub(crate) fn push_holds<P: FiledPrice>(
    text: &mut Vec<u8>,
    sheet: &[u8],
    held: StageSet,
) -> Result<(), AllocError>
    ensures { OnOk result ((c : Contents) → Reads P.filing sheet.now c → text.new.items ≡ text.old.items ++ hold_lines (stages held) 0 c.names) }
{
    let Ok(stages) = Stages::open::<P>(sheet) else {
        return Ok(());
    };
    for (s, stage) in stages.enumerate() {
        if held.has_index(s) {
            push_hold(text, s, stage.name.bytes)?;
        }
    }
    Ok(())
}
