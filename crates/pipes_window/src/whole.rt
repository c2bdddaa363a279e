// The elements of a whole source.
ghost use Rattle.std.specs.Prelude.{◌≡◌, IfOk};
ghost use Rattle.pipes_window.specs.Items.{StampsRise};
ghost use Rattle.pipes_window.specs.Windows.{IsWindow, spans};

use crate::{Item, Window, WindowKind};
use pipes_stream::Elem;
use pipes_time::Memory;
use std::alloc::Global;

/// The elements of a source that has these items and then ends.
#[tactic(auto, unfolding(crate::specs::Windows::each_row))]
pub fn elements(alloc: Global, kind: WindowKind, items: Vec<Item>) -> Result<Vec<Elem>, Memory>
    requires limits { IsWindow kind }
    requires source { StampsRise items.items }
    ensures { IfOk result (λ out. out.items ≡ spans kind items.items) }
{
    let mut out = Vec::new(alloc);
    let Some(mut window) = Window::new(alloc, kind) else {
        return Ok(out);
    };
    'items: for item in items {
        match item {
            Item::Row(stamp, tuple) => window.take(stamp, tuple, &mut out)?,
            Item::Beat(stamp) => window.beat(stamp),
        }
    }
    window.finish(&mut out)?;
    Ok(out)
}
