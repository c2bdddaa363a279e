// An element in two parts.
ghost use Rattle.std.specs.Prelude.{IfOk};
ghost use Rattle.pipes_split.specs.Cutting.{IsCut};

use pipes_stream::Elem;
use pipes_time::Memory;

/// The part of an element before the split, and the part from the split on. Each is there exactly
/// where it isn't empty.
pub fn cut(elem: Elem, split: u64) -> Result<(Option<Elem>, Option<Elem>), Memory>
    ensures { IfOk result (λ parts. IsCut elem split parts.0 parts.1) }
{
    match (elem.span.below(split), elem.span.above(split)) {
        (None, _) => Ok((None, Some(elem))),
        (Some(_), None) => Ok((Some(elem), None)),
        (Some(below), Some(above)) => {
            let copy = elem.tuple.copy()?;
            let before = Elem {
                tuple: copy,
                span: below,
            };
            let from = Elem {
                tuple: elem.tuple,
                span: above,
            };
            Ok((Some(before), Some(from)))
        }
    }
}
