// What comes to the top, on its way out.
ghost use Rattle.std.specs.Prelude.{◌≡◌, ◌≤◌, ◌++◌, ◌∷◌, [], List, ℕ, Option, OnOk, OnErr, IsErrOf};
ghost use Rattle.pipes_edge.specs.Causes.{Rose};
ghost use Rattle.pipes_stream.specs.declared.Elem.{Elem};
ghost use Rattle.pipes_stream.specs.Lists.{elements};
ghost use Rattle.pipes_results.specs.Kept.{Keeps, StopsEarly, form_of};
ghost use Rattle.pipes_inline.specs.Standing.{StopsWithin};

use pipes_buffer::IoFault;
use pipes_edge::Sink;
use pipes_results::Results;
use pipes_stream::Message;

// An element is a result; heartbeats and the end aren't written.
fn send_one<K: Sink>(results: &mut Results, message: Message, out: &mut K) -> Result<(), IoFault>
    ensures form { form_of results.new ≡ form_of results.old }
    ensures ok { OnOk result ((init : Option (List ℕ)) (elems : List Elem)
        → Keeps init (K.written out.old) results.old elems → Keeps init (K.written out.new)
        results.new (elems ++ elements (message ∷ []))) }
    ensures err { OnErr result ((init : Option (List ℕ)) (elems : List Elem)
        → Keeps init (K.written out.old) results.old elems → StopsEarly init (K.written out.new)
        (form_of results.old) (elems ++ elements (message ∷ []))) }
    ensures later { K.faults out.old ≤ K.faults out.new }
    ensures cause { IsErrOf result IoFault.Failed → Rose (K.faults out.old) (K.faults out.new) }
{
    match message {
        Message::Elem(elem) => results.put(out, elem),
        Message::Beat(_) => Ok(()),
        Message::End => Ok(()),
    }
}

/// Each element is a result.
pub(crate) fn send_all<K: Sink>(
    results: &mut Results,
    top: Vec<Message>,
    out: &mut K,
) -> Result<(), IoFault>
    ensures form { form_of results.new ≡ form_of results.old }
    ensures ok { OnOk result ((init : Option (List ℕ)) (elems : List Elem)
        → Keeps init (K.written out.old) results.old elems → Keeps init (K.written out.new)
        results.new (elems ++ elements top.items)) }
    ensures err { OnErr result ((init : Option (List ℕ)) (elems : List Elem)
        → Keeps init (K.written out.old) results.old elems → StopsWithin init (K.written out.new)
        (form_of results.old) elems (elements top.items)) }
    ensures later { K.faults out.old ≤ K.faults out.new }
    ensures cause { IsErrOf result IoFault.Failed → Rose (K.faults out.old) (K.faults out.new) }
{
    'top: for message in top {
        send_one(results, message, out)?;
    }
    Ok(())
}
