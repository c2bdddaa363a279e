// A piece of the answer of one key.
use pipes_stream::Elem;
use pipes_tuple::Key;

// From an instant on, the answer of a key is the same.
#[derive(Drop)]
pub enum Piece {
    // So far. Its key, and its start.
    Open(Key, u64),
    // Until the end of the element, which is sent as often as the number says.
    Closed(Elem, u64),
    // For no instant. Its start.
    Void(u64),
}
