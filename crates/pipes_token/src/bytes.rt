// Bytes.
ghost use Rattle.std.specs.Prelude.{◌≡◌, ◌<◌, MatchOption, IfSome, [], ◌∷◌, length};

// The first byte, and the bytes after it.
pub(crate) fn first(bytes: &[u8]) -> Option<(u8, &[u8])>
    ensures parts { MatchOption result (bytes.now ≡ []) (λ x. bytes.now ≡ x.0 ∷ x.1.now) }
    ensures shorter { IfSome result (λ x. length x.1.now < length bytes.now) }
{
    match bytes {
        [] => None,
        [byte, later @ ..] => Some((*byte, later)),
    }
}
