//! Cutting bytes at the first of some kind.
ghost use Rattle.std.specs.Prelude.{◌≡◌, ◌<◌, ◌==◌, ◌∷◌, length, position, option_map, IfSome};
ghost use Rattle.std.specs.List.{slice_split};
ghost use Rattle.certificate.specs.inside.Pieces.{pieces_of};

/// Where the first such byte stands.
fn first_at(bytes: &[u8], at: u8) -> Option<usize>
    ensures { result ≡ position (λ byte. byte == at) bytes.now }
{
    bytes.iter().position(|byte| *byte == at)
}

/// What stands before the first such byte, and what stands behind it, if there is one.
pub(crate) fn cut(bytes: &[u8], at: u8) -> (&[u8], Option<&[u8]>)
    ensures pieces { slice_split (λ byte. byte == at) bytes.now ≡ result.0.now ∷ pieces_of at (option_map (λ behind. behind.now) result.1) }
    ensures shorter { IfSome result.1 (λ behind. length behind.now < length bytes.now) }
{
    match first_at(bytes, at) {
        Some(place) => (&bytes[..place], Some(&bytes[place + 1..])),
        None => (bytes, None),
    }
}
