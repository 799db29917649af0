//! What an accepted certificate shows.
ghost use Rattle.certificate.specs.Laws.{AcceptedIsSo};

/// Whatever the bytes are and whoever wrote them: where they are accepted as consistent, one product makes every must and
/// every requirement true; as background, no product makes every must true; and as explained, what is named as kept is the
/// preferred relaxation, and what is named as conflict the preferred conflict of all requirements (Junker 2004), for 'some
/// product makes the musts and these requirements true'.
pub fn accepted_is_so()
    ensures { AcceptedIsSo }
{}
