//! Lists that go to C.
ghost use Rattle.std.specs.Prelude.{◌≡◌, ◌≤◌, ◌<◌, ◌+◌, ◌++◌, IfNone, IfSome, drop, length, map, take};
ghost use Rattle.scene_c.specs.Memory.{copied};

/// What C sees of an item.
pub(crate) trait ShownAs<T> {
    // What C sees of it.
    ghost shown: { Self → T };

    /// What C sees of it.
    fn shown(&self) -> T
        ensures { result ≡ shown self.now };
}

/// Writes the items of a list from a place on, as C sees them: as many as there is room for. The rest of the room stays
/// as it was.
pub(crate) fn fill<S: ShownAs<T>, T: Copy>(items: &[S], from: usize, room: &mut [T])
    ensures { room.new ≡ copied (drop from (map S.shown items.now)) room.old }
{
    let Some(rest) = items.get(from..) else {
        return;
    };
    for at in 0..rest.len().min(room.len()) {
        room[at] = rest[at].shown();
    }
}

/// Writes the items of a list from a place of the room on, where all fit, as C sees them, and gives where they end.
#[tactic(auto, using(crate::proofs::JoinedLaws::copied_whole))]
pub(crate) fn put<S: ShownAs<T>, T: Copy>(
    items: &[S],
    begins: usize,
    room: &mut [T],
) -> Option<usize>
    requires { begins ≤ length room.old }
    ensures none { IfNone result ((room.new ≡ room.old) × (length room.old < begins + length items.now)) }
    ensures some { IfSome result (λ ends. (ends ≡ begins + length items.now) × (ends ≤ length room.old)
        × (room.new ≡ take begins room.old ++ map S.shown items.now ++ drop ends room.old)) }
{
    if items.len() > room.len() - begins {
        return None;
    }
    let ends = begins + items.len();
    fill(items, 0, &mut room[begins..ends]);
    Some(ends)
}

/// The same of bytes.
pub(crate) fn put_bytes(bytes: &[u8], begins: usize, room: &mut [u8]) -> Option<usize>
    requires { begins ≤ length room.old }
    ensures none { IfNone result ((room.new ≡ room.old) × (length room.old < begins + length bytes.now)) }
    ensures some { IfSome result (λ ends. (ends ≡ begins + length bytes.now) × (ends ≤ length room.old)
        × (room.new ≡ take begins room.old ++ bytes.now ++ drop ends room.old)) }
{
    if bytes.len() > room.len() - begins {
        return None;
    }
    let ends = begins + bytes.len();
    room[begins..ends].copy_from_slice(bytes);
    Some(ends)
}
