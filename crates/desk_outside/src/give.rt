// What objects in memory give.
ghost use Rattle.std.specs.Prelude.{◌≡◌, ◌++◌, min, drop, take, length};

/// Copies bytes to the start of the room, at most so many, and answers how many.
pub fn give(left: &[u8], most: usize, room: &mut [u8]) -> usize
    ensures room { length room.new ≡ length room.old }
    ensures count { result ≡ min (min (length left.now) most) (length room.old) }
    ensures given { left.now ≡ take result room.new ++ drop result left.now }
{
    let count = left.len().min(most).min(room.len());
    room[..count].copy_from_slice(&left[..count]);
    count
}
