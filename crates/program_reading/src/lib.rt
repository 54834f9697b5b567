// How the programs read: standard input, as far as it comes or they have room.
#![tactic(auto)]

ghost use Rattle.std.specs.Prelude.{◌≡◌, ◌≤◌, length, take, IfOk, IfSome};

use std::io;
use std::io::Read;

// What comes until the input ends or the room is full.
pub fn read<R: Read + Drop>(mut input: R, room: &mut [u8]) -> io::Result<&[u8]>
    ensures fits { IfOk result (λ bytes. length bytes.now ≤ length room.old) }
    ensures first { IfOk result (λ bytes. IfSome (R.remaining input) (λ all. bytes.now ≡ take (length room.old) all)) }
{
    let mut n = 0;
    while n < room.len() {
        let more = input.read(&mut room[n..])?;
        if more == 0 {
            break;
        }
        n += more;
    }
    Ok(&room[..n])
}
