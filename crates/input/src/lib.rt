// What the programs read: an input put into a buffer that the caller lends.
#![tactic(auto)]

ghost use Rattle.std.specs.Prelude.{◌≤◌, length};

use std::io::Read;

// Reads until the buffer is full or the input ends, and answers what was read, which stands at its front. A read that fails
// counts as the end of the input.
pub fn read_full<'a, R: Read>(from: &mut R, space: &'a mut [u8]) -> &'a [u8]
    ensures { length result.now ≤ length space.old }
{
    let mut done = 0;
    // no `for`: how much a read gives, only the read tells
    while done < space.len() {
        match from.read(&mut space[done..]) {
            Ok(0) | Err(_) => break,
            Ok(n) => done += n,
        }
    }
    &space[..done]
}
