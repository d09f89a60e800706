// What the programs do with the buffer of their input.
#![tactic(auto)]

ghost use Rattle.buffers.specs.Moves.{MovedDown};

// Moves the bytes from place `from` up to `to`, or to the buffer's end, to the buffer's start, and gives how many they are.
// The bytes after them stay.
// Example: `move_down(&mut buffer, 2, 5)` makes "cdedef" of a buffer that is "abcdef", and gives 3.
pub fn move_down(buffer: &mut [u8], from: usize, to: usize) -> usize
    ensures { MovedDown buffer.old from to result buffer.new }
{
    let end = to.min(buffer.len());
    for i in from..end {
        buffer[i - from] = buffer[i];
    }
    end.saturating_sub(from)
}
