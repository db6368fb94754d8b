// Entries on standard input, as the tables of the tests have them: each stands behind two bytes of length, low byte first.
#![tactic(auto)]

ghost use Rattle.std.specs.Prelude.{◌≤◌, IfSome, length};

use scene::read::two;

// How long the next entry is, at the start of the buffer, as far as there is room; none where the input has ended. What is read no contract
// can say, only that it is within the buffer.
pub fn next(rt: &HostRuntime, buffer: &mut [u8]) -> Option<usize>
    ensures { IfSome result (λ len. len ≤ length buffer.new) }
{
    let mut bytes = [0u8; 2];
    if cli::read(&mut rt.stdin(), &mut bytes).count < 2 {
        return None;
    }
    let n = two(&bytes, 0).min(buffer.len());
    Some(cli::read(&mut rt.stdin(), &mut buffer[..n]).count)
}
