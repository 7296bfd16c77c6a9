// The parts of a request, from standard input.
ghost use Rattle.std.specs.Prelude.{◌≤◌, length, IfOk, IfSome};

use std::io;
use std::io::Read;

// Reads the next part, of so many bytes; none where the input ends before all of it came. Its first bytes are laid into `space`, as many as
// it holds, and the others are passed over.
pub fn read_part<'a>(
    input: &mut impl Read,
    many: usize,
    space: &'a mut [u8],
) -> io::Result<Option<&'a [u8]>>
    ensures within { IfOk result (λ part. IfSome part (λ laid. length laid.now ≤ many)) }
    ensures counts { IfOk result (λ part. IfSome part (λ laid. length laid.now ≤ length space.old)) }
{
    let kept = many.min(space.len());
    let laid = full_read::read_full(input, &mut space[..kept])?;
    let left = (many - laid) as u64;
    let passed = io::copy(&mut input.by_ref().take(left), &mut io::sink())?;
    Ok((passed == left).then_some(&space[..laid]))
}
