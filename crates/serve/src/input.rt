// Standard input: lines, and the bytes of a text.
use std::io;
use std::io::Read;

// The next byte; none at the end.
fn next_byte(input: &mut impl Read) -> io::Result<Option<u8>> {
    // Kept: an array, since no program allocates.
    let mut one = [0u8; 1];
    let n = inputs::fill(input, &mut one)?;
    Ok((n == 1).then_some(one[0]))
}

// How many bytes the next line has without its byte 10; at the front of the lent bytes are those that there is room for. None at the end of the input, where a line
// without its byte 10 counts, unless it is empty.
// Kept: the length of a line that is too long, which the caller compares once: a third kind of answer would be no plainer.
pub fn read_line(input: &mut impl Read, bytes: &mut [u8]) -> io::Result<Option<usize>> {
    for k in 0..usize::MAX {
        let Some(b) = next_byte(input)? else {
            return Ok((0 < k).then_some(k));
        };
        if b == b'\n' {
            return Ok(Some(k));
        }
        if k < bytes.len() {
            bytes[k] = b;
        }
    }
    Ok(None)
}

// So many bytes are read and passed over.
pub fn skip(input: &mut impl Read, n: u32) -> io::Result<()> {
    io::copy(&mut input.take(u64::from(n)), &mut io::sink())?;
    Ok(())
}
