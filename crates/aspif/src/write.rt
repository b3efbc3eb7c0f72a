// Write-out: the stored text, which is the text of the load less its comment lines, at the front of a lent buffer.
ghost use Rattle.std.specs.Prelude.{◌≡◌, length};
ghost use Rattle.aspif.specs.Write.{written_of, buffer_of};

// Refusal 8: the lent bytes are too short, and this is the length that is needed.
#[derive(Clone, Copy, PartialEq, Eq, Debug)]
pub struct Short {
    pub needed: usize,
}

// A text: how many bytes were written.
#[tactic(auto, using(crate::proofs::Writes::write_short, crate::proofs::Writes::write_done))]
pub fn write(text: &[u8], buffer: &mut [u8]) -> Result<usize, Short>
    ensures { (result ≡ written_of (length text.now) (length buffer.old)) × (buffer.new ≡ buffer_of text.now buffer.old) }
{
    let needed = text.len();
    if buffer.len() < needed {
        return Err(Short { needed });
    }
    buffer[..needed].copy_from_slice(text);
    Ok(needed)
}
